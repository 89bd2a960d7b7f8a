// Statements read by their forms.
ghost use Rattle.std.specs.Prelude.{◌≡◌, Some};
ghost use Rattle.page_text.specs.declared.form.Form.TheVariants.{Stack, Mov, Shift, Load, Store, Jump, Call, Var, Text, Static};
ghost use Rattle.page_text.specs.Grammar.{rest, then, address};
ghost use Rattle.page_text.specs.Sayings.{said, saying_of, ended, one_word, two_words, mov_to, operands};

use crate::encodable::Encodable;
use crate::form::{Form, Loads, OnStack};
use crate::operand::{address, expect, letters, name, number, register, register_or, registers};
use crate::register::Register;
use crate::statement::{Operand, Statement};
use crate::table::{FR, SP};
use icmc_words::{Instruction, ShiftKind};
use page_tokens::{Token, Tokens};
use refusal::Cause;

// A statement that ends its line here.
fn end<'a>(tokens: &mut Tokens<'_>, statement: Statement<'a>) -> Result<Statement<'a>, Cause>
    ensures { said result ≡ ended (saying_of statement.entry) (rest tokens.old) }
{
    if tokens.next().is_some() {
        return Err(Cause::Malformed);
    }
    Ok(statement)
}

// An instruction of one word that ends its line here.
fn one_word<'a>(tokens: &mut Tokens<'_>, encodable: Encodable) -> Result<Statement<'a>, Cause>
    ensures { said result ≡ one_word encodable.instruction (rest tokens.old) }
{
    end(tokens, Statement::OneWord(encodable.instruction))
}

// An instruction of two words that ends its line here.
fn two_words<'a>(
    tokens: &mut Tokens<'_>,
    encodable: Encodable,
    operand: Operand,
) -> Result<Statement<'a>, Cause>
    ensures { said result ≡ two_words encodable.instruction operand (rest tokens.old) }
{
    end(tokens, Statement::TwoWords(encodable.instruction, operand))
}

fn read_shift<'a>(tokens: &mut Tokens<'_>, kind: ShiftKind) -> Result<Statement<'a>, Cause>
    ensures { said result ≡ operands (Shift kind) (rest tokens.old) }
{
    let x = register(tokens)?;
    expect(tokens, Token::Comma)?;
    let n = number(tokens)?;
    if n > 15 {
        return Err(Cause::OutOfRange);
    }
    let instruction = Instruction::Shift(kind, x.number, n as u8);
    one_word(tokens, Encodable { instruction })
}

fn read_on_stack<'a>(tokens: &mut Tokens<'_>, form: OnStack) -> Result<Statement<'a>, Cause>
    ensures { said result ≡ operands (Stack form) (rest tokens.old) }
{
    let x = register_or(tokens, &FR)?;
    one_word(tokens, form.instruction(x))
}

// To a register: another, or sp.
fn read_source<'a>(tokens: &mut Tokens<'_>, x: Register) -> Result<Statement<'a>, Cause>
    ensures { said result ≡ mov_to (Some x.number) (rest tokens.old) }
{
    let instruction = match register_or(tokens, &SP)? {
        Some(y) => Instruction::Mov(x.number, y.number),
        None => Instruction::MovFromSp(x.number),
    };
    one_word(tokens, Encodable { instruction })
}

fn read_mov<'a>(tokens: &mut Tokens<'_>) -> Result<Statement<'a>, Cause>
    ensures { said result ≡ operands Mov (rest tokens.old) }
{
    let target = register_or(tokens, &SP)?;
    expect(tokens, Token::Comma)?;
    match target {
        Some(x) => read_source(tokens, x),
        None => {
            let x = register(tokens)?;
            let instruction = Instruction::MovToSp(x.number);
            one_word(tokens, Encodable { instruction })
        }
    }
}

fn read_load<'a>(tokens: &mut Tokens<'_>, form: Loads) -> Result<Statement<'a>, Cause>
    ensures { said result ≡ operands (Load form) (rest tokens.old) }
{
    let x = register(tokens)?;
    expect(tokens, Token::Comma)?;
    let operand = address(tokens)?;
    two_words(tokens, form.instruction(x), operand)
}

fn read_store<'a>(tokens: &mut Tokens<'_>) -> Result<Statement<'a>, Cause>
    ensures { said result ≡ operands Store (rest tokens.old) }
{
    let operand = address(tokens)?;
    expect(tokens, Token::Comma)?;
    let x = register(tokens)?;
    let instruction = Instruction::Store(x.number);
    two_words(tokens, Encodable { instruction }, operand)
}

// A jump or a call, which has no operand but its address.
fn read_branch<'a>(tokens: &mut Tokens<'_>, instruction: Encodable) -> Result<Statement<'a>, Cause>
    ensures { said result ≡ then (address (rest tokens.old)) (λ a ss. two_words instruction.instruction a ss) }
{
    let operand = address(tokens)?;
    two_words(tokens, instruction, operand)
}

fn read_var<'a>(tokens: &mut Tokens<'_>) -> Result<Statement<'a>, Cause>
    ensures { said result ≡ operands Var (rest tokens.old) }
{
    let size = number(tokens)?;
    if size == 0 {
        return Err(Cause::OutOfRange);
    }
    end(tokens, Statement::Var(size))
}

fn read_text<'a>(tokens: &mut Tokens<'a>) -> Result<Statement<'a>, Cause>
    ensures { said result ≡ operands Text (rest tokens.old) }
{
    let letters = letters(tokens)?;
    end(tokens, Statement::Text(letters))
}

fn read_static<'a>(tokens: &mut Tokens<'_>) -> Result<Statement<'a>, Cause>
    ensures { said result ≡ operands Static (rest tokens.old) }
{
    let name = name(tokens)?;
    expect(tokens, Token::Plus)?;
    let index = number(tokens)?;
    expect(tokens, Token::Comma)?;
    let value = number(tokens)?;
    end(tokens, Statement::Static(name, index, value))
}

// The operands of a form: one arm for each rule of the grammar.
pub(crate) fn read_operands<'a>(tokens: &mut Tokens<'a>, form: Form) -> Result<Statement<'a>, Cause>
    ensures { said result ≡ operands form (rest tokens.old) }
{
    match form {
        Form::Alone(form) => one_word(tokens, form.instruction()),
        Form::One(form) => {
            let x = register(tokens)?;
            one_word(tokens, form.instruction(x))
        }
        Form::Two(form) => {
            let [x, y] = registers::<2>(tokens)?;
            one_word(tokens, form.instruction(x, y))
        }
        Form::Three(form) => {
            let [x, y, z] = registers::<3>(tokens)?;
            one_word(tokens, form.instruction(x, y, z))
        }
        Form::Stack(form) => read_on_stack(tokens, form),
        Form::Mov => read_mov(tokens),
        Form::Shift(kind) => read_shift(tokens, kind),
        Form::Load(form) => read_load(tokens, form),
        Form::Store => read_store(tokens),
        Form::Jump(condition) => {
            let instruction = Instruction::Jump(condition);
            read_branch(tokens, Encodable { instruction })
        }
        Form::Call(condition) => {
            let instruction = Instruction::Call(condition);
            read_branch(tokens, Encodable { instruction })
        }
        Form::Var => read_var(tokens),
        Form::Text => read_text(tokens),
        Form::Static => read_static(tokens),
    }
}
