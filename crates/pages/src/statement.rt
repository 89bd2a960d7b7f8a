// The words of a statement.
ghost use Rattle.std.specs.Prelude.{◌≡◌, take, OnErr};
ghost use Rattle.page_text.specs.Sayings.{saying_of};
ghost use Rattle.shelf.specs.SliceVecs.{items, NowHolds};
ghost use Rattle.pages.specs.Labels.{find_label};
ghost use Rattle.pages.specs.Page.{size_of};
ghost use Rattle.pages.specs.Program.{first_word, second_word, with_fixed, with_saying};
ghost use Rattle.pages.specs.Room.{HasRoom};
ghost use Rattle.pages.specs.Puts.{Puts};

use crate::label::Scope;
use crate::put::{put, put_text, put_two, put_zeros};
use icmc_words::Instruction;
use page_text::{Operand, Statement};
use page_tokens::Name;
use refusal::Cause;
use shelf::slice_vec::SliceVec;

// What a line says can always be encoded, which its type does not say.
fn first_word(instruction: Instruction) -> u16
    ensures { result ≡ first_word instruction }
{
    instruction.encode().unwrap_or(0)
}

fn second_word(scope: Scope<'_>, operand: Operand) -> Result<u16, Cause>
    ensures { result ≡ second_word scope.entry.labels.now operand }
{
    match operand {
        Operand::Number(number) => Ok(number),
        Operand::Label(name) => Ok(scope.find(&name).ok_or(Cause::UnknownName)?.address),
    }
}

// Sets a word of a variable.
fn fix(
    scope: Scope<'_>,
    program: &mut SliceVec<'_, u16>,
    name: &Name,
    index: u16,
    value: u16,
) -> Result<(), Cause>
    ensures fixed { Puts program.old program.new 0 (with_fixed (find_label (take scope.entry.above scope.entry.labels.now) name.now)
        (find_label scope.entry.labels.now name.now) index value (items program.old)) result }
    ensures kept { OnErr result (NowHolds program.old program.new (items program.old)) }
{
    match scope.find_above(name) {
        Some(label) if index < label.room => {
            // always an old word, which nobody asks for: a variable above lies in the words so far
            let _ = program.replace(usize::from(label.address) + usize::from(index), value);
            Ok(())
        }
        None if scope.find(name).is_none() => Err(Cause::UnknownName),
        _ => Err(Cause::OutsideVariable),
    }
}

// Puts the words of a statement.
pub(crate) fn put_statement(
    statement: Statement<'_>,
    scope: Scope<'_>,
    program: &mut SliceVec<'_, u16>,
) -> Result<(), Cause>
    requires { HasRoom (size_of (saying_of statement)) program.old }
    ensures { Puts program.old program.new (size_of (saying_of statement.entry)) (with_saying scope.entry.labels.now scope.entry.above
        (items program.old) (saying_of statement.entry)) result }
{
    match statement {
        Statement::Empty => Ok(()),
        Statement::OneWord(instruction) => {
            put(program, first_word(instruction));
            Ok(())
        }
        Statement::TwoWords(instruction, operand) => {
            let second = second_word(scope, operand)?;
            put_two(program, first_word(instruction), second);
            Ok(())
        }
        Statement::Var(count) => {
            put_zeros(program, count);
            Ok(())
        }
        Statement::Text(quoted) => {
            put_text(program, quoted);
            Ok(())
        }
        Statement::Static(name, index, value) => fix(scope, program, &name, index, value),
    }
}
