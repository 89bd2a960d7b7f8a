// The parts of a statement. Each kind of token has a match of its own: a shared one would be handed the same match as a closure.
ghost use Rattle.std.specs.Option.{option_map};
ghost use Rattle.std.specs.Prelude.{◌≡◌, map};
ghost use Rattle.page_tokens.specs.Symbols.{symbol_of};
ghost use Rattle.page_text.specs.Grammar.{rest, Reads, ReadsBy, register, register_or, registers, in_range, number, address, name, sign, letters};

use crate::register::Register;
use crate::statement::Operand;
use page_tokens::{Name, Token, Tokens};
use refusal::Cause;

// A name, of whatever it is.
pub(crate) fn name(tokens: &mut Tokens<'_>) -> Result<Name, Cause>
    ensures { Reads (name (rest tokens.old)) result tokens.new }
{
    match tokens.next() {
        Some(Token::Word(name)) => Ok(name),
        _ => Err(Cause::Malformed),
    }
}

pub(crate) fn register(tokens: &mut Tokens<'_>) -> Result<Register, Cause>
    ensures { ReadsBy (λ x. x.number) (register (rest tokens.old)) result tokens.new }
{
    Register::try_from(&name(tokens)?)
}

// A register, or none where the name of another stands in its place.
pub(crate) fn register_or(tokens: &mut Tokens<'_>, other: &Name) -> Result<Option<Register>, Cause>
    ensures { ReadsBy (option_map (λ x. x.number)) (register_or other.now (rest tokens.old)) result tokens.new }
{
    let name = name(tokens)?;
    if name == *other {
        return Ok(None);
    }
    Ok(Some(Register::try_from(&name)?))
}

fn in_range(value: u32) -> Result<u16, Cause>
    ensures { result ≡ in_range value }
{
    u16::try_from(value).map_err(|_| Cause::OutOfRange)
}

// A number of the grammar, which is one of 16 bits.
pub(crate) fn number(tokens: &mut Tokens<'_>) -> Result<u16, Cause>
    ensures { Reads (number (rest tokens.old)) result tokens.new }
{
    match tokens.next() {
        Some(Token::Number(value)) => in_range(value),
        _ => Err(Cause::Malformed),
    }
}

// The second word of an instruction: one arm for each kind of token.
pub(crate) fn address(tokens: &mut Tokens<'_>) -> Result<Operand, Cause>
    ensures { Reads (address (rest tokens.old)) result tokens.new }
{
    match tokens.next() {
        Some(Token::Word(name)) => Ok(Operand::Label(name)),
        Some(Token::Number(value)) => Ok(Operand::Number(in_range(value)?)),
        _ => Err(Cause::Malformed),
    }
}

// The letters of a quoted part.
pub(crate) fn letters<'a>(tokens: &mut Tokens<'a>) -> Result<&'a [u8], Cause>
    ensures { ReadsBy (λ x. x.now) (letters (rest tokens.old)) result tokens.new }
{
    match tokens.next() {
        Some(Token::Quoted(letters)) => Ok(letters),
        _ => Err(Cause::Malformed),
    }
}

// A sign that has to stand here.
pub(crate) fn expect(tokens: &mut Tokens<'_>, token: Token<'_>) -> Result<(), Cause>
    ensures { Reads (sign (symbol_of token.entry) (rest tokens.old)) result tokens.new }
{
    if tokens.next() != Some(token) {
        return Err(Cause::Malformed);
    }
    Ok(())
}

// N registers, with commas between them. A loop, since nothing is known of tokens that a closure has read on.
pub(crate) fn registers<const N: usize>(tokens: &mut Tokens<'_>) -> Result<[Register; N], Cause>
    ensures { ReadsBy (map (λ x. x.number)) (registers N (rest tokens.old)) result tokens.new }
{
    let mut registers = [Register::R0; N];
    for (i, place) in registers.iter_mut().enumerate() {
        if i > 0 {
            expect(tokens, Token::Comma)?;
        }
        *place = register(tokens)?;
    }
    Ok(registers)
}
