// A whole line.
ghost use Rattle.std.specs.Prelude.{◌≡◌};
ghost use Rattle.page_tokens.specs.Symbols.{symbols};
ghost use Rattle.page_text.specs.Grammar.{rest};
ghost use Rattle.page_text.specs.Sayings.{said, statement, line_read, reading_of, reading};

use crate::read::read_operands;
use crate::statement::Statement;
use crate::table::form_named;
use page_tokens::{Name, Token, Tokens};
use refusal::Cause;

// The name that a line has, and what it says.
#[derive(Clone, Copy, Debug, PartialEq, Eq)]
pub struct Line<'a> {
    pub name: Option<Name>,
    pub statement: Result<Statement<'a>, Cause>,
}

// The statement that the tokens say.
fn read_statement<'a>(tokens: &mut Tokens<'a>) -> Result<Statement<'a>, Cause>
    ensures { said result ≡ statement (rest tokens.old) }
{
    match tokens.next() {
        None => Ok(Statement::Empty),
        Some(Token::Word(name)) => {
            let form = form_named(&name).ok_or(Cause::UnknownStatement)?;
            read_operands(tokens, form)
        }
        Some(_) => Err(Cause::Malformed),
    }
}

// What a line says.
#[tactic(auto, unfolding(crate::specs::Sayings::line_read))]
pub fn read_line(line: &[u8]) -> Line<'_>
    ensures { reading_of result ≡ line_read line.now }
{
    let mut tokens = Tokens::of(line);
    let name = tokens.label();
    let statement = read_statement(&mut tokens);
    Line { name, statement }
}
