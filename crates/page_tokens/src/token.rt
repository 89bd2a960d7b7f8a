// The tokens of a line.
ghost use Rattle.std.specs.Prelude.{◌≡◌, ◌≤◌, [], length, Some, MatchOption};
ghost use Rattle.std.specs.Iterator.{YieldsFirstBy, item_count};
ghost use Rattle.page_tokens.specs.Symbols.{decimal, symbol_of, piece_of, front_of, spoiled, number_piece, quoted_piece, word_piece, front_piece, first_token, symbols};

use crate::class::{Class, split_front};
use crate::name::Name;

#[derive(Clone, Copy, Debug, PartialEq, Eq)]
pub enum Token<'a> {
    Word(Name),
    // of up to five digits
    Number(u32),
    Colon,
    Comma,
    Plus,
    // the letters between two quotes
    Quoted(&'a [u8]),
    // what is no token: a symbol of the rules, and no error until a reader comes to it
    Malformed,
}

// A malformed token takes all that is left.
fn malformed<'a>() -> (Token<'a>, &'a [u8])
    ensures { piece_of result ≡ spoiled }
{
    (Token::Malformed, &[])
}

// The value of up to five digits. A loop and no fold, whose closure would not know how large the value so far can be.
fn value(digits: &[u8]) -> u32
    requires { length digits.now ≤ 5 }
    ensures { result ≡ decimal 0 digits.now }
{
    let mut value = 0;
    for digit in digits {
        value = value * 10 + u32::from(digit.saturating_sub(b'0'));
    }
    value
}

// The number after `#`, and what follows it.
fn read_number(tail: &[u8]) -> (Token<'_>, &[u8])
    ensures { piece_of result ≡ number_piece tail.now }
{
    let (digits, rest) = split_front(tail, Class::Digit);
    if digits.is_empty() || digits.len() > 5 {
        return malformed();
    }
    (Token::Number(value(digits)), rest)
}

// The letters after a quote up to another, and what follows it.
fn read_quoted(tail: &[u8]) -> (Token<'_>, &[u8])
    ensures { piece_of result ≡ quoted_piece tail.now }
{
    let (letters, rest) = split_front(tail, Class::Letter);
    match rest.split_first() {
        Some((b'"', rest)) => (Token::Quoted(letters), rest),
        _ => malformed(),
    }
}

fn read_word(bytes: &[u8]) -> (Token<'_>, &[u8])
    ensures { piece_of result ≡ word_piece bytes.now }
{
    let (word, rest) = split_front(bytes, Class::NamePart);
    match word.first() {
        Some(first) if Class::NameStart.has(*first) && word.len() <= 32 => {
            (Token::Word(Name::of(word)), rest)
        }
        _ => malformed(),
    }
}

// The token at the front of bytes that begin with no blank, and what follows it; a comment is none. One arm for each sign.
fn read_front(bytes: &[u8]) -> Option<(Token<'_>, &[u8])>
    ensures { front_of result ≡ front_piece bytes.now }
{
    let (first, tail) = bytes.split_first()?;
    match *first as char {
        ':' => Some((Token::Colon, tail)),
        ';' => None,
        '#' => Some(read_number(tail)),
        ',' => Some((Token::Comma, tail)),
        '+' => Some((Token::Plus, tail)),
        '"' => Some(read_quoted(tail)),
        _ => Some(read_word(bytes)),
    }
}

// The tokens that are left of a line. An iterator is not compared.
#[derive(Clone, Copy, Debug)]
pub struct Tokens<'a> {
    rest: &'a [u8],
}

impl<'a> Tokens<'a> {
    // All tokens of a line. No `From`, since the same bytes can be read as lines.
    pub fn of(line: &'a [u8]) -> Tokens<'a>
        ensures { result.rest.now ≡ line.now }
    {
        Tokens { rest: line }
    }

    // The bytes that are left: none, once `next` has answered that there is no more token.
    pub fn rest(&self) -> &'a [u8]
        ensures { result.now ≡ self.now.rest.now }
    {
        let Tokens { rest } = *self;
        rest
    }
}

impl<'a> Iterator for Tokens<'a> {
    type Item = Token<'a>;

    ghost next_gives = { λ s r t. YieldsFirstBy symbol_of (λ s. symbols s.rest.now) s r t
        × MatchOption r (t.rest.now ≡ []) (λ token. first_token s.rest.now ≡ Some (symbol_of token, t.rest.now)) };

    ghost remaining = { item_count (λ s. symbols s.rest.now) };

    fn next(&mut self) -> Option<Token<'a>> {
        let (_, front) = split_front(self.rest, Class::Blank);
        // where no token is left, blanks and comment are read too
        self.rest = &[];
        let (token, rest) = read_front(front)?;
        self.rest = rest;
        Some(token)
    }
}
