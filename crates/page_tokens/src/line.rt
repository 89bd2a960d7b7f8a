// The lines of a text.
ghost use Rattle.std.specs.Prelude.{◌≡◌, length, drop, OnSome};
ghost use Rattle.std.specs.Iterator.{YieldsFirstRef, at_most};
ghost use Rattle.page_tokens.specs.Lines.{lines, after_line};

use crate::class::{Class, split_front};

// What follows a line's end; at the end of a text it has none.
fn past_end(ended: &[u8]) -> &[u8]
    ensures { result.now ≡ drop 1 ended.now }
{
    ended.get(1..).unwrap_or(ended)
}

// The lines that are left of a text, without their ends. An iterator is not compared.
#[derive(Clone, Copy, Debug)]
pub struct Lines<'a> {
    rest: &'a [u8],
}

impl<'a> Lines<'a> {
    // All lines of a text. No `From`, since the same bytes can be read as tokens.
    pub fn of(text: &'a [u8]) -> Lines<'a>
        ensures { result.rest.now ≡ text.now }
    {
        Lines { rest: text }
    }

    // The bytes that are left.
    pub fn rest(&self) -> &'a [u8]
        ensures { result.now ≡ self.now.rest.now }
    {
        let Lines { rest } = *self;
        rest
    }
}

impl<'a> Iterator for Lines<'a> {
    type Item = &'a [u8];

    ghost next_gives = { λ s r t. YieldsFirstRef (λ s. lines s.rest.now) s r t × OnSome r (t.rest.now ≡ after_line s.rest.now) };

    ghost remaining = { λ s. at_most (length s.rest.now) };

    fn next(&mut self) -> Option<&'a [u8]> {
        if self.rest.is_empty() {
            return None;
        }
        let (line, ended) = split_front(self.rest, Class::InLine);
        self.rest = past_end(ended);
        Some(line)
    }
}
