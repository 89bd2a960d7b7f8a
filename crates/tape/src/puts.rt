// The words that a tape puts.
ghost use Rattle.std.specs.Prelude.{◌≡◌};
ghost use Rattle.std.specs.Iterator.{YieldsFirst, item_count};
ghost use Rattle.tape.specs.Puts.{puts, puts_from};

use crate::cursor::{CellWord, Cursor};

// What is left to put: the words that are left of a tape, and the place of the next one. An iterator is not compared.
#[derive(Clone, Copy, Debug)]
pub struct Puts<'a> {
    cursor: Cursor,
    rest: &'a [u32],
}

impl<'a> Puts<'a> {
    // All that a tape puts. No `From`, since a tape is no list of what it puts.
    pub fn of(tape: &'a [u32]) -> Puts<'a>
        ensures { puts_from result.cursor.place result.rest.now ≡ puts tape.now }
    {
        Puts {
            cursor: Cursor::start(),
            rest: tape,
        }
    }
}

impl<'a> Iterator for Puts<'a> {
    type Item = CellWord;

    ghost next_gives = { YieldsFirst (λ s. puts_from s.cursor.place s.rest.now) };

    ghost remaining = { item_count (λ s. puts_from s.cursor.place s.rest.now) };

    fn next(&mut self) -> Option<CellWord> {
        while let Some((word, rest)) = self.rest.split_first() {
            self.rest = rest;
            if let Some(put) = self.cursor.advance(*word) {
                return Some(put);
            }
        }
        None
    }
}
