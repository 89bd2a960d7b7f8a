// Where the words of a tape are put.
ghost use Rattle.std.specs.Prelude.{◌≡◌, ◌≤◌, Some};
ghost use Rattle.tape.specs.declared.item.Item.TheVariants.{Put};
ghost use Rattle.tape.specs.Items.{item};
ghost use Rattle.tape.specs.Puts.{place_after, put_by};

use crate::item::Item;

// A word for an address.
#[derive(Clone, Copy, Debug, PartialEq, Eq)]
pub struct CellWord {
    pub at: u16,
    pub word: u16,
}

// The place at which a tape's next word is put: an address, or 65,536 past the last one.
#[derive(Clone, Copy, Debug, PartialEq, Eq)]
pub struct Cursor {
    place: u32,
    ghost within: { place ≤ 65536 },
}

impl Cursor {
    // The place at a tape's beginning.
    pub fn start() -> Cursor
        ensures { result.place ≡ 0 }
    {
        Cursor { place: 0 }
    }

    // A word put at the place, which then moves on by one; none where no address is left.
    pub(crate) fn put(&mut self, word: u16) -> Option<CellWord>
        ensures answer { result ≡ put_by (Some (Put word)) self.old.place }
        ensures after { self.new.place ≡ place_after (Some (Put word)) self.old.place }
    {
        let at = u16::try_from(self.place).ok()?;
        self.place += 1;
        Some(CellWord { at, word })
    }

    // Another place.
    pub(crate) fn move_to(&mut self, place: u16)
        ensures { self.new.place ≡ place }
    {
        self.place = u32::from(place);
    }

    // What the tape's next word puts, if it puts one.
    pub fn advance(&mut self, word: u32) -> Option<CellWord>
        ensures answer { result ≡ put_by (item word) self.old.place }
        ensures after { self.new.place ≡ place_after (item word) self.old.place }
    {
        match Item::try_from(word).ok()? {
            Item::Put(word) => self.put(word),
            Item::Move(place) => {
                self.move_to(place);
                None
            }
            Item::End(_) => None,
        }
    }
}
