// Records of any kind in lent slots, the last pushed being the first popped.
#![tactic(auto)]

ghost use Rattle.std.specs.Prelude.{◌≡◌, ◌+◌, ◌<◌, [], ◌∷◌, ◌++◌, length, take, drop, slice_set, Some, codes};
ghost use Rattle.std.specs.List.{slice_get};
ghost use Rattle.shelf.specs.Slots.{records, push_answer, slots_pushed, used_pushed, records_pushed, has_last, last_record, used_popped};

use std::error::Error;
use std::fmt;

pub mod slice_vec;

// No slot is free.
#[derive(Clone, Copy, PartialEq, Eq, Debug)]
pub struct Full;

impl fmt::Display for Full {
    ghost output = { λ _. Some (codes "no slot is free") };

    fn fmt<W: fmt::Write>(&self, f: &mut fmt::Formatter<W>) -> fmt::Result {
        f.write_str("no slot is free")
    }
}

impl Error for Full {}

// How many slots are in use. The slots themselves are lent to each call, and a call goes by those that it is lent.
#[derive(Clone, Copy, PartialEq, Eq, Debug)]
pub struct Shelf {
    used: usize,
}

impl Shelf {
    // A shelf with no slot in use.
    pub fn empty() -> Shelf
        ensures { result.used ≡ 0 }
    {
        Shelf { used: 0 }
    }

    // How many slots are in use.
    pub fn len(self) -> usize
        ensures { result ≡ self.used }
    {
        let Shelf { used } = self;
        used
    }

    // The records in use.
    pub fn records<T>(self, slots: &[T]) -> &[T]
        ensures { result.now ≡ records self.used slots.now }
    {
        slots.get(..self.used).unwrap_or(slots)
    }

    // A record more in the first free slot; where none is free, nothing is changed.
    pub fn push<T: Copy>(&mut self, slots: &mut [T], record: T) -> Result<(), Full>
        ensures answer { result ≡ push_answer self.old.used slots.old }
        ensures used { self.new.used ≡ used_pushed self.old.used slots.old }
        ensures slots { slots.new ≡ slots_pushed self.old.used slots.old «record» }
        ensures records { records self.new.used slots.new ≡ records_pushed self.old.used slots.old «record» }
        ensures free { drop self.new.used slots.new ≡ drop self.new.used slots.old }
    {
        if self.used >= slots.len() {
            return Err(Full);
        }
        slots[self.used] = record;
        self.used += 1;
        Ok(())
    }

    // The last record.
    pub fn last<T: Copy>(self, slots: &[T]) -> Option<T>
        ensures { result ≡ last_record self.used slots.now }
    {
        slots.get(self.used.checked_sub(1)?).copied()
    }

    // The last record, whose slot is free then; the slot keeps what it holds.
    pub fn pop<T: Copy>(&mut self, slots: &[T]) -> Option<T>
        ensures answer { result ≡ last_record self.old.used slots.now }
        ensures used { self.new.used ≡ used_popped self.old.used slots.now }
    {
        let last = self.last(slots)?;
        self.used -= 1;
        Some(last)
    }
}
