// A shelf together with its slots: a list that grows in a lent slice.
ghost use Rattle.std.specs.Prelude.{◌≡◌, ◌≤◌, length, slice_set};
ghost use Rattle.std.specs.List.{slice_get};
ghost use Rattle.shelf.specs.Slots.{push_answer, records_pushed};

use crate::{Full, Shelf};

// The slots lent, and the shelf on them. What is lent to be written has no `==`.
#[derive(Debug, Drop)]
pub struct SliceVec<'a, T> {
    slots: &'a mut [T],
    shelf: Shelf,
    ghost within: { shelf.used ≤ length slots.now },
}

impl<'a, T> SliceVec<'a, T> {
    ghost use Rattle.shelf.specs.SliceVecs.{items, NowHolds};

    // No slot in use. No `From`, which would read as if all were.
    pub fn of(slots: &'a mut [T]) -> SliceVec<'a, T>
        ensures same_slots { result.slots.ghost_name ≡ slots.entry.ghost_name }
        ensures slots { result.slots.now ≡ slots.old }
        ensures used { result.shelf.used ≡ 0 }
    {
        SliceVec {
            slots,
            shelf: Shelf::empty(),
        }
    }

    // How many slots are in use.
    pub fn len(&self) -> usize
        ensures { result ≡ length (items self.now) }
    {
        self.shelf.len()
    }

    // How many slots are lent.
    pub fn capacity(&self) -> usize
        ensures { result ≡ length self.now.slots.now }
    {
        self.slots.len()
    }

    // The records.
    pub fn as_slice(&self) -> &[T]
        ensures { result.now ≡ items self.now }
    {
        self.shelf.records(self.slots)
    }

    // A record more in the first free slot.
    pub fn push(&mut self, item: T) -> Result<(), Full>
    where
        T: Copy,
        ensures answer { result ≡ push_answer self.old.shelf.used self.old.slots.now }
        ensures after { NowHolds self.old self.new (records_pushed self.old.shelf.used self.old.slots.now item) }
    {
        self.shelf.push(self.slots, item)
    }

    // Another record in place of the one of an index, which is answered; where none has the index, nothing is changed.
    pub fn replace(&mut self, i: usize, item: T) -> Option<T>
    where
        T: Copy,
        ensures answer { result ≡ slice_get (items self.old) i }
        ensures after { NowHolds self.old self.new (slice_set (items self.old) i item) }
    {
        if i >= self.len() {
            return None;
        }
        let old = self.slots[i];
        self.slots[i] = item;
        Some(old)
    }
}
