// Two stores side by side.
ghost use Rattle.std.specs.Prelude.{◌≡◌};
ghost use Rattle.stores.specs.Piles.{past, split_at};

use crate::{ReadStore, WriteStore};
use refusal::Refusal;

// Below `border` the first store; from there on the second, whose address 0 is the border.
#[derive(Debug, PartialEq, Eq, Drop)]
pub struct Split<F, S> {
    pub first: F,
    pub second: S,
    pub border: u32,
}

impl<F, S> Split<F, S> {
    // The second store's address that an address means, if the border is not above it.
    fn past(&self, at: u16) -> Option<u16>
        ensures { result ≡ past self.now.border at }
    {
        let past = u32::from(at).checked_sub(self.border)?;
        u16::try_from(past).ok()
    }
}

impl<F: ReadStore, S: ReadStore> ReadStore for Split<F, S> {
    ghost shown = { λ s. split_at s.border (F.ReadStore.shown s.first) (S.ReadStore.shown s.second) };

    ghost place = { λ s. split_at s.border (F.ReadStore.place s.first) (S.ReadStore.place s.second) };

    // The two stores may be of two types, so each call has a match of its own.
    fn read(&self, at: u16) -> Result<u16, Refusal> {
        match self.past(at) {
            None => self.first.read(at),
            Some(past) => self.second.read(past),
        }
    }
}

impl<F: WriteStore, S: WriteStore> WriteStore for Split<F, S> {
    ghost unlocked = { λ s. split_at s.border (F.WriteStore.unlocked s.first) (S.WriteStore.unlocked s.second) };

    ghost shut = { λ s. split_at s.border (F.WriteStore.shut s.first) (S.WriteStore.shut s.second) };

    fn write(&mut self, at: u16, word: u16) -> Result<(), Refusal> {
        match self.past(at) {
            None => self.first.write(at, word),
            Some(past) => self.second.write(past, word),
        }
    }

    fn probe(&self, at: u16) -> Result<(), Refusal> {
        match self.past(at) {
            None => self.first.probe(at),
            Some(past) => self.second.probe(past),
        }
    }
}
