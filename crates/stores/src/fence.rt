// A store with a closed part.
ghost use Rattle.std.specs.Prelude.{◌≡◌};
ghost use Rattle.stores.specs.Piles.{fence_locks, fence_places, fenced};

use crate::{ReadStore, WriteStore};
use refusal::{Cause, Refusal};

// The store below, with its present addresses from `low` to below `high` closed.
#[derive(Debug, PartialEq, Eq, Drop)]
pub struct Fence<S> {
    pub store: S,
    pub low: u32,
    pub high: u32,
}

impl<S> Fence<S> {
    // Whether an address lies in the closed part.
    fn closes(&self, at: u16) -> bool
        ensures { result ≡ fenced self.now.low self.now.high at }
    {
        (self.low..self.high).contains(&u32::from(at))
    }
}

impl<S: ReadStore> ReadStore for Fence<S> {
    ghost shown = { λ s. S.ReadStore.shown s.store };

    ghost place = { λ s. S.ReadStore.place s.store };

    fn read(&self, at: u16) -> Result<u16, Refusal> {
        self.store.read(at)
    }
}

impl<S: WriteStore> WriteStore for Fence<S> {
    ghost unlocked = { λ s. fence_locks s.low s.high (S.WriteStore.unlocked s.store) };

    ghost shut = { λ s. fence_places s.low s.high (S.WriteStore.shut s.store) };

    fn write(&mut self, at: u16, word: u16) -> Result<(), Refusal> {
        if self.closes(at) {
            self.probe(at)
        } else {
            self.store.write(at, word)
        }
    }

    fn probe(&self, at: u16) -> Result<(), Refusal> {
        if !self.closes(at) {
            return self.store.probe(at);
        }
        self.read(at)?;
        Err(Cause::Closed.at(usize::from(at)))
    }
}
