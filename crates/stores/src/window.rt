// A part of another store.
ghost use Rattle.std.specs.Prelude.{◌≡◌};
ghost use Rattle.std.specs.Option.{ok_or};
ghost use Rattle.refusal.specs.declared.Cause.TheVariants.{Absent};
ghost use Rattle.refusal.specs.Numbers.{refused};
ghost use Rattle.stores.specs.Piles.{window_cells, window_locks, window_places, meant};

use crate::lent::absent;
use crate::{ReadStore, WriteStore};
use refusal::Refusal;

// The addresses below `size`, which mean those from `base` on of the store below.
#[derive(Debug, PartialEq, Eq, Drop)]
pub struct Window<S> {
    pub store: S,
    pub base: u32,
    pub size: u32,
}

impl<S> Window<S> {
    // The address below that an address means, or refusal 16.
    fn below(&self, at: u16) -> Result<u16, Refusal>
        ensures { result ≡ ok_or (meant self.now.base self.now.size at) (refused Absent at) }
    {
        let below = u64::from(self.base) + u64::from(at);
        u16::try_from(below)
            .ok()
            .filter(|_| u32::from(at) < self.size)
            .ok_or(absent(at))
    }
}

impl<S: ReadStore> ReadStore for Window<S> {
    ghost shown = { λ s. window_cells s.base s.size (S.ReadStore.shown s.store) };

    ghost place = { λ s. window_places s.base s.size (S.ReadStore.place s.store) };

    fn read(&self, at: u16) -> Result<u16, Refusal> {
        let below = self.below(at)?;
        self.store.read(below)
    }
}

impl<S: WriteStore> WriteStore for Window<S> {
    ghost unlocked = { λ s. window_locks s.base s.size (S.WriteStore.unlocked s.store) };

    ghost shut = { λ s. window_places s.base s.size (S.WriteStore.shut s.store) };

    fn write(&mut self, at: u16, word: u16) -> Result<(), Refusal> {
        let below = self.below(at)?;
        self.store.write(below, word)
    }

    fn probe(&self, at: u16) -> Result<(), Refusal> {
        let below = self.below(at)?;
        self.store.probe(below)
    }
}
