// A store with every address absent keeps both interfaces' meaning.
ghost use Rattle.store_cases.specs.Nowhere.{no_cells, no_locks, own_places};

use refusal::{Cause, Refusal};
use stores::{ReadStore, WriteStore};

#[derive(Clone, Copy, Debug, PartialEq, Eq)]
pub struct Nowhere;

impl ReadStore for Nowhere {
    ghost shown = { λ s. no_cells };

    ghost place = { λ s. own_places };

    fn read(&self, at: u16) -> Result<u16, Refusal> {
        Err(Cause::Absent.at(usize::from(at)))
    }
}

impl WriteStore for Nowhere {
    ghost unlocked = { λ s. no_locks };

    ghost shut = { λ s. own_places };

    fn write(&mut self, at: u16, _word: u16) -> Result<(), Refusal> {
        self.probe(at)
    }

    fn probe(&self, at: u16) -> Result<(), Refusal> {
        self.read(at)?;
        Ok(())
    }
}
