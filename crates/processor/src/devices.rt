// A bus made of three stores.
ghost use Rattle.std.specs.Prelude.{◌≡◌};
ghost use Rattle.processor.specs.Views.{cells, keys, view, places, replaced};
ghost use Rattle.stores.specs.Cells.{written};

use crate::Side;
use crate::bus::Bus;
use refusal::Refusal;
use stores::{ReadStore, WriteStore};

// A memory, a screen and a source of keys, of any make.
#[derive(Debug, PartialEq, Eq, Drop)]
pub struct Devices<M, S, K> {
    pub memory: M,
    pub screen: S,
    pub keys: K,
}

// Writes a word, and answers the word that it replaced.
fn replace<S: WriteStore>(store: &mut S, at: u16, word: u16) -> Result<u16, Refusal>
    ensures answer { result ≡ replaced (S.ReadStore.shown store.old at) (S.WriteStore.unlocked store.old at)
        (S.ReadStore.place store.old at) (S.WriteStore.shut store.old at) }
    ensures cells { S.ReadStore.shown store.new
        ≡ written (S.ReadStore.shown store.old) (S.WriteStore.unlocked store.old) at word }
    ensures places { S.ReadStore.place store.new ≡ S.ReadStore.place store.old }
    ensures locks { S.WriteStore.unlocked store.new ≡ S.WriteStore.unlocked store.old }
    ensures shuts { S.WriteStore.shut store.new ≡ S.WriteStore.shut store.old }
{
    let old = store.read(at)?;
    store.write(at, word)?;
    Ok(old)
}

// The memory and the screen may be of two types, so that no common value stands for both: each call matches on the side.
impl<M: WriteStore, S: WriteStore, K: ReadStore> Bus for Devices<M, S, K> {
    ghost view = { λ d. view (cells (M.ReadStore.shown d.memory) (M.WriteStore.unlocked d.memory))
        (cells (S.ReadStore.shown d.screen) (S.WriteStore.unlocked d.screen)) (keys (K.ReadStore.shown d.keys)) };

    ghost places = { λ d. places (M.ReadStore.place d.memory) (M.WriteStore.shut d.memory)
        (S.ReadStore.place d.screen) (S.WriteStore.shut d.screen) };

    fn look(&self, side: Side, at: u16) -> Result<u16, Refusal> {
        match side {
            Side::Memory => self.memory.read(at),
            Side::Screen => self.screen.read(at),
        }
    }

    fn probe(&self, side: Side, at: u16) -> Result<(), Refusal> {
        match side {
            Side::Memory => self.memory.probe(at),
            Side::Screen => self.screen.probe(at),
        }
    }

    fn key(&self, count: u32) -> Option<u16> {
        let count = u16::try_from(count).ok()?;
        self.keys.read(count).ok()
    }

    fn exchange(&mut self, side: Side, at: u16, word: u16) -> Result<u16, Refusal> {
        match side {
            Side::Memory => replace(&mut self.memory, at, word),
            Side::Screen => replace(&mut self.screen, at, word),
        }
    }
}
