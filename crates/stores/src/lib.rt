// Stores of words: what memory, screen and keys are made of.
#![tactic(auto)]

ghost use Rattle.std.specs.Prelude.{◌≡◌};
ghost use Rattle.stores.specs.Cells.{Cells, Locks, Places, reads, writes, written};

pub mod bytes;
pub mod fence;
mod lent;
pub mod split;
pub mod text;
pub mod window;
pub mod words;

use refusal::Refusal;

// A store with a word at each address, 0 to 65,535, that is not absent.
pub trait ReadStore {
    // the word that each address shows
    ghost shown: { Self → Cells };
    // the place that an absent address tells
    ghost place: { Self → Places };

    // The word at an address, or refusal 16.
    fn read(&self, at: u16) -> Result<u16, Refusal>
        ensures { result ≡ reads (shown self.now at) (place self.now at) };
}

// A store whose addresses are also open or closed, for as long as it lives. Plain arguments, since others implement it.
pub trait WriteStore: ReadStore {
    // which addresses are open
    ghost unlocked: { Self → Locks };
    // the place that a closed address tells
    ghost shut: { Self → Places };

    // A word put at an address, or refusal 16 or 17, altering nothing.
    fn write(&mut self, at: u16, word: u16) -> Result<(), Refusal>
        ensures answer { result ≡ writes (Self.ReadStore.shown self.old at) (unlocked self.old at)
            (Self.ReadStore.place self.old at) (shut self.old at) }
        ensures cells { Self.ReadStore.shown self.new
            ≡ written (Self.ReadStore.shown self.old) (unlocked self.old) at word }
        ensures places { Self.ReadStore.place self.new ≡ Self.ReadStore.place self.old }
        ensures locks { unlocked self.new ≡ unlocked self.old }
        ensures shuts { shut self.new ≡ shut self.old };

    // What a write would answer; it alters nothing.
    fn probe(&self, at: u16) -> Result<(), Refusal>
        ensures { result ≡ writes (Self.ReadStore.shown self.now at) (unlocked self.now at)
            (Self.ReadStore.place self.now at) (shut self.now at) };
}
