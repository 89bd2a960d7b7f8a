// Lent bytes, two to a word.
ghost use Rattle.std.specs.Prelude.{◌≡◌};
ghost use Rattle.stores.specs.Cells.{writes};
ghost use Rattle.stores.specs.Memories.{all_open, itself, paired, bytes_after};

use crate::lent::{cell, present};
use crate::{ReadStore, WriteStore};
use refusal::Refusal;

// The bytes lent: word a is the bytes 2a and 2a + 1, the high one first, all open. An odd last byte is in no word. No `==`, as for Words.
#[derive(Debug, Drop)]
pub struct Bytes<'a> {
    pub bytes: &'a mut [u8],
}

impl Bytes<'_> {
    // A word put at an address: what all the bytes lent hold then, an odd last one too.
    pub fn put(&mut self, at: u16, word: u16) -> Result<(), Refusal>
        ensures answer { result ≡ writes (paired self.old.bytes.now at) (all_open at) (itself at) (itself at) }
        ensures lent { self.new.bytes.now ≡ bytes_after self.old.bytes.now at word }
        ensures named { self.new.bytes.ghost_name ≡ self.old.bytes.ghost_name }
    {
        self.probe(at)?;
        // by index, since nothing is known of a slice once it was written through its chunks
        let i = usize::from(at) * 2;
        [self.bytes[i], self.bytes[i + 1]] = word.to_be_bytes();
        Ok(())
    }
}

impl ReadStore for Bytes<'_> {
    ghost shown = { λ s. paired s.bytes.now };

    ghost place = { λ s. itself };

    #[tactic(auto, using(crate::proofs::Pairs::pair_at))]
    fn read(&self, at: u16) -> Result<u16, Refusal> {
        let (pairs, _) = self.bytes.as_chunks::<2>();
        cell(pairs, at).map(u16::from_be_bytes)
    }
}

impl WriteStore for Bytes<'_> {
    ghost unlocked = { λ s. all_open };

    ghost shut = { λ s. itself };

    fn write(&mut self, at: u16, word: u16) -> Result<(), Refusal> {
        self.put(at, word)
    }

    fn probe(&self, at: u16) -> Result<(), Refusal> {
        present(self, at)
    }
}
