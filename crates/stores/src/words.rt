// Lent words.
ghost use Rattle.std.specs.Prelude.{◌≡◌};
ghost use Rattle.stores.specs.Memories.{all_open, itself, listed};

use crate::lent::{cell, present};
use crate::{ReadStore, WriteStore};
use refusal::Refusal;

// The words lent, from address 0, all open. What is lent to be written has no `==`.
#[derive(Debug, Drop)]
pub struct Words<'a> {
    pub words: &'a mut [u16],
}

impl ReadStore for Words<'_> {
    ghost shown = { λ s. listed s.words.now };

    ghost place = { λ s. itself };

    fn read(&self, at: u16) -> Result<u16, Refusal> {
        cell(self.words, at)
    }
}

impl WriteStore for Words<'_> {
    ghost unlocked = { λ s. all_open };

    ghost shut = { λ s. itself };

    fn write(&mut self, at: u16, word: u16) -> Result<(), Refusal> {
        self.probe(at)?;
        // by index, since nothing is known of a slice once it was written through `get_mut`
        self.words[usize::from(at)] = word;
        Ok(())
    }

    fn probe(&self, at: u16) -> Result<(), Refusal> {
        present(self, at)
    }
}
