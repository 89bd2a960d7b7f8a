// A lent text.
ghost use Rattle.std.specs.Prelude.{◌≡◌};
ghost use Rattle.stores.specs.Memories.{itself, listed};

use crate::ReadStore;
use crate::lent::cell;
use refusal::Refusal;

// The bytes of a text, one to an address. It is only read.
#[derive(Clone, Copy, Debug, PartialEq, Eq)]
pub struct Text<'a> {
    pub bytes: &'a [u8],
}

impl ReadStore for Text<'_> {
    ghost shown = { λ s. listed s.bytes.now };

    ghost place = { λ s. itself };

    fn read(&self, at: u16) -> Result<u16, Refusal> {
        cell(self.bytes, at).map(u16::from)
    }
}
