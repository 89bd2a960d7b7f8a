// Looks.
ghost use Rattle.std.specs.Prelude.{◌≡◌};
ghost use Rattle.processor.specs.Rules.{state};
ghost use Rattle.session.specs.Snapshots.{told_answer};
ghost use Rattle.session.specs.Looks.{looked};

use crate::state::Session;
use processor::Side;
use processor::bus::{Bus, Processor};
use refusal::{Cause, Refusal};

// What a look is at.
#[derive(Clone, Copy, Debug, PartialEq, Eq)]
pub enum Spot {
    Register(u16),
    Cell(Side, u16),
}

impl<P: Processor> Session<P> {
    // What a register or a cell holds.
    pub fn look<B: Bus>(&self, bus: &B, spot: Spot) -> Result<u16, Refusal>
        ensures { result ≡ told_answer (B.Bus.places bus.now)
            (looked P.Processor.rules spot (state self.now.processor (B.Bus.view bus.now))) }
    {
        match spot {
            Spot::Register(number) => self
                .processor
                .register(number)
                .ok_or(Cause::NoSuchRegister.at(0)),
            Spot::Cell(side, at) => bus.look(side, at),
        }
    }

    // The processor as it stands.
    pub fn processor(&self) -> P
        ensures { result ≡ self.now.processor }
    {
        self.processor
    }

    // How many instructions are done and not taken back.
    pub fn count(&self) -> u32
        ensures { result ≡ self.now.count }
    {
        self.count
    }
}
