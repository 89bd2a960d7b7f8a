// The machine as a processor.
ghost use Rattle.std.specs.Prelude.{◌≡◌};
ghost use Rattle.icmc.specs.Steps.{machine_rules};

use crate::machine::Machine;
use processor::bus::{Bus, Processor};
use processor::{Mark, Next};
use refusal::Refusal;

impl Processor for Machine {
    ghost rules = { machine_rules };

    fn start(stack: u16) -> Machine {
        Machine {
            registers: [0; 8],
            pc: 0,
            fr: 0,
            sp: stack,
            keys: 0,
            mark: Mark::Ready,
        }
    }

    fn next<B: Bus>(&self, bus: &B) -> Result<Next<Machine>, Refusal> {
        self.next_instruction(bus)
    }

    fn mark(&self) -> Mark {
        self.mark
    }

    fn register(&self, number: u16) -> Option<u16> {
        // one arm for each number that a look may ask for
        match number {
            0..=7 => Some(self.registers[usize::from(number)]),
            8 => Some(self.pc),
            9 => Some(self.fr),
            10 => Some(self.sp),
            _ => None,
        }
    }
}
