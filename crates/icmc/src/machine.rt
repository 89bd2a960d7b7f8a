// The machine's own state.
ghost use Rattle.std.specs.Prelude.{◌≡◌};
ghost use Rattle.icmc.specs.Machines.{reg, with_reg, with_pc, with_fr, with_sp, with_mark, mark_after};

use icmc_words::Instruction;
use processor::Mark;

// R0 to R7, the program counter, the flags, the stack pointer, the keys taken so far, and how the last instruction left the machine.
#[derive(Clone, Copy, Debug, PartialEq, Eq)]
pub struct Machine {
    pub registers: [u16; 8],
    pub pc: u16,
    pub fr: u16,
    pub sp: u16,
    pub keys: u32,
    pub mark: Mark,
}

impl Machine {
    // What a register holds.
    pub(crate) fn reg(&self, x: u8) -> u16
        ensures { result ≡ reg self.now x }
    {
        self.registers[usize::from(x % 8)]
    }

    pub(crate) fn with_reg(mut self, x: u8, word: u16) -> Machine
        ensures { result ≡ with_reg self x word }
    {
        self.registers[usize::from(x % 8)] = word;
        self
    }

    // This and the next two differ in the field that they write, which no parameter can stand for.
    pub(crate) fn with_pc(self, pc: u16) -> Machine
        ensures { result ≡ with_pc self pc }
    {
        Machine { pc, ..self }
    }

    pub(crate) fn with_fr(self, fr: u16) -> Machine
        ensures { result ≡ with_fr self fr }
    {
        Machine { fr, ..self }
    }

    pub(crate) fn with_sp(self, sp: u16) -> Machine
        ensures { result ≡ with_sp self sp }
    {
        Machine { sp, ..self }
    }

    // The mark that an instruction leaves. The machine's mark and the instruction are matched together, and the mark is changed in
    // place: each pair of the two is one rule.
    pub(crate) fn remark(&mut self, instruction: Instruction)
        ensures { self.new ≡ with_mark self.old (mark_after instruction) }
    {
        match (&mut self.mark, instruction) {
            (mark, Instruction::Breakp) => *mark = Mark::AtBreak,
            (mark, Instruction::Halt) => *mark = Mark::Halted,
            (mark, _) => *mark = Mark::Ready,
        }
    }
}
