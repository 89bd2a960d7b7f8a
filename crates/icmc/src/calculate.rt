// Instructions that calculate: a result and flags, and no cell.
ghost use Rattle.std.specs.Prelude.{◌≡◌};
ghost use Rattle.icmc_alu.specs.Logic.{logic_word};
ghost use Rattle.icmc_alu.specs.Whole.{executed};
ghost use Rattle.icmc.specs.Machines.{reg};
ghost use Rattle.icmc.specs.Calculations.{with_arithmetic, with_logic, calculation};

use crate::machine::Machine;
use icmc_alu::{Arithmetic, Executed, Flag, Logic, compare, has_flag, shift, with_zero};
use icmc_words::Instruction;

impl Machine {
    fn with_arithmetic(self, x: u8, executed: Executed) -> Machine
        ensures { result ≡ with_arithmetic self x executed }
    {
        self.with_reg(x, executed.word).with_fr(executed.fr)
    }

    fn with_logic(self, x: u8, word: u16, fr: u16) -> Machine
        ensures { result ≡ with_logic self x word fr }
    {
        self.with_reg(x, word).with_fr(with_zero(fr, word))
    }

    // An operation on two registers, with a carry to add.
    fn arithmetic(
        &self,
        next: Machine,
        operation: Arithmetic,
        x: u8,
        y: u8,
        z: u8,
        carry: bool,
    ) -> Machine
        ensures { result ≡ with_arithmetic next x
            (executed operation (reg self.now y) (reg self.now z) carry self.now.fr) }
    {
        next.with_arithmetic(
            x,
            operation.execute(self.reg(y), self.reg(z), carry, self.fr),
        )
    }

    fn logic(&self, next: Machine, operation: Logic, x: u8, y: u8, z: u8) -> Machine
        ensures { result ≡ with_logic next x
            (logic_word operation (reg self.now y) (reg self.now z)) self.now.fr }
    {
        next.with_logic(x, operation.compute(self.reg(y), self.reg(z)), self.fr)
    }

    // The result of an instruction on `self`, put into `next`. One arm for each rule; a table of functions says it no plainer.
    #[tactic(auto, unfolding(crate::specs::Calculations::calculation))]
    pub(crate) fn calculate(&self, instruction: Instruction, next: Machine) -> Machine
        ensures { result ≡ calculation instruction self.now next }
    {
        let carry = has_flag(self.fr, Flag::Carry);
        match instruction {
            Instruction::Shift(kind, x, n) => next.with_logic(
                x,
                shift(kind, self.reg(x), n),
                self.fr,
            ),
            Instruction::And(x, y, z) => self.logic(next, Logic::And, x, y, z),
            Instruction::Or(x, y, z) => self.logic(next, Logic::Or, x, y, z),
            Instruction::Xor(x, y, z) => self.logic(next, Logic::Xor, x, y, z),
            Instruction::Not(x, y) => self.logic(next, Logic::Not, x, y, y),
            Instruction::Cmp(x, y) => next.with_fr(compare(self.reg(x), self.reg(y), self.fr)),
            Instruction::Add(x, y, z) => self.arithmetic(next, Arithmetic::Add, x, y, z, false),
            Instruction::Addc(x, y, z) => self.arithmetic(next, Arithmetic::Add, x, y, z, carry),
            Instruction::Sub(x, y, z) => self.arithmetic(next, Arithmetic::Sub, x, y, z, false),
            Instruction::Subc(x, y, z) => self.arithmetic(next, Arithmetic::Sub, x, y, z, carry),
            Instruction::Mul(x, y, z) => self.arithmetic(next, Arithmetic::Mul, x, y, z, false),
            Instruction::Mulc(x, y, z) => self.arithmetic(next, Arithmetic::Mul, x, y, z, carry),
            Instruction::Div(x, y, z) => self.arithmetic(next, Arithmetic::Div, x, y, z, false),
            Instruction::Divc(x, y, z) => self.arithmetic(next, Arithmetic::Div, x, y, z, carry),
            Instruction::Mod(x, y, z) => self.arithmetic(next, Arithmetic::Mod, x, y, z, false),
            Instruction::Inc(x) => next.with_arithmetic(
                x,
                Arithmetic::Add.execute(self.reg(x), 1, false, self.fr),
            ),
            Instruction::Dec(x) => next.with_arithmetic(
                x,
                Arithmetic::Sub.execute(self.reg(x), 1, false, self.fr),
            ),
            _ => next,
        }
    }
}
