// What each instruction comes to.
ghost use Rattle.std.specs.Prelude.{◌≡◌, cond, if◌then◌else◌, Ok};
ghost use Rattle.processor.specs.Views.{answer};
ghost use Rattle.icmc_alu.specs.Conditions.{holds};
ghost use Rattle.icmc.specs.Machines.{up, down, with_pc, with_sp};
ghost use Rattle.icmc.specs.Steps.{quiet, into_cell, into_memory, with_key, performed, carried_out, meaning, with_operand, fetched, next_of};

use crate::machine::Machine;
use icmc_alu::{Flag, holds, with_flag};
use icmc_words::{Condition, Instruction};
use processor::bus::Bus;
use processor::{CellWrite, Mark, Next, Side};
use refusal::{Cause, Refusal};

impl Machine {
    // This machine after the instruction, and no cell written.
    fn quiet(self) -> Next<Machine>
        ensures { Ok result ≡ quiet self }
    {
        Next {
            after: self,
            write: None,
        }
    }

    // The same, with a word for a cell.
    fn into_cell(self, side: Side, at: u16, word: u16) -> Next<Machine>
        ensures { Ok result ≡ into_cell side at word self }
    {
        Next {
            after: self,
            write: Some(CellWrite { side, at, word }),
        }
    }

    // The next key in a register, or 255 where there is none.
    fn with_key<B: Bus>(self, bus: &B, x: u8) -> Machine
        ensures { result ≡ with_key ((B.Bus.view bus.now).keys self.keys) self x }
    {
        match bus.key(self.keys) {
            Some(key) => Machine {
                keys: self.keys + 1,
                ..self.with_reg(x, key % 256)
            },
            None => self.with_reg(x, 255),
        }
    }
}

impl Machine {
    // This machine with a word pushed on a stack that ends at `sp`: the word is written there, and SP lowered.
    fn push(self, sp: u16, word: u16) -> Next<Machine>
        ensures { Ok result ≡ into_memory sp word (with_sp self (down sp)) }
    {
        self.with_sp(sp.wrapping_sub(1))
            .into_cell(Side::Memory, sp, word)
    }

    // A jump: `next` at the second word where the condition holds.
    fn jump(&self, condition: Condition, end: u16, next: Machine) -> Next<Machine>
        ensures { Ok result ≡ quiet (if holds condition self.now.fr then with_pc next end else next) }
    {
        if holds(condition, self.fr) {
            return next.with_pc(end).quiet();
        }
        next.quiet()
    }

    // A call: the address of its second word goes onto the stack, where the condition holds.
    fn call(&self, condition: Condition, end: u16, next: Machine) -> Next<Machine>
        ensures { Ok result ≡ cond (holds condition self.now.fr)
            (into_memory self.now.sp (up self.now.pc) (with_sp (with_pc next end) (down self.now.sp))) (quiet next) }
    {
        if !holds(condition, self.fr) {
            return next.quiet();
        }
        next.with_pc(end).push(self.sp, self.pc.wrapping_add(1))
    }

    // What an instruction on `self` with its second word comes to; `next` is `self` with mark and PC moved on. One arm for each rule.
    fn perform<B: Bus>(
        &self,
        instruction: Instruction,
        end: u16,
        next: Machine,
        bus: &B,
    ) -> Result<Next<Machine>, Refusal>
        ensures { result ≡ answer (B.Bus.places bus.now) (performed instruction end self.now next (B.Bus.view bus.now)) }
    {
        let top = self.sp.wrapping_add(1);
        Ok(match instruction {
            Instruction::Nop | Instruction::Breakp | Instruction::Halt => next.quiet(),
            Instruction::Jump(condition) => self.jump(condition, end, next),
            Instruction::Call(condition) => self.call(condition, end, next),
            Instruction::Rts => next
                .with_pc(bus.look(Side::Memory, top)?.wrapping_add(1))
                .with_sp(top)
                .quiet(),
            Instruction::Push(x) => next.push(self.sp, self.reg(x)),
            Instruction::PushFr => next.push(self.sp, self.fr),
            Instruction::Pop(x) => next
                .with_reg(x, bus.look(Side::Memory, top)?)
                .with_sp(top)
                .quiet(),
            Instruction::PopFr => next
                .with_fr(bus.look(Side::Memory, top)?)
                .with_sp(top)
                .quiet(),
            Instruction::Setc => next.with_fr(with_flag(self.fr, Flag::Carry, true)).quiet(),
            Instruction::Clearc => next.with_fr(with_flag(self.fr, Flag::Carry, false)).quiet(),
            Instruction::Load(x) => next.with_reg(x, bus.look(Side::Memory, end)?).quiet(),
            Instruction::Store(x) => next.into_cell(Side::Memory, end, self.reg(x)),
            Instruction::Loadn(x) => next.with_reg(x, end).quiet(),
            Instruction::Loadi(x, y) => next
                .with_reg(x, bus.look(Side::Memory, self.reg(y))?)
                .quiet(),
            Instruction::Storei(x, y) => next.into_cell(Side::Memory, self.reg(x), self.reg(y)),
            Instruction::Mov(x, y) => next.with_reg(x, self.reg(y)).quiet(),
            Instruction::MovFromSp(x) => next.with_reg(x, self.sp).quiet(),
            Instruction::MovToSp(x) => next.with_sp(self.reg(x)).quiet(),
            Instruction::Outchar(x, y) => next.into_cell(Side::Screen, self.reg(y), self.reg(x)),
            Instruction::Inchar(x) => next.with_key(bus, x).quiet(),
            _ => self.calculate(instruction, next).quiet(),
        })
    }
}

// What a word means, by a definition that stays shut in the proofs of its callers.
#[tactic(auto, unfolding(crate::specs::Steps::meaning))]
fn decode(word: u16) -> Result<Instruction, Refusal>
    ensures { result ≡ meaning word }
{
    Instruction::decode(word)
}

impl Machine {
    // PC and mark moved on, then the instruction with its second word.
    #[tactic(auto, unfolding(crate::specs::Steps::carried_out))]
    fn carry_out<B: Bus>(
        &self,
        instruction: Instruction,
        end: u16,
        bus: &B,
    ) -> Result<Next<Machine>, Refusal>
        ensures { result ≡ answer (B.Bus.places bus.now) (carried_out instruction end self.now (B.Bus.view bus.now)) }
    {
        let mut next = self.with_pc(self.pc.wrapping_add(u16::from(instruction.size())));
        next.remark(instruction);
        self.perform(instruction, end, next, bus)
    }

    // An instruction, its second word fetched if it has one. Two calls, since the loop is slower where one call follows both ways.
    fn with_operand<B: Bus>(
        &self,
        instruction: Instruction,
        bus: &B,
    ) -> Result<Next<Machine>, Refusal>
        ensures { result ≡ answer (B.Bus.places bus.now) (with_operand instruction self.now (B.Bus.view bus.now)) }
    {
        if instruction.size() != 2 {
            return self.carry_out(instruction, 0, bus);
        }
        let end = bus.look(Side::Memory, self.pc.wrapping_add(1))?;
        self.carry_out(instruction, end, bus)
    }

    // The instruction at PC.
    fn fetch<B: Bus>(&self, bus: &B) -> Result<Next<Machine>, Refusal>
        ensures { result ≡ answer (B.Bus.places bus.now) (fetched self.now (B.Bus.view bus.now)) }
    {
        let word = bus.look(Side::Memory, self.pc)?;
        let instruction = decode(word).map_err(|_| Cause::Unassigned.at(usize::from(self.pc)))?;
        self.with_operand(instruction, bus)
    }

    // What comes next: a halted machine does no instruction.
    #[tactic(auto, unfolding(crate::specs::Steps::next_of))]
    pub(crate) fn next_instruction<B: Bus>(&self, bus: &B) -> Result<Next<Machine>, Refusal>
        ensures { result ≡ answer (B.Bus.places bus.now) (next_of self.now (B.Bus.view bus.now)) }
    {
        match self.mark {
            Mark::Ready | Mark::AtBreak => self.fetch(bus),
            Mark::Halted => Ok(self.quiet()),
        }
    }
}
