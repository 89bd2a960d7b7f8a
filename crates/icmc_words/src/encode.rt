// From instructions to words.
ghost use Rattle.std.specs.Prelude.{◌≡◌, ◌<◌, [], ◌∷◌};
ghost use Rattle.icmc_words.specs.Encoded.{layout, joined, encoded};

use crate::instruction::Instruction;
use refusal::{Cause, Refusal};

impl Instruction {
    // The word of an instruction, its spare bits 0; an operand out of range is refused. Named as `decode` is.
    pub fn encode(self) -> Result<u16, Refusal>
        ensures { result ≡ encoded self }
    {
        let operands = self.operands()?;
        Ok(self.opcode() * 1024 + self.extension() + operands)
    }

    // Bits 15 to 10.
    fn opcode(self) -> u16
        ensures value { result ≡ (layout self).op }
        ensures within { result < 62 }
    {
        match self {
            Instruction::Nop => 0x00,
            Instruction::Jump(..) => 0x02,
            Instruction::Call(..) => 0x03,
            Instruction::Rts => 0x04,
            Instruction::Push(..) | Instruction::PushFr => 0x05,
            Instruction::Pop(..) | Instruction::PopFr => 0x06,
            Instruction::Clearc | Instruction::Setc => 0x08,
            Instruction::Breakp => 0x0e,
            Instruction::Halt => 0x0f,
            Instruction::Shift(..) => 0x10,
            Instruction::And(..) => 0x12,
            Instruction::Or(..) => 0x13,
            Instruction::Xor(..) => 0x14,
            Instruction::Not(..) => 0x15,
            Instruction::Cmp(..) => 0x16,
            Instruction::Add(..) | Instruction::Addc(..) => 0x20,
            Instruction::Sub(..) | Instruction::Subc(..) => 0x21,
            Instruction::Mul(..) | Instruction::Mulc(..) => 0x22,
            Instruction::Div(..) | Instruction::Divc(..) => 0x23,
            Instruction::Inc(..) | Instruction::Dec(..) => 0x24,
            Instruction::Mod(..) => 0x25,
            Instruction::Load(..) => 0x30,
            Instruction::Store(..) => 0x31,
            Instruction::Outchar(..) => 0x32,
            Instruction::Mov(..) | Instruction::MovFromSp(..) | Instruction::MovToSp(..) => 0x33,
            Instruction::Inchar(..) => 0x35,
            Instruction::Loadn(..) => 0x38,
            Instruction::Loadi(..) => 0x3c,
            Instruction::Storei(..) => 0x3d,
        }
    }

    // The bits that tell apart the instructions of one op code: conditions, kinds of shifts, and the bits of extension.
    fn extension(self) -> u16
        ensures value { result ≡ (layout self).extension }
        ensures within { result < 1024 }
    {
        match self {
            Instruction::Jump(k) | Instruction::Call(k) => u16::from(u8::from(k)) * 64,
            Instruction::Shift(kind, _, _) => kind as u16 * 16,
            Instruction::PushFr | Instruction::PopFr | Instruction::Dec(..) => 64,
            Instruction::Setc => 512,
            Instruction::Addc(..) | Instruction::Subc(..) => 1,
            Instruction::Mulc(..) | Instruction::Divc(..) => 1,
            Instruction::MovFromSp(..) => 1,
            Instruction::MovToSp(..) => 3,
            _ => 0,
        }
    }

    // The operands, each in its bits: one arm for each layout.
    fn operands(self) -> Result<u16, Refusal>
        ensures { result ≡ joined (layout self).fields }
    {
        match self {
            Instruction::Push(x)
            | Instruction::Pop(x)
            | Instruction::Inc(x)
            | Instruction::Dec(x)
            | Instruction::Load(x)
            | Instruction::Store(x)
            | Instruction::Loadn(x)
            | Instruction::Inchar(x)
            | Instruction::MovFromSp(x)
            | Instruction::MovToSp(x) => field(x, 8, 128),
            Instruction::Not(x, y)
            | Instruction::Cmp(x, y)
            | Instruction::Mov(x, y)
            | Instruction::Loadi(x, y)
            | Instruction::Storei(x, y)
            | Instruction::Outchar(x, y) => Ok(field(x, 8, 128)? + field(y, 8, 16)?),
            Instruction::And(x, y, z)
            | Instruction::Or(x, y, z)
            | Instruction::Xor(x, y, z)
            | Instruction::Add(x, y, z)
            | Instruction::Addc(x, y, z)
            | Instruction::Sub(x, y, z)
            | Instruction::Subc(x, y, z)
            | Instruction::Mul(x, y, z)
            | Instruction::Mulc(x, y, z)
            | Instruction::Div(x, y, z)
            | Instruction::Divc(x, y, z)
            | Instruction::Mod(x, y, z) => Ok(
                field(x, 8, 128)? + field(y, 8, 16)? + field(z, 8, 2)?,
            ),
            Instruction::Shift(_, x, n) => Ok(field(x, 8, 128)? + field(n, 16, 1)?),
            _ => Ok(0),
        }
    }
}

// What an operand adds to the word, its lowest bit being worth `unit`; one that is not below the bound is refused.
fn field(value: u8, bound: u8, unit: u8) -> Result<u16, Refusal>
    ensures { result ≡ joined (record { value = value; bound = bound; unit = unit } ∷ []) }
{
    if value < bound {
        Ok(u16::from(value) * u16::from(unit))
    } else {
        Err(Cause::OutOfRange.at(0))
    }
}
