// From words to instructions.
ghost use Rattle.std.specs.Prelude.{◌≡◌, ◌<◌, ◌/◌, ◌%◌, ◌^◌};
ghost use Rattle.icmc_words.specs.Decoded.{bit, shift_at, calculation, transfer, decoded};
ghost use Rattle.icmc_words.specs.Encoded.{WithinIfOk};

use crate::instruction::{Condition, Instruction, ShiftKind};
use refusal::{Cause, Refusal};

// A field of a word: its lowest bit is bit `low`, and it stays below `bound`.
fn bits(word: u16, low: u8, bound: u8) -> u8
    requires low { low < 16 }
    requires bound { 0 < bound }
    ensures value { result ≡ word / 2 ^ low % bound }
    ensures within { result < bound }
{
    ((word >> low) % u16::from(bound)) as u8
}

fn bit(word: u16, i: u8) -> bool
    requires { i < 16 }
    ensures { result ≡ bit i word }
{
    bits(word, i, 2) == 1
}

// A shift's kind, by bits 6 to 4: three bits, which all have one, so no conversion that could fail.
fn shift(kind: u8) -> ShiftKind
    ensures { result ≡ shift_at kind }
{
    match kind {
        0 => ShiftKind::LeftZeros,
        1 => ShiftKind::LeftOnes,
        2 => ShiftKind::RightZeros,
        3 => ShiftKind::RightOnes,
        4..=5 => ShiftKind::RotateLeft,
        _ => ShiftKind::RotateRight,
    }
}

// One table in three parts, by op code: each part promises `within` of what it answers itself. A match, since its guards look at other
// bits too.
impl Instruction {
    // The instruction of a word; a word that is none is refused. No `TryFrom`, which has one promise where callers need two.
    pub fn decode(word: u16) -> Result<Instruction, Refusal>
        ensures meaning { result ≡ decoded word }
        ensures within { WithinIfOk result }
    {
        let x = bits(word, 7, 8);
        let k = bits(word, 6, 16);
        match word >> 10 {
            0x00 => Ok(Instruction::Nop),
            0x02 if k < 15 => Ok(Instruction::Jump(Condition::at(k))),
            0x03 if k < 15 => Ok(Instruction::Call(Condition::at(k))),
            0x04 => Ok(Instruction::Rts),
            0x05 if bit(word, 6) => Ok(Instruction::PushFr),
            0x05 => Ok(Instruction::Push(x)),
            0x06 if bit(word, 6) => Ok(Instruction::PopFr),
            0x06 => Ok(Instruction::Pop(x)),
            0x08 if bit(word, 9) => Ok(Instruction::Setc),
            0x08 => Ok(Instruction::Clearc),
            0x0e => Ok(Instruction::Breakp),
            0x0f => Ok(Instruction::Halt),
            _ => decode_calculation(word),
        }
    }
}

// Shifts, logic and arithmetic.
fn decode_calculation(word: u16) -> Result<Instruction, Refusal>
    ensures meaning { result ≡ calculation word }
    ensures within { WithinIfOk result }
{
    let x = bits(word, 7, 8);
    let y = bits(word, 4, 8);
    let z = bits(word, 1, 8);
    match word >> 10 {
        0x10 => Ok(Instruction::Shift(shift(y), x, bits(word, 0, 16))),
        0x12 => Ok(Instruction::And(x, y, z)),
        0x13 => Ok(Instruction::Or(x, y, z)),
        0x14 => Ok(Instruction::Xor(x, y, z)),
        0x15 => Ok(Instruction::Not(x, y)),
        0x16 => Ok(Instruction::Cmp(x, y)),
        0x20 if bit(word, 0) => Ok(Instruction::Addc(x, y, z)),
        0x20 => Ok(Instruction::Add(x, y, z)),
        0x21 if bit(word, 0) => Ok(Instruction::Subc(x, y, z)),
        0x21 => Ok(Instruction::Sub(x, y, z)),
        0x22 if bit(word, 0) => Ok(Instruction::Mulc(x, y, z)),
        0x22 => Ok(Instruction::Mul(x, y, z)),
        0x23 if bit(word, 0) => Ok(Instruction::Divc(x, y, z)),
        0x23 => Ok(Instruction::Div(x, y, z)),
        0x24 if bit(word, 6) => Ok(Instruction::Dec(x)),
        0x24 => Ok(Instruction::Inc(x)),
        0x25 => Ok(Instruction::Mod(x, y, z)),
        _ => decode_transfer(word),
    }
}

// Between registers, memory, screen and keys; every word that no arm takes ends in the last one here.
fn decode_transfer(word: u16) -> Result<Instruction, Refusal>
    ensures meaning { result ≡ transfer word }
    ensures within { WithinIfOk result }
{
    let x = bits(word, 7, 8);
    let y = bits(word, 4, 8);
    match word >> 10 {
        0x30 => Ok(Instruction::Load(x)),
        0x31 => Ok(Instruction::Store(x)),
        0x32 => Ok(Instruction::Outchar(x, y)),
        0x33 if word % 4 == 1 => Ok(Instruction::MovFromSp(x)),
        0x33 if word % 4 == 3 => Ok(Instruction::MovToSp(x)),
        0x33 => Ok(Instruction::Mov(x, y)),
        0x35 => Ok(Instruction::Inchar(x)),
        0x38 if !bit(word, 0) => Ok(Instruction::Loadn(x)),
        0x3c => Ok(Instruction::Loadi(x, y)),
        0x3d => Ok(Instruction::Storei(x, y)),
        _ => Err(Cause::Unassigned.at(0)),
    }
}
