// Instructions, as they are written and before they are words.
ghost use Rattle.std.specs.Prelude.{◌≡◌};
ghost use Rattle.icmc_words.specs.Conditions.{condition_at, numbered, number};
ghost use Rattle.icmc_words.specs.Sizes.{size};

use refusal::{Cause, Refusal};

// When a jump or a call is taken.
#[derive(Clone, Copy, Debug, PartialEq, Eq)]
pub enum Condition {
    Always,
    Equal,
    NotEqual,
    Zero,
    NotZero,
    Carry,
    NotCarry,
    Greater,
    Lesser,
    EqualOrGreater,
    EqualOrLesser,
    Overflow,
    NotOverflow,
    Negative,
    DivisionByZero,
}

impl Condition {
    // The condition of a number below 15: the guards of the decoder see to that, with a refusal of their own.
    pub(crate) fn at(k: u8) -> Condition
        ensures { result ≡ condition_at k }
    {
        match k {
            0 => Condition::Always,
            1 => Condition::Equal,
            2 => Condition::NotEqual,
            3 => Condition::Zero,
            4 => Condition::NotZero,
            5 => Condition::Carry,
            6 => Condition::NotCarry,
            7 => Condition::Greater,
            8 => Condition::Lesser,
            9 => Condition::EqualOrGreater,
            10 => Condition::EqualOrLesser,
            11 => Condition::Overflow,
            12 => Condition::NotOverflow,
            13 => Condition::Negative,
            _ => Condition::DivisionByZero,
        }
    }
}

// The condition of a number, 0 to 14; any other is refused.
impl TryFrom<u8> for Condition {
    type Error = Refusal;

    ghost try_from_gives = { λ k r. r ≡ numbered k };

    fn try_from(k: u8) -> Result<Condition, Refusal> {
        if k < 15 {
            Ok(Condition::at(k))
        } else {
            Err(Cause::OutOfRange.at(0))
        }
    }
}

// The condition's number.
impl From<Condition> for u8 {
    ghost from_gives = { λ condition k. k ≡ number condition };

    fn from(condition: Condition) -> u8 {
        condition as u8
    }
}

// What moves into the places that a shift leaves: zeros, ones, or the bits that fell out. Each is numbered as bits 6 to 4 of its word
// say it; of two codes for a rotation, the lower.
#[derive(Clone, Copy, Debug, PartialEq, Eq)]
pub enum ShiftKind {
    LeftZeros = 0,
    LeftOnes = 1,
    RightZeros = 2,
    RightOnes = 3,
    RotateLeft = 4,
    RotateRight = 6,
}

// An instruction with its operands in the order in which they are written: registers, 0 to 7; for a shift a register and the count,
// 0 to 15. Other numbers can be written, and are refused where the instruction is encoded. An address or a number that belongs to it
// is the word after.
#[derive(Clone, Copy, Debug, PartialEq, Eq)]
pub enum Instruction {
    Nop,
    Rts,
    Breakp,
    Halt,
    Clearc,
    Setc,
    Jump(Condition),
    Call(Condition),
    Push(u8),
    PushFr,
    Pop(u8),
    PopFr,
    Shift(ShiftKind, u8, u8),
    And(u8, u8, u8),
    Or(u8, u8, u8),
    Xor(u8, u8, u8),
    Not(u8, u8),
    Cmp(u8, u8),
    Add(u8, u8, u8),
    Addc(u8, u8, u8),
    Sub(u8, u8, u8),
    Subc(u8, u8, u8),
    Mul(u8, u8, u8),
    Mulc(u8, u8, u8),
    Div(u8, u8, u8),
    Divc(u8, u8, u8),
    Mod(u8, u8, u8),
    Inc(u8),
    Dec(u8),
    Load(u8),
    Store(u8),
    Loadn(u8),
    Loadi(u8, u8),
    Storei(u8, u8),
    Mov(u8, u8),
    MovFromSp(u8),
    MovToSp(u8),
    Outchar(u8, u8),
    Inchar(u8),
}

impl Instruction {
    // How many words the instruction takes.
    pub fn size(self) -> u8
        ensures { result ≡ size self }
    {
        match self {
            Instruction::Jump(_) | Instruction::Call(_) => 2,
            Instruction::Load(_) | Instruction::Store(_) | Instruction::Loadn(_) => 2,
            _ => 1,
        }
    }
}
