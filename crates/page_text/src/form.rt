// What the operands of a statement are, by its name.
ghost use Rattle.std.specs.Prelude.{◌≡◌};
ghost use Rattle.std.specs.Option.{option_map};
ghost use Rattle.page_text.specs.Forms.{on_none, on_one, on_two, on_three, on_stack, on_load};

use crate::encodable::Encodable;
use crate::register::Register;
use icmc_words::{Condition, Instruction, ShiftKind};

#[derive(Clone, Copy, Debug, PartialEq, Eq)]
pub enum NoRegisters {
    Nop,
    Rts,
    Breakp,
    Halt,
    Clearc,
    Setc,
}

#[derive(Clone, Copy, Debug, PartialEq, Eq)]
pub enum OneRegister {
    Inc,
    Dec,
    Inchar,
}

#[derive(Clone, Copy, Debug, PartialEq, Eq)]
pub enum TwoRegisters {
    Not,
    Cmp,
    Loadi,
    Storei,
    Outchar,
}

#[derive(Clone, Copy, Debug, PartialEq, Eq)]
pub enum ThreeRegisters {
    And,
    Or,
    Xor,
    Add,
    Addc,
    Sub,
    Subc,
    Mul,
    Mulc,
    Div,
    Divc,
    Mod,
}

#[derive(Clone, Copy, Debug, PartialEq, Eq)]
pub enum OnStack {
    Push,
    Pop,
}

#[derive(Clone, Copy, Debug, PartialEq, Eq)]
pub enum Loads {
    Load,
    Loadn,
}

// x, y and z are registers, n is a shift's count, A an address or a number for the second word.
#[derive(Clone, Copy, Debug, PartialEq, Eq)]
pub enum Form {
    Alone(NoRegisters),
    // x
    One(OneRegister),
    // x, y
    Two(TwoRegisters),
    // x, y, z
    Three(ThreeRegisters),
    // x, or fr
    Stack(OnStack),
    // x, y, or x, sp, or sp, x
    Mov,
    // x, #n
    Shift(ShiftKind),
    // x, A
    Load(Loads),
    // A, x
    Store,
    // A
    Jump(Condition),
    Call(Condition),
    // #q
    Var,
    // a quoted part
    Text,
    // name + #p, #v
    Static,
}

// The instructions of the groups. Their methods are no trait over a number of registers: an impl at `[Register; 2]` is not given the
// trait's clauses yet, and would have to repeat them.
impl NoRegisters {
    pub(crate) fn instruction(self) -> Encodable
        ensures { result.instruction ≡ on_none self }
    {
        let instruction = match self {
            NoRegisters::Nop => Instruction::Nop,
            NoRegisters::Rts => Instruction::Rts,
            NoRegisters::Breakp => Instruction::Breakp,
            NoRegisters::Halt => Instruction::Halt,
            NoRegisters::Clearc => Instruction::Clearc,
            NoRegisters::Setc => Instruction::Setc,
        };
        Encodable { instruction }
    }
}

impl OneRegister {
    pub(crate) fn instruction(self, x: Register) -> Encodable
        ensures { result.instruction ≡ on_one self x.number }
    {
        let instruction = match self {
            OneRegister::Inc => Instruction::Inc(x.number),
            OneRegister::Dec => Instruction::Dec(x.number),
            OneRegister::Inchar => Instruction::Inchar(x.number),
        };
        Encodable { instruction }
    }
}

impl TwoRegisters {
    pub(crate) fn instruction(self, x: Register, y: Register) -> Encodable
        ensures { result.instruction ≡ on_two self x.number y.number }
    {
        let instruction = match self {
            TwoRegisters::Not => Instruction::Not(x.number, y.number),
            TwoRegisters::Cmp => Instruction::Cmp(x.number, y.number),
            TwoRegisters::Loadi => Instruction::Loadi(x.number, y.number),
            TwoRegisters::Storei => Instruction::Storei(x.number, y.number),
            TwoRegisters::Outchar => Instruction::Outchar(x.number, y.number),
        };
        Encodable { instruction }
    }
}

impl ThreeRegisters {
    pub(crate) fn instruction(self, x: Register, y: Register, z: Register) -> Encodable
        ensures { result.instruction ≡ on_three self x.number y.number z.number }
    {
        let instruction = match self {
            ThreeRegisters::And => Instruction::And(x.number, y.number, z.number),
            ThreeRegisters::Or => Instruction::Or(x.number, y.number, z.number),
            ThreeRegisters::Xor => Instruction::Xor(x.number, y.number, z.number),
            ThreeRegisters::Add => Instruction::Add(x.number, y.number, z.number),
            ThreeRegisters::Addc => Instruction::Addc(x.number, y.number, z.number),
            ThreeRegisters::Sub => Instruction::Sub(x.number, y.number, z.number),
            ThreeRegisters::Subc => Instruction::Subc(x.number, y.number, z.number),
            ThreeRegisters::Mul => Instruction::Mul(x.number, y.number, z.number),
            ThreeRegisters::Mulc => Instruction::Mulc(x.number, y.number, z.number),
            ThreeRegisters::Div => Instruction::Div(x.number, y.number, z.number),
            ThreeRegisters::Divc => Instruction::Divc(x.number, y.number, z.number),
            ThreeRegisters::Mod => Instruction::Mod(x.number, y.number, z.number),
        };
        Encodable { instruction }
    }
}

impl OnStack {
    // Of a register, or of fr.
    pub(crate) fn instruction(self, x: Option<Register>) -> Encodable
        ensures { result.instruction ≡ on_stack self (option_map (λ x. x.number) x) }
    {
        let instruction = match (self, x) {
            (OnStack::Push, Some(x)) => Instruction::Push(x.number),
            (OnStack::Push, None) => Instruction::PushFr,
            (OnStack::Pop, Some(x)) => Instruction::Pop(x.number),
            (OnStack::Pop, None) => Instruction::PopFr,
        };
        Encodable { instruction }
    }
}

impl Loads {
    pub(crate) fn instruction(self, x: Register) -> Encodable
        ensures { result.instruction ≡ on_load self x.number }
    {
        let instruction = match self {
            Loads::Load => Instruction::Load(x.number),
            Loads::Loadn => Instruction::Loadn(x.number),
        };
        Encodable { instruction }
    }
}
