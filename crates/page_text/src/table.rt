// The statements by their names.
ghost use Rattle.std.specs.Prelude.{◌≡◌};
ghost use Rattle.page_text.specs.Table.{form_named};

use crate::form::{Form, Loads, NoRegisters, OnStack, OneRegister, ThreeRegisters, TwoRegisters};
use icmc_words::{Condition, ShiftKind};
use page_tokens::Name;

pub(crate) const FR: Name = Name {
    letters: *b"fr                              ",
};

pub(crate) const SP: Name = Name {
    letters: *b"sp                              ",
};

// Names are filled up with blanks. A table and no match: it is what the definition is, and the look-up is one `find`.
const ROWS: &[([u8; 32], Form)] = &[
    (
        *b"nop                             ",
        Form::Alone(NoRegisters::Nop),
    ),
    (
        *b"rts                             ",
        Form::Alone(NoRegisters::Rts),
    ),
    (
        *b"breakp                          ",
        Form::Alone(NoRegisters::Breakp),
    ),
    (
        *b"halt                            ",
        Form::Alone(NoRegisters::Halt),
    ),
    (
        *b"clearc                          ",
        Form::Alone(NoRegisters::Clearc),
    ),
    (
        *b"setc                            ",
        Form::Alone(NoRegisters::Setc),
    ),
    (
        *b"push                            ",
        Form::Stack(OnStack::Push),
    ),
    (
        *b"pop                             ",
        Form::Stack(OnStack::Pop),
    ),
    (
        *b"inc                             ",
        Form::One(OneRegister::Inc),
    ),
    (
        *b"dec                             ",
        Form::One(OneRegister::Dec),
    ),
    (
        *b"inchar                          ",
        Form::One(OneRegister::Inchar),
    ),
    (
        *b"not                             ",
        Form::Two(TwoRegisters::Not),
    ),
    (
        *b"cmp                             ",
        Form::Two(TwoRegisters::Cmp),
    ),
    (
        *b"loadi                           ",
        Form::Two(TwoRegisters::Loadi),
    ),
    (
        *b"storei                          ",
        Form::Two(TwoRegisters::Storei),
    ),
    (
        *b"outchar                         ",
        Form::Two(TwoRegisters::Outchar),
    ),
    (*b"mov                             ", Form::Mov),
    (
        *b"and                             ",
        Form::Three(ThreeRegisters::And),
    ),
    (
        *b"or                              ",
        Form::Three(ThreeRegisters::Or),
    ),
    (
        *b"xor                             ",
        Form::Three(ThreeRegisters::Xor),
    ),
    (
        *b"add                             ",
        Form::Three(ThreeRegisters::Add),
    ),
    (
        *b"addc                            ",
        Form::Three(ThreeRegisters::Addc),
    ),
    (
        *b"sub                             ",
        Form::Three(ThreeRegisters::Sub),
    ),
    (
        *b"subc                            ",
        Form::Three(ThreeRegisters::Subc),
    ),
    (
        *b"mul                             ",
        Form::Three(ThreeRegisters::Mul),
    ),
    (
        *b"mulc                            ",
        Form::Three(ThreeRegisters::Mulc),
    ),
    (
        *b"div                             ",
        Form::Three(ThreeRegisters::Div),
    ),
    (
        *b"divc                            ",
        Form::Three(ThreeRegisters::Divc),
    ),
    (
        *b"mod                             ",
        Form::Three(ThreeRegisters::Mod),
    ),
    (
        *b"shiftl0                         ",
        Form::Shift(ShiftKind::LeftZeros),
    ),
    (
        *b"shiftl1                         ",
        Form::Shift(ShiftKind::LeftOnes),
    ),
    (
        *b"shiftr0                         ",
        Form::Shift(ShiftKind::RightZeros),
    ),
    (
        *b"shiftr1                         ",
        Form::Shift(ShiftKind::RightOnes),
    ),
    (
        *b"rotl                            ",
        Form::Shift(ShiftKind::RotateLeft),
    ),
    (
        *b"rotr                            ",
        Form::Shift(ShiftKind::RotateRight),
    ),
    (
        *b"load                            ",
        Form::Load(Loads::Load),
    ),
    (
        *b"loadn                           ",
        Form::Load(Loads::Loadn),
    ),
    (*b"store                           ", Form::Store),
    (
        *b"jmp                             ",
        Form::Jump(Condition::Always),
    ),
    (
        *b"jeq                             ",
        Form::Jump(Condition::Equal),
    ),
    (
        *b"jne                             ",
        Form::Jump(Condition::NotEqual),
    ),
    (
        *b"jz                              ",
        Form::Jump(Condition::Zero),
    ),
    (
        *b"jnz                             ",
        Form::Jump(Condition::NotZero),
    ),
    (
        *b"jc                              ",
        Form::Jump(Condition::Carry),
    ),
    (
        *b"jnc                             ",
        Form::Jump(Condition::NotCarry),
    ),
    (
        *b"jgr                             ",
        Form::Jump(Condition::Greater),
    ),
    (
        *b"jle                             ",
        Form::Jump(Condition::Lesser),
    ),
    (
        *b"jeg                             ",
        Form::Jump(Condition::EqualOrGreater),
    ),
    (
        *b"jel                             ",
        Form::Jump(Condition::EqualOrLesser),
    ),
    (
        *b"jov                             ",
        Form::Jump(Condition::Overflow),
    ),
    (
        *b"jno                             ",
        Form::Jump(Condition::NotOverflow),
    ),
    (
        *b"jn                              ",
        Form::Jump(Condition::Negative),
    ),
    (
        *b"jdz                             ",
        Form::Jump(Condition::DivisionByZero),
    ),
    (
        *b"call                            ",
        Form::Call(Condition::Always),
    ),
    (
        *b"ceq                             ",
        Form::Call(Condition::Equal),
    ),
    (
        *b"cne                             ",
        Form::Call(Condition::NotEqual),
    ),
    (
        *b"cz                              ",
        Form::Call(Condition::Zero),
    ),
    (
        *b"cnz                             ",
        Form::Call(Condition::NotZero),
    ),
    (
        *b"cc                              ",
        Form::Call(Condition::Carry),
    ),
    (
        *b"cnc                             ",
        Form::Call(Condition::NotCarry),
    ),
    (
        *b"cgr                             ",
        Form::Call(Condition::Greater),
    ),
    (
        *b"cle                             ",
        Form::Call(Condition::Lesser),
    ),
    (
        *b"ceg                             ",
        Form::Call(Condition::EqualOrGreater),
    ),
    (
        *b"cel                             ",
        Form::Call(Condition::EqualOrLesser),
    ),
    (
        *b"cov                             ",
        Form::Call(Condition::Overflow),
    ),
    (
        *b"cno                             ",
        Form::Call(Condition::NotOverflow),
    ),
    (
        *b"cn                              ",
        Form::Call(Condition::Negative),
    ),
    (
        *b"cdz                             ",
        Form::Call(Condition::DivisionByZero),
    ),
    (*b"var                             ", Form::Var),
    (*b"string                          ", Form::Text),
    (*b"static                          ", Form::Static),
];

// The form of the statement with a name, if there is one.
#[tactic(auto, unfolding(crate::specs::Table::form_named))]
pub(crate) fn form_named(name: &Name) -> Option<Form>
    ensures { result ≡ form_named name.now }
{
    ROWS.iter()
        .find(|row| row.0 == name.letters)
        .map(|row| row.1)
}
