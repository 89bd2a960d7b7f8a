// The flags, bits 0 to 9 of FR. The bits above have no name, and are kept.
ghost use Rattle.std.specs.Prelude.{◌≡◌};
ghost use Rattle.icmc_alu.specs.Flags.{mask, with_flag, has_flag, with_zero};

// From bit 0 up.
#[derive(Clone, Copy, Debug, PartialEq, Eq)]
pub enum Flag {
    Greater,
    Lesser,
    Equal,
    Zero,
    Carry,
    Overflow,
    DivisionByZero,
    StackOverflow,
    StackUnderflow,
    Negative,
}

impl Flag {
    // The word with this flag's bit alone: what is masked by it, and not another form of the flag.
    pub fn mask(self) -> u16
        ensures { result ≡ mask self }
    {
        1 << self as u16
    }
}

// FR with one flag written, and every other bit kept.
pub fn with_flag(fr: u16, flag: Flag, on: bool) -> u16
    ensures { result ≡ with_flag flag on fr }
{
    if on {
        fr | flag.mask()
    } else {
        fr & !flag.mask()
    }
}

pub fn has_flag(fr: u16, flag: Flag) -> bool
    ensures { result ≡ has_flag flag fr }
{
    fr & flag.mask() != 0
}

// FR after logic, a shift or a rotation made a word: only the zero flag is written.
pub fn with_zero(fr: u16, word: u16) -> u16
    ensures { result ≡ with_zero word fr }
{
    with_flag(fr, Flag::Zero, word == 0)
}
