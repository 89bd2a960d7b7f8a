// Arithmetic on words, by way of whole numbers.
ghost use Rattle.std.specs.Prelude.{◌≡◌};
ghost use Rattle.icmc_alu.specs.Whole.{arithmetic, word_of, is_above, is_below, arithmetic_flags, five_flags, executed};
ghost use Rattle.icmc_alu.specs.Laws.{ArithmeticLaws};

use crate::flags::{Flag, with_flag};

#[derive(Clone, Copy, Debug, PartialEq, Eq)]
pub enum Arithmetic {
    Add,
    Sub,
    Mul,
    Div,
    Mod,
}

// The whole number that an operation makes; a division by zero makes none.
#[derive(Clone, Copy, Debug, PartialEq, Eq)]
pub struct Outcome {
    pub whole: Option<i64>,
}

// A word with FR after it.
#[derive(Clone, Copy, Debug, PartialEq, Eq)]
pub struct Executed {
    pub word: u16,
    pub fr: u16,
}

impl Arithmetic {
    // The operation on y and z, with a carry to add; mod adds none.
    pub fn compute(self, y: u16, z: u16, carry: bool) -> Outcome
        ensures { result ≡ arithmetic self y z carry }
    {
        Outcome {
            whole: self.whole(y, z, carry),
        }
    }

    fn whole(self, y: u16, z: u16, carry: bool) -> Option<i64>
        ensures { result ≡ (arithmetic self y z carry).whole }
    {
        let carry = i64::from(carry);
        Some(match self {
            Arithmetic::Add => i64::from(y) + i64::from(z) + carry,
            Arithmetic::Sub => i64::from(y) - i64::from(z) + carry,
            Arithmetic::Mul => i64::from(y) * i64::from(z) + carry,
            Arithmetic::Div => i64::from(y.checked_div(z)?) + carry,
            Arithmetic::Mod => i64::from(y.checked_rem(z)?),
        })
    }

    // The operation on y and z, with a carry to add, and what it makes of FR.
    #[tactic(auto, using(crate::proofs::FlagLaws::arithmetic_laws), unfolding(crate::specs::Whole::executed))]
    pub fn execute(self, y: u16, z: u16, carry: bool, fr: u16) -> Executed
        ensures answer { result ≡ executed self y z carry fr }
        ensures laws { ArithmeticLaws self y z carry fr result.fr }
    {
        let outcome = self.compute(y, z, carry);
        Executed {
            word: outcome.word(),
            fr: outcome.flags(fr),
        }
    }
}

impl Outcome {
    // The whole number modulo 65,536; with none it is 0.
    pub fn word(self) -> u16
        ensures { result ≡ word_of self }
    {
        self.whole.unwrap_or(0).rem_euclid(65536) as u16
    }

    // Whether the whole number lies above the words.
    pub fn is_above(self) -> bool
        ensures { result ≡ is_above self }
    {
        self.whole.unwrap_or(0) > 65535
    }

    // Whether it lies below them.
    pub fn is_below(self) -> bool
        ensures { result ≡ is_below self }
    {
        self.whole.unwrap_or(0) < 0
    }

    // FR with the five flags of arithmetic written, and every other bit kept.
    pub fn flags(self, fr: u16) -> u16
        ensures { result ≡ five_flags self fr }
    {
        with_arithmetic_flags(
            fr,
            self.word(),
            self.is_above(),
            self.is_below(),
            self.whole.is_none(),
        )
    }
}

// FR with the five flags written for any word, on whichever side of the words its number is said to lie, and every other bit kept.
pub fn with_arithmetic_flags(fr: u16, word: u16, above: bool, below: bool, by_zero: bool) -> u16
    ensures { result ≡ arithmetic_flags word above below by_zero fr }
{
    let fr = with_flag(fr, Flag::DivisionByZero, by_zero);
    let fr = with_flag(fr, Flag::Negative, below);
    let fr = with_flag(fr, Flag::Overflow, above || below);
    let fr = with_flag(fr, Flag::Carry, above);
    with_flag(fr, Flag::Zero, word == 0)
}
