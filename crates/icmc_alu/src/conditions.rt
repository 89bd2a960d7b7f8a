// When a jump or a call is taken.
ghost use Rattle.std.specs.Prelude.{◌≡◌};
ghost use Rattle.icmc_alu.specs.Conditions.{holds};

use crate::flags::{Flag, has_flag};
use icmc_words::Condition;

// Whether a condition holds, by FR: one arm for each, as in the definition.
pub fn holds(condition: Condition, fr: u16) -> bool
    ensures { result ≡ holds condition fr }
{
    match condition {
        Condition::Always => true,
        Condition::Equal => has_flag(fr, Flag::Equal),
        Condition::NotEqual => !has_flag(fr, Flag::Equal),
        Condition::Zero => has_flag(fr, Flag::Zero),
        Condition::NotZero => !has_flag(fr, Flag::Zero),
        Condition::Carry => has_flag(fr, Flag::Carry),
        Condition::NotCarry => !has_flag(fr, Flag::Carry),
        Condition::Greater => has_flag(fr, Flag::Greater),
        Condition::Lesser => has_flag(fr, Flag::Lesser),
        Condition::EqualOrGreater => has_flag(fr, Flag::Equal) || has_flag(fr, Flag::Greater),
        Condition::EqualOrLesser => has_flag(fr, Flag::Equal) || has_flag(fr, Flag::Lesser),
        Condition::Overflow => has_flag(fr, Flag::Overflow),
        Condition::NotOverflow => !has_flag(fr, Flag::Overflow),
        Condition::Negative => has_flag(fr, Flag::Negative),
        Condition::DivisionByZero => has_flag(fr, Flag::DivisionByZero),
    }
}
