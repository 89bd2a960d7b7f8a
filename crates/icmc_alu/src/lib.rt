// Arithmetic, logic, shifts, flags and conditions of the processor. The flags are the bits of one word, FR.
#![tactic(auto)]

pub mod arithmetic;
pub mod comparison;
pub mod conditions;
pub mod flags;
pub mod logic;
pub mod shifts;

pub use arithmetic::{Arithmetic, Executed, Outcome, with_arithmetic_flags};
pub use comparison::compare;
pub use conditions::holds;
pub use flags::{Flag, has_flag, with_flag, with_zero};
pub use logic::Logic;
pub use shifts::shift;
