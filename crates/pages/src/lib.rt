// Pages: names gathered, words placed.
#![tactic(auto)]

// The most bytes that a page has.
pub(crate) const LONGEST_TEXT: usize = 65535;

mod check;
pub mod gathering;
pub mod label;
mod line;
pub mod placing;
mod put;
mod statement;

pub use gathering::{Gathered, gather};
pub use label::Label;
pub use placing::{Placed, place};
