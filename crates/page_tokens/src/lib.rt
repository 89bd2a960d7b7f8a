// The lines of a page, and the tokens of a line.
#![tactic(auto)]

mod class;
pub mod label;
pub mod line;
pub mod name;
pub mod token;

pub use line::Lines;
pub use name::Name;
pub use token::{Token, Tokens};
