// What the lines of a page say.
#![tactic(auto)]

mod encodable;
mod form;
pub mod line;
mod operand;
mod read;
mod register;
pub mod statement;
mod table;

pub use line::{Line, read_line};
pub use statement::{Operand, Statement};
