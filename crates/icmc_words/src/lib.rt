// The instruction words of the processor: what each word means, and the word of each instruction.
#![tactic(auto)]

pub mod decode;
pub mod encode;
pub mod instruction;

pub use instruction::{Condition, Instruction, ShiftKind};
