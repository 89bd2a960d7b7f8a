// The tape: what its words say, which words it puts where, and which tapes are well formed.
#![tactic(auto)]

pub mod check;
pub mod cursor;
pub mod item;
pub mod puts;
