// A page run to its end, in pieces that a journal of 1,000 slots has room for.
#![tactic(auto)]

pub mod report;
pub mod rounds;
