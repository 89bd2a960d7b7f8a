// Whole logs of sessions, and what they keep to.
#![tactic(auto)]

pub mod line;
pub mod log;
pub mod pair;
pub mod serve;
