// A page from its text to its score.
#![tactic(auto)]

pub mod assembly;
pub mod scores;
