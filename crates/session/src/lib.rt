// Sessions that can be taken back, over any processor and any stores.
#![tactic(auto)]

pub mod answers;
pub mod backs;
pub mod entry;
pub mod looks;
pub mod opens;
pub mod runs;
pub mod state;
mod trial;
