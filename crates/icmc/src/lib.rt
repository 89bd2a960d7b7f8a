// The ICMC machine.
#![tactic(auto)]

mod calculate;
pub mod examples;
pub mod machine;
mod perform;
pub mod rules;
