// What a long run reports.
use icmc::machine::Machine;
use session::answers::Stop;

// How many instructions were done, why the last run stopped, and the machine then.
#[derive(Clone, Copy, Debug, PartialEq, Eq)]
pub struct Report {
    pub count: u32,
    pub stop: Stop,
    pub machine: Machine,
}
