// What stands between a session and a processor.
#![tactic(auto)]

pub mod bus;
pub mod devices;
pub mod step;

// Where a cell lies.
#[derive(Clone, Copy, Debug, PartialEq, Eq)]
pub enum Side {
    Memory,
    Screen,
}

// How the last instruction left the processor.
#[derive(Clone, Copy, Debug, PartialEq, Eq)]
pub enum Mark {
    Ready,
    AtBreak,
    Halted,
}

// A word for one cell.
#[derive(Clone, Copy, Debug, PartialEq, Eq)]
pub struct CellWrite {
    pub side: Side,
    pub at: u16,
    pub word: u16,
}

// The processor after an instruction, and the cell that the instruction writes.
#[derive(Clone, Copy, Debug, PartialEq, Eq)]
pub struct Next<P> {
    pub after: P,
    pub write: Option<CellWrite>,
}
