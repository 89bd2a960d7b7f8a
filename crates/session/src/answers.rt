// What the calls of a session answer.
ghost use Rattle.std.specs.Prelude.{◌≡◌};
ghost use Rattle.session.specs.Runs.{stop_number};
ghost use Rattle.session.specs.declared.answers.Stop.TheVariants.{Refused};

use refusal::Refusal;

// Why a run stopped.
#[derive(Clone, Copy, Debug, PartialEq, Eq)]
pub enum Stop {
    CountReached,
    Halted,
    AtBreak,
    JournalFull,
    Refused(Refusal),
}

// The number that users know a stop by.
impl From<Stop> for u8 {
    ghost from_gives = { λ stop n. n ≡ stop_number stop };

    fn from(stop: Stop) -> u8 {
        match stop {
            Stop::CountReached => 0,
            Stop::Halted => 1,
            Stop::AtBreak => 2,
            Stop::JournalFull => 3,
            Stop::Refused(_) => 4,
        }
    }
}

// A refusal stops a run.
impl From<Refusal> for Stop {
    ghost from_gives = { λ refusal stop. stop ≡ Refused refusal };

    fn from(refusal: Refusal) -> Stop {
        Stop::Refused(refusal)
    }
}

// How many instructions a run did, and why it stopped.
#[derive(Clone, Copy, Debug, PartialEq, Eq)]
pub struct Ran {
    pub done: u32,
    pub stop: Stop,
}

// How many instructions a back took back, and the refusal that stopped it short, if one did.
#[derive(Clone, Copy, Debug, PartialEq, Eq)]
pub struct Taken {
    pub done: u32,
    pub refusal: Option<Refusal>,
}
