// Why a call was refused, and where.
#![tactic(auto)]

ghost use Rattle.std.specs.Prelude.{◌≡◌, Some};
ghost use Rattle.refusal.specs.Numbers.{number, refused, refusal_text};

use std::error::Error;
use std::fmt;

// One cause for each thing that can be wrong with what a call is handed.
#[derive(Clone, Copy, Debug, PartialEq, Eq, Hash)]
pub enum Cause {
    // of the page's author
    UnknownStatement,
    Malformed,
    OutOfRange,
    DuplicateName,
    UnknownName,
    OutsideVariable,
    // of whoever lends texts, slots and words
    NotGathered,
    TextTooLong,
    LabelSlotsFull,
    TooManyWords,
    TapeTooShort,
    // of the tape's sender
    MalformedTapeWord,
    MisplacedTapeEnd,
    WrongTapeSum,
    PlacePastEnd,
    // of the running page and its stores
    Absent,
    Closed,
    Unassigned,
    // of the technician
    RunTooLong,
    BackTooFar,
    NoSuchRegister,
    CountTooHigh,
}

impl Cause {
    // The refusal for this cause at a place: a line from 1, a tape index from 0, an address, or 0.
    pub fn at(self, place: usize) -> Refusal
        ensures { result ≡ refused self place }
    {
        Refusal { cause: self, place }
    }
}

// The number that users know a cause by.
impl From<Cause> for u8 {
    ghost from_gives = { λ cause n. n ≡ number cause };

    fn from(cause: Cause) -> u8 {
        cause as u8 + 1
    }
}

// A cause with its place.
#[derive(Clone, Copy, Debug, PartialEq, Eq, Hash)]
pub struct Refusal {
    pub cause: Cause,
    pub place: usize,
}

impl fmt::Display for Refusal {
    ghost output = { λ r. Some (refusal_text r) };

    fn fmt<W: fmt::Write>(&self, f: &mut fmt::Formatter<W>) -> fmt::Result {
        write!(f, "refused {} {}", u8::from(self.cause), self.place)
    }
}

impl Error for Refusal {}
