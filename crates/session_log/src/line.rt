// The lines of a log.
ghost use Rattle.std.specs.Prelude.{◌≡◌, Ok};
ghost use Rattle.session_log.specs.declared.line.Answer.TheVariants.{Forgotten};

use processor::bus::Processor;
use refusal::Refusal;
use session::answers::{Ran, Taken};
use session::looks::Spot;

// A call on an open session.
#[derive(Clone, Copy, Debug, PartialEq, Eq)]
pub enum Call {
    Run(u32),
    Back(u32),
    Forget,
    Look(Spot),
}

// What a call that is done answers.
#[derive(Clone, Copy, Debug, PartialEq, Eq)]
pub enum Answer {
    Ran(Ran),
    Taken(Taken),
    Forgotten,
    Word(u16),
}

// One line: the call that is asked for; then, filled in, its answer (an error marks it refused), and the instructions done and the
// processor as they stand after it.
#[derive(Clone, Copy, Debug, PartialEq, Eq)]
pub struct Line<P> {
    pub call: Call,
    pub answer: Result<Answer, Refusal>,
    pub count: u32,
    pub processor: P,
}

impl<P: Processor> Line<P> {
    // A line that is to be filled in: a line lent to a log has to hold something before that.
    pub fn asking(call: Call) -> Line<P>
        ensures call { result.call ≡ call }
        ensures answer { result.answer ≡ Ok Forgotten }
        ensures count { result.count ≡ 0 }
        ensures processor { result.processor ≡ P.Processor.rules.start 0 }
    {
        Line {
            call,
            answer: Ok(Answer::Forgotten),
            count: 0,
            processor: P::start(0),
        }
    }
}
