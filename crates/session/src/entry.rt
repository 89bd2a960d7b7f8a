// What the journal keeps of an instruction.
ghost use Rattle.std.specs.Prelude.{◌≡◌, None};

use processor::CellWrite;
use processor::bus::Processor;

// The processor before the instruction, and the word that the written cell had, if one was written.
#[derive(Clone, Copy, Debug, PartialEq, Eq)]
pub struct Entry<P> {
    pub(crate) before: P,
    pub(crate) undo: Option<CellWrite>,
}

impl<P: Processor> Entry<P> {
    // What a slot holds before a session uses it, since lent slots have to hold something.
    pub fn vacant() -> Entry<P>
        ensures before { result.before ≡ P.Processor.rules.start 0 }
        ensures undo { result.undo ≡ None }
    {
        Entry {
            before: P::start(0),
            undo: None,
        }
    }
}
