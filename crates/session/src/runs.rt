// Runs.
ghost use Rattle.std.specs.Prelude.{◌≡◌, ◌+◌, ◌<◌, ◌≤◌, length};
ghost use Rattle.processor.specs.Views.{answer};
ghost use Rattle.processor.specs.Rules.{state};
ghost use Rattle.session.specs.Snapshots.{snapshot};
ghost use Rattle.session.specs.Trials.{tried};
ghost use Rattle.session.specs.Runs.{noted, noted_answer, course, told_turn, turned, runs_on, told_ran, run, run_answer, run_after};

use crate::answers::{Ran, Stop};
use crate::entry::Entry;
use crate::state::Session;
use crate::trial::try_next;
use processor::Mark;
use processor::bus::{Bus, Processor};
use refusal::{Cause, Refusal};

// The most instructions of one run.
const MOST_IN_A_RUN: u32 = 1000000;

// The most instructions that a session counts as done.
const MOST_DONE: u32 = 4000000000;

impl<P: Processor> Session<P> {
    // The next instruction, with its entry in the journal's next slot.
    fn advance<B: Bus>(&mut self, bus: &mut B, journal: &mut [Entry<P>]) -> Result<(), Refusal>
        requires room { self.old.journal.used < length journal.old }
        requires few { self.old.count < 4000000000 }
        ensures answer { result ≡ noted_answer (B.Bus.places bus.old)
            (tried P.Processor.rules (state self.old.processor (B.Bus.view bus.old))) }
        ensures after { snapshot self.new (B.Bus.view bus.new) journal.new
            ≡ noted (tried P.Processor.rules (state self.old.processor (B.Bus.view bus.old)))
            (snapshot self.old (B.Bus.view bus.old) journal.old) }
        ensures places { B.Bus.places bus.new ≡ B.Bus.places bus.old }
    {
        let before = self.processor;
        let undo = try_next(&mut self.processor, bus)?;
        self.journal.push(journal, Entry { before, undo }).unwrap();
        self.count += 1;
        Ok(())
    }

    // One turn of a run: what stops the run before an instruction is an error; what stops it after one is the answer.
    fn turn<B: Bus>(&mut self, bus: &mut B, journal: &mut [Entry<P>]) -> Result<Option<Stop>, Stop>
        requires few { self.old.count < 4000000000 }
        ensures answer { result ≡ told_turn (B.Bus.places bus.old)
            (course P.Processor.rules (snapshot self.old (B.Bus.view bus.old) journal.old)) }
        ensures after { snapshot self.new (B.Bus.view bus.new) journal.new
            ≡ turned P.Processor.rules (snapshot self.old (B.Bus.view bus.old) journal.old) }
        ensures places { B.Bus.places bus.new ≡ B.Bus.places bus.old }
    {
        if self.processor.mark() == Mark::Halted {
            return Err(Stop::Halted);
        }
        if self.journal.len() >= journal.len() {
            return Err(Stop::JournalFull);
        }
        self.advance(bus, journal)?;
        Ok(match self.processor.mark() {
            Mark::Ready => None,
            Mark::AtBreak => Some(Stop::AtBreak),
            Mark::Halted => Some(Stop::Halted),
        })
    }
}

impl<P: Processor> Session<P> {
    // At most `count` instructions.
    fn run_on<B: Bus>(&mut self, bus: &mut B, journal: &mut [Entry<P>], count: u32) -> Ran
        requires few { self.old.count + count ≤ 4000000000 }
        ensures answer { result ≡ told_ran (B.Bus.places bus.old) (runs_on P.Processor.rules count 0
            (snapshot self.old (B.Bus.view bus.old) journal.old)) }
        ensures after { snapshot self.new (B.Bus.view bus.new) journal.new
            ≡ (runs_on P.Processor.rules count 0 (snapshot self.old (B.Bus.view bus.old) journal.old)).after }
        ensures places { B.Bus.places bus.new ≡ B.Bus.places bus.old }
    {
        for done in 0..count {
            match self.turn(bus, journal) {
                Ok(None) => {}
                Ok(Some(stop)) => return Ran {
                    done: done + 1,
                    stop,
                },
                Err(stop) => return Ran { done, stop },
            }
        }
        Ran {
            done: count,
            stop: Stop::CountReached,
        }
    }

    // A run of `count` instructions, or fewer where something stops it.
    pub fn run<B: Bus>(
        &mut self,
        bus: &mut B,
        journal: &mut [Entry<P>],
        count: u32,
    ) -> Result<Ran, Refusal>
        ensures answer { result ≡ run_answer (B.Bus.places bus.old) (run P.Processor.rules count
            (snapshot self.old (B.Bus.view bus.old) journal.old)) }
        ensures after { snapshot self.new (B.Bus.view bus.new) journal.new
            ≡ run_after (run P.Processor.rules count (snapshot self.old (B.Bus.view bus.old) journal.old))
            (snapshot self.old (B.Bus.view bus.old) journal.old) }
        ensures places { B.Bus.places bus.new ≡ B.Bus.places bus.old }
    {
        if count > MOST_IN_A_RUN {
            return Err(Cause::RunTooLong.at(0));
        }
        if count > MOST_DONE - self.count {
            return Err(Cause::CountTooHigh.at(0));
        }
        Ok(self.run_on(bus, journal, count))
    }
}
