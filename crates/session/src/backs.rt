// Backs, and forgetting.
ghost use Rattle.std.specs.Prelude.{◌≡◌, ◌<◌, ◌≤◌, length};
ghost use Rattle.processor.specs.Rules.{state};
ghost use Rattle.session.specs.Snapshots.{snapshot};
ghost use Rattle.session.specs.Trials.{restored};
ghost use Rattle.session.specs.Runs.{noted_answer};
ghost use Rattle.session.specs.Backs.{undone, backs_on, told_taken, back, back_answer, back_after};

use crate::answers::Taken;
use crate::entry::Entry;
use crate::state::Session;
use crate::trial::restore;
use processor::bus::{Bus, Processor};
use refusal::{Cause, Refusal};
use shelf::Shelf;

impl<P: Processor> Session<P> {
    // The instruction of the newest entry, taken back.
    fn retreat<B: Bus>(
        &mut self,
        bus: &mut B,
        journal: &[Entry<P>],
        entry: Entry<P>,
    ) -> Result<(), Refusal>
        requires some { 0 < self.old.journal.used }
        requires lent { self.old.journal.used ≤ length journal.now }
        ensures answer { result ≡ noted_answer (B.Bus.places bus.old)
            (restored (state self.old.processor (B.Bus.view bus.old)) entry) }
        ensures after { snapshot self.new (B.Bus.view bus.new) journal.now
            ≡ undone (restored (state self.old.processor (B.Bus.view bus.old)) entry)
            (snapshot self.old (B.Bus.view bus.old) journal.now) }
        ensures places { B.Bus.places bus.new ≡ B.Bus.places bus.old }
    {
        restore(&mut self.processor, bus, entry)?;
        let _ = self.journal.pop(journal);
        self.count -= 1;
        Ok(())
    }

    // As many instructions as named, of those in the journal.
    fn back_on<B: Bus>(&mut self, bus: &mut B, journal: &[Entry<P>], count: u32) -> Taken
        requires few { count ≤ self.old.journal.used }
        requires lent { 0 < count → self.old.journal.used ≤ length journal.now }
        ensures answer { result ≡ told_taken (B.Bus.places bus.old)
            (backs_on count 0 (snapshot self.old (B.Bus.view bus.old) journal.now)) }
        ensures after { snapshot self.new (B.Bus.view bus.new) journal.now
            ≡ (backs_on count 0 (snapshot self.old (B.Bus.view bus.old) journal.now)).after }
        ensures places { B.Bus.places bus.new ≡ B.Bus.places bus.old }
    {
        for done in 0..count {
            let entry = self.journal.last(journal).unwrap();
            // A refusal is no error of this call: it goes into the answer, with how many were taken back.
            if let Err(refusal) = self.retreat(bus, journal, entry) {
                return Taken {
                    done,
                    refusal: Some(refusal),
                };
            }
        }
        Taken {
            done: count,
            refusal: None,
        }
    }

    // Takes the last `count` instructions back, and frees their slots.
    pub fn back<B: Bus>(
        &mut self,
        bus: &mut B,
        journal: &[Entry<P>],
        count: u32,
    ) -> Result<Taken, Refusal>
        ensures answer { result ≡ back_answer (B.Bus.places bus.old)
            (back count (snapshot self.old (B.Bus.view bus.old) journal.now)) }
        ensures after { snapshot self.new (B.Bus.view bus.new) journal.now
            ≡ back_after (back count (snapshot self.old (B.Bus.view bus.old) journal.now))
            (snapshot self.old (B.Bus.view bus.old) journal.now) }
        ensures places { B.Bus.places bus.new ≡ B.Bus.places bus.old }
    {
        let used = self.journal.len();
        // `as`, since `usize` has no `From<u32>`
        if used < count as usize || (count > 0 && journal.len() < used) {
            return Err(Cause::BackTooFar.at(0));
        }
        Ok(self.back_on(bus, journal, count))
    }

    // Frees all journal slots: what was done can no longer be taken back.
    pub fn forget(&mut self)
        ensures used { self.new.journal.used ≡ 0 }
        ensures count { self.new.count ≡ self.old.count }
        ensures processor { self.new.processor ≡ self.old.processor }
    {
        self.journal = Shelf::empty();
    }
}
