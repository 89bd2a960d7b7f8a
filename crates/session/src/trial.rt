// The two changes that a session makes, by definitions that stay shut.
ghost use Rattle.std.specs.Prelude.{◌≡◌};
ghost use Rattle.processor.specs.Views.{answer};
ghost use Rattle.processor.specs.Rules.{state, or_same, state_of, undo_of};
ghost use Rattle.session.specs.Trials.{tried, restored};

use crate::entry::Entry;
use processor::CellWrite;
use processor::bus::{Bus, Processor};
use processor::step::{replace, step};
use refusal::Refusal;

// The next instruction.
#[tactic(auto, unfolding(crate::specs::Trials::tried))]
pub(crate) fn try_next<P: Processor, B: Bus>(
    processor: &mut P,
    bus: &mut B,
) -> Result<Option<CellWrite>, Refusal>
    ensures answer { result ≡ answer (B.Bus.places bus.old)
        (undo_of (tried P.Processor.rules (state processor.old (B.Bus.view bus.old)))) }
    ensures state { state processor.new (B.Bus.view bus.new)
        ≡ or_same (state_of (tried P.Processor.rules (state processor.old (B.Bus.view bus.old))))
        (state processor.old (B.Bus.view bus.old)) }
    ensures places { B.Bus.places bus.new ≡ B.Bus.places bus.old }
{
    step(processor, bus)
}

// What an entry puts back.
#[tactic(auto, unfolding(crate::specs::Trials::restored))]
pub(crate) fn restore<P: Copy, B: Bus>(
    processor: &mut P,
    bus: &mut B,
    entry: Entry<P>,
) -> Result<Option<CellWrite>, Refusal>
    ensures answer { result ≡ answer (B.Bus.places bus.old)
        (undo_of (restored (state processor.old (B.Bus.view bus.old)) entry)) }
    ensures state { state processor.new (B.Bus.view bus.new)
        ≡ or_same (state_of (restored (state processor.old (B.Bus.view bus.old)) entry))
        (state processor.old (B.Bus.view bus.old)) }
    ensures places { B.Bus.places bus.new ≡ B.Bus.places bus.old }
{
    replace(processor, bus, entry.before, entry.undo)
}
