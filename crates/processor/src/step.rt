// One instruction, done.
ghost use Rattle.std.specs.Prelude.{◌≡◌};
ghost use Rattle.processor.specs.Views.{answer};
ghost use Rattle.processor.specs.Rules.{state, or_same, moved, stepped, state_of, undo_of, instruction};

use crate::CellWrite;
use crate::bus::{Bus, Processor};
use refusal::Refusal;

// Puts another processor in place and writes a cell, if one is to be written; answers what puts the cell back.
pub fn replace<P: Copy, B: Bus>(
    processor: &mut P,
    bus: &mut B,
    after: P,
    write: Option<CellWrite>,
) -> Result<Option<CellWrite>, Refusal>
    ensures answer { result ≡ answer (B.Bus.places bus.old) (undo_of (moved (B.Bus.view bus.old) after write)) }
    ensures state { state processor.new (B.Bus.view bus.new)
        ≡ or_same (state_of (moved (B.Bus.view bus.old) after write)) (state processor.old (B.Bus.view bus.old)) }
    ensures places { B.Bus.places bus.new ≡ B.Bus.places bus.old }
{
    let Some(cell) = write else {
        *processor = after;
        return Ok(None);
    };
    let old = bus.exchange(cell.side, cell.at, cell.word)?;
    *processor = after;
    Ok(Some(CellWrite { word: old, ..cell }))
}

// The next instruction; a refused one alters nothing.
pub fn step<P: Processor, B: Bus>(
    processor: &mut P,
    bus: &mut B,
) -> Result<Option<CellWrite>, Refusal>
    ensures answer { result ≡ answer (B.Bus.places bus.old)
        (undo_of (stepped P.Processor.rules (state processor.old (B.Bus.view bus.old)))) }
    ensures state { state processor.new (B.Bus.view bus.new)
        ≡ or_same (instruction P.Processor.rules (state processor.old (B.Bus.view bus.old)))
        (state processor.old (B.Bus.view bus.old)) }
    ensures places { B.Bus.places bus.new ≡ B.Bus.places bus.old }
{
    let next = processor.next(bus)?;
    replace(processor, bus, next.after, next.write)
}
