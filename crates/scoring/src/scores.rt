// A page run to its end.
ghost use Rattle.std.specs.Prelude.{◌≡◌, length, IfOk};
ghost use Rattle.scoring.specs.Assembly.{assembled, tape_then, Translated};
ghost use Rattle.scoring.specs.Scores.{score_answer, view_scored, PageScored};

use crate::assembly::assemble;
use icmc::machine::Machine;
use long_run::report::Report;
use long_run::rounds::run_out;
use pages::Label;
use processor::bus::Bus;
use refusal::Refusal;
use session::entry::Entry;

// Scores a page: it is assembled in the slots, words and places lent, opened in the memory with the stack at its start, and run to its end.
// All that is lent is named, as in `assemble`.
pub fn score<B: Bus>(
    text: &[u8],
    labels: &mut [Label],
    words: &mut [u16],
    tape: &mut [u32],
    bus: &mut B,
    journal: &mut [Entry<Machine>],
    stack: u16,
) -> Result<Report, Refusal>
    ensures answer { result ≡ score_answer (B.Bus.places bus.old) (length journal.old) stack (B.Bus.view bus.old)
        (assembled text.now (length labels.old) (length words.old) (length tape.old)) }
    ensures view { B.Bus.view bus.new ≡ view_scored (B.Bus.places bus.old) (length journal.old) stack (B.Bus.view bus.old)
        (assembled text.now (length labels.old) (length words.old) (length tape.old)) }
    ensures page { IfOk result (λ x. PageScored (B.Bus.places bus.old) (length journal.old) stack text.now
        (B.Bus.view bus.old) x (B.Bus.view bus.new)) }
    ensures tape { tape.new ≡ tape_then
        (assembled text.now (length labels.old) (length words.old) (length tape.old)) tape.old }
    ensures left { Translated text.now labels.old labels.new words.old words.new }
    ensures places { B.Bus.places bus.new ≡ B.Bus.places bus.old }
{
    let size = assemble(text, labels, words, tape)?;
    run_out(bus, journal, &tape[0..size], stack)
}
