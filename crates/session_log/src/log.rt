// Logs of calls. Bus and journal are named by each call, as by the session's own.
ghost use Rattle.std.specs.Prelude.{◌≡◌, length, MatchResult};
ghost use Rattle.processor.specs.Rules.{State};
ghost use Rattle.session.specs.Snapshots.{snapshot};
ghost use Rattle.session.specs.Opens.{loaded, load_answer};
ghost use Rattle.session_log.specs.Serving.{log_after, log_lines};
ghost use Rattle.session_log.specs.Plain.{Plain, fresh};
ghost use Rattle.session_log.specs.Stands.{Stands};
ghost use Rattle.session_log.specs.Logs.{LogStands, Logged, opening, opened, opening_answer};

use crate::line::Line;
use crate::serve::serve_line;
use processor::bus::{Bus, Processor};
use refusal::Refusal;
use session::entry::Entry;
use session::state::Session;

// A piece of log goes as on the plain session that the session stands as; a call of this does nothing.
fn a_log_stands<P: Processor, B: Bus>(
    session: &Session<P>,
    bus: &B,
    journal: &[Entry<P>],
    lines: &[Line<P>],
)
    ensures { LogStands P.Processor.rules (B.Bus.places bus.now) lines.now
        (snapshot session.now (B.Bus.view bus.now) journal.now)
        (log_lines P.Processor.rules (B.Bus.places bus.now) lines.now
        (snapshot session.now (B.Bus.view bus.now) journal.now))
        (log_after P.Processor.rules lines.now (snapshot session.now (B.Bus.view bus.now) journal.now)) }
{}

// A further piece of log on an open session, each line filled in. Where the session stands as some plain session, its lines and
// the session after it are those of that plain session, line by line.
pub fn carry_on<P: Processor, B: Bus>(
    session: &mut Session<P>,
    bus: &mut B,
    journal: &mut [Entry<P>],
    lines: &mut [Line<P>],
)
    ensures after { snapshot session.new (B.Bus.view bus.new) journal.new
        ≡ log_after P.Processor.rules lines.old (snapshot session.old (B.Bus.view bus.old) journal.old) }
    ensures lines { lines.new ≡ log_lines P.Processor.rules (B.Bus.places bus.old) lines.old
        (snapshot session.old (B.Bus.view bus.old) journal.old) }
    ensures places { B.Bus.places bus.new ≡ B.Bus.places bus.old }
    ensures stands { (w : State P) (s : Plain P)
        → Stands P.Processor.rules w (length journal.old) (snapshot session.old (B.Bus.view bus.old) journal.old) s
        → Logged P.Processor.rules (B.Bus.places bus.old) w (length journal.old) lines.old lines.new
        (snapshot session.new (B.Bus.view bus.new) journal.new) s }
{
    a_log_stands(session, bus, journal, lines);
    for line in lines.iter_mut() {
        *line = serve_line(session, bus, journal, *line);
    }
}

// The log of a session from its opening on is the plain session's; a call of this does nothing.
fn an_opened_log_stands<P: Processor, B: Bus>(
    bus: &B,
    journal: &[Entry<P>],
    tape: &[u32],
    stack: u16,
    lines: &[Line<P>],
)
    ensures { Logged P.Processor.rules (B.Bus.places bus.now)
        (opening P.Processor.rules stack (B.Bus.view bus.now) tape.now) (length journal.now) lines.now
        (log_lines P.Processor.rules (B.Bus.places bus.now) lines.now
        (opened P.Processor.rules stack (B.Bus.view bus.now) tape.now journal.now))
        (log_after P.Processor.rules lines.now
        (opened P.Processor.rules stack (B.Bus.view bus.now) tape.now journal.now))
        (fresh (opening P.Processor.rules stack (B.Bus.view bus.now) tape.now)) }
{}

// The opening, for a log that goes on with a journal.
fn open<P: Processor, B: Bus>(
    bus: &mut B,
    journal: &[Entry<P>],
    tape: &[u32],
    stack: u16,
) -> Result<Session<P>, Refusal>
    ensures opened { opening_answer result ≡ load_answer (loaded (B.Bus.places bus.old) (B.Bus.view bus.old) tape.now) }
    ensures after { MatchResult result
        (λ s. snapshot s (B.Bus.view bus.new) journal.now
        ≡ opened P.Processor.rules stack (B.Bus.view bus.old) tape.now journal.now)
        (λ e. B.Bus.view bus.new ≡ B.Bus.view bus.old) }
    ensures places { B.Bus.places bus.new ≡ B.Bus.places bus.old }
{
    Session::open(bus, tape, stack)
}

// A whole log: the opening and then the calls, each line filled in. A refused opening alters nothing; after an accepted one the lines and
// the session are those of the plain session from its opening on.
pub fn replay<P: Processor, B: Bus>(
    bus: &mut B,
    journal: &mut [Entry<P>],
    tape: &[u32],
    stack: u16,
    lines: &mut [Line<P>],
) -> Result<Session<P>, Refusal>
    ensures opened { opening_answer result ≡ load_answer (loaded (B.Bus.places bus.old) (B.Bus.view bus.old) tape.now) }
    ensures after { MatchResult result
        (λ s. snapshot s (B.Bus.view bus.new) journal.new ≡ log_after P.Processor.rules lines.old
        (opened P.Processor.rules stack (B.Bus.view bus.old) tape.now journal.old))
        (λ e. (B.Bus.view bus.new ≡ B.Bus.view bus.old) × (journal.new ≡ journal.old) × (lines.new ≡ lines.old)) }
    ensures log { MatchResult result
        (λ s. Logged P.Processor.rules (B.Bus.places bus.old) (opening P.Processor.rules stack (B.Bus.view bus.old) tape.now)
        (length journal.old) lines.old lines.new (snapshot s (B.Bus.view bus.new) journal.new)
        (fresh (opening P.Processor.rules stack (B.Bus.view bus.old) tape.now)))
        (λ e. Unit {0}) }
    ensures places { B.Bus.places bus.new ≡ B.Bus.places bus.old }
{
    an_opened_log_stands(bus, journal, tape, stack, lines);
    let mut session = open(bus, journal, tape, stack)?;
    carry_on(&mut session, bus, journal, lines);
    Ok(session)
}
