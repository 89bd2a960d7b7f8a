// One line of a log.
ghost use Rattle.std.specs.Prelude.{◌≡◌, length};
ghost use Rattle.processor.specs.Rules.{State};
ghost use Rattle.session.specs.Snapshots.{snapshot};
ghost use Rattle.session_log.specs.Plain.{Plain};
ghost use Rattle.session_log.specs.Stands.{Stands};
ghost use Rattle.session_log.specs.Logs.{Answered, CallStands};
ghost use Rattle.session_log.specs.Replies.{told_line};
ghost use Rattle.session_log.specs.Serving.{serves, line_by};

use crate::line::{Answer, Call, Line};
use processor::bus::{Bus, Processor};
use refusal::Refusal;
use session::entry::Entry;
use session::state::Session;

// A call goes as on the plain session that the session stands as; a call of this does nothing.
fn a_call_stands<P: Processor, B: Bus>(
    session: &Session<P>,
    bus: &B,
    journal: &[Entry<P>],
    call: Call,
)
    ensures { CallStands P.Processor.rules (B.Bus.places bus.now) call
        (snapshot session.now (B.Bus.view bus.now) journal.now)
        (told_line (B.Bus.places bus.now)
        (serves P.Processor.rules call (snapshot session.now (B.Bus.view bus.now) journal.now)).reply)
        (serves P.Processor.rules call (snapshot session.now (B.Bus.view bus.now) journal.now)).after }
{}

// One call on an open session. Where the session stands as some plain session, the call answers as that one does, and leaves the session
// standing as that one after the call.
#[tactic(auto, unfolding(crate::specs::Serving::by_run, crate::specs::Serving::by_back))]
pub fn serve<P: Processor, B: Bus>(
    session: &mut Session<P>,
    bus: &mut B,
    journal: &mut [Entry<P>],
    call: Call,
) -> Result<Answer, Refusal>
    ensures answer { result ≡ told_line (B.Bus.places bus.old)
        (serves P.Processor.rules call (snapshot session.old (B.Bus.view bus.old) journal.old)).reply }
    ensures after { snapshot session.new (B.Bus.view bus.new) journal.new
        ≡ (serves P.Processor.rules call (snapshot session.old (B.Bus.view bus.old) journal.old)).after }
    ensures places { B.Bus.places bus.new ≡ B.Bus.places bus.old }
    ensures stands { (w : State P) (s : Plain P)
        → Stands P.Processor.rules w (length journal.old) (snapshot session.old (B.Bus.view bus.old) journal.old) s
        → Answered P.Processor.rules (B.Bus.places bus.old) w (length journal.old) call result
        (snapshot session.new (B.Bus.view bus.new) journal.new) s }
{
    a_call_stands(session, bus, journal, call);
    match call {
        Call::Run(count) => session.run(bus, journal, count).map(Answer::Ran),
        Call::Back(count) => session.back(bus, journal, count).map(Answer::Taken),
        Call::Forget => {
            session.forget();
            Ok(Answer::Forgotten)
        }
        Call::Look(spot) => session.look(bus, spot).map(Answer::Word),
    }
}

// A line's call, and the line filled in.
pub(crate) fn serve_line<P: Processor, B: Bus>(
    session: &mut Session<P>,
    bus: &mut B,
    journal: &mut [Entry<P>],
    line: Line<P>,
) -> Line<P>
    ensures line { result ≡ line_by (B.Bus.places bus.old) line
        (serves P.Processor.rules line.call (snapshot session.old (B.Bus.view bus.old) journal.old)) }
    ensures after { snapshot session.new (B.Bus.view bus.new) journal.new
        ≡ (serves P.Processor.rules line.call (snapshot session.old (B.Bus.view bus.old) journal.old)).after }
    ensures places { B.Bus.places bus.new ≡ B.Bus.places bus.old }
{
    let answer = serve(session, bus, journal, line.call);
    Line {
        answer,
        count: session.count(),
        processor: session.processor(),
        ..line
    }
}
