// Rounds of a run and a forget. Bus and journal are named by each call, as by the session's own.
ghost use Rattle.std.specs.Prelude.{◌≡◌, length, IfOk};
ghost use Rattle.session.specs.Runs.{told_stop};
ghost use Rattle.session.specs.Opens.{loaded, load_answer};
ghost use Rattle.session_log.specs.Logs.{opening, opened};
ghost use Rattle.long_run.specs.LongRuns.{long_run, reported, report_answer, view_then, RanOut};
ghost use Rattle.session.specs.Snapshots.{snapshot};
ghost use Rattle.icmc.specs.Steps.{machine_rules};
ghost use Rattle.long_run.specs.Rounds.{stop_of, one_round, rounds};

use crate::report::Report;
use icmc::machine::Machine;
use processor::bus::Bus;
use refusal::Refusal;
use session::answers::Stop;
use session::entry::Entry;
use session::state::Session;
use session_log::line::{Answer, Call, Line};
use session_log::log::{carry_on, replay};

// The stop on a line that a run is asked for on.
fn stop_of(answer: Result<Answer, Refusal>) -> Stop
    ensures { result ≡ stop_of answer }
{
    match answer {
        Ok(Answer::Ran(ran)) => ran.stop,
        // No run answers this; like its definition, the function is total over what a line can answer.
        Ok(_) => Stop::CountReached,
        Err(refusal) => Stop::from(refusal),
    }
}

// One round: 1,000 instructions, then all journal slots freed; a further piece of the page's log.
fn round<B: Bus>(
    session: &mut Session<Machine>,
    bus: &mut B,
    journal: &mut [Entry<Machine>],
) -> Stop
    ensures stop { result ≡ (one_round machine_rules (B.Bus.places bus.old) 1000
        (snapshot session.old (B.Bus.view bus.old) journal.old)).stop }
    ensures after { snapshot session.new (B.Bus.view bus.new) journal.new
        ≡ (one_round machine_rules (B.Bus.places bus.old) 1000
        (snapshot session.old (B.Bus.view bus.old) journal.old)).after }
    ensures places { B.Bus.places bus.new ≡ B.Bus.places bus.old }
{
    let mut lines = [Line::asking(Call::Run(1000)), Line::asking(Call::Forget)];
    carry_on(session, bus, journal, &mut lines);
    stop_of(lines[0].answer)
}

// At most 1,000 rounds, as long as each does its 1,000.
fn run_rounds<B: Bus>(
    session: &mut Session<Machine>,
    bus: &mut B,
    journal: &mut [Entry<Machine>],
) -> Stop
    ensures stop { result ≡ (rounds machine_rules (B.Bus.places bus.old) 1000 1000
        (snapshot session.old (B.Bus.view bus.old) journal.old)).stop }
    ensures after { snapshot session.new (B.Bus.view bus.new) journal.new
        ≡ (rounds machine_rules (B.Bus.places bus.old) 1000 1000
        (snapshot session.old (B.Bus.view bus.old) journal.old)).after }
    ensures places { B.Bus.places bus.new ≡ B.Bus.places bus.old }
{
    for _ in 0..1000u16 {
        let stop = round(session, bus, journal);
        if stop != Stop::CountReached {
            return stop;
        }
    }
    Stop::CountReached
}

// The rounds come to one run of 1,000,000; a call of this does nothing.
fn rounds_make_one_run<B: Bus>(bus: &B, journal: &[Entry<Machine>], tape: &[u32], stack: u16)
    ensures stop { (rounds machine_rules (B.Bus.places bus.now) 1000 1000
        (opened machine_rules stack (B.Bus.view bus.now) tape.now journal.now)).stop
        ≡ told_stop (B.Bus.places bus.now)
        (long_run machine_rules (length journal.now) (opening machine_rules stack (B.Bus.view bus.now) tape.now)).ending }
    ensures count { (rounds machine_rules (B.Bus.places bus.now) 1000 1000
        (opened machine_rules stack (B.Bus.view bus.now) tape.now journal.now)).after.count
        ≡ (long_run machine_rules (length journal.now) (opening machine_rules stack (B.Bus.view bus.now) tape.now)).done }
    ensures state { (rounds machine_rules (B.Bus.places bus.now) 1000 1000
        (opened machine_rules stack (B.Bus.view bus.now) tape.now journal.now)).after.state
        ≡ (long_run machine_rules (length journal.now) (opening machine_rules stack (B.Bus.view bus.now) tape.now)).plain.last }
    ensures page { RanOut (B.Bus.places bus.now) (length journal.now)
        (opening machine_rules stack (B.Bus.view bus.now) tape.now)
        (reported (B.Bus.places bus.now)
        (long_run machine_rules (length journal.now) (opening machine_rules stack (B.Bus.view bus.now) tape.now)))
        (long_run machine_rules (length journal.now) (opening machine_rules stack (B.Bus.view bus.now) tape.now)
        ).plain.last.view }
{}

// A page opened and run to its end: until something stops it, and for at most 1,000,000 instructions. The journal needs 1,000 slots, being
// emptied after each 1,000 instructions; a shorter one stops the page when it is full.
pub fn run_out<B: Bus>(
    bus: &mut B,
    journal: &mut [Entry<Machine>],
    tape: &[u32],
    stack: u16,
) -> Result<Report, Refusal>
    ensures answer { result ≡ report_answer (B.Bus.places bus.old)
        (long_run machine_rules (length journal.old) (opening machine_rules stack (B.Bus.view bus.old) tape.now))
        (load_answer (loaded (B.Bus.places bus.old) (B.Bus.view bus.old) tape.now)) }
    ensures view { B.Bus.view bus.new ≡ view_then
        (long_run machine_rules (length journal.old) (opening machine_rules stack (B.Bus.view bus.old) tape.now))
        (load_answer (loaded (B.Bus.places bus.old) (B.Bus.view bus.old) tape.now)) (B.Bus.view bus.old) }
    ensures page { IfOk result (λ x. RanOut (B.Bus.places bus.old) (length journal.old)
        (opening machine_rules stack (B.Bus.view bus.old) tape.now) x (B.Bus.view bus.new)) }
    ensures places { B.Bus.places bus.new ≡ B.Bus.places bus.old }
{
    rounds_make_one_run(bus, journal, tape, stack);
    let mut session = replay(bus, journal, tape, stack, &mut [])?;
    let stop = run_rounds(&mut session, bus, journal);
    Ok(Report {
        count: session.count(),
        stop,
        machine: session.processor(),
    })
}
