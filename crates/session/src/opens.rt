// Opening a session on a tape.
ghost use Rattle.std.specs.Prelude.{◌≡◌};
ghost use Rattle.processor.specs.Views.{answer};
ghost use Rattle.tape.specs.Puts.{puts};
ghost use Rattle.session.specs.Opens.{probe_all, write_all, loaded, load_answer, view_after, own_answer, opened};

use crate::state::Session;
use processor::Side;
use processor::bus::{Bus, Processor};
use refusal::Refusal;
use shelf::Shelf;
use tape::check::check;
use tape::puts::Puts;

// Probes each address that a tape writes, in order.
fn probe_tape<B: Bus>(bus: &B, tape: &[u32]) -> Result<(), Refusal>
    ensures { result ≡ answer (B.Bus.places bus.now) (probe_all (B.Bus.view bus.now) (puts tape.now)) }
{
    for put in Puts::of(tape) {
        bus.probe(Side::Memory, put.at)?;
    }
    Ok(())
}

// Writes what a tape puts, in order.
fn write_tape<B: Bus>(bus: &mut B, tape: &[u32])
    ensures after { B.Bus.view bus.new ≡ write_all (B.Bus.view bus.old) (puts tape.now) }
    ensures places { B.Bus.places bus.new ≡ B.Bus.places bus.old }
{
    for put in Puts::of(tape) {
        // the word that was there is not asked for, and each address was probed before
        let _ = bus.exchange(Side::Memory, put.at, put.word);
    }
}

// Puts the words of a tape into the memory; a refusal alters nothing.
#[tactic(auto, using(crate::proofs::OpenLaws::loads_write))]
fn load<B: Bus>(bus: &mut B, tape: &[u32]) -> Result<(), Refusal>
    ensures answer { result ≡ load_answer (loaded (B.Bus.places bus.old) (B.Bus.view bus.old) tape.now) }
    ensures after { B.Bus.view bus.new
        ≡ view_after (loaded (B.Bus.places bus.old) (B.Bus.view bus.old) tape.now) (B.Bus.view bus.old) }
    ensures places { B.Bus.places bus.new ≡ B.Bus.places bus.old }
{
    check(tape)?;
    probe_tape(bus, tape)?;
    write_tape(bus, tape);
    Ok(())
}

impl<P: Processor> Session<P> {
    // A session on a tape, with the stack pointer as given and no journal slot in use: two plain arguments, asked for once.
    pub fn open<B: Bus>(bus: &mut B, tape: &[u32], stack: u16) -> Result<Session<P>, Refusal>
        ensures answer { own_answer result ≡ opened P.Processor.rules stack
            (loaded (B.Bus.places bus.old) (B.Bus.view bus.old) tape.now) }
        ensures after { B.Bus.view bus.new
            ≡ view_after (loaded (B.Bus.places bus.old) (B.Bus.view bus.old) tape.now) (B.Bus.view bus.old) }
        ensures places { B.Bus.places bus.new ≡ B.Bus.places bus.old }
    {
        load(bus, tape)?;
        Ok(Session {
            processor: P::start(stack),
            count: 0,
            journal: Shelf::empty(),
        })
    }
}
