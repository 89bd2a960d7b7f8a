// Two sessions on one page.
ghost use Rattle.std.specs.Prelude.{length};
ghost use Rattle.session_log.specs.Alike.{stores, stores_of, left, LeftBy, AlikeAgree};

use crate::line::Line;
use crate::log::replay;
use processor::bus::{Bus, Processor};
use processor::devices::Devices;
use refusal::Refusal;
use session::entry::Entry;
use session::state::Session;
use stores::{ReadStore, WriteStore};

// A log on devices of any makes.
fn replay_on<P: Processor, M: WriteStore, S: WriteStore, K: ReadStore>(
    devices: &mut Devices<M, S, K>,
    journal: &mut [Entry<P>],
    tape: &[u32],
    stack: u16,
    lines: &mut [Line<P>],
) -> Result<Session<P>, Refusal>
    ensures { LeftBy P.Processor.rules tape.now stack (length journal.old)
        (stores_of M.ReadStore.shown M.WriteStore.unlocked S.ReadStore.shown S.WriteStore.unlocked K.ReadStore.shown devices.old) lines.old
        (left result (stores_of M.ReadStore.shown M.WriteStore.unlocked S.ReadStore.shown S.WriteStore.unlocked K.ReadStore.shown devices.new)
        journal.new lines.new) }
{
    replay(devices, journal, tape, stack, lines)
}

// Two logs on one tape with one stack start, over stores of any two makes and journals of any two lengths. Where memories, screens and
// keys are alike, the two agree after any two lines at which as many instructions are done.
pub fn replay_both<
    P: Processor,
    M: WriteStore,
    S: WriteStore,
    K: ReadStore,
    N: WriteStore,
    T: WriteStore,
    L: ReadStore,
>(
    one: &mut Devices<M, S, K>,
    two: &mut Devices<N, T, L>,
    journal: &mut [Entry<P>],
    other: &mut [Entry<P>],
    tape: &[u32],
    stack: u16,
    lines: &mut [Line<P>],
    rows: &mut [Line<P>],
) -> (Result<Session<P>, Refusal>, Result<Session<P>, Refusal>)
    ensures agreed { AlikeAgree P.Processor.rules tape.now stack
        (stores (M.ReadStore.shown one.old.memory) (M.WriteStore.unlocked one.old.memory)
        (S.ReadStore.shown one.old.screen) (S.WriteStore.unlocked one.old.screen) (K.ReadStore.shown one.old.keys))
        (stores (N.ReadStore.shown two.old.memory) (N.WriteStore.unlocked two.old.memory)
        (T.ReadStore.shown two.old.screen) (T.WriteStore.unlocked two.old.screen) (L.ReadStore.shown two.old.keys))
        (left result.0 (stores (M.ReadStore.shown one.new.memory) (M.WriteStore.unlocked one.new.memory)
        (S.ReadStore.shown one.new.screen) (S.WriteStore.unlocked one.new.screen) (K.ReadStore.shown one.new.keys)) journal.new lines.new)
        (left result.1 (stores (N.ReadStore.shown two.new.memory) (N.WriteStore.unlocked two.new.memory)
        (T.ReadStore.shown two.new.screen) (T.WriteStore.unlocked two.new.screen) (L.ReadStore.shown two.new.keys)) other.new rows.new) }
{
    let first = replay_on(one, journal, tape, stack, lines);
    let second = replay_on(two, other, tape, stack, rows);
    (first, second)
}
