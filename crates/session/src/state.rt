// A session's own state.
ghost use Rattle.std.specs.Prelude.{◌≤◌};

use shelf::Shelf;

// The processor, the instructions that are done, and the journal slots in use; the stores and the slots are lent to each call, and a call
// goes by what it is handed. So each call names the bus and the journal, and says that the bus keeps its places; and two sessions with the
// same numbers need not be the same, so they are not compared.
#[derive(Drop)]
pub struct Session<P> {
    pub(crate) processor: P,
    pub(crate) count: u32,
    pub(crate) journal: Shelf,
    ghost bounded: { (journal.used ≤ count) × (count ≤ 4000000000) },
}
