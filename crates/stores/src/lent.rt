// What the stores over lent memory share.
ghost use Rattle.std.specs.Prelude.{◌≡◌, true, slice_get};
ghost use Rattle.std.specs.Option.{ok_or};
ghost use Rattle.refusal.specs.declared.Cause.TheVariants.{Absent};
ghost use Rattle.refusal.specs.Numbers.{refused};
ghost use Rattle.stores.specs.Cells.{writes};

use crate::ReadStore;
use refusal::{Cause, Refusal};

// The refusal of an absent address.
pub(crate) fn absent(at: u16) -> Refusal
    ensures { result ≡ refused Absent at }
{
    Cause::Absent.at(usize::from(at))
}

// The element at an address, or refusal 16.
pub(crate) fn cell<T: Copy>(cells: &[T], at: u16) -> Result<T, Refusal>
    ensures { result ≡ ok_or (slice_get cells.now at) (refused Absent at) }
{
    cells.get(usize::from(at)).copied().ok_or(absent(at))
}

// What a write to a store with no closed address would answer.
pub(crate) fn present<S: ReadStore>(store: &S, at: u16) -> Result<(), Refusal>
    ensures { result ≡ writes (S.ReadStore.shown store.now at) true (S.ReadStore.place store.now at) at }
{
    store.read(at)?;
    Ok(())
}
