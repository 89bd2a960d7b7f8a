// Which tapes are well formed.
ghost use Rattle.std.specs.Prelude.{◌≡◌};
ghost use Rattle.tape.specs.Checks.{checked};

use crate::cursor::Cursor;
use crate::item::Item;
use refusal::{Cause, Refusal};

// What is wrong with a tape first, from its first word on.
pub fn check(tape: &[u32]) -> Result<(), Refusal>
    ensures { result ≡ checked tape.now }
{
    let mut cursor = Cursor::start();
    let mut sum = 0u16;
    // A loop and no chain: it carries a place and a sum from word to word, and ends early, at the first word that decides.
    for (i, word) in tape.iter().enumerate() {
        match Item::try_from(*word).map_err(|cause| cause.at(i))? {
            Item::Put(value) => {
                cursor.put(value).ok_or(Cause::PlacePastEnd.at(i))?;
                sum = sum.wrapping_add(value);
            }
            Item::Move(place) => cursor.move_to(place),
            Item::End(_) if i + 1 < tape.len() => {
                return Err(Cause::MisplacedTapeEnd.at(i + 1));
            }
            Item::End(own) if own != sum => return Err(Cause::WrongTapeSum.at(i)),
            Item::End(_) => return Ok(()),
        }
    }
    Err(Cause::MisplacedTapeEnd.at(tape.len()))
}
