// What one word of a tape says.
ghost use Rattle.std.specs.Prelude.{◌≡◌};
ghost use Rattle.std.specs.Option.{ok_or};
ghost use Rattle.refusal.specs.declared.Cause.TheVariants.{MalformedTapeWord};
ghost use Rattle.tape.specs.Items.{item};

use refusal::Cause;

#[derive(Clone, Copy, Debug, PartialEq, Eq)]
pub enum Item {
    // a word for the place, which then moves on by one
    Put(u16),
    // another place
    Move(u16),
    // the end, with the sum of the words put
    End(u16),
}

// The item of a tape word, if the word is well formed: one arm for each kind.
impl TryFrom<u32> for Item {
    type Error = Cause;

    ghost try_from_gives = { λ word r. r ≡ ok_or (item word) MalformedTapeWord };

    fn try_from(word: u32) -> Result<Item, Cause> {
        if (word >> 16) % 16384 != 0 {
            return Err(Cause::MalformedTapeWord);
        }
        let value = (word % 65536) as u16;
        match word >> 30 {
            0 => Ok(Item::Put(value)),
            1 => Ok(Item::Move(value)),
            3 => Ok(Item::End(value)),
            _ => Err(Cause::MalformedTapeWord),
        }
    }
}
