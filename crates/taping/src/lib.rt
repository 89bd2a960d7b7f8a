// Taping: a placed program, written as a tape.
#![tactic(auto)]

ghost use Rattle.std.specs.Prelude.{◌≡◌, ◌+◌, ◌≤◌, ◌++◌, length, take, drop, IfOk};
ghost use Rattle.shelf.specs.SliceVecs.{items, free, NowHolds};
ghost use Rattle.taping.specs.Tapes.{checksum, tape_of, tape_fault, tape_answer, tape_after, HoldsProgram};

use pages::Placed;
use refusal::{Cause, Refusal};
use shelf::slice_vec::SliceVec;

// A program that was not taped, handed back, and why; not compared, as a program is not.
#[derive(Debug, Drop)]
pub struct Untaped {
    pub placed: Placed,
    pub refusal: Refusal,
}

// Why it was not taped; the program is given up.
impl From<Untaped> for Refusal {
    ghost from_gives = { λ untaped refusal. refusal ≡ untaped.refusal };

    fn from(untaped: Untaped) -> Refusal {
        untaped.refusal
    }
}

// The sum of words modulo 65,536.
fn add_up(words: &[u16]) -> u16
    ensures { result ≡ checksum words.now }
{
    words
        .iter()
        .fold(0, |sum: u16, word| sum.wrapping_add(*word))
}

// A kind 0 word for each word of the program: wider than it, so none is copied as it is.
fn put_program(tape: &mut SliceVec<'_, u32>, words: &[u16])
    requires { length words.now ≤ length (free tape.old) }
    ensures { NowHolds tape.old tape.new (items tape.old ++ words.now) }
{
    for word in words {
        tape.push(u32::from(*word)).unwrap();
    }
}

// The tape of a program: its first word, the program, and its last word with the sum.
fn put_tape(tape: &mut SliceVec<'_, u32>, words: &[u16])
    requires { length words.now + 2 ≤ length (free tape.old) }
    ensures { NowHolds tape.old tape.new (items tape.old ++ tape_of words.now) }
{
    tape.push(0x4000_0000).unwrap();
    put_program(tape, words);
    tape.push(0xc000_0000 + u32::from(add_up(words))).unwrap();
}

// The tape of a program in the first places; how many it takes.
fn write(words: &[u16], tape: &mut [u32]) -> usize
    requires { length words.now + 2 ≤ length tape.old }
    ensures size { result ≡ length words.now + 2 }
    ensures tape { tape.new ≡ tape_of words.now ++ drop (length words.now + 2) tape.old }
{
    let mut places = SliceVec::of(tape);
    put_tape(&mut places, words);
    places.len()
}

// The tape of a placed program: its words are the first of those lent, and its tape goes into the first places. It answers how many places the
// tape takes. A refusal alters nothing, and hands the program back.
pub fn tape(placed: Placed, words: &[u16], tape: &mut [u32]) -> Result<usize, Untaped>
    ensures answer { result ≡ tape_answer placed (tape_fault placed.size (length words.now) (length tape.old)) }
    ensures holds { IfOk result (λ n. HoldsProgram (take placed.size words.now) (take n tape.new)) }
    ensures tape { tape.new ≡ tape_after (tape_fault placed.size (length words.now) (length tape.old))
        (take placed.size words.now) tape.old }
{
    let size = placed.size();
    if words.len() < size {
        return Err(Untaped {
            placed,
            refusal: Cause::TooManyWords.at(0),
        });
    }
    if tape.len() < size + 2 {
        return Err(Untaped {
            placed,
            refusal: Cause::TapeTooShort.at(0),
        });
    }
    Ok(write(&words[0..size], tape))
}
