// A page from its text to its tape. Slots, words and places are lent to one call after another, so each names them.
ghost use Rattle.std.specs.Prelude.{◌≡◌, ◌≤◌, length, take, IfOk, Ok, Err, MatchResult};
ghost use Rattle.scoring.specs.Assembly.{program_of, taped, assembled, size_answer, tape_then, Translated, PagePlaced, PageTaped};
ghost use Rattle.taping.specs.Tapes.{HoldsProgram};

use pages::{Label, Placed, gather, place};
use refusal::Refusal;

// The program of a page, placed in the first words.
fn translate(text: &[u8], labels: &mut [Label], words: &mut [u16]) -> Result<Placed, Refusal>
    ensures program { MatchResult result
        (λ p. program_of text.now (length labels.old) (length words.old) ≡ Ok (take p.size words.new))
        (λ e. program_of text.now (length labels.old) (length words.old) ≡ Err e) }
    ensures left { Translated text.now labels.old labels.new words.old words.new }
    ensures page { IfOk result (λ p. PagePlaced text.now (take p.size words.new)) }
    ensures size { IfOk result (λ p. p.size ≤ length words.new) }
{
    let gathered = gather(text, labels)?;
    place(gathered, text, labels, words)
}

// The tape of a placed program, in the first places; how many it takes.
fn write_tape(placed: Placed, words: &[u16], tape: &mut [u32]) -> Result<usize, Refusal>
    requires { placed.size ≤ length words.now }
    ensures answer { result ≡ size_answer (taped (length tape.old) (Ok (take placed.size words.now))) }
    ensures after { tape.new ≡ tape_then (taped (length tape.old) (Ok (take placed.size words.now))) tape.old }
    ensures holds { IfOk result (λ n. HoldsProgram (take placed.size words.now) (take n tape.new)) }
{
    Ok(taping::tape(placed, words, tape)?)
}

// Assembles a page: its labels go into the first slots, its program into the first words, its tape into the first places. It answers how
// many places the tape takes.
pub fn assemble(
    text: &[u8],
    labels: &mut [Label],
    words: &mut [u16],
    tape: &mut [u32],
) -> Result<usize, Refusal>
    ensures answer { result ≡ size_answer (assembled text.now (length labels.old) (length words.old) (length tape.old)) }
    ensures tape { tape.new ≡ tape_then
        (assembled text.now (length labels.old) (length words.old) (length tape.old)) tape.old }
    ensures left { Translated text.now labels.old labels.new words.old words.new }
    ensures page { IfOk result (λ n. PageTaped text.now (take n tape.new)) }
{
    let placed = translate(text, labels, words)?;
    write_tape(placed, words, tape)
}
