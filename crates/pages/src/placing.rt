// Placing: a page's words, put into those lent.
ghost use Rattle.std.specs.Prelude.{◌≡◌, ◌≤◌, [], length, IfOk, OnOk};
ghost use Rattle.page_text.specs.Sayings.{line_read, reading_of};
ghost use Rattle.shelf.specs.SliceVecs.{items};
ghost use Rattle.pages.specs.Laws.{ProgramIfOk};
ghost use Rattle.pages.specs.Puts.{Puts};
ghost use Rattle.pages.specs.Page.{page, on_line};
ghost use Rattle.pages.specs.Program.{with_line, extended, Fits, names_with, line_size, GatheredOn, places, placing, place_answer, words_after, slots_left};

use crate::check::check;
use crate::gathering::Gathered;
use crate::label::{Label, Scope};
use crate::statement::put_statement;
use page_text::{Line, read_line};
use page_tokens::Lines;
use refusal::{Cause, Refusal};
use shelf::slice_vec::SliceVec;

// A placed program: how many words it has. The words are the lender's, who reads them after the loan.
// It is given up to tape the program, and not compared.
#[derive(Debug, Drop)]
pub struct Placed {
    pub(crate) size: usize,
}

// Puts the words of a line.
fn put_line(line: Line<'_>, scope: Scope<'_>, program: &mut SliceVec<'_, u16>) -> Result<(), Cause>
    requires { Fits (length (items program.old)) (length program.old.slots.now) (reading_of line).saying }
    ensures { Puts program.old program.new (line_size (reading_of line.entry)) (with_line scope.entry.labels.now scope.entry.above
        (items program.old) (reading_of line.entry).saying) result }
{
    put_statement(line.statement?, scope, program)
}

// Puts the words of a line of a text; answers how many labels are on the lines up to it.
#[tactic(auto, unfolding(crate::specs::Program::extended))]
fn place_line(
    line: &[u8],
    scope: Scope<'_>,
    program: &mut SliceVec<'_, u16>,
    number: usize,
) -> Result<usize, Refusal>
    requires { Fits (length (items program.old)) (length program.old.slots.now) (line_read line.now).saying }
    ensures words { Puts program.old program.new (line_size (line_read line.now)) (on_line number
        (extended scope.entry.labels.now scope.entry.above (items program.old) (line_read line.now))) result }
    ensures names { IfOk result (λ names. names ≡ names_with scope.entry.above (line_read line.now).name) }
{
    let line = read_line(line);
    put_line(line, scope, program).map_err(|cause| cause.at(number))?;
    Ok(scope.above + usize::from(line.name.is_some()))
}

// Puts the words of all lines.
fn place_lines(text: &[u8], labels: &[Label], words: &mut [u16]) -> Result<Placed, Refusal>
    requires { GatheredOn (page text.now) labels.now 0 0 (length words.old) 1 }
    ensures answer { result ≡ place_answer (places labels.now (page text.now) 0 [] 1) }
    ensures words { OnOk result (words.new ≡ words_after (places labels.now (page text.now) 0 [] 1) words.old) }
{
    let mut program = SliceVec::of(words);
    let mut above = 0;
    for (i, line) in Lines::of(text).enumerate() {
        above = place_line(line, Scope { labels, above }, &mut program, i + 1)?;
    }
    Ok(Placed {
        size: program.len(),
    })
}

// Places a text whose labels are in the first slots.
fn place_gathered(text: &[u8], slots: &[Label], words: &mut [u16]) -> Result<Placed, Refusal>
    ensures answer { result ≡ place_answer (placing text.now slots.now (length words.old)) }
    ensures words { OnOk result (words.new ≡ words_after (placing text.now slots.now (length words.old)) words.old) }
{
    let found = check(text, slots).ok_or(Cause::NotGathered.at(0))?;
    if words.len() < found.size {
        return Err(Cause::TooManyWords.at(0));
    }
    place_lines(text, &slots[..found.labels], words)
}

// Places a gathered text: its words go into the first of those lent. It goes by the text and the slots that it is handed. A refusal empties
// all slots and zeroes all words.
#[tactic(auto, using(crate::proofs::LawsHold::program_holds))]
pub fn place(
    gathered: Gathered,
    text: &[u8],
    slots: &mut [Label],
    words: &mut [u16],
) -> Result<Placed, Refusal>
    ensures answer { result ≡ place_answer (placing text.now slots.old (length words.old)) }
    ensures words { words.new ≡ words_after (placing text.now slots.old (length words.old)) words.old }
    ensures slots { slots.new ≡ slots_left (placing text.now slots.old (length words.old)) slots.old }
    ensures program { ProgramIfOk text.now slots.old (placing text.now slots.old (length words.old)) }
{
    let Gathered { labels: _, size: _ } = gathered;
    let placed = place_gathered(text, slots, words);
    if placed.is_err() {
        slots.fill(Label::vacant());
        words.fill(0);
    }
    placed
}

impl Placed {
    // How many words the program has.
    pub fn size(&self) -> usize
        ensures { result ≡ self.now.size }
    {
        self.size
    }
}
