// Gathering: a page's names, put into slots.
ghost use Rattle.std.specs.Prelude.{◌≡◌, [], length, IfOk, OnErr};
ghost use Rattle.page_text.specs.Sayings.{line_read};
ghost use Rattle.shelf.specs.SliceVecs.{items, NowHolds};
ghost use Rattle.pages.specs.Laws.{NamesIfOk};
ghost use Rattle.pages.specs.Page.{gathers, page, gathering, gather_answer, slots_after, GathersLine};

use crate::LONGEST_TEXT;
use crate::label::Label;
use crate::line::add_line;
use page_tokens::Lines;
use refusal::{Cause, Refusal};
use shelf::slice_vec::SliceVec;

// A text that was gathered: how many names it has, and how many words it takes. It is given up to place the text, and not compared.
#[derive(Debug, Drop)]
pub struct Gathered {
    pub(crate) labels: usize,
    pub(crate) size: usize,
}

impl Gathered {
    // How many words the text takes.
    pub fn size(&self) -> usize
        ensures { result ≡ self.now.size }
    {
        self.size
    }
}

// Puts the label of a line, if it has one, into the next slot; answers the address after the line's words.
fn gather_line(
    line: &[u8],
    labels: &mut SliceVec<'_, Label>,
    at: usize,
    number: usize,
) -> Result<usize, Refusal>
    ensures gathers { GathersLine labels.old labels.new at number (line_read line.now) result }
    ensures kept { OnErr result (NowHolds labels.old labels.new (items labels.old)) }
{
    let gain = add_line(line, labels.as_slice(), labels.capacity(), at).map_err(|cause| cause.at(
        number,
    ))?;
    if let Some(label) = gain.label {
        labels.push(label).unwrap();
    }
    Ok(gain.next)
}

// The labels of all lines in the first slots.
fn gather_lines(text: &[u8], slots: &mut [Label]) -> Result<Gathered, Refusal>
    ensures answer { result ≡ gather_answer (gathers (length slots.old) (page text.now) [] 0 1) }
    ensures slots { IfOk result (λ g. slots.new ≡ slots_after (gathers (length slots.old) (page text.now) [] 0 1) slots.old) }
{
    let mut labels = SliceVec::of(slots);
    let mut size = 0;
    for (i, line) in Lines::of(text).enumerate() {
        size = gather_line(line, &mut labels, size, i + 1)?;
    }
    Ok(Gathered {
        labels: labels.len(),
        size,
    })
}

fn gather_text(text: &[u8], slots: &mut [Label]) -> Result<Gathered, Refusal>
    ensures answer { result ≡ gather_answer (gathering text.now (length slots.old)) }
    ensures slots { IfOk result (λ g. slots.new ≡ slots_after (gathering text.now (length slots.old)) slots.old) }
{
    if text.len() > LONGEST_TEXT {
        return Err(Cause::TextTooLong.at(0));
    }
    gather_lines(text, slots)
}

// Gathers the names of a text into the first slots, each with the address of its line; a refusal empties all slots.
#[tactic(auto, using(crate::proofs::LawsHold::names_hold))]
pub fn gather(text: &[u8], slots: &mut [Label]) -> Result<Gathered, Refusal>
    ensures answer { result ≡ gather_answer (gathering text.now (length slots.old)) }
    ensures slots { slots.new ≡ slots_after (gathering text.now (length slots.old)) slots.old }
    ensures names { NamesIfOk text.now (gathering text.now (length slots.old)) }
{
    let gathered = gather_text(text, slots);
    if gathered.is_err() {
        slots.fill(Label::vacant());
    }
    gathered
}
