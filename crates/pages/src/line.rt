// What a line of a page adds to those before it.
ghost use Rattle.std.specs.Prelude.{◌≡◌, ◌<◌, length, IfSome, IfOk};
ghost use Rattle.page_text.specs.Sayings.{line_read, saying_of};
ghost use Rattle.pages.specs.Page.{size_of, room_of, labelled, name_fault, checked_name, sized, gain, gained};

use crate::label::{Label, find};
use page_text::{Statement, read_line};
use page_tokens::Name;
use refusal::Cause;

// The label of the line, if it has a name, and the address after its words.
#[derive(Clone, Copy, Debug, PartialEq, Eq)]
pub struct Gain {
    pub label: Option<Label>,
    pub next: usize,
}

// How many words a statement takes.
pub(crate) fn size(statement: Statement<'_>) -> usize
    ensures { result ≡ size_of (saying_of statement.entry) }
{
    match statement {
        Statement::Empty | Statement::Static(..) => 0,
        Statement::OneWord(_) => 1,
        Statement::TwoWords(..) => 2,
        Statement::Var(words) => usize::from(words),
        Statement::Text(letters) => letters.len() + 1,
    }
}

fn room(statement: Statement<'_>) -> u16
    ensures { result ≡ room_of (saying_of statement.entry) }
{
    match statement {
        Statement::Var(words) => words,
        _ => 0,
    }
}

// Whether a line's name is new, and a slot is left for it: one arm for each refusal, in their order.
fn check_name(name: Option<Name>, labels: &[Label], slots: usize) -> Result<(), Cause>
    ensures { result ≡ checked_name (name_fault slots labels.now name) }
{
    match name {
        Some(name) if find(labels, &name).is_some() => Err(Cause::DuplicateName),
        Some(_) if labels.len() >= slots => Err(Cause::LabelSlotsFull),
        _ => Ok(()),
    }
}

// The label of a line at an address, if the line has a name.
fn label_of(name: Option<Name>, at: usize, statement: Statement<'_>) -> Option<Label>
    ensures { result ≡ labelled (saying_of statement.entry) at name }
{
    Some(Label {
        name: name?,
        address: (at % 65536) as u16,
        room: room(statement),
    })
}

// The words of a statement, at an address.
fn add_words(name: Option<Name>, at: usize, statement: Statement<'_>) -> Result<Gain, Cause>
    ensures { result ≡ sized name at (saying_of statement.entry) }
{
    let next = at.saturating_add(size(statement));
    if next > 65536 {
        return Err(Cause::TooManyWords);
    }
    Ok(Gain {
        label: label_of(name, at, statement),
        next,
    })
}

// What a line adds at an address, after lines with these labels: its name is checked first, then its statement, then its words.
// The labels and how many slots there are: checking reads labels in slots of which no more are used, so no list that grows has both.
#[tactic(auto, unfolding(crate::specs::Page::gained))]
pub(crate) fn add_line(
    line: &[u8],
    labels: &[Label],
    slots: usize,
    at: usize,
) -> Result<Gain, Cause>
    ensures gain { result ≡ gained slots labels.now at (line_read line.now) }
    ensures room { IfOk result (λ g. IfSome g.label (λ l. length labels.now < slots)) }
{
    let line = read_line(line);
    check_name(line.name, labels, slots)?;
    add_words(line.name, at, line.statement?)
}
