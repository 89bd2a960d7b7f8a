// Whether slots hold the labels of a text.
ghost use Rattle.std.specs.Prelude.{◌≡◌, ◌≤◌, [], ◌∷◌, ◌++◌, length, take, IfSome};
ghost use Rattle.page_text.specs.Sayings.{line_read};
ghost use Rattle.pages.specs.Labels.{begins_with};
ghost use Rattle.pages.specs.Page.{gained, shelved, gathers, page, gathering};
ghost use Rattle.pages.specs.Program.{held, held_line};

use crate::LONGEST_TEXT;
use crate::label::Label;
use crate::line::{Gain, add_line};
use page_tokens::Lines;

// How many labels are in the first slots up to this line, and the address after it. Copied from line to line, which `Gathered`, handed
// on once, is not.
#[derive(Clone, Copy, Debug, PartialEq, Eq)]
pub(crate) struct Progress {
    pub(crate) labels: usize,
    pub(crate) size: usize,
}

// Whether a label is in the slot after those found.
fn is_next(label: Label, slots: &[Label], found: usize) -> bool
    requires { found ≤ length slots.now }
    ensures { result ≡ begins_with (take found slots.now ++ label ∷ []) slots.now }
{
    found < slots.len() && label == slots[found]
}

// A line whose label, if it has one, is in the next slot; none where it is not, or the line is refused.
fn check_line(line: &[u8], slots: &[Label], so_far: Progress) -> Option<Progress>
    requires { so_far.labels ≤ length slots.now }
    ensures held { result ≡ held_line slots.now (shelved (take so_far.labels slots.now)
        (gained (length slots.now) (take so_far.labels slots.now) so_far.size (line_read line.now))) }
    ensures within { IfSome result (λ p. p.labels ≤ length slots.now) }
{
    let found = so_far.labels;
    let Gain { label, next: size } = add_line(
        line,
        &slots[..found],
        slots.len(),
        so_far.size,
    ).ok()?;
    let Some(label) = label else {
        return Some(Progress {
            labels: found,
            size,
        });
    };
    is_next(label, slots, found).then_some(Progress {
        labels: found + 1,
        size,
    })
}

// Whether the first slots hold the labels of all lines. A loop, since a fold may not ask that the labels found so far lie in the slots.
fn check_lines(text: &[u8], slots: &[Label]) -> Option<Progress>
    ensures { result ≡ held slots.now (gathers (length slots.now) (page text.now) [] 0 1) }
{
    let mut so_far = Progress { labels: 0, size: 0 };
    for line in Lines::of(text) {
        so_far = check_line(line, slots, so_far)?;
    }
    Some(so_far)
}

// How many labels a text has in the first slots, and how many words it takes; none where gathering the text would be refused, or
// would leave other labels.
pub(crate) fn check(text: &[u8], slots: &[Label]) -> Option<Progress>
    ensures { result ≡ held slots.now (gathering text.now (length slots.now)) }
{
    if text.len() > LONGEST_TEXT {
        return None;
    }
    check_lines(text, slots)
}
