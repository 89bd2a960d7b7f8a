// Labels: the names of a page and what they stand for.
ghost use Rattle.std.specs.Prelude.{◌≡◌, ◌≤◌, length, take};
ghost use Rattle.pages.specs.Labels.{no_label, find_label};

use page_tokens::Name;

// A name, the address of its line, and how many words its line's variable has; 0 where the line is no variable, so that one comparison
// tells whether a word lies in it.
#[derive(Clone, Copy, Debug, PartialEq, Eq)]
pub struct Label {
    pub name: Name,
    pub address: u16,
    pub room: u16,
}

impl Label {
    // What an empty slot holds, since lent slots have to hold something: no line has a name of blanks.
    pub fn vacant() -> Label
        ensures { result ≡ no_label }
    {
        Label {
            name: Name {
                letters: [b' '; 32],
            },
            address: 0,
            room: 0,
        }
    }
}

// The label with a name, if there is one.
pub fn find(labels: &[Label], name: &Name) -> Option<Label>
    ensures { result ≡ find_label labels.now name.now }
{
    labels.iter().find(|label| label.name == *name).copied()
}

// The labels of a page, of which so many are on the lines up to one of them. Nobody compares two of these.
#[derive(Clone, Copy, Debug)]
pub(crate) struct Scope<'a> {
    pub(crate) labels: &'a [Label],
    pub(crate) above: usize,
    ghost within: { above ≤ length labels.now },
}

impl Scope<'_> {
    // The label with a name.
    pub(crate) fn find(self, name: &Name) -> Option<Label>
        ensures { result ≡ find_label self.entry.labels.now name.now }
    {
        find(self.labels, name)
    }

    // The label with a name, if it is on a line up to this one.
    pub(crate) fn find_above(self, name: &Name) -> Option<Label>
        ensures { result ≡ find_label (take self.entry.above self.entry.labels.now) name.now }
    {
        find(&self.labels[..self.above], name)
    }
}
