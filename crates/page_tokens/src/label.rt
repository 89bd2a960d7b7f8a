// The name at a line's beginning.
ghost use Rattle.std.specs.Prelude.{◌≡◌, MatchOption, unwrap_or};
ghost use Rattle.page_tokens.specs.Symbols.{symbols};
ghost use Rattle.page_tokens.specs.Labels.{label_in, past_label, past_token};

use crate::name::Name;
use crate::token::{Token, Tokens};

// Puts back the tokens at its end, unless the colon was found: then none are to be put back. So no way out of a look can forget to.
// Nobody prints or compares it.
struct Look<'t, 'a> {
    tokens: &'t mut Tokens<'a>,
    back: Option<Tokens<'a>>,
}

impl Drop for Look<'_, '_> {
    fn drop(self)
        ensures { self.exit.0.now ≡ unwrap_or self.entry.back self.entry.tokens.now }
    {
        if let Some(back) = self.back {
            *self.tokens = back;
        }
        let Look { tokens: _, back: _ } = self;
    }
}

impl<'a> Tokens<'a> {
    // The name that stands before a colon, both of which are then read; where no colon stands, nothing is read.
    pub fn label(&mut self) -> Option<Name>
        ensures name { result ≡ label_in (symbols self.old.rest.now) }
        ensures bytes { MatchOption result (self.new.rest.now ≡ self.old.rest.now)
            (λ _. self.new.rest.now ≡ past_token (past_token self.old.rest.now)) }
        ensures left { symbols self.new.rest.now ≡ past_label (label_in (symbols self.old.rest.now)) (symbols self.old.rest.now) }
    {
        let back = Some(*self);
        let mut look = Look { tokens: self, back };
        let Some(Token::Word(name)) = look.tokens.next() else {
            return None;
        };
        let Some(Token::Colon) = look.tokens.next() else {
            return None;
        };
        look.back = None;
        Some(name)
    }
}
