// Registers by their names.
ghost use Rattle.std.specs.Prelude.{◌≡◌, ◌<◌, Ok, Err, MatchResult};
ghost use Rattle.page_text.specs.Grammar.{register_of};

use page_tokens::Name;
use refusal::Cause;

#[derive(Clone, Copy, Debug, PartialEq, Eq)]
pub(crate) struct Register {
    pub(crate) number: u8,
    ghost within: { number < 8 },
}

impl Register {
    pub(crate) const R0: Register = Register { number: 0 };
}

// By `r0` to `r7`.
impl TryFrom<&Name> for Register {
    type Error = Cause;

    ghost try_from_gives = { λ name result. MatchResult result (λ x. register_of name.now ≡ Ok x.number) (λ e. register_of name.now ≡ Err e) };

    fn try_from(name: &Name) -> Result<Register, Cause> {
        match name.letters {
            [b'r', digit @ b'0'..=b'7', b' ', ..] => Ok(Register {
                number: digit - b'0',
            }),
            _ => Err(Cause::Malformed),
        }
    }
}
