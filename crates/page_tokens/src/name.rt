// Names, as they are compared.
ghost use Rattle.std.specs.Prelude.{◌≡◌, ◌≤◌, length};
ghost use Rattle.page_tokens.specs.Names.{named};

// The letters of a name as small letters, filled up with blanks.
#[derive(Clone, Copy, Debug, PartialEq, Eq)]
pub struct Name {
    pub letters: [u8; 32],
}

impl Name {
    // The name of at most 32 bytes, which a `From` could not ask for.
    pub(crate) fn of(word: &[u8]) -> Name
        requires { length word.now ≤ 32 }
        ensures { result ≡ named word.now }
    {
        let mut letters = [b' '; 32];
        letters[..word.len()].copy_from_slice(word);
        letters.make_ascii_lowercase();
        Name { letters }
    }
}
