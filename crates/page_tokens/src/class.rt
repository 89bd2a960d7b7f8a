// Kinds of bytes, and runs of them at the front of others.
ghost use Rattle.std.specs.Prelude.{◌≡◌, take, drop};
ghost use Rattle.std.specs.List.{prefix_len};
ghost use Rattle.page_tokens.specs.Classes.{of_class};

#[derive(Clone, Copy, Debug, PartialEq, Eq)]
pub(crate) enum Class {
    // between tokens
    Blank,
    // the first byte of a name
    NameStart,
    // any further byte of a name
    NamePart,
    Digit,
    // between quotes
    Letter,
    // all but a line's end
    InLine,
}

// A byte is read as the character that it stands for.
impl Class {
    pub(crate) fn has(self, byte: u8) -> bool
        ensures { result ≡ of_class self byte }
    {
        match self {
            Class::Blank => matches!(byte as char, '\t' | '\r' | ' '),
            Class::NameStart => matches!(byte as char, 'a'..='z' | 'A'..='Z' | '_'),
            Class::NamePart => matches!(byte as char, 'a'..='z' | 'A'..='Z' | '_' | '0'..='9'),
            Class::Digit => matches!(byte as char, '0'..='9'),
            Class::Letter => byte as char != '"' && matches!(byte as char, ' '..='~'),
            Class::InLine => byte as char != '\n',
        }
    }
}

// The bytes at the front that are of a class, and those after them.
pub(crate) fn split_front(bytes: &[u8], class: Class) -> (&[u8], &[u8])
    ensures front { result.0.now ≡ take (prefix_len (of_class class) bytes.now) bytes.now }
    ensures left { result.1.now ≡ drop (prefix_len (of_class class) bytes.now) bytes.now }
{
    let size = bytes.iter().take_while(|byte| class.has(**byte)).count();
    bytes.split_at(size)
}
