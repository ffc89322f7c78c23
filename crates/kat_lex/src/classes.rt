//! What may begin with a byte.
ghost use Rattle.std.specs.Prelude.{◌≡◌};
ghost use Rattle.kat_lex.specs.Classes.{class_of, is_double};

/// What begins with a byte.
#[derive(Clone, Copy, PartialEq, Eq, Debug)]
pub enum Class {
    /// A word.
    Letter,
    /// A number.
    Digit,
    /// A name literal.
    Quote,
    /// A sign.
    Mark,
    /// The next line.
    LineEnd,
    /// A comment.
    Hash,
    /// Nothing: it is passed over.
    Blank,
    /// Nothing: it is a fault.
    Other,
}

/// The class of a byte.
pub fn class_of(byte: u8) -> Class
    ensures { result ≡ class_of byte }
{
    match byte {
        b'A'..=b'Z' | b'a'..=b'z' | b'_' => Class::Letter,
        b'0'..=b'9' => Class::Digit,
        b'"' => Class::Quote,
        b'(' | b')' | b'[' | b']' | b',' | b':' | b';' | b'=' | b'<' | b'+' | b'-' => Class::Mark,
        b'\n' => Class::LineEnd,
        b'#' => Class::Hash,
        b' ' | b'\t' | b'\r' => Class::Blank,
        _ => Class::Other,
    }
}

/// Whether the two bytes are one sign: `<=`, `:=` or `->`.
pub fn is_double(first: u8, second: u8) -> bool
    ensures { result ≡ is_double first second }
{
    (second == b'=' && (first == b'<' || first == b':')) || (first == b'-' && second == b'>')
}
