//! The words with which the parts of a relation and of a proof begin.
ghost use Rattle.std.specs.Prelude.{◌≡◌};
ghost use Rattle.kat_wire.specs.Words.{conjunct_words, first_line_words, line_words, second_line_words};
ghost use Rattle.kat_json.specs.Words.{spelled};

use crate::tags::{ConjunctTag, LineTag};

/// The kind of conjunct that begins with a word, as `Query` for `"q"`; `None` if none does.
pub fn conjunct_tag(word: &str) -> Option<ConjunctTag>
    ensures { result ≡ spelled conjunct_words word.now }
{
    match word {
        "q" => Some(ConjunctTag::Query),
        "e" => Some(ConjunctTag::Equal),
        "k" => Some(ConjunctTag::Bounded),
        "b" => Some(ConjunctTag::AtLeast),
        "c" => Some(ConjunctTag::Matched),
        "t" => Some(ConjunctTag::Total),
        _ => None,
    }
}

/// The kind of line that begins with a word in a proof of the version, 1 or 2: with `"r"` a line by propagation, which has
/// hints in version 2 alone; with `"l"` a linear one. `None` if no line does.
pub fn line_tag(version: u8, word: &str) -> Option<LineTag>
    ensures { result ≡ spelled (line_words version) word.now }
{
    if version == 1 {
        first_line_tag(word)
    } else {
        second_line_tag(word)
    }
}

/// How a line begins in a file of version 1.
fn first_line_tag(word: &str) -> Option<LineTag>
    ensures { result ≡ spelled first_line_words word.now }
{
    match word {
        "r" => Some(LineTag::Propagated),
        "l" => Some(LineTag::Linear),
        _ => None,
    }
}

/// How a line begins in a file of version 2.
fn second_line_tag(word: &str) -> Option<LineTag>
    ensures { result ≡ spelled second_line_words word.now }
{
    match word {
        "r" => Some(LineTag::Hinted),
        "l" => Some(LineTag::Linear),
        _ => None,
    }
}
