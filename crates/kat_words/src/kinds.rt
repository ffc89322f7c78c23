//! Kinds of components, named in a word with commas between them.
ghost use Rattle.std.specs.Prelude.{◌≡◌, ◌==◌, bytes_eq, nat_le};
ghost use Rattle.std.specs.List.{list_all, list_any, slice_split};
ghost use Rattle.kat_words.specs.Words.{all_kinds, kind_names, kinds_of, times};

use kat_rules::Kinds;

/// All kinds.
pub(crate) fn all_kinds() -> Kinds
    ensures { result ≡ all_kinds }
{
    Kinds {
        cell: true,
        table: true,
        set: true,
        tally: true,
        tallies: true,
    }
}

/// The kinds that a word names, with commas between them, each at most once.
pub(crate) fn kinds_of(word: &str) -> Option<Kinds>
    ensures { result ≡ kinds_of word.now }
{
    if !are_kinds(word) || !are_different(word) {
        return None;
    }
    Some(Kinds {
        cell: has("cell", word),
        table: has("table", word),
        set: has("set", word),
        tally: has("tally", word),
        tallies: has("tallies", word),
    })
}

/// Whether all names are those of kinds.
fn are_kinds(word: &str) -> bool
    ensures { result ≡ list_all (λ name. list_any (bytes_eq name) kind_names) (slice_split (λ byte. byte == 44) word.now) }
{
    word.split(',').all(|name| is_kind(name))
}

/// Whether the word is the name of a kind.
fn is_kind(name: &str) -> bool
    ensures { result ≡ list_any (bytes_eq name.now) kind_names }
{
    match name {
        "cell" | "table" | "set" | "tally" | "tallies" => true,
        _ => false,
    }
}

/// Whether each kind is among the names at most once.
fn are_different(word: &str) -> bool
    ensures { result ≡ list_all (λ name. nat_le (times name (slice_split (λ byte. byte == 44) word.now)) 1) kind_names }
{
    times("cell", word) <= 1
        && times("table", word) <= 1
        && times("set", word) <= 1
        && times("tally", word) <= 1
        && times("tallies", word) <= 1
}

/// How often a name is among those of the word.
fn times(name: &str, word: &str) -> usize
    ensures { result ≡ times name.now (slice_split (λ byte. byte == 44) word.now) }
{
    word.split(',').filter(|other| *other == name).count()
}

/// Whether a name is among those of the word.
fn has(name: &str, word: &str) -> bool
    ensures { result ≡ list_any (bytes_eq name.now) (slice_split (λ byte. byte == 44) word.now) }
{
    word.split(',').any(|other| name == other)
}
