//! Numbers in words.
ghost use Rattle.std.specs.Prelude.{◌≡◌, ◌≤◌, IfSome};
ghost use Rattle.kat_words.specs.Words.{number_of};

/// The number of a word, if it is one between these.
pub(crate) fn number_of(least: u64, most: u64, word: &str) -> Option<u64>
    ensures is { result ≡ number_of least most word.now }
    ensures within { IfSome result (λ number. (least ≤ number) × (number ≤ most)) }
{
    match word.parse::<u64>() {
        Ok(number) if least <= number && number <= most => Some(number),
        _ => None,
    }
}
