//! JSON values as lists, texts and whole numbers.
ghost use Rattle.std.specs.Prelude.{◌≡◌, map, option_map, [], unwrap_or};
ghost use Rattle.serde_json.specs.View.{view, number_view};
ghost use Rattle.kat_json.specs.Lists.{list_of, text_of, tag_of};
ghost use Rattle.kat_json.specs.Words.{whole_of, whole_of_number};

use serde_json::{Number, Value};

/// The elements of a list.
pub fn elements(value: &Value) -> Option<&[Value]>
    ensures { option_map (λ ds. map view ds.now) result ≡ list_of (view value.now) }
{
    match value.as_array() {
        Some(list) => Some(list.as_slice()),
        None => None,
    }
}

/// The text of a string.
pub fn text(value: &Value) -> Option<&str>
    ensures { option_map (λ text. text.now) result ≡ text_of (view value.now) }
{
    value.as_str()
}

/// A number that is kept as a whole number of 64 bits.
pub fn whole(value: &Value) -> Option<i128>
    ensures { result ≡ whole_of (view value.now) }
{
    match value.as_number() {
        Some(number) => whole_number(number),
        None => None,
    }
}

pub fn whole_number(number: &Number) -> Option<i128>
    ensures { result ≡ whole_of_number (number_view number.now) }
{
    number.as_i128()
}

/// The text that a list begins with, or an empty one.
pub fn tag(parts: &[Value]) -> &str
    ensures { result.now ≡ tag_of (map view parts.now) }
{
    match parts {
        [first, ..] => text_or_empty(first),
        [] => "",
    }
}

fn text_or_empty(value: &Value) -> &str
    ensures { result.now ≡ unwrap_or (text_of (view value.now)) [] }
{
    match text(value) {
        Some(text) => text,
        None => "",
    }
}
