//! Numbers in rows. They are read as 128 bits, whatever they count.
ghost use Rattle.std.specs.Prelude.{◌≡◌, ◌≤◌, ◌∷◌, ◌++◌, IfErr, IfOk, OkIff, OnErr, OnOk, max, min};
ghost use Rattle.std.specs.List.{flat_map};
ghost use Rattle.kat_table.specs.Numbers.{AreNumbersIn, IsCutShort, IsDamage, IsWhole, ReadsNumber, TellsWords, whole_of};

use crate::errors::RowError;
use itoa::{Buffer, Integer};
use std::alloc::{AllocError, Global};
use std::str::SplitWhitespace;

const NO_NUMBER: RowError = RowError::Damaged("a number isn't one");

/// The whole number of a word.
fn wide_of(word: &str) -> Result<i128, RowError>
    ensures number { OkIff result (IsWhole word.now) (whole_of word.now) }
    ensures damage { IfErr result IsDamage }
{
    match word.parse::<i128>() {
        Ok(number) => Ok(number),
        Err(_) => Err(NO_NUMBER),
    }
}

/// The number of a word, if it is one of the type.
pub fn number_of<T: TryFrom<i128>>(word: &str) -> Result<T, RowError>
where
    T::Error: Drop,
    ensures number { ReadsNumber T.try_from_gives word.now result }
    ensures damage { IfErr result IsDamage }
{
    match wide_of(word) {
        Ok(wide) => match T::try_from(wide) {
            Ok(number) => Ok(number),
            Err(_) => Err(NO_NUMBER),
        },
        Err(error) => Err(error),
    }
}

/// The numbers of words, in their order.
pub fn numbers_of<T: TryFrom<i128> + Drop>(
    alloc: Global,
    words: SplitWhitespace,
) -> Result<Vec<T>, RowError>
where
    T::Error: Drop,
    ensures numbers { IfOk result (λ numbers. AreNumbersIn T.try_from_gives words.entry numbers.items) }
    ensures err { IfErr result (TellsWords T.try_from_gives words.entry) }
{
    let mut found = Vec::new(alloc);
    // The words after one for which memory runs out are still looked at: one may be damaged.
    let mut has_room = true;
    for word in words {
        let number: T = number_of(word)?;
        if found.push(number).is_err() {
            has_room = false;
        }
    }
    if has_room {
        Ok(found)
    } else {
        Err(RowError::Memory)
    }
}

/// The leaves of a walk: a number from 1 to 10,000, or the nearest one that is.
pub fn leaves(number: u32) -> u32
    ensures within { (1 ≤ result) × (result ≤ 10_000) }
    ensures nearest { result ≡ max 1 (min number 10_000) }
{
    if number < 1 {
        1
    } else if number > 10_000 {
        10_000
    } else {
        number
    }
}

/// Appends a text, and a number in decimal.
pub fn push_number<N: Integer>(
    into: &mut Vec<u8>,
    before: &str,
    number: N,
) -> Result<(), AllocError>
    ensures number { OnOk result (into.new.items ≡ into.old.items ++ before.now ++ N.text number) }
    ensures err { OnErr result (IsCutShort into.old.items into.new.items (before.now ++ N.text number)) }
{
    into.extend_from_slice(before.as_bytes())?;
    into.extend_from_slice(Buffer::new().format(number).as_bytes())
}

/// Appends a text, and numbers in decimal, each after a blank.
pub fn push_numbers<N: Integer>(
    into: &mut Vec<u8>,
    before: &str,
    numbers: &[N],
) -> Result<(), AllocError>
    ensures numbers { OnOk result (into.new.items ≡ into.old.items ++ before.now ++ flat_map (λ number. 32 ∷ N.text number) numbers.now) }
    ensures err { OnErr result (IsCutShort into.old.items into.new.items (before.now
        ++ flat_map (λ number. 32 ∷ N.text number) numbers.now)) }
{
    into.extend_from_slice(before.as_bytes())?;
    push_each(into, numbers)
}

/// Appends numbers in decimal, each after a blank.
fn push_each<N: Integer>(into: &mut Vec<u8>, numbers: &[N]) -> Result<(), AllocError>
    ensures numbers { OnOk result (into.new.items ≡ into.old.items ++ flat_map (λ number. 32 ∷ N.text number) numbers.now) }
    ensures err { OnErr result (IsCutShort into.old.items into.new.items (flat_map (λ number. 32 ∷ N.text number) numbers.now)) }
{
    for number in numbers {
        push_number(into, " ", *number)?;
    }
    Ok(())
}
