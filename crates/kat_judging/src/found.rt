//! What is known of the sort of an expression.
ghost use Rattle.std.specs.Prelude.{◌≡◌};
ghost use Rattle.kat_judging.specs.KnownSorts.{accepts, family_of, found_family, number_found, sum_found, two_found};

use kat_num::Sort;

/// Nothing, if a word in it is unknown or in a wrong place; the sort; or that it is a number, if an
/// unknown part hides whether it is `nat`.
#[derive(Clone, Copy, PartialEq, Eq, Debug)]
pub enum Found {
    Unknown,
    Exactly(Sort),
    SomeNumber,
}

/// Numbers, names and truth values are of different kinds.
#[derive(Clone, Copy, PartialEq, Eq, Debug)]
pub enum Family {
    Numbers,
    Names,
    Truths,
}

/// The kind of a sort.
pub fn family_of(sort: Sort) -> Family
    ensures { result ≡ family_of sort }
{
    match sort {
        Sort::Int | Sort::Nat => Family::Numbers,
        Sort::Name => Family::Names,
        Sort::Bool => Family::Truths,
    }
}

/// The kind that is known, if one is.
pub fn found_family(found: Found) -> Option<Family>
    ensures { result ≡ found_family found }
{
    match found {
        Found::Unknown => None,
        Found::Exactly(sort) => Some(family_of(sort)),
        Found::SomeNumber => Some(Family::Numbers),
    }
}

/// Whether what is found fits the required sort: what is unknown fits any, and each number fits `int`.
pub fn accepts(asked: Sort, found: Found) -> bool
    ensures { result ≡ accepts asked found }
{
    match (asked, found) {
        (_, Found::Unknown) => true,
        (Sort::Int | Sort::Nat, Found::SomeNumber) => true,
        (Sort::Int, Found::Exactly(Sort::Int | Sort::Nat)) => true,
        (Sort::Bool, Found::Exactly(Sort::Bool)) => true,
        (Sort::Name, Found::Exactly(Sort::Name)) => true,
        (Sort::Nat, Found::Exactly(Sort::Nat)) => true,
        _ => false,
    }
}

/// What is known of a sum.
pub fn sum_found(left: Found, right: Found) -> Found
    ensures { result ≡ sum_found left right }
{
    match (left, right) {
        (Found::Exactly(Sort::Nat), Found::Exactly(Sort::Nat)) => Found::Exactly(Sort::Nat),
        (Found::Exactly(Sort::Nat), Found::Unknown | Found::SomeNumber) => Found::SomeNumber,
        (Found::Unknown | Found::SomeNumber, Found::Exactly(Sort::Nat)) => Found::SomeNumber,
        (Found::Unknown | Found::SomeNumber, Found::Unknown | Found::SomeNumber) => {
            Found::SomeNumber
        }
        _ => Found::Exactly(Sort::Int),
    }
}

/// What is known of the greater, lesser or chosen one of two numbers.
fn number_found(left: Found, right: Found) -> Found
    ensures { result ≡ number_found left right }
{
    match (left, right) {
        (Found::Exactly(Sort::Int), _) => Found::Exactly(Sort::Int),
        (_, Found::Exactly(Sort::Int)) => Found::Exactly(Sort::Int),
        (Found::Exactly(Sort::Nat), Found::Exactly(Sort::Nat)) => Found::Exactly(Sort::Nat),
        _ => Found::SomeNumber,
    }
}

/// What is known of the greater, lesser or chosen one of two numbers or two names, which the first one's kind tells apart; nothing
/// if it has no known kind or is a truth value.
pub fn two_found(left: Found, right: Found) -> Found
    ensures { result ≡ two_found left right }
{
    match found_family(left) {
        Some(Family::Numbers) => number_found(left, right),
        Some(Family::Names) => Found::Exactly(Sort::Name),
        Some(Family::Truths) | None => Found::Unknown,
    }
}
