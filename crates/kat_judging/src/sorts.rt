//! The sorts of what phrases say.
ghost use Rattle.std.specs.Prelude.{◌≡◌};
ghost use Rattle.kat_judging.specs.Sorts.{constant_sort, kept_sort, operator_found, plain_found, table_found, word_found};

use crate::found::{Found, sum_found};
use crate::names::Declared;
use kat_grammar::{Constant, Kept, Operator, Parameter, State};
use kat_num::Sort;

/// The sort of a constant.
pub fn constant_sort(constant: Constant) -> Sort
    ensures { result ≡ constant_sort constant }
{
    match constant {
        Constant::Natural { .. } => Sort::Nat,
        Constant::Negative { .. } => Sort::Int,
        Constant::Literal { .. } => Sort::Name,
        Constant::Truth { .. } => Sort::Bool,
    }
}

/// The sort of a field's values.
pub(crate) fn kept_sort(kept: Kept) -> Sort
    ensures { result ≡ kept_sort kept }
{
    match kept {
        Kept::One { sort, .. } => sort,
        Kept::Each { sort, .. } => sort,
    }
}

/// What is known of a word that means a field.
fn plain_found(field: Option<Declared<State>>) -> Found
    ensures { result ≡ plain_found field }
{
    match field {
        Some(field) => match field.it.kept {
            Kept::One { sort, .. } => Found::Exactly(sort),
            Kept::Each { .. } => Found::Unknown,
        },
        None => Found::Unknown,
    }
}

/// What is known of a table's values.
pub fn table_found(field: Option<Declared<State>>) -> Found
    ensures { result ≡ table_found field }
{
    match field {
        Some(field) => match field.it.kept {
            Kept::One { .. } => Found::Unknown,
            Kept::Each { sort, .. } => Found::Exactly(sort),
        },
        None => Found::Unknown,
    }
}

/// What is known of a word: a parameter, or else a field.
pub fn word_found(param: Option<Declared<Parameter>>, field: Option<Declared<State>>) -> Found
    ensures { result ≡ word_found param field }
{
    match param {
        Some(param) => Found::Exactly(param.it.sort),
        None => plain_found(field),
    }
}

/// What is known of an operator's value.
pub fn operator_found(operator: Operator, left: Found, right: Found) -> Found
    ensures { result ≡ operator_found operator left right }
{
    match operator {
        Operator::Plus => sum_found(left, right),
        Operator::Minus => Found::Exactly(Sort::Int),
        _ => Found::Exactly(Sort::Bool),
    }
}
