//! Symbolic values: linear forms for numbers and names, formulas for truth values.
ghost use Rattle.std.specs.Prelude.{◌≡◌, IfOk, pos};
ghost use Rattle.kat_form.specs.Facts.{fact_of};
ghost use Rattle.kat_linear.specs.Rows.{form_of};
ghost use Rattle.kat_symbols.specs.Symbols.{number_in, truth_in, symbol_of, symbol_lt, symbol_same, symbols_lt, turned};
ghost use Rattle.kat_symbols.specs.Connectives.{or_of, and_of};
ghost use Rattle.kat_symbols.specs.Sums.{numeral};
ghost use Rattle.kat_symbols.specs.Views.{symbol_form, pairs_form};

use crate::connectives::{both, copied, either, known, less, same, truth_less, truth_same};
use crate::sums::numeral;
use kat_form::Formula;
use kat_linear::Row;
use kat_num::Value;
use std::alloc::{AllocError, Global};

/// A symbolic value.
#[derive(Drop)]
pub enum Symbol {
    Number(Row),
    Truth(Formula),
}

impl Symbol {
    /// An equal value.
    pub fn copy(&self, alloc: Global) -> Result<Symbol, AllocError>
        ensures { IfOk result (λ copy. symbol_form copy ≡ symbol_form self.now) }
    {
        match self {
            Symbol::Number(row) => Ok(Symbol::Number(row.copy(alloc)?)),
            Symbol::Truth(formula) => Ok(Symbol::Truth(copied(alloc, formula)?)),
        }
    }

    /// The number; a truth value counts as 0.
    pub fn into_number(self, alloc: Global) -> Row
        ensures { form_of result ≡ number_in (symbol_form self) }
    {
        match self {
            Symbol::Number(row) => row,
            Symbol::Truth(_) => numeral(alloc, 0),
        }
    }

    /// The truth value; a number counts as false.
    pub fn into_truth(self) -> Formula
        ensures { fact_of result ≡ truth_in (symbol_form self) }
    {
        match self {
            Symbol::Number(_) => Formula::False,
            Symbol::Truth(formula) => formula,
        }
    }
}

/// A value that is known. A name is the number of its code.
pub fn symbol_of(alloc: Global, value: Value) -> Result<Symbol, AllocError>
    ensures { IfOk result (λ symbol. symbol_form symbol ≡ symbol_of value) }
{
    match value {
        Value::Bool(truth) => Ok(Symbol::Truth(known(truth))),
        Value::Num(number) => Ok(Symbol::Number(numeral(alloc, number))),
        Value::Name(code) => Ok(Symbol::Number(code_row(alloc, code)?)),
    }
}

/// The number of a code.
fn code_row(alloc: Global, code: u128) -> Result<Row, AllocError>
    ensures { IfOk result (λ row. form_of row ≡ numeral (pos code)) }
{
    match i128::try_from(code) {
        Ok(number) => Ok(numeral(alloc, number)),
        Err(_) => Err(AllocError),
    }
}

/// The first is less than the second: numbers and names by their order, false below true.
fn symbol_less(alloc: Global, a: &Symbol, b: &Symbol) -> Result<Formula, AllocError>
    ensures { IfOk result (λ less. fact_of less ≡ symbol_lt (symbol_form a.now) (symbol_form b.now)) }
{
    match (a, b) {
        (Symbol::Number(a), Symbol::Number(b)) => less(alloc, a, b),
        (Symbol::Number(_), Symbol::Truth(_)) => Ok(Formula::False),
        (Symbol::Truth(_), Symbol::Number(_)) => Ok(Formula::False),
        (Symbol::Truth(a), Symbol::Truth(b)) => truth_less(alloc, a, b),
    }
}

/// Both are equal.
pub fn symbol_same(alloc: Global, a: &Symbol, b: &Symbol) -> Result<Formula, AllocError>
    ensures { IfOk result (λ same. fact_of same ≡ symbol_same (symbol_form a.now) (symbol_form b.now)) }
{
    match (a, b) {
        (Symbol::Number(a), Symbol::Number(b)) => same(alloc, a, b),
        (Symbol::Number(_), Symbol::Truth(_)) => Ok(Formula::False),
        (Symbol::Truth(_), Symbol::Number(_)) => Ok(Formula::False),
        (Symbol::Truth(a), Symbol::Truth(b)) => truth_same(alloc, a, b),
    }
}

/// The list of the first parts is lexicographically less than that of the second.
pub fn symbols_less(alloc: Global, pairs: &[(Symbol, Symbol)]) -> Result<Formula, AllocError>
    ensures { IfOk result (λ less. fact_of less ≡ symbols_lt (pairs_form pairs.now)) }
{
    match pairs {
        [] => Ok(Formula::False),
        [(a, b), rest @ ..] => {
            let here = symbol_less(alloc, a, b)?;
            let equal = symbol_same(alloc, a, b)?;
            let later = symbols_less(alloc, rest)?;
            less_or(alloc, here, equal, later)
        }
    }
}

/// The list of the second parts is lexicographically less than that of the first.
pub fn symbols_greater(alloc: Global, pairs: &[(Symbol, Symbol)]) -> Result<Formula, AllocError>
    ensures { IfOk result (λ less. fact_of less ≡ symbols_lt (turned (pairs_form pairs.now))) }
{
    match pairs {
        [] => Ok(Formula::False),
        [(a, b), rest @ ..] => {
            let here = symbol_less(alloc, b, a)?;
            let equal = symbol_same(alloc, b, a)?;
            let later = symbols_greater(alloc, rest)?;
            less_or(alloc, here, equal, later)
        }
    }
}

/// Less at the first place, or equal there and less later.
fn less_or(
    alloc: Global,
    here: Formula,
    equal: Formula,
    later: Formula,
) -> Result<Formula, AllocError>
    ensures { IfOk result (λ less. fact_of less ≡ or_of (fact_of here) (and_of (fact_of equal) (fact_of later))) }
{
    let behind = both(alloc, equal, later)?;
    either(alloc, here, behind)
}
