//! Formulas put together, and comparisons as formulas.
ghost use Rattle.std.specs.Prelude.{◌≡◌, IfOk, map};
ghost use Rattle.kat_form.specs.Facts.{fact_of, facts_of, listed};
ghost use Rattle.kat_form.specs.Facts.Fact.{all_of, any_of, known};
ghost use Rattle.kat_linear.specs.Rows.{form_of};
ghost use Rattle.kat_symbols.specs.Connectives.{denied, or_of, and_of, fact_lt, fact_le, fact_same, truth_if, truth_lt, truth_same};

use crate::sums::{minus, raised};
use kat_form::Formula;
use kat_linear::Row;
use std::alloc::{AllocError, Global};

/// True or false.
pub(crate) fn known(value: bool) -> Formula
    ensures { fact_of result ≡ known value }
{
    if value { Formula::True } else { Formula::False }
}

/// The same formula.
#[cycle(copy)]
pub(crate) fn copied(alloc: Global, formula: &Formula) -> Result<Formula, AllocError>
    ensures { IfOk result (λ copy. fact_of copy ≡ fact_of formula.now) }
{
    match formula {
        Formula::True => Ok(Formula::True),
        Formula::False => Ok(Formula::False),
        Formula::Lit { var, positive } => Ok(Formula::Lit {
            var: *var,
            positive: *positive,
        }),
        Formula::AtMost(row) => Ok(Formula::AtMost(row.copy(alloc)?)),
        Formula::Above(row) => Ok(Formula::Above(row.copy(alloc)?)),
        Formula::And(parts) => Ok(Formula::And(all_copied(alloc, parts)?)),
        Formula::Or(parts) => Ok(Formula::Or(all_copied(alloc, parts)?)),
    }
}

/// The same formulas.
#[cycle(copy)]
fn all_copied(alloc: Global, parts: &[Formula]) -> Result<Vec<Formula>, AllocError>
    ensures { IfOk result (λ copies. facts_of copies.items ≡ facts_of parts.now) }
{
    let mut copies = Vec::new(alloc);
    for part in parts {
        let copy = copied(alloc, part)?;
        copies.push(copy)?;
    }
    Ok(copies)
}

/// The negation of a formula.
#[cycle(deny)]
#[tactic(auto, using(crate::proofs::Denials::denied_listed))]
pub fn denied(alloc: Global, formula: &Formula) -> Result<Formula, AllocError>
    ensures { IfOk result (λ opposite. fact_of opposite ≡ denied (fact_of formula.now)) }
{
    match formula {
        Formula::True => Ok(Formula::False),
        Formula::False => Ok(Formula::True),
        Formula::Lit { var, positive } => Ok(Formula::Lit {
            var: *var,
            positive: !*positive,
        }),
        Formula::AtMost(row) => Ok(Formula::Above(row.copy(alloc)?)),
        Formula::Above(row) => Ok(Formula::AtMost(row.copy(alloc)?)),
        Formula::And(parts) => Ok(Formula::Or(all_denied(alloc, parts)?)),
        Formula::Or(parts) => Ok(Formula::And(all_denied(alloc, parts)?)),
    }
}

/// The negations of formulas.
#[cycle(deny)]
fn all_denied(alloc: Global, parts: &[Formula]) -> Result<Vec<Formula>, AllocError>
    ensures { IfOk result (λ opposites. facts_of opposites.items ≡ map denied (facts_of parts.now)) }
{
    let mut opposites = Vec::new(alloc);
    for part in parts {
        let opposite = denied(alloc, part)?;
        opposites.push(opposite)?;
    }
    Ok(opposites)
}

/// All of some formulas.
pub fn all(parts: Vec<Formula>) -> Formula
    ensures { fact_of result ≡ all_of (listed (facts_of parts.items)) }
{
    Formula::And(parts)
}

/// One of some formulas.
pub fn any(parts: Vec<Formula>) -> Formula
    ensures { fact_of result ≡ any_of (listed (facts_of parts.items)) }
{
    Formula::Or(parts)
}

/// Both formulas.
pub fn both(alloc: Global, a: Formula, b: Formula) -> Result<Formula, AllocError>
    ensures { IfOk result (λ both. fact_of both ≡ and_of (fact_of a) (fact_of b)) }
{
    Ok(all(vec![in alloc; a, b]?))
}

/// One of two formulas.
pub fn either(alloc: Global, a: Formula, b: Formula) -> Result<Formula, AllocError>
    ensures { IfOk result (λ either. fact_of either ≡ or_of (fact_of a) (fact_of b)) }
{
    Ok(any(vec![in alloc; a, b]?))
}

/// The first number is less than the second.
pub fn less(alloc: Global, a: &Row, b: &Row) -> Result<Formula, AllocError>
    ensures { IfOk result (λ less. fact_of less ≡ fact_lt (form_of a.now) (form_of b.now)) }
{
    let difference = minus(alloc, a, b)?;
    Ok(Formula::AtMost(raised(difference)?))
}

/// The first number is at most the second.
pub fn at_most(alloc: Global, a: &Row, b: &Row) -> Result<Formula, AllocError>
    ensures { IfOk result (λ most. fact_of most ≡ fact_le (form_of a.now) (form_of b.now)) }
{
    Ok(Formula::AtMost(minus(alloc, a, b)?))
}

/// Two numbers are equal.
pub fn same(alloc: Global, a: &Row, b: &Row) -> Result<Formula, AllocError>
    ensures { IfOk result (λ same. fact_of same ≡ fact_same (form_of a.now) (form_of b.now)) }
{
    let below = at_most(alloc, a, b)?;
    let above = at_most(alloc, b, a)?;
    both(alloc, below, above)
}

/// The first truth value is less than the second: it is false, and the second is true.
pub(crate) fn truth_less(alloc: Global, a: &Formula, b: &Formula) -> Result<Formula, AllocError>
    ensures { IfOk result (λ less. fact_of less ≡ truth_lt (fact_of a.now) (fact_of b.now)) }
{
    let low = denied(alloc, a)?;
    let high = copied(alloc, b)?;
    both(alloc, low, high)
}

/// If the first is true, the second is.
fn implied(alloc: Global, a: &Formula, b: &Formula) -> Result<Formula, AllocError>
    ensures { IfOk result (λ implied. fact_of implied ≡ or_of (denied (fact_of a.now)) (fact_of b.now)) }
{
    let not = denied(alloc, a)?;
    let then = copied(alloc, b)?;
    either(alloc, not, then)
}

/// If the first is false, the second is too.
fn implied_back(alloc: Global, a: &Formula, b: &Formula) -> Result<Formula, AllocError>
    ensures { IfOk result (λ implied. fact_of implied ≡ or_of (fact_of a.now) (denied (fact_of b.now))) }
{
    let is = copied(alloc, a)?;
    let not = denied(alloc, b)?;
    either(alloc, is, not)
}

/// Two truth values are equal.
pub fn truth_same(alloc: Global, a: &Formula, b: &Formula) -> Result<Formula, AllocError>
    ensures { IfOk result (λ same. fact_of same ≡ truth_same (fact_of a.now) (fact_of b.now)) }
{
    let forth = implied(alloc, a, b)?;
    let back = implied_back(alloc, a, b)?;
    both(alloc, forth, back)
}

/// If the first, then the second, else the third.
pub(crate) fn truth_if(
    alloc: Global,
    c: Formula,
    a: &Formula,
    b: Formula,
) -> Result<Formula, AllocError>
    ensures { IfOk result (λ chosen. fact_of chosen ≡ truth_if (fact_of c) (fact_of a.now) (fact_of b)) }
{
    let taken = implied(alloc, &c, a)?;
    let other = either(alloc, c, b)?;
    both(alloc, taken, other)
}
