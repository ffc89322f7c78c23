//! Sums of linear forms. A number that doesn't fit is answered as out of memory.
ghost use Rattle.std.specs.Prelude.{◌≡◌, ◌++◌, ◌+ℤ◌, neg_ℤ, IfOk, pos, []};
ghost use Rattle.kat_linear.specs.Rows.{form_of};
ghost use Rattle.kat_symbols.specs.Sums.{numeral, variable, with_coefficient, add_term, plus, opposite_terms, opposite_form, minus, raised};

use kat_linear::Row;
use std::alloc::{AllocError, Global};

/// One more than the greatest number of a variable.
const PAST_VARIABLES: usize = (1 << 32) - 1;

/// A number.
pub fn numeral(alloc: Global, number: i128) -> Row
    ensures { form_of result ≡ numeral number }
{
    Row {
        terms: Vec::new(alloc),
        constant: number,
    }
}

/// The variable with a number. More variables than a row can name are more than memory holds.
pub(crate) fn variable(alloc: Global, place: usize) -> Result<Row, AllocError>
    ensures { IfOk result (λ row. form_of row ≡ variable place) }
{
    if place < PAST_VARIABLES {
        Ok(Row {
            terms: vec![in alloc; (place as u32, 1)]?,
            constant: 0,
        })
    } else {
        Err(AllocError)
    }
}

/// The sum of two numbers.
fn sum(a: i128, b: i128) -> Result<i128, AllocError>
    ensures { IfOk result (λ z. z ≡ a +ℤ b) }
{
    match a.checked_add(b) {
        Some(sum) => Ok(sum),
        None => Err(AllocError),
    }
}

/// The number with the other sign.
fn opposite(a: i128) -> Result<i128, AllocError>
    ensures { IfOk result (λ z. z ≡ neg_ℤ a) }
{
    match a.checked_neg() {
        Some(opposite) => Ok(opposite),
        None => Err(AllocError),
    }
}

/// A term if its coefficient isn't 0.
fn push_term(
    variable: u32,
    coefficient: i128,
    terms: &mut Vec<(u32, i128)>,
) -> Result<(), AllocError>
    ensures { IfOk result (λ u. terms.new.items ≡ terms.old.items ++ with_coefficient variable coefficient []) }
{
    if coefficient != 0 {
        terms.push((variable, coefficient))?;
    }
    Ok(())
}

/// Terms after others.
fn extend(rest: &[(u32, i128)], terms: &mut Vec<(u32, i128)>) -> Result<(), AllocError>
    ensures { IfOk result (λ u. terms.new.items ≡ terms.old.items ++ rest.now) }
{
    terms.extend_from_slice(rest)?;
    Ok(())
}

/// A term put into terms whose variables ascend.
#[tactic(auto, using(crate::proofs::Insertions::add_below, crate::proofs::Insertions::add_at, crate::proofs::Insertions::add_above))]
fn add_term(
    variable: u32,
    coefficient: i128,
    rest: &[(u32, i128)],
    terms: &mut Vec<(u32, i128)>,
) -> Result<(), AllocError>
    ensures { IfOk result (λ u. terms.new.items ≡ terms.old.items ++ add_term variable coefficient rest.now) }
{
    match rest {
        [] => push_term(variable, coefficient, terms),
        [t, more @ ..] => {
            if variable < t.0 {
                push_term(variable, coefficient, terms)?;
                extend(rest, terms)
            } else if variable == t.0 {
                push_term(variable, sum(coefficient, t.1)?, terms)?;
                extend(more, terms)
            } else {
                terms.push(*t)?;
                add_term(variable, coefficient, more, terms)
            }
        }
    }
}

/// The sum of two forms.
pub fn plus(alloc: Global, a: &Row, b: &Row) -> Result<Row, AllocError>
    ensures { IfOk result (λ row. form_of row ≡ plus (form_of a.now) (form_of b.now)) }
{
    let mut terms = Vec::from_slice(alloc, &b.terms)?;
    for t in &a.terms {
        let mut next = Vec::new(alloc);
        add_term(t.0, t.1, &terms, &mut next)?;
        terms = next;
    }
    let constant = sum(a.constant, b.constant)?;
    Ok(Row { terms, constant })
}

/// The form with the other sign.
fn opposite_row(alloc: Global, a: &Row) -> Result<Row, AllocError>
    ensures { IfOk result (λ row. form_of row ≡ opposite_form (form_of a.now)) }
{
    let terms = opposite_terms(alloc, &a.terms)?;
    let constant = opposite(a.constant)?;
    Ok(Row { terms, constant })
}

/// The terms with the other sign.
fn opposite_terms(alloc: Global, terms: &[(u32, i128)]) -> Result<Vec<(u32, i128)>, AllocError>
    ensures { IfOk result (λ opposites. opposites.items ≡ opposite_terms terms.now) }
{
    let mut opposites = Vec::new(alloc);
    for t in terms {
        let coefficient = opposite(t.1)?;
        opposites.push((t.0, coefficient))?;
    }
    Ok(opposites)
}

/// The difference of two forms.
pub fn minus(alloc: Global, a: &Row, b: &Row) -> Result<Row, AllocError>
    ensures { IfOk result (λ row. form_of row ≡ minus (form_of a.now) (form_of b.now)) }
{
    let opposite = opposite_row(alloc, b)?;
    plus(alloc, a, &opposite)
}

/// One more.
pub(crate) fn raised(mut row: Row) -> Result<Row, AllocError>
    ensures { IfOk result (λ next. form_of next ≡ raised (form_of row)) }
{
    row.constant = sum(row.constant, 1)?;
    Ok(row)
}
