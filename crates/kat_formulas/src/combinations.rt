//! Linear combinations of arguments and of what is read.

use crate::copies::sum_of;
use kat_expr::Expr;
use kat_num::Value;
use kat_reading::{Miss, boxed, push};
use std::alloc::{AllocError, Global};

/// An argument, or what is read of a field or of a leaf; of a table at the key that is the argument with that number.
#[derive(Clone, Copy, PartialEq, Eq, Debug)]
pub enum Atom {
    Arg(u32),
    Read { field: u32, key: Option<u32> },
}

/// A multiple of an atom.
#[derive(Clone, Copy, PartialEq, Eq, Debug)]
pub struct Term {
    pub factor: i128,
    pub atom: Atom,
}

/// A sum of terms, no two of one atom and none of them 0 times it, and a constant.
#[derive(Drop)]
pub struct Linear {
    pub constant: i128,
    pub terms: Vec<Term>,
}

/// The linear combination that an expression is; no rule fits if it isn't one.
pub fn linear_of(alloc: Global, expr: &Expr) -> Result<Linear, Miss> {
    match expr {
        Expr::Const(Value::Num(number)) => Ok(known(alloc, *number)),
        Expr::Arg(place) => Ok(single(alloc, Atom::Arg(*place), 1)?),
        Expr::Plain(field) => Ok(single(
            alloc,
            Atom::Read {
                field: *field,
                key: None,
            },
            1,
        )?),
        Expr::Keyed { field, key } => Ok(single(
            alloc,
            Atom::Read {
                field: *field,
                key: Some(*key),
            },
            1,
        )?),
        Expr::Plus(left, right) => {
            let left = linear_of(alloc, left)?;
            let right = linear_of(alloc, right)?;
            total(alloc, &left, &right, 1)
        }
        Expr::Minus(left, right) => {
            let left = linear_of(alloc, left)?;
            let right = linear_of(alloc, right)?;
            total(alloc, &left, &right, -1)
        }
        _ => Err(Miss::NoRule),
    }
}

/// A constant.
pub(crate) fn known(alloc: Global, constant: i128) -> Linear {
    Linear {
        constant,
        terms: Vec::new(alloc),
    }
}

/// A multiple of an atom.
pub fn single(alloc: Global, atom: Atom, factor: i128) -> Result<Linear, AllocError> {
    let mut terms = Vec::new(alloc);
    push(&mut terms, Term { factor, atom })?;
    Ok(Linear { constant: 0, terms })
}

/// The first plus a multiple of the second; no rule fits if a number would be too great.
pub(crate) fn total(
    alloc: Global,
    left: &Linear,
    right: &Linear,
    times: i128,
) -> Result<Linear, Miss> {
    let mut terms = Vec::new(alloc);
    for term in &left.terms {
        let factor = added(term.factor, factor_of(right, term.atom), times)?;
        push_term(&mut terms, factor, term.atom)?;
    }
    for term in &right.terms {
        if factor_of(left, term.atom) == 0 {
            let factor = added(0, term.factor, times)?;
            push_term(&mut terms, factor, term.atom)?;
        }
    }
    Ok(Linear {
        constant: added(left.constant, right.constant, times)?,
        terms,
    })
}

/// The first without the second.
pub fn difference(alloc: Global, left: &Linear, right: &Linear) -> Result<Linear, Miss> {
    total(alloc, left, right, -1)
}

/// A number plus a multiple of another.
fn added(one: i128, other: i128, times: i128) -> Result<i128, Miss> {
    match other.checked_mul(times) {
        None => Err(Miss::NoRule),
        Some(product) => match one.checked_add(product) {
            None => Err(Miss::NoRule),
            Some(sum) => Ok(sum),
        },
    }
}

/// Appends a term, unless it is 0.
fn push_term(terms: &mut Vec<Term>, factor: i128, atom: Atom) -> Result<(), AllocError> {
    if factor == 0 {
        return Ok(());
    }
    push(terms, Term { factor, atom })
}

impl Linear {
    /// How often an atom occurs.
    pub fn factor(&self, atom: Atom) -> i128 {
        factor_of(self, atom)
    }

    /// The same without an atom.
    pub fn without(&self, alloc: Global, atom: Atom) -> Result<Linear, AllocError> {
        let mut terms = Vec::new(alloc);
        for term in &self.terms {
            if term.atom != atom {
                push(&mut terms, *term)?;
            }
        }
        Ok(Linear {
            constant: self.constant,
            terms,
        })
    }
}

/// How often an atom occurs.
fn factor_of(linear: &Linear, atom: Atom) -> i128 {
    for term in &linear.terms {
        if term.atom == atom {
            return term.factor;
        }
    }
    0
}

/// The expression of a linear combination of few terms, the constant last; no rule fits if a factor is great.
pub fn spelled(alloc: Global, linear: &Linear) -> Result<Expr, Miss> {
    let mut expr = Expr::Const(Value::Num(0));
    let mut any = false;
    for term in &linear.terms {
        for _ in 0..repeats(term.factor, 1)? {
            let atom = expr_of(term.atom);
            expr = if any {
                sum_of(alloc, expr, atom)?
            } else {
                atom
            };
            any = true;
        }
    }
    for term in &linear.terms {
        for _ in 0..repeats(term.factor, -1)? {
            let atom = boxed(alloc, expr_of(term.atom))?;
            expr = Expr::Minus(boxed(alloc, expr)?, atom);
            any = true;
        }
    }
    if !any {
        return Ok(Expr::Const(Value::Num(linear.constant)));
    }
    if linear.constant == 0 {
        return Ok(expr);
    }
    Ok(sum_of(alloc, expr, Expr::Const(Value::Num(linear.constant)))?)
}

/// How often a factor of a sign has its atom spelled.
fn repeats(factor: i128, sign: i128) -> Result<u32, Miss> {
    let Some(times) = factor.checked_mul(sign) else {
        return Err(Miss::NoRule);
    };
    if times <= 0 {
        return Ok(0);
    }
    match u32::try_from(times) {
        Ok(count) if count <= 64 => Ok(count),
        _ => Err(Miss::NoRule),
    }
}

/// The expression of an atom.
fn expr_of(atom: Atom) -> Expr {
    match atom {
        Atom::Arg(place) => Expr::Arg(place),
        Atom::Read { field, key: None } => Expr::Plain(field),
        Atom::Read {
            field,
            key: Some(key),
        } => Expr::Keyed { field, key },
    }
}
