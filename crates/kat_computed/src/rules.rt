//! The rules, and which of them fit a field.

use crate::conditions::decided;
use crate::flat::{FlatRule, flat_rule};
use crate::ranked::ranked;
use kat_expr::Expr;
use kat_keeping::{Store, Subject, derived_reading, grown_reading};
use kat_reading::Miss;
use kat_type::SeqType;
use std::alloc::Global;

/// What the rules give for a field.
#[derive(Drop)]
pub enum Fitting {
    /// Its reading, a formula over the leaves that are kept for it, and over other fields.
    Found(Expr),
    /// No rule is left, and so many more were to be passed over.
    Left(u32),
}

/// A rule that gives the reading of a field.
#[derive(Clone, Copy, PartialEq, Eq, Debug)]
enum Rule {
    /// What another field tells at each step.
    Derived,
    /// What another field told, if that only grows.
    Grown,
    Flat(FlatRule),
    /// Conditions that are decided before.
    Decided,
    /// Ranks by digits.
    Ranked,
}

/// The rules, cheapest first.
const ORDER: [Rule; 10] = [
    Rule::Derived,
    Rule::Grown,
    Rule::Flat(FlatRule::ForGood),
    Rule::Flat(FlatRule::Shares),
    Rule::Flat(FlatRule::Extremes),
    Rule::Flat(FlatRule::Truths),
    Rule::Flat(FlatRule::Firsts),
    Rule::Decided,
    Rule::Ranked,
    Rule::Flat(FlatRule::Writes),
];

/// The reading of a field by the first rule that fits, so many being passed over.
pub fn reading_for(
    alloc: Global,
    ty: &SeqType,
    subject: &Subject,
    store: &mut Store,
    passed: u32,
) -> Result<Fitting, Miss> {
    let mut left = passed;
    for rule in &ORDER {
        match applied(alloc, *rule, ty, subject, store) {
            Ok(expr) => {
                if left == 0 {
                    return Ok(Fitting::Found(expr));
                }
                left = left.saturating_sub(1);
            }
            Err(Miss::NoRule) => {}
            Err(Miss::Memory) => return Err(Miss::Memory),
        }
    }
    Ok(Fitting::Left(left))
}

/// What a rule gives.
fn applied(
    alloc: Global,
    rule: Rule,
    ty: &SeqType,
    subject: &Subject,
    store: &mut Store,
) -> Result<Expr, Miss> {
    match rule {
        Rule::Derived => derived_reading(alloc, ty, subject),
        Rule::Grown => grown_reading(alloc, ty, subject),
        Rule::Flat(flat) => flat_rule(alloc, flat, ty, subject, store),
        Rule::Decided => decided(alloc, ty, subject, store),
        Rule::Ranked => ranked(alloc, ty, subject, store),
    }
}
