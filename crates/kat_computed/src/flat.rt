//! The rules for fields of which one rank is as good as another.

use crate::extremes::extremes;
use crate::firsts::firsts;
use crate::good::for_good;
use crate::shares::shares;
use crate::truths::truths;
use crate::writes::writes;
use kat_expr::Expr;
use kat_keeping::{Store, Subject};
use kat_reading::Miss;
use kat_type::SeqType;
use std::alloc::Global;

/// A rule that needs no other rule.
#[derive(Clone, Copy, PartialEq, Eq, Debug)]
pub(crate) enum FlatRule {
    /// One constant that is set.
    ForGood,
    /// Sums of several shares.
    Shares,
    /// Greatest and least values.
    Extremes,
    /// Truth values that stay.
    Truths,
    /// Greatest values that forget the start.
    Firsts,
    /// Last writes of computed values.
    Writes,
}

/// The flat rules, cheapest first.
const ORDER: [FlatRule; 6] = [
    FlatRule::ForGood,
    FlatRule::Shares,
    FlatRule::Extremes,
    FlatRule::Truths,
    FlatRule::Firsts,
    FlatRule::Writes,
];

/// The reading of a field by the first flat rule that fits.
pub(crate) fn flat_reading(
    alloc: Global,
    ty: &SeqType,
    subject: &Subject,
    store: &mut Store,
) -> Result<Expr, Miss> {
    for rule in &ORDER {
        match flat_rule(alloc, *rule, ty, subject, store) {
            Ok(expr) => return Ok(expr),
            Err(Miss::NoRule) => {}
            Err(Miss::Memory) => return Err(Miss::Memory),
        }
    }
    Err(Miss::NoRule)
}

/// What a flat rule gives.
pub(crate) fn flat_rule(
    alloc: Global,
    rule: FlatRule,
    ty: &SeqType,
    subject: &Subject,
    store: &mut Store,
) -> Result<Expr, Miss> {
    let ops = ty.ops.as_slice();
    match rule {
        FlatRule::ForGood => for_good(alloc, subject, store),
        FlatRule::Shares => shares(alloc, ops, subject, store),
        FlatRule::Extremes => extremes(alloc, ops, subject, store),
        FlatRule::Truths => truths(alloc, ops, subject, store),
        FlatRule::Firsts => firsts(alloc, ty, subject, store),
        FlatRule::Writes => writes(alloc, ty, subject, store),
    }
}
