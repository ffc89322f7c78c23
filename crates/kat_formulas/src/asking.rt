//! Asks of formulas.

use crate::meanings::meaning_of;
use crate::scopes::Scope;
use crate::sums::Meaning;
use crate::writing::linear_ask;
use kat_design::{Ask, SIZE_LIMIT};
use kat_expr::Expr;
use kat_reading::{Miss, asked_nodes};
use std::alloc::Global;

/// The ask of an expression over leaves and arguments; no rule fits if no ask gives it, or if a design has no room for it.
pub fn formula_ask(alloc: Global, scope: &Scope, expr: &Expr) -> Result<Ask, Miss> {
    let ask = match meaning_of(alloc, scope, expr)? {
        Meaning::Truth(ask) => ask,
        Meaning::Name(ask) => ask,
        Meaning::Number(linear) => linear_ask(alloc, scope, &linear)?,
        _ => return Err(Miss::NoRule),
    };
    if asked_nodes(&ask) <= SIZE_LIMIT {
        return Ok(ask);
    }
    Err(Miss::NoRule)
}
