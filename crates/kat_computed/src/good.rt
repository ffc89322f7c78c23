//! Fields that all operations set to one constant.

use kat_expr::Expr;
use kat_formulas::{choice_of, constant};
use kat_keeping::{Change, Store, Subject, marked, touches_of};
use kat_num::Value;
use kat_reading::Miss;
use std::alloc::Global;

/// The constant that all operations which change the field set.
pub(crate) fn only_constant(subject: &Subject) -> Option<Value> {
    let mut only = None;
    for change in &subject.changes {
        match change {
            Change::Nothing => {}
            Change::Clears => return None,
            Change::Gives { right, .. } => {
                let own = constant(right);
                if own.is_none() || (only.is_some() && only != own) {
                    return None;
                }
                only = own;
            }
        }
    }
    only
}

/// A field that all operations set to one constant: a mark, and under it that constant.
pub(crate) fn for_good(alloc: Global, subject: &Subject, store: &mut Store) -> Result<Expr, Miss> {
    let Some(value) = only_constant(subject) else {
        return Err(Miss::NoRule);
    };
    let touches = touches_of(alloc, subject)?;
    let when = marked(alloc, store, subject.key, touches)?;
    let start = Expr::Const(subject.start);
    Ok(choice_of(alloc, when, Expr::Const(value), start)?)
}
