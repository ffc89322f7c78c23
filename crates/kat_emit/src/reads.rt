//! What members read.
use crate::parts::{Form, Part};
use crate::statements::Statement;
use kat_design::{Ask, Leaf};

/// Whether a statement reads a parameter that is checked.
pub fn statement_reads(statement: Statement<'_>, param: usize) -> bool {
    match statement {
        Statement::Check { .. } | Statement::Tick | Statement::Tock => false,
        Statement::Grow { key, weight, .. } => is_key(key, param) || leaf_reads(weight, param),
        Statement::Keep { key, .. } => is_key(key, param),
        Statement::Put { key, leaves, .. } => {
            is_key(key, param) || leaves.iter().any(|leaf| leaf_reads(*leaf, param))
        }
        Statement::Insert { key, .. } => key as usize == param,
    }
}

fn is_key(key: Option<u32>, param: usize) -> bool {
    match key {
        Some(key) => key as usize == param,
        None => false,
    }
}

fn leaf_reads(leaf: Leaf, param: usize) -> bool {
    match leaf {
        Leaf::Arg(place) | Leaf::Pos(place) | Leaf::Neg(place) => place as usize == param,
        Leaf::Time | Leaf::Replica | Leaf::Zero | Leaf::One | Leaf::False | Leaf::True => false,
    }
}

/// Whether an ask reads a parameter.
pub fn ask_reads(ask: &Ask, param: usize) -> bool {
    match ask {
        Ask::Leaf { key, .. } => is_key(*key, param),
        Ask::Arg(place) => *place as usize == param,
        Ask::Const(_) => false,
        Ask::Not(inner) => ask_reads(inner, param),
        Ask::And(left, right)
        | Ask::Or(left, right)
        | Ask::Less(left, right)
        | Ask::Plus(left, right)
        | Ask::Minus(left, right) => ask_reads(left, param) || ask_reads(right, param),
    }
}

/// Whether an ask is a number that may have more than 64 bits: a sum of replicas, a leaf whose start has more, or a sum of asks.
pub fn is_wide(parts: &[Part<'_>], ask: &Ask) -> bool {
    match ask {
        Ask::Leaf {
            component,
            leaf,
            ..
        } => match parts.get(*component as usize) {
            Some(part) => {
                matches!(part.form, Form::Tally | Form::Tallies)
                    || part.is_wide_leaf(*leaf as usize)
            }
            None => false,
        },
        Ask::Plus(_, _) | Ask::Minus(_, _) => true,
        Ask::Arg(_)
        | Ask::Const(_)
        | Ask::Not(_)
        | Ask::And(_, _)
        | Ask::Or(_, _)
        | Ask::Less(_, _) => false,
    }
}

/// Whether an ask is such a number, or has one in it.
pub fn has_wide(parts: &[Part<'_>], ask: &Ask) -> bool {
    is_wide(parts, ask)
        || match ask {
            Ask::Leaf { .. } | Ask::Arg(_) | Ask::Const(_) => false,
            Ask::Not(inner) => has_wide(parts, inner),
            Ask::And(left, right)
            | Ask::Or(left, right)
            | Ask::Less(left, right)
            | Ask::Plus(left, right)
            | Ask::Minus(left, right) => has_wide(parts, left) || has_wide(parts, right),
        }
}
