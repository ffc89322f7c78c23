//! What expressions read.

use kat_expr::Expr;

/// Whether an expression reads a field whose number is at least `from` and less than `to`.
pub fn reads_field(expr: &Expr, from: u32, to: u32) -> bool {
    match expr {
        Expr::Const(_) | Expr::Arg(_) => false,
        Expr::Plain(field) => from <= *field && *field < to,
        Expr::Keyed { field, .. } => from <= *field && *field < to,
        Expr::Not(inner) => reads_field(inner, from, to),
        Expr::And(left, right)
        | Expr::Or(left, right)
        | Expr::Less(left, right)
        | Expr::AtMost(left, right)
        | Expr::Same(left, right)
        | Expr::Plus(left, right)
        | Expr::Minus(left, right)
        | Expr::Max(left, right)
        | Expr::Min(left, right) => reads_field(left, from, to) || reads_field(right, from, to),
        Expr::If(condition, then, other) => {
            reads_field(condition, from, to)
                || reads_field(then, from, to)
                || reads_field(other, from, to)
        }
    }
}

/// Whether an expression reads an argument; the key of a table is none.
pub fn reads_argument(expr: &Expr) -> bool {
    match expr {
        Expr::Arg(_) => true,
        Expr::Const(_) | Expr::Plain(_) | Expr::Keyed { .. } => false,
        Expr::Not(inner) => reads_argument(inner),
        Expr::And(left, right)
        | Expr::Or(left, right)
        | Expr::Less(left, right)
        | Expr::AtMost(left, right)
        | Expr::Same(left, right)
        | Expr::Plus(left, right)
        | Expr::Minus(left, right)
        | Expr::Max(left, right)
        | Expr::Min(left, right) => reads_argument(left) || reads_argument(right),
        Expr::If(condition, then, other) => {
            reads_argument(condition) || reads_argument(then) || reads_argument(other)
        }
    }
}
