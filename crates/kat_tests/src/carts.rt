//! The cart, and the file that is said to be its.
use kat_expr::Expr;
use kat_num::Value;
use kat_sample::{CART, cart};
use kat_type::{Assign, Field, Operation, Query, Rank, SeqType, signature};
use kat_type_file::read_type;
use std::alloc::{AllocError, Global};
use std::process::Abort;
use std::test::Fail;

/// Whether the expression is what the table has at the first parameter.
fn is_count(expr: &Expr) -> bool {
    matches!(expr, Expr::Keyed { field: 0, key: 0 })
}

/// Whether the expression is that count and the second parameter.
fn is_greater_count(expr: &Expr) -> bool {
    match expr {
        Expr::Plus(count, amount) => is_count(count) && matches!(**amount, Expr::Arg(1)),
        _ => false,
    }
}

fn is_first(ranks: &[Rank]) -> bool {
    matches!(ranks, [Rank::Digit(0)])
}

fn adds_to_the_count(ops: &[Operation]) -> bool {
    let [add] = ops else {
        return false;
    };
    match add.assigns.as_slice() {
        [
            Assign::Keyed {
                field: 0,
                key: 0,
                right,
            },
        ] => is_greater_count(right) && is_first(add.ranks.as_slice()),
        _ => false,
    }
}

fn answers_the_count(queries: &[Query]) -> bool {
    match queries {
        [count] => is_count(&count.right),
        _ => false,
    }
}

fn starts_empty(fields: &[Field]) -> bool {
    match fields {
        [Field::Keyed { start, .. }] => *start == Value::Num(0),
        _ => false,
    }
}

fn is_cart(ty: &SeqType) -> bool {
    starts_empty(ty.fields.as_slice())
        && adds_to_the_count(ty.ops.as_slice())
        && answers_the_count(ty.queries.as_slice())
}

/// Whether two types have one name, one state and one signature.
fn are_alike(alloc: Global, made: &SeqType, read: &SeqType) -> Result<bool, AllocError> {
    let own = signature(alloc, made)?;
    let other = signature(alloc, read)?;
    Ok(made.name == read.name && made.fields == read.fields && own == other)
}

fn check_carts(rt: &impl Abort, alloc: Global, made: &SeqType, read: &SeqType) -> Result<(), Fail> {
    assert!(rt; is_cart(made));
    assert!(rt; is_cart(read));
    assert!(rt; are_alike(alloc, made, read)?);
    Ok(())
}

#[test]
fn the_file_is_that_of_the_cart(rt: HostRuntime) -> Result<(), Fail> {
    let made = cart(rt.alloc())?;
    let read = read_type(rt.alloc(), CART.as_bytes())?;
    check_carts(&rt, rt.alloc(), &made, &read)
}
