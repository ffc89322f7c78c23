//! Copies of types, with memory of their own.
ghost use Rattle.std.specs.Prelude.{◌≡◌, IfOk, map};
ghost use Rattle.kat_expr.specs.Terms.{term_of};
ghost use Rattle.kat_type.specs.Types.{assigned_by, operation_form, query_form, type_form};

use kat_expr::Expr;
use kat_num::Items;
use kat_type::{Assign, Operation, Query, SeqType};
use std::alloc::{AllocError, Global};

/// An equal type: the same fields, operations and queries.
pub(crate) fn copied_type(alloc: Global, ty: &SeqType) -> Result<SeqType, AllocError>
    ensures { IfOk result (λ copy. type_form copy ≡ type_form ty.now) }
{
    let ops = copied_operations(alloc, ty.ops.as_slice())?;
    let queries = copied_queries(alloc, ty.queries.as_slice())?;
    Ok(SeqType {
        name: ty.name,
        fields: copied(alloc, &ty.fields)?,
        ops: Items::from_vec(ops),
        queries: Items::from_vec(queries),
    })
}

/// The same elements, in their order.
fn copied<T: Copy>(alloc: Global, items: &Items<T>) -> Result<Items<T>, AllocError>
    ensures { IfOk result (λ copy. copy ≡ items.now) }
{
    Ok(Items::from_vec(Vec::from_slice(alloc, items.as_slice())?))
}

/// Equal operations, in their order.
fn copied_operations(alloc: Global, ops: &[Operation]) -> Result<Vec<Operation>, AllocError>
    ensures { IfOk result (λ copies. map operation_form copies.items ≡ map operation_form ops.now) }
{
    let mut copies = Vec::new(alloc);
    for op in ops {
        copies.push(copied_operation(alloc, op)?)?;
    }
    Ok(copies)
}

/// An equal operation.
fn copied_operation(alloc: Global, op: &Operation) -> Result<Operation, AllocError>
    ensures { IfOk result (λ copy. operation_form copy ≡ operation_form op.now) }
{
    let assigns = copied_assigns(alloc, op.assigns.as_slice())?;
    Ok(Operation {
        name: op.name,
        params: copied(alloc, &op.params)?,
        ranks: copied(alloc, &op.ranks)?,
        assigns: Items::from_vec(assigns),
    })
}

/// Equal queries, in their order.
fn copied_queries(alloc: Global, queries: &[Query]) -> Result<Vec<Query>, AllocError>
    ensures { IfOk result (λ copies. map query_form copies.items ≡ map query_form queries.now) }
{
    let mut copies = Vec::new(alloc);
    for query in queries {
        copies.push(copied_query(alloc, query)?)?;
    }
    Ok(copies)
}

/// An equal query.
fn copied_query(alloc: Global, query: &Query) -> Result<Query, AllocError>
    ensures { IfOk result (λ copy. query_form copy ≡ query_form query.now) }
{
    let right = copied_expr(alloc, &query.right)?;
    Ok(Query {
        name: query.name,
        params: copied(alloc, &query.params)?,
        sort: query.sort,
        right,
    })
}

/// Equal assignments, in their order.
fn copied_assigns(alloc: Global, assigns: &[Assign]) -> Result<Vec<Assign>, AllocError>
    ensures { IfOk result (λ copies. map assigned_by copies.items ≡ map assigned_by assigns.now) }
{
    let mut copies = Vec::new(alloc);
    for assign in assigns {
        copies.push(copied_assign(alloc, assign)?)?;
    }
    Ok(copies)
}

/// An equal assignment.
fn copied_assign(alloc: Global, assign: &Assign) -> Result<Assign, AllocError>
    ensures { IfOk result (λ copy. assigned_by copy ≡ assigned_by assign.now) }
{
    match assign {
        Assign::Plain { field, right } => Ok(Assign::Plain {
            field: *field,
            right: copied_expr(alloc, right)?,
        }),
        Assign::Keyed { field, key, right } => Ok(Assign::Keyed {
            field: *field,
            key: *key,
            right: copied_expr(alloc, right)?,
        }),
        Assign::Clear { field } => Ok(Assign::Clear { field: *field }),
    }
}

/// An equal expression.
fn copied_expr(alloc: Global, expr: &Expr) -> Result<Expr, AllocError>
    ensures { IfOk result (λ copy. term_of copy ≡ term_of expr.now) }
{
    match expr {
        Expr::Const(value) => Ok(Expr::Const(*value)),
        Expr::Plain(field) => Ok(Expr::Plain(*field)),
        Expr::Keyed { field, key } => Ok(Expr::Keyed {
            field: *field,
            key: *key,
        }),
        Expr::Arg(place) => Ok(Expr::Arg(*place)),
        Expr::Not(denied) => Ok(Expr::Not(Box::new(alloc, copied_expr(alloc, denied)?)?)),
        Expr::And(left, right) => {
            let left = Box::new(alloc, copied_expr(alloc, left)?)?;
            let right = Box::new(alloc, copied_expr(alloc, right)?)?;
            Ok(Expr::And(left, right))
        }
        Expr::Or(left, right) => {
            let left = Box::new(alloc, copied_expr(alloc, left)?)?;
            let right = Box::new(alloc, copied_expr(alloc, right)?)?;
            Ok(Expr::Or(left, right))
        }
        Expr::Less(left, right) => {
            let left = Box::new(alloc, copied_expr(alloc, left)?)?;
            let right = Box::new(alloc, copied_expr(alloc, right)?)?;
            Ok(Expr::Less(left, right))
        }
        Expr::AtMost(left, right) => {
            let left = Box::new(alloc, copied_expr(alloc, left)?)?;
            let right = Box::new(alloc, copied_expr(alloc, right)?)?;
            Ok(Expr::AtMost(left, right))
        }
        Expr::Same(left, right) => {
            let left = Box::new(alloc, copied_expr(alloc, left)?)?;
            let right = Box::new(alloc, copied_expr(alloc, right)?)?;
            Ok(Expr::Same(left, right))
        }
        Expr::Plus(left, right) => {
            let left = Box::new(alloc, copied_expr(alloc, left)?)?;
            let right = Box::new(alloc, copied_expr(alloc, right)?)?;
            Ok(Expr::Plus(left, right))
        }
        Expr::Minus(left, right) => {
            let left = Box::new(alloc, copied_expr(alloc, left)?)?;
            let right = Box::new(alloc, copied_expr(alloc, right)?)?;
            Ok(Expr::Minus(left, right))
        }
        Expr::Max(left, right) => {
            let left = Box::new(alloc, copied_expr(alloc, left)?)?;
            let right = Box::new(alloc, copied_expr(alloc, right)?)?;
            Ok(Expr::Max(left, right))
        }
        Expr::Min(left, right) => {
            let left = Box::new(alloc, copied_expr(alloc, left)?)?;
            let right = Box::new(alloc, copied_expr(alloc, right)?)?;
            Ok(Expr::Min(left, right))
        }
        Expr::If(test, then, other) => {
            let test = Box::new(alloc, copied_expr(alloc, test)?)?;
            let then = Box::new(alloc, copied_expr(alloc, then)?)?;
            let other = Box::new(alloc, copied_expr(alloc, other)?)?;
            Ok(Expr::If(test, then, other))
        }
    }
}
