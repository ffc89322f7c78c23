//! The type of a cart.
ghost use Rattle.std.specs.Prelude.{◌≡◌, IfOk};
ghost use Rattle.kat_sample.specs.Carts.{adding, cart, counting};
ghost use Rattle.kat_type.specs.Types.{operation_form, query_form, type_form};

use kat_expr::Expr;
use kat_num::{Items, Sort, Value};
use kat_type::{Assign, Field, Operation, Param, Query, Rank, SeqType};
use std::alloc::{AllocError, Global};

/// The type file of a cart.
pub const CART: &str = "type cart
state c: table name -> nat = 0
op add(x: name, n: nat) rank 0: c[x] := c[x] + n
query count(x: name): nat = c[x]
";

const THING: Param = Param {
    name: 0x78 << 112,
    sort: Sort::Name,
};

const AMOUNT: Param = Param {
    name: 0x6e << 112,
    sort: Sort::Nat,
};

/// The type that [`CART`] is a file of: things are counted.
pub fn cart(alloc: Global) -> Result<SeqType, AllocError>
    ensures { IfOk result (λ ty. type_form ty ≡ cart) }
{
    Ok(SeqType {
        name: 0x63617274 << 88,
        fields: Items::from_vec(vec![in alloc;
            Field::Keyed {
                name: 0x63 << 112,
                key: Sort::Name,
                sort: Sort::Nat,
                start: Value::Num(0),
            },
        ]?),
        ops: Items::from_vec(vec![in alloc; adding(alloc)?]?),
        queries: Items::from_vec(vec![in alloc; counting(alloc)?]?),
    })
}

/// A thing is added so often.
fn adding(alloc: Global) -> Result<Operation, AllocError>
    ensures { IfOk result (λ operation. operation_form operation ≡ adding) }
{
    let count = Box::new(alloc, Expr::Keyed { field: 0, key: 0 })?;
    let amount = Box::new(alloc, Expr::Arg(1))?;
    let right = Expr::Plus(count, amount);
    Ok(Operation {
        name: 0x616464 << 96,
        params: Items::from_vec(vec![in alloc; THING, AMOUNT]?),
        ranks: Items::from_vec(vec![in alloc; Rank::Digit(0)]?),
        assigns: Items::from_vec(vec![in alloc;
            Assign::Keyed {
                field: 0,
                key: 0,
                right
            },
        ]?),
    })
}

/// How often a thing was added.
fn counting(alloc: Global) -> Result<Query, AllocError>
    ensures { IfOk result (λ query. query_form query ≡ counting) }
{
    Ok(Query {
        name: 0x636f756e74 << 80,
        params: Items::from_vec(vec![in alloc; THING]?),
        sort: Sort::Nat,
        right: Expr::Keyed { field: 0, key: 0 },
    })
}
