//! Calls of operations and queries with arguments of the pools.
ghost use Rattle.std.specs.Prelude.{◌≡◌, ◌≤◌, ◌<◌, ◌+◌, ◌^◌, ◌++◌, length, map, IfOk, OnOk};
ghost use Rattle.kat_histories.specs.Pools.{arguments_of, asks_of, call_with, calls_from, calls_of, op_sorts, pool, query_sorts};
ghost use Rattle.kat_type.specs.Limits.{item_limit};

use crate::choices::{nothing, push_headed};
use kat_num::{Items, Sort, Value};
use kat_type::{OpSig, QuerySig, Signature};
use std::alloc::{AllocError, Global};

/// The code of the name `a`.
const NAME_A: u128 = 0x61 << 112;

/// The code of the name `b`.
const NAME_B: u128 = 0x62 << 112;

/// An operation or a query, by its number in the signature (from 0), with its arguments.
#[derive(Debug, PartialEq)]
pub struct Call {
    pub number: u32,
    pub args: Items<Value>,
}

impl Drop for Call {
    fn drop(self) {
        let Self { number: _, args: _ } = self;
    }
}

/// The calls of operations with arguments of the pools: by operation, and then by arguments.
pub(crate) fn calls_of(alloc: Global, sig: &Signature) -> Result<Vec<Call>, AllocError>
    requires { length sig.now.ops ≤ item_limit }
    ensures { IfOk result (λ calls. calls.items ≡ calls_of sig.now) }
{
    let mut calls = Vec::new(alloc);
    push_ops(alloc, 0, sig.ops.as_slice(), &mut calls)?;
    Ok(calls)
}

/// The calls of queries with arguments of the pools: by query, and then by arguments.
pub fn asks_of(alloc: Global, sig: &Signature) -> Result<Vec<Call>, AllocError>
    requires { length sig.now.queries ≤ item_limit }
    ensures { IfOk result (λ asks. asks.items ≡ asks_of sig.now) }
{
    let mut asks = Vec::new(alloc);
    push_queries(alloc, 0, sig.queries.as_slice(), &mut asks)?;
    Ok(asks)
}

/// Appends the calls of operations, numbered from here on.
fn push_ops(
    alloc: Global,
    number: u32,
    ops: &[OpSig],
    calls: &mut Vec<Call>,
) -> Result<(), AllocError>
    requires { number + length ops.now < 2 ^ 32 }
    ensures { OnOk result (calls.new.items ≡ calls.old.items ++ calls_from number (op_sorts ops.now)) }
{
    match ops {
        [] => Ok(()),
        [op, more @ ..] => {
            push_calls(alloc, number, op.sorts.as_slice(), calls)?;
            push_ops(alloc, number + 1, more, calls)
        }
    }
}

/// Appends the calls of queries, numbered from here on.
fn push_queries(
    alloc: Global,
    number: u32,
    queries: &[QuerySig],
    calls: &mut Vec<Call>,
) -> Result<(), AllocError>
    requires { number + length queries.now < 2 ^ 32 }
    ensures { OnOk result (calls.new.items ≡ calls.old.items ++ calls_from number (query_sorts queries.now)) }
{
    match queries {
        [] => Ok(()),
        [query, more @ ..] => {
            push_calls(alloc, number, query.sorts.as_slice(), calls)?;
            push_queries(alloc, number + 1, more, calls)
        }
    }
}

/// Appends the calls of one item.
fn push_calls(
    alloc: Global,
    number: u32,
    sorts: &[Sort],
    calls: &mut Vec<Call>,
) -> Result<(), AllocError>
    ensures { OnOk result (calls.new.items ≡ calls.old.items ++ map (call_with number) (arguments_of sorts.now)) }
{
    for args in arguments_of(alloc, sorts)? {
        calls.push(Call { number, args })?;
    }
    Ok(())
}

/// The lists of arguments of these sorts, lexicographically.
fn arguments_of(alloc: Global, sorts: &[Sort]) -> Result<Vec<Items<Value>>, AllocError>
    ensures { IfOk result (λ lists. lists.items ≡ arguments_of sorts.now) }
{
    match sorts {
        [] => nothing(alloc),
        [sort, more @ ..] => {
            let rests = arguments_of(alloc, more)?;
            let mut lists = Vec::new(alloc);
            for value in pool(*sort) {
                push_headed(alloc, *value, &rests, &mut lists)?;
            }
            Ok(lists)
        }
    }
}

/// The values with which a sort is tried, ascending.
fn pool(sort: Sort) -> &'static [Value]
    ensures { result.now ≡ pool sort }
{
    match sort {
        Sort::Bool => &[Value::Bool(false), Value::Bool(true)],
        Sort::Int => &[Value::Num(-1), Value::Num(0), Value::Num(1), Value::Num(2)],
        Sort::Nat => &[Value::Num(0), Value::Num(1), Value::Num(2)],
        Sort::Name => &[Value::Name(NAME_A), Value::Name(NAME_B)],
    }
}
