//! The rules that a line has to keep.
ghost use Rattle.std.specs.Prelude.{◌≡◌, map, IfOk};
ghost use Rattle.kat_script.specs.Rules.{fit, has_sort, value_of};

use crate::said::Constant;
use kat_num::{Sort, Value};
use std::alloc::{AllocError, Global};

/// How many replicas there are at most.
pub const REPLICA_LIMIT: u64 = 32;

/// How many words of packets there are at most.
pub const PACKET_LIMIT: usize = 32;

/// The greatest time.
pub const TIME_LIMIT: u64 = 1_000_000_000;

/// How many lines that aren't blank there are at most, the first one among them.
pub const LINE_LIMIT: u64 = 100_000;

/// How many operations, and how many queries, a signature has at most.
pub const CALL_LIMIT: usize = 12;

/// A rule that a line may break. A line is refused by the first that it breaks, in this order.
#[derive(Clone, Copy, PartialEq, Eq, Debug)]
pub enum Rule {
    /// The first line says how many replicas there are, and no other line does.
    Syntax,
    /// Replicas are numbered from 1.
    NoReplica,
    /// A packet is shipped before it is delivered.
    NoPacket,
    /// A time exceeds its replica's clock.
    Late,
    /// The signature has the operation or query, with arguments of these sorts.
    BadCall,
    /// Replicas, packets, times and lines keep their limits.
    TooLarge,
}

/// Whether the constant fits the sort.
fn has_sort(constant: Constant, sort: Sort) -> bool
    ensures { result ≡ has_sort constant sort }
{
    match (constant, sort) {
        (Constant::Natural(_), Sort::Nat | Sort::Int) => true,
        (Constant::Negated(_), Sort::Int) => true,
        (Constant::Named(_), Sort::Name) => true,
        (Constant::Truth(_), Sort::Bool) => true,
        _ => false,
    }
}

/// Whether there are as many constants as sorts, each of its sort.
pub fn fit(args: &[Constant], sorts: &[Sort]) -> bool
    ensures { result ≡ fit args.now sorts.now }
{
    match args {
        [] => match sorts {
            [] => true,
            [_, ..] => false,
        },
        [arg, args @ ..] => match sorts {
            [] => false,
            [sort, sorts @ ..] => has_sort(*arg, *sort) && fit(args, sorts),
        },
    }
}

fn value_of(constant: Constant) -> Value
    ensures { result ≡ value_of constant }
{
    match constant {
        Constant::Natural(n) => Value::Num(i128::from(n)),
        Constant::Negated(n) => Value::Num(-i128::from(n)),
        Constant::Named(name) => Value::Name(name),
        Constant::Truth(truth) => Value::Bool(truth),
    }
}

/// The values of the constants.
#[inline(always)]
pub fn values_of(alloc: Global, constants: &[Constant]) -> Result<Vec<Value>, AllocError>
    ensures { IfOk result (λ values. values.items ≡ map value_of constants.now) }
{
    let mut values = Vec::with_capacity(alloc, constants.len())?;
    for constant in constants {
        values.push(value_of(*constant))?;
    }
    Ok(values)
}
