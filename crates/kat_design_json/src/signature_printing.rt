//! Printing signatures.
ghost use Rattle.std.specs.Prelude.{◌≡◌, ◌<◌, IfOk, map};
ghost use Rattle.serde_json.specs.View.{view};
ghost use Rattle.kat_design_json.specs.Signatures.{IsSignature, IsWordCode};
ghost use Rattle.kat_design_json.specs.PrintedDesigns.{signature_data, operation_data, query_data};
ghost use Rattle.kat_design.specs.Sorted.{EachHas};
ghost use Rattle.kat_type.specs.declared.signatures.OpSig.{OpSig};
ghost use Rattle.kat_json.specs.Lists.{list};
ghost use Rattle.kat_type.specs.declared.signatures.QuerySig.{QuerySig};
ghost use Rattle.kat_num.specs.Names.{name_of_code};
ghost use Rattle.serde_json.specs.Data.{string};

use kat_json::forms::AnySort;
use kat_json::printing::{list_value, name_value, sort_value};
use kat_type::{OpSig, QuerySig, Signature};
use serde_json::Value;
use std::alloc::{AllocError, Global};

/// A signature: operations and queries.
pub fn signature_value(alloc: Global, sig: &Signature) -> Result<Value, AllocError>
    requires { IsSignature sig.now }
    ensures { IfOk result (λ value. view value ≡ signature_data sig.now) }
{
    let ops = operations_value(alloc, sig.ops.as_slice())?;
    let queries = queries_value(alloc, sig.queries.as_slice())?;
    Ok(Value::from(vec![in alloc; ops, queries]?))
}

fn operations_value(alloc: Global, ops: &[OpSig]) -> Result<Value, AllocError>
    requires { EachHas IsWordCode (map (λ (op : OpSig). op.name) ops.now) }
    ensures { IfOk result (λ value. view value ≡ list (map operation_data ops.now)) }
{
    let mut values = Vec::with_capacity(alloc, ops.len())?;
    for i in 0..ops.len() {
        let value = operation_value(alloc, &ops[i])?;
        values.push(value)?;
    }
    Ok(Value::from(values))
}

fn operation_value(alloc: Global, op: &OpSig) -> Result<Value, AllocError>
    requires { IsWordCode op.now.name }
    ensures { IfOk result (λ value. view value ≡ operation_data op.now) }
{
    let name = item_name_value(alloc, op.name)?;
    let sorts = list_value::<AnySort>(alloc, op.sorts.as_slice())?;
    Ok(Value::from(vec![in alloc; name, sorts]?))
}

fn queries_value(alloc: Global, queries: &[QuerySig]) -> Result<Value, AllocError>
    requires { EachHas IsWordCode (map (λ (query : QuerySig). query.name) queries.now) }
    ensures { IfOk result (λ value. view value ≡ list (map query_data queries.now)) }
{
    let mut values = Vec::with_capacity(alloc, queries.len())?;
    for i in 0..queries.len() {
        let value = query_value(alloc, &queries[i])?;
        values.push(value)?;
    }
    Ok(Value::from(values))
}

fn query_value(alloc: Global, query: &QuerySig) -> Result<Value, AllocError>
    requires { IsWordCode query.now.name }
    ensures { IfOk result (λ value. view value ≡ query_data query.now) }
{
    let name = item_name_value(alloc, query.name)?;
    let sorts = list_value::<AnySort>(alloc, query.sorts.as_slice())?;
    let sort = sort_value(alloc, query.sort)?;
    Ok(Value::from(vec![in alloc; name, sorts, sort]?))
}

/// The name of an operation or a query.
fn item_name_value(alloc: Global, code: u128) -> Result<Value, AllocError>
    requires { IsWordCode code }
    ensures { IfOk result (λ value. view value ≡ string (name_of_code code)) }
{
    name_value(alloc, code)
}
