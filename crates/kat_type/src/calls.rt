//! The signature of a type.
ghost use Rattle.std.specs.Prelude.{◌≡◌, map, IfOk};
ghost use Rattle.kat_type.specs.Signatures.{op_sig, param_sorts, query_sig, signature_of};
ghost use Rattle.kat_type.specs.Types.{operation_form, query_form, type_form};

use crate::signatures::{OpSig, QuerySig, Signature};
use crate::types::{Operation, Param, Query, SeqType};
use kat_num::{Items, Sort};
use std::alloc::{AllocError, Global};

/// The signature of a type: its operations and queries, in their order.
pub fn signature(alloc: Global, ty: &SeqType) -> Result<Signature, AllocError>
    ensures { IfOk result (λ sig. sig ≡ signature_of (type_form ty.now)) }
{
    let ops = op_sigs(alloc, ty.ops.as_slice())?;
    let queries = query_sigs(alloc, ty.queries.as_slice())?;
    Ok(Signature {
        ops: Items::from_vec(ops),
        queries: Items::from_vec(queries),
    })
}

/// The operations by name and sorts.
fn op_sigs(alloc: Global, ops: &[Operation]) -> Result<Vec<OpSig>, AllocError>
    ensures { IfOk result (λ sigs. sigs.items ≡ map op_sig (map operation_form ops.now)) }
{
    let mut sigs = Vec::new(alloc);
    for op in ops {
        let sorts = param_sorts(alloc, op.params.as_slice())?;
        sigs.push(OpSig {
            name: op.name,
            sorts: Items::from_vec(sorts),
        })?;
    }
    Ok(sigs)
}

/// The queries by name and sorts.
fn query_sigs(alloc: Global, queries: &[Query]) -> Result<Vec<QuerySig>, AllocError>
    ensures { IfOk result (λ sigs. sigs.items ≡ map query_sig (map query_form queries.now)) }
{
    let mut sigs = Vec::new(alloc);
    for query in queries {
        let sorts = param_sorts(alloc, query.params.as_slice())?;
        sigs.push(QuerySig {
            name: query.name,
            sorts: Items::from_vec(sorts),
            sort: query.sort,
        })?;
    }
    Ok(sigs)
}

/// The sorts of parameters.
fn param_sorts(alloc: Global, params: &[Param]) -> Result<Vec<Sort>, AllocError>
    ensures { IfOk result (λ sorts. sorts.items ≡ param_sorts params.now) }
{
    params.iter().map(|param| param.sort).collect(alloc)
}
