//! Whether a design has the signature of a type.
ghost use Rattle.std.specs.Prelude.{◌≡◌, ◌↔◌, IsTrue, map};
ghost use Rattle.kat_type.specs.Signatures.{signature_of, op_sig, query_sig, param_sorts};
ghost use Rattle.kat_type.specs.Types.{type_form, operation_form, query_form};

use kat_design::Design;
use kat_num::Sort;
use kat_type::{OpSig, Operation, Param, Query, QuerySig, SeqType};

/// Whether the design has the type's signature: the same operations and queries, by name and sorts, in the same order.
pub fn agrees(ty: &SeqType, design: &Design) -> bool
    ensures { IsTrue result ↔ (signature_of (type_form ty.now) ≡ design.now.sig) }
{
    are_operations(ty.ops.as_slice(), design.sig.ops.as_slice())
        && are_queries(ty.queries.as_slice(), design.sig.queries.as_slice())
}

fn are_operations(ops: &[Operation], sigs: &[OpSig]) -> bool
    ensures { IsTrue result ↔ (map op_sig (map operation_form ops.now) ≡ sigs.now) }
{
    match (ops, sigs) {
        ([], []) => true,
        ([op, ops @ ..], [sig, sigs @ ..]) => is_operation(op, sig) && are_operations(ops, sigs),
        _ => false,
    }
}

fn is_operation(op: &Operation, sig: &OpSig) -> bool
    ensures { IsTrue result ↔ (op_sig (operation_form op.now) ≡ sig.now) }
{
    op.name == sig.name && are_sorts(op.params.as_slice(), sig.sorts.as_slice())
}

fn are_queries(queries: &[Query], sigs: &[QuerySig]) -> bool
    ensures { IsTrue result ↔ (map query_sig (map query_form queries.now) ≡ sigs.now) }
{
    match (queries, sigs) {
        ([], []) => true,
        ([query, queries @ ..], [sig, sigs @ ..]) => {
            is_query(query, sig) && are_queries(queries, sigs)
        }
        _ => false,
    }
}

fn is_query(query: &Query, sig: &QuerySig) -> bool
    ensures { IsTrue result ↔ (query_sig (query_form query.now) ≡ sig.now) }
{
    query.name == sig.name
        && query.sort == sig.sort
        && are_sorts(query.params.as_slice(), sig.sorts.as_slice())
}

fn are_sorts(params: &[Param], sorts: &[Sort]) -> bool
    ensures { IsTrue result ↔ (param_sorts params.now ≡ sorts.now) }
{
    match (params, sorts) {
        ([], []) => true,
        ([param, params @ ..], [sort, sorts @ ..]) => {
            param.sort == *sort && are_sorts(params, sorts)
        }
        _ => false,
    }
}
