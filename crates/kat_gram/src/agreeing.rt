//! Whether a design can be one of a listing: its signature is the type's, it isn't too great, and it keeps the rules.
ghost use Rattle.std.specs.Prelude.{◌≡◌, ◌≤◌, ◌↔◌, IfOk, IsTrue};
ghost use Rattle.std.specs.Bool.{Decides};
ghost use Rattle.kat_design.specs.Designs.{design_form};
ghost use Rattle.kat_design.specs.Sizes.{size_of};
ghost use Rattle.kat_rules.specs.Listed.{KeepsRules};

use kat_design::{Design, size};
use kat_num::Sort;
use kat_rules::{Setting, keeps_rules};
use kat_type::{OpSig, QuerySig, Signature};
use std::alloc::{AllocError, Global};

/// Whether a design keeps the rules of a listing, and is at most so great.
pub(crate) fn may_be_listed(
    alloc: Global,
    setting: &Setting,
    most: u32,
    design: &Design,
) -> Result<bool, AllocError>
    requires { most ≤ 24 }
    ensures { IfOk result (λ listed. Decides listed (KeepsRules setting.now (design_form design.now)
        × (size_of (design_form design.now) ≤ most))) }
{
    if !agrees(&setting.sig, &design.sig) || size(design) > most {
        return Ok(false);
    }
    keeps_rules(alloc, setting, design)
}

/// Whether two signatures are one.
fn agrees(left: &Signature, right: &Signature) -> bool
    ensures { IsTrue result ↔ (left.now ≡ right.now) }
{
    are_operations(left.ops.as_slice(), right.ops.as_slice())
        && are_queries(left.queries.as_slice(), right.queries.as_slice())
}

fn are_operations(left: &[OpSig], right: &[OpSig]) -> bool
    ensures { IsTrue result ↔ (left.now ≡ right.now) }
{
    match (left, right) {
        ([], []) => true,
        ([some, left @ ..], [other, right @ ..]) => {
            is_operation(some, other) && are_operations(left, right)
        }
        _ => false,
    }
}

fn is_operation(left: &OpSig, right: &OpSig) -> bool
    ensures { IsTrue result ↔ (left.now ≡ right.now) }
{
    left.name == right.name && are_sorts(left.sorts.as_slice(), right.sorts.as_slice())
}

fn are_queries(left: &[QuerySig], right: &[QuerySig]) -> bool
    ensures { IsTrue result ↔ (left.now ≡ right.now) }
{
    match (left, right) {
        ([], []) => true,
        ([some, left @ ..], [other, right @ ..]) => {
            is_query(some, other) && are_queries(left, right)
        }
        _ => false,
    }
}

fn is_query(left: &QuerySig, right: &QuerySig) -> bool
    ensures { IsTrue result ↔ (left.now ≡ right.now) }
{
    left.name == right.name
        && left.sort == right.sort
        && are_sorts(left.sorts.as_slice(), right.sorts.as_slice())
}

fn are_sorts(left: &[Sort], right: &[Sort]) -> bool
    ensures { IsTrue result ↔ (left.now ≡ right.now) }
{
    match (left, right) {
        ([], []) => true,
        ([some, left @ ..], [other, right @ ..]) => { *some == *other && are_sorts(left, right) }
        _ => false,
    }
}
