//! How parts take others in. All memory is taken before anything changes.
ghost use Rattle.std.specs.Prelude.{◌≡◌, OnErr, OnOk};
ghost use Rattle.std.specs.List.{AllByRecursion};
ghost use Rattle.kat_design.specs.Meanings.{are_kin};
ghost use Rattle.kat_design.specs.Parts.{PartsKin, parts_joined};
ghost use Rattle.kat_replica.specs.Variants.{IsCell};

use crate::staged::{StagedPart, join_staged, stage};
use kat_design::Part;
use std::alloc::{AllocError, Global};

/// Joins each part. After an error the parts are as they were.
pub(crate) fn join_each(
    alloc: Global,
    parts: &mut [Part],
    others: &[Part],
) -> Result<(), AllocError>
    requires { are_kin PartsKin parts.old others.now }
    ensures ok { OnOk result (parts.new ≡ parts_joined parts.old others.now) }
    ensures err { OnErr result (parts.new ≡ parts.old) }
{
    let Some((part, rest)) = parts.split_first_mut() else {
        return Ok(());
    };
    let Some((other, more)) = others.split_first() else {
        return Ok(());
    };
    let staged = stage(alloc, part, other)?;
    join_each(alloc, rest, more)?;
    join_staged(part, other, staged);
    Ok(())
}

/// Joins each part, if all are cells.
pub(crate) fn join_cells(parts: &mut [Part], others: &[Part])
    requires kin { are_kin PartsKin parts.old others.now }
    requires cells { AllByRecursion IsCell parts.old }
    ensures { parts.new ≡ parts_joined parts.old others.now }
{
    let Some((part, rest)) = parts.split_first_mut() else {
        return;
    };
    let Some((other, more)) = others.split_first() else {
        return;
    };
    join_staged(part, other, StagedPart::Cell);
    join_cells(rest, more);
}
