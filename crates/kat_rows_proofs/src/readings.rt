//! Types and designs of rows.
ghost use Rattle.std.specs.Prelude.{◌≡◌, [], IfOk, OnOk};
ghost use Rattle.kat_design.specs.Designs.{design_form};
ghost use Rattle.kat_design.specs.Faults.{faults_of};
ghost use Rattle.kat_design.specs.Sorted as designs;
ghost use Rattle.kat_type.specs.Fits as types;
ghost use Rattle.kat_type.specs.Signatures.{signature_of};
ghost use Rattle.kat_type.specs.Types.{type_form};
ghost use Rattle.kat_type.specs.Within.{IsWithinLimits};

use kat_design::Design;
use kat_sort_check::accepted_designs_are_well_sorted;
use kat_table::{Row, RowError, Table, text_of};
use kat_type::SeqType;
use kat_type_file::read_type;
use kat_wire::{DesignFile, agrees, read_file};
use std::alloc::Global;

/// The type of a row.
pub(crate) fn type_in(alloc: Global, table: &Table, row: &Row) -> Result<SeqType, RowError>
    ensures sorted { IfOk result (λ ty. types.IsWellSorted (type_form ty)) }
    ensures limits { IfOk result (λ ty. IsWithinLimits (type_form ty)) }
{
    let text = text_of(table, row, "type")?;
    match read_type(alloc, text) {
        Ok(ty) => Ok(ty),
        Err(_) => Err(RowError::Damaged("the type isn't read")),
    }
}

/// The design file of a row.
pub(crate) fn file_in(alloc: Global, table: &Table, row: &Row) -> Result<DesignFile, RowError>
    ensures { IfOk result (λ file. faults_of (design_form file.design) ≡ []) }
{
    let text = text_of(table, row, "design")?;
    match read_file(alloc, text) {
        Ok(file) => Ok(file),
        Err(_) => Err(RowError::Damaged("the design isn't read")),
    }
}

/// A design without faults is well-sorted.
pub(crate) fn is_well_sorted(design: &Design)
    requires accepted { faults_of (design_form design.now) ≡ [] }
    ensures { designs.IsWellSorted (design_form design.now) }
{
    accepted_designs_are_well_sorted();
}

/// Whether a design is one of a type.
pub(crate) fn of_type(ty: &SeqType, design: &Design) -> Result<(), RowError>
    ensures { OnOk result (design.now.sig ≡ signature_of (type_form ty.now)) }
{
    if agrees(ty, design) {
        Ok(())
    } else {
        Err(RowError::Damaged("the design is for another type"))
    }
}
