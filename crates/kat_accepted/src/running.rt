//! Running a design whose proof is accepted.
ghost use Rattle.std.specs.Prelude.{◌≡◌, ◌≤◌, IsErrOf};
ghost use Rattle.kat_design.specs.Designs.{design_form};
ghost use Rattle.kat_design.specs.Sorted.{IsWellSorted};
ghost use Rattle.kat_io.specs.Outside.{Rose};
ghost use Rattle.kat_script.specs.Judged.{IsJudged};
ghost use Rattle.kat_type.specs.Signatures.{signature_of};
ghost use Rattle.kat_type.specs.Types.{type_form};
ghost use Rattle.kat_wire.specs.FileForms.{file_form};
ghost use Rattle.kat_world.specs.Lines.{lines_of};
ghost use Rattle.kat_accepted.specs.Writing.{WritesIfAccepted};

use kat_check::{Checked, check};
use kat_io::Sink;
use kat_script::Script;
use kat_type::SeqType;
use kat_wire::DesignFile;
use kat_world::{WorldError, converge};
use std::alloc::Global;

/// Writes the lines of a file's design on a script if the file's proof is accepted for the type.
///
/// Answers what `check` answers; if the file isn't accepted nothing is written. After a write fault a prefix of the text was
/// written, and after out of memory nothing, or a prefix of it, and only of an accepted file.
pub fn run_accepted<K: Sink>(
    alloc: Global,
    ty: &SeqType,
    file: &DesignFile,
    script: &Script,
    out: &mut K,
) -> Result<Checked, WorldError>
    requires agree { signature_of (type_form ty.now) ≡ file.now.design.sig }
    requires sorted { IsWellSorted (design_form file.now.design) }
    requires judged { IsJudged file.now.design.sig script.now }
    ensures writes { WritesIfAccepted (type_form ty.now) (file_form file.now) (lines_of (design_form file.now.design) script.now)
        (K.written out.old) (K.written out.new) result }
    ensures fault { IsErrOf result WorldError.WriteFault → Rose (K.faults out.old) (K.faults out.new) }
    ensures later { K.faults out.old ≤ K.faults out.new }
{
    let checked = check(alloc, ty, file)?;
    if let Checked::Accepted = checked {
        converge(alloc, &file.design, script, out)?;
    }
    Ok(checked)
}
