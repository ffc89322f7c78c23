//! Saying that a proof is accepted.
ghost use Rattle.std.specs.Prelude.{◌≡◌, ◌≤◌, IsErrOf, codes};
ghost use Rattle.kat_io.specs.Outside.{Rose};
ghost use Rattle.kat_type.specs.Signatures.{signature_of};
ghost use Rattle.kat_type.specs.Types.{type_form};
ghost use Rattle.kat_wire.specs.FileForms.{file_form};
ghost use Rattle.kat_accepted.specs.Writing.{WritesIfAccepted};

use kat_check::{Checked, check};
use kat_io::Sink;
use kat_type::SeqType;
use kat_wire::DesignFile;
use kat_world::{WorldError, emit};
use std::alloc::Global;

/// Writes `accepted` and a newline if the proof of a file of the type's signature is accepted.
///
/// Answers what `check` answers; if the file isn't accepted nothing is written. After a write fault a prefix of the text was
/// written, and after out of memory nothing, or a prefix of it, and only of an accepted file.
pub fn write_accepted<K: Sink>(
    alloc: Global,
    ty: &SeqType,
    file: &DesignFile,
    out: &mut K,
) -> Result<Checked, WorldError>
    requires { signature_of (type_form ty.now) ≡ file.now.design.sig }
    ensures writes { WritesIfAccepted (type_form ty.now) (file_form file.now) (codes "accepted\n") (K.written out.old)
        (K.written out.new) result }
    ensures fault { IsErrOf result WorldError.WriteFault → Rose (K.faults out.old) (K.faults out.new) }
    ensures later { K.faults out.old ≤ K.faults out.new }
{
    let checked = check(alloc, ty, file)?;
    if let Checked::Accepted = checked {
        emit(alloc, b"accepted\n", out)?;
    }
    Ok(checked)
}
