//! `model TYPE SCRIPT`: a sequential type answers a script.
ghost use Rattle.std.specs.Prelude.{◌≤◌, ◌∷◌, []};
ghost use Rattle.kat_script.specs.Judged.{IsJudged};
ghost use Rattle.kat_type.specs.Signatures.{signature_of};
ghost use Rattle.kat_type.specs.Types.{type_form};
ghost use Rattle.kat_type.specs.Within.{IsWithinLimits};
ghost use Rattle.kat_world.specs.Model.{model_lines};
ghost use Rattle.kat_cli.specs.Ending.{Judges, Prints};

use crate::commands::{refused_script, refused_type};
use crate::status::Status;
use kat_io::Sink;
use kat_script::{Script, read_script};
use kat_type::{SeqType, signature};
use kat_type_file::read_type;
use kat_words::Command;
use kat_world::{WorldError, model};
use std::alloc::Global;

/// Judges the type and then the script for its signature, and writes the answers.
pub(crate) fn judge_model<K: Sink>(alloc: Global, ty: &[u8], script: &[u8], out: &mut K) -> Status
    ensures judged { Judges Command.Model (ty.now ∷ script.now ∷ []) (record {
      written = K.written out.old;
      written_after = K.written out.new;
      faults = K.faults out.old;
      faults_after = K.faults out.new;
    }) result }
    ensures later { K.faults out.old ≤ K.faults out.new }
{
    let ty = match read_type(alloc, ty) {
        Ok(ty) => ty,
        Err(error) => return refused_type(0, error),
    };
    let sig = match signature(alloc, &ty) {
        Ok(sig) => sig,
        Err(_) => return Status::Memory,
    };
    match read_script(alloc, script, &sig) {
        Ok(script) => print(alloc, &ty, &script, out),
        Err(error) => refused_script(1, error),
    }
}

/// Writes the answers, and says how that ended.
fn print<K: Sink>(alloc: Global, ty: &SeqType, script: &Script, out: &mut K) -> Status
    requires limits { IsWithinLimits (type_form ty.now) }
    requires judged { IsJudged (signature_of (type_form ty.now)) script.now }
    ensures prints { Prints (model_lines (type_form ty.now) script.now) Status.Done (record {
      written = K.written out.old;
      written_after = K.written out.new;
      faults = K.faults out.old;
      faults_after = K.faults out.new;
    }) result }
    ensures later { K.faults out.old ≤ K.faults out.new }
{
    match model(alloc, ty, script, out) {
        Ok(()) => Status::Done,
        Err(WorldError::WriteFault) => Status::WriteFault,
        Err(WorldError::Memory) => Status::Memory,
    }
}
