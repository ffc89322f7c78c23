//! `converge DESIGN SCRIPT`: a design runs on a script.
ghost use Rattle.std.specs.Prelude.{◌≡◌, ◌≤◌, ◌∷◌, [], OnErr, OnOk, IsErrOf};
ghost use Rattle.kat_design.specs.Designs.{design_form};
ghost use Rattle.kat_design.specs.Sorted.{IsWellSorted};
ghost use Rattle.kat_io.specs.Outside.{Rose, grown};
ghost use Rattle.kat_script.specs.Judged.{IsJudged};
ghost use Rattle.kat_cli.specs.ConvergeCommand.{output};
ghost use Rattle.kat_cli.specs.Ending.{Judges, Prints};
ghost use Rattle.kat_world.specs.Written.{IsCutShort};

use crate::commands::{refused_design, refused_script};
use crate::status::Status;
use kat_design::Design;
use kat_io::Sink;
use kat_script::{Script, read_script};
use kat_wire::read_file;
use kat_words::Command;
use kat_world::{WorldError, converge, emit};
use std::alloc::Global;

/// Judges the design and then the script for its signature, and runs the design.
pub(crate) fn judge_converge<K: Sink>(
    alloc: Global,
    design: &[u8],
    script: &[u8],
    out: &mut K,
) -> Status
    ensures judged { Judges Command.Converge (design.now ∷ script.now ∷ []) (record {
      written = K.written out.old;
      written_after = K.written out.new;
      faults = K.faults out.old;
      faults_after = K.faults out.new;
    }) result }
    ensures later { K.faults out.old ≤ K.faults out.new }
{
    let file = match read_file(alloc, design) {
        Ok(file) => file,
        Err(error) => return refused_design(alloc, 0, error),
    };
    match read_script(alloc, script, &file.design.sig) {
        Ok(script) => print(alloc, &file.design, &script, out),
        Err(error) => refused_script(1, error),
    }
}

/// Writes the output, and says how that ended.
fn print<K: Sink>(alloc: Global, design: &Design, script: &Script, out: &mut K) -> Status
    requires sorted { IsWellSorted (design_form design.now) }
    requires judged { IsJudged design.now.sig script.now }
    ensures prints { Prints (output (design_form design.now) script.now) Status.Done (record {
      written = K.written out.old;
      written_after = K.written out.new;
      faults = K.faults out.old;
      faults_after = K.faults out.new;
    }) result }
    ensures later { K.faults out.old ≤ K.faults out.new }
{
    match write_output(alloc, design, script, out) {
        Ok(()) => Status::Done,
        Err(WorldError::WriteFault) => Status::WriteFault,
        Err(WorldError::Memory) => Status::Memory,
    }
}

/// Writes `unproved` and then the lines of the design.
fn write_output<K: Sink>(
    alloc: Global,
    design: &Design,
    script: &Script,
    out: &mut K,
) -> Result<(), WorldError>
    requires sorted { IsWellSorted (design_form design.now) }
    requires judged { IsJudged design.now.sig script.now }
    ensures ok { OnOk result (K.written out.new ≡ grown (K.written out.old) (output (design_form design.now) script.now)) }
    ensures err { OnErr result (IsCutShort (K.written out.old) (K.written out.new) (output (design_form design.now) script.now)) }
    ensures fault { IsErrOf result WorldError.WriteFault → Rose (K.faults out.old) (K.faults out.new) }
    ensures later { K.faults out.old ≤ K.faults out.new }
{
    emit(alloc, b"unproved\n", out)?;
    converge(alloc, design, script, out)
}
