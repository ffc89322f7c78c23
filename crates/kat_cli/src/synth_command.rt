//! `synth TYPE`: the first design that is proved to answer as a type, or a report of those that were tried.
ghost use Rattle.std.specs.Prelude.{◌≡◌, ◌≤◌, ◌∷◌, []};
ghost use Rattle.kat_search.specs.Verdicts.{IsVerdict};
ghost use Rattle.kat_type.specs.Types.{type_form};
ghost use Rattle.kat_words.specs.Words.{IsSynthInRange};
ghost use Rattle.kat_cli.specs.Ending.{Judges};
ghost use Rattle.kat_cli.specs.SynthCommand.{bounds};

use crate::commands::refused_type;
use crate::printing::print;
use crate::status::Status;
use kat_io::Sink;
use kat_search::{Options, Outcome, files_have_signatures, synth};
use kat_type_file::read_type;
use kat_words::{Command, SynthOptions};
use std::alloc::Global;

/// Judges the type, searches its listing, and writes the file of the first proved design, or the report.
pub(crate) fn judge_synth<K: Sink>(
    alloc: Global,
    options: SynthOptions,
    ty: &[u8],
    out: &mut K,
) -> Status
    requires { IsSynthInRange options }
    ensures judged { Judges (Command.Synth options) (ty.now ∷ []) (record {
      written = K.written out.old;
      written_after = K.written out.new;
      faults = K.faults out.old;
      faults_after = K.faults out.new;
    }) result }
    ensures later { K.faults out.old ≤ K.faults out.new }
{
    let ty = match read_type(alloc, ty) {
        Ok(ty) => ty,
        Err(error) => return refused_type(0, error),
    };
    files_have_signatures();
    match synth(alloc, &ty, &bounds(options)) {
        Ok(Outcome::Emitted { file, .. }) => print(alloc, &file, Status::Done, out),
        Ok(Outcome::NoDesign(report)) => print(alloc, &report, Status::NoDesign, out),
        Ok(Outcome::Undecided(report)) => print(alloc, &report, Status::Undecided, out),
        Ok(Outcome::Stopped(report)) => print(alloc, &report, Status::Stopped, out),
        Err(_) => Status::Memory,
    }
}

/// The bounds of the search.
fn bounds(options: SynthOptions) -> Options
    ensures { result ≡ bounds options }
{
    Options {
        size: options.size,
        effort: options.effort,
        designs: options.designs,
        kinds: options.kinds,
    }
}
