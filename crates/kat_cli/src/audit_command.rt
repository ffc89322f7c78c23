//! `audit TYPE REPORT`: a report of a search is judged apart from the search.
ghost use Rattle.std.specs.Prelude.{◌≡◌, ◌≤◌, ◌∷◌, []};
ghost use Rattle.kat_words.specs.Words.{IsSynthInRange};
ghost use Rattle.kat_cli.specs.AuditCommand.{bounds};
ghost use Rattle.kat_cli.specs.Ending.{Judges};

use crate::commands::{refused, refused_type};
use crate::printing::print;
use crate::status::{At, Status};
use kat_audit::{Options, audit};
use kat_io::Sink;
use kat_said::Audit;
use kat_search_laws::reports_are_confirmed;
use kat_type_file::read_type;
use kat_words::{Command, SynthOptions};
use std::alloc::Global;

/// Judges the type and then the report, line by line, as one of a search with these options, and writes whether it is confirmed.
pub(crate) fn judge_audit<K: Sink>(
    alloc: Global,
    options: SynthOptions,
    ty: &[u8],
    report: &[u8],
    out: &mut K,
) -> Status
    requires { IsSynthInRange options }
    ensures judged { Judges (Command.Audit options) (ty.now ∷ report.now ∷ []) (record {
      written = K.written out.old;
      written_after = K.written out.new;
      faults = K.faults out.old;
      faults_after = K.faults out.new;
    }) result }
    ensures later { K.faults out.old ≤ K.faults out.new }
{
    let ty = match read_type(alloc, ty) {
        Ok(ty) => ty,
        Err(error) => return refused_type(0, error),
    };
    reports_are_confirmed();
    match audit(alloc, &ty, &bounds(options), report) {
        Ok(Audit::Confirmed) => print(alloc, b"confirmed\n", Status::Done, out),
        Ok(Audit::Bad(line)) => refused(1, 25, At::Line(line)),
        Ok(Audit::NotShown(line)) => refused(1, 26, At::Line(line)),
        Ok(Audit::WidePoint(line)) => refused(1, 27, At::Line(line)),
        Err(_) => Status::Memory,
    }
}

/// The bounds of the search that wrote the report.
fn bounds(options: SynthOptions) -> Options
    ensures { result ≡ bounds options }
{
    Options {
        size: options.size,
        effort: options.effort,
        designs: options.designs,
        kinds: options.kinds,
    }
}
