//! `sample N`: the design of a cart is found, and runs on a script that is drawn with a number.
ghost use Rattle.std.specs.Prelude.{◌≡◌, ◌≤◌, [], IfOk};
ghost use Rattle.kat_sample.specs.Carts.{cart};
ghost use Rattle.kat_search.specs.Verdicts.{IsVerdict};
ghost use Rattle.kat_wire.specs.FileForms.{file_form};
ghost use Rattle.kat_wire.specs.Files.{IsFileText};
ghost use Rattle.kat_words.specs.Words.{IsSampleInRange};
ghost use Rattle.kat_cli.specs.Ending.{Judges, Prints};
ghost use Rattle.kat_cli.specs.SampleCommand.{IsCartFile, bounds, output};

use crate::printing::print;
use crate::status::Status;
use kat_gram::Kinds;
use kat_io::Sink;
use kat_sample::{cart, sample};
use kat_search::{Options, Outcome, synth};
use kat_search_laws::carts_have_designs;
use kat_wire::{DesignFile, WireError, read_file};
use kat_words::{Command, SampleOptions};
use kat_world::{answers, designs_reply_as_types, summary};
use std::alloc::{AllocError, Global};

/// The bounds of the search for the design of a cart.
const BOUNDS: Options = Options {
    size: 4,
    effort: 2_000,
    designs: 200_000,
    kinds: Kinds {
        cell: true,
        table: true,
        set: true,
        tally: true,
        tallies: true,
    },
};

/// Searches for the design of a cart, runs it on the script that is drawn, and writes the summary. If none is proved nothing is
/// written. The search never answers that there is none.
pub(crate) fn judge_sample<K: Sink>(alloc: Global, options: SampleOptions, out: &mut K) -> Status
    requires { IsSampleInRange options }
    ensures judged { Judges (Command.Sample options) [] (record {
      written = K.written out.old;
      written_after = K.written out.new;
      faults = K.faults out.old;
      faults_after = K.faults out.new;
    }) result }
    ensures later { K.faults out.old ≤ K.faults out.new }
{
    carts_have_designs();
    match search(alloc) {
        Ok(Outcome::Emitted { file, .. }) => sum_up(alloc, options, &file, out),
        Ok(Outcome::NoDesign(_)) => Status::NoDesign,
        Ok(Outcome::Undecided(_)) => Status::Undecided,
        Ok(Outcome::Stopped(_)) => Status::Stopped,
        Err(_) => Status::Memory,
    }
}

/// What the search for the design of a cart answers.
fn search(alloc: Global) -> Result<Outcome, AllocError>
    ensures { IfOk result (IsVerdict cart bounds) }
{
    let ty = cart(alloc)?;
    synth(alloc, &ty, &BOUNDS)
}

/// Runs a design of the cart, by its file, on the script that is drawn, writes the summary, and says how that ended.
fn sum_up<K: Sink>(alloc: Global, options: SampleOptions, file: &[u8], out: &mut K) -> Status
    requires lines { options.lines ≤ 90_000 }
    requires design { IsCartFile file.now }
    ensures prints { Prints (output options) Status.Done (record {
      written = K.written out.old;
      written_after = K.written out.new;
      faults = K.faults out.old;
      faults_after = K.faults out.new;
    }) result }
    ensures later { K.faults out.old ≤ K.faults out.new }
{
    match summary_of(alloc, options, file) {
        Ok(text) => print(alloc, &text, Status::Done, out),
        Err(_) => Status::Memory,
    }
}

/// The summary of the script that is drawn, by the answers of a design of the cart.
fn summary_of(alloc: Global, options: SampleOptions, file: &[u8]) -> Result<Vec<u8>, AllocError>
    requires lines { options.lines ≤ 90_000 }
    requires design { IsCartFile file.now }
    ensures { IfOk result (λ text. text.items ≡ output options) }
{
    let design_file = own_file(alloc, file)?;
    designs_reply_as_types();
    let script = sample(alloc, options.number, options.lines)?;
    let answers = answers(alloc, &design_file.design, &script)?;
    summary(alloc, &script, &answers)
}

/// The file of a design of the cart, read. It was written just now, so the only error is out of memory.
fn own_file(alloc: Global, file: &[u8]) -> Result<DesignFile, AllocError>
    requires design { IsCartFile file.now }
    ensures { IfOk result (λ read. IsFileText file.now (file_form read)) }
{
    match read_file(alloc, file) {
        Ok(file) => Ok(file),
        Err(WireError::Memory) => Err(AllocError),
        Err(WireError::Json) => unreachable!(),
        Err(WireError::Form(_)) => unreachable!(),
        Err(WireError::Version) => unreachable!(),
        Err(WireError::BadDesign(_)) => unreachable!(),
    }
}
