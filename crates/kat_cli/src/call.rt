//! The one public call.
ghost use Rattle.std.specs.Prelude.{◌≡◌, ◌≤◌, ◌⊎◌, ◌∷◌, [], ℕ, codes, length, List, None, Some, map, true};
ghost use Rattle.kat_io.specs.Outside.{IsSame, Rose};
ghost use Rattle.kat_cli.specs.Ending.{Outcome};
ghost use Rattle.kat_cli.specs.Outcome.{FirstRefusal, IfRead, IsEnd, IsUnsure, LeavesSink, ProofRefuses, Verdict, WroteAll, WroteFront, of_paths};
ghost use Rattle.kat_cli.specs.Commands.{has_files};
ghost use Rattle.kat_cli.specs.Headline.{WroteAnswers};
ghost use Rattle.kat_words.specs.Words.{KeepsRanges, command_of, texts};
ghost use Rattle.kat_words.specs.declared.words.Command.{Command};

use crate::commands::judge;
use crate::reading::read_all;
use crate::status::{Refusal, Status};
use kat_io::{Files, Sink};
use kat_words::{Command, read_words};
use std::alloc::Global;

/// Does what the words say, with these files and this place for output, and says how it ended.
///
/// The first word names the command, the others are its paths and options: `synth TYPE` with `--size`, `--effort`, `--designs`
/// and `--kinds` writes the first design that is proved to answer as a type, or a report of those that were tried;
/// `check TYPE DESIGN` says whether a design file's proof is accepted for a type, `migrate TYPE DESIGN` writes such a file with
/// hints in its proof, and `run TYPE DESIGN SCRIPT` runs a design whose proof is accepted, with answers that are the type's; so does
/// `deltas TYPE DESIGN SCRIPT` on a script with deltas. `converge DESIGN SCRIPT` runs any design on a script,
/// `model TYPE SCRIPT` answers a script by a sequential type, `list TYPE` with `--size`, `--designs` and `--kinds` writes the
/// designs that a type's listing has, `audit TYPE REPORT` with the options of `synth` confirms a report of a search, and `sample N` with
/// `--lines` finds the design of a cart and runs it on a script that is drawn with a number. `node-new DESIGN` with `--replica`,
/// `node-step` and `node-ask` keep one replica in a file. The definitions of each command say what it takes and writes; how any call may
/// end is said here. All files are read, in their order, before any is judged.
pub fn katara<F: Files, K: Sink>(
    alloc: Global,
    words: &[String],
    files: &mut F,
    out: &mut K,
) -> Status
    // The headline: if `run TYPE DESIGN SCRIPT` ends as done, it wrote the type's answers to the script, in every order that
    // respects the ranks.
    ensures answers { (first second third : List ℕ) → texts words.now ≡ codes "run" ∷ first ∷ second ∷ third ∷ [] → result ≡ Status.Done →
        WroteAnswers (F.holds files.old first) (F.holds files.old third) (K.written out.old) (K.written out.new) }

    // The words alone make it Usage, unless memory runs out, and then nothing is written.
    ensures usage { result ≡ Status.Usage → command_of (texts words.now) ≡ None }
    ensures unasked { command_of (texts words.now) ≡ None →
        ((result ≡ Status.Usage) ⊎ (result ≡ Status.Memory)) × (K.written out.new ≡ K.written out.old) }

    // A command that ended by itself wrote what it is to write.
    ensures ended { (command : Command) → command_of (texts words.now) ≡ Some command → IsEnd result →
        IfRead (of_paths (F.holds files.old) words.now) (λ bytes. WroteAll command bytes result (K.written out.old) (K.written out.new)) }

    // A file is refused only for what it is, and a proof only for what it says.
    ensures refused { (command : Command) (file : ℕ) (refusal : Refusal) → command_of (texts words.now) ≡ Some command
        → result ≡ Status.Refused file refusal →
        FirstRefusal command (of_paths (F.holds files.old) words.now) file refusal }
    ensures proof_refused { (command : Command) (condition line : ℕ) → command_of (texts words.now) ≡ Some command
        → result ≡ Status.ProofRefused condition line →
        IfRead (of_paths (F.holds files.old) words.now) (λ bytes. ProofRefuses command bytes condition line) }

    // A fault comes only from outside.
    ensures read_fault { (file : ℕ) → result ≡ Status.ReadFault file →
        Rose (F.faults files.old) (F.faults files.new) × IsUnsure (of_paths (F.sure files.old) words.now) file }
    ensures write_fault { (command : Command) → command_of (texts words.now) ≡ Some command → result ≡ Status.WriteFault →
        Rose (K.faults out.old) (K.faults out.new)
        × IfRead (of_paths (F.holds files.old) words.now) (λ bytes. WroteFront command bytes (K.written out.old) (K.written out.new)) }

    // What was written when it didn't end well.
    ensures memory { (command : Command) → command_of (texts words.now) ≡ Some command → result ≡ Status.Memory →
        (K.written out.new ≡ K.written out.old)
        ⊎ IfRead (of_paths (F.holds files.old) words.now) (λ bytes. WroteFront command bytes (K.written out.old) (K.written out.new)) }
    ensures untouched { LeavesSink result → K.written out.new ≡ K.written out.old }

    // The files tell the same, and no count of faults falls.
    ensures same { IsSame (F.holds files.old) (F.holds files.new) (F.sure files.old) (F.sure files.new) }
    ensures later { (F.faults files.old ≤ F.faults files.new) × (K.faults out.old ≤ K.faults out.new) }

    // If the files are told and nothing fails, it ends as it must, unless memory runs out.
    ensures complete { (command : Command) (told : List (List ℕ)) → command_of (texts words.now) ≡ Some command →
        of_paths (F.holds files.old) words.now ≡ map Some told →
        (Rose (F.faults files.old) (F.faults files.new) → ⊥) → (Rose (K.faults out.old) (K.faults out.new) → ⊥)
        → Verdict command told result }
{
    match read_words(alloc, words) {
        Ok(Some(request)) => run(alloc, request.command, &request.paths, files, out),
        Ok(None) => Status::Usage,
        Err(_) => Status::Memory,
    }
}

/// Reads all files, judges them and does what the command says.
fn run<F: Files, K: Sink>(
    alloc: Global,
    command: Command,
    paths: &[&str],
    files: &mut F,
    out: &mut K,
) -> Status
    requires paths { has_files command (length paths.now) ≡ true }
    requires ranges { KeepsRanges command }
    ensures outcome { Outcome command
        (record {
          told = map (F.holds files.old) (map (λ path. path.now) paths.now);
          sure = map (F.sure files.old) (map (λ path. path.now) paths.now);
          faults = F.faults files.old;
          faults_after = F.faults files.new;
        })
        (record {
          written = K.written out.old;
          written_after = K.written out.new;
          faults = K.faults out.old;
          faults_after = K.faults out.new;
        }) result }
    ensures same { IsSame (F.holds files.old) (F.holds files.new) (F.sure files.old) (F.sure files.new) }
    ensures files_later { F.faults files.old ≤ F.faults files.new }
    ensures out_later { K.faults out.old ≤ K.faults out.new }
{
    match read_all(alloc, paths, files) {
        Ok(read) => judge(alloc, command, &read, out),
        Err(status) => status,
    }
}
