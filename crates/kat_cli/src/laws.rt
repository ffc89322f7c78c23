//! Laws of the definitions, each the contract of a function that does nothing.
ghost use Rattle.std.specs.Prelude.{◌≡◌, ◌<◌, ◌≤◌, ◌∷◌, [], ◌⊎◌, ◌↔◌, ℕ, List, Option, Some, length, map, true};
ghost use Rattle.kat_check.specs.Acceptance.{IsAcceptedFile};
ghost use Rattle.kat_check.specs.Migration.{migrated_file};
ghost use Rattle.kat_cli.specs.AuditCommand.{IsUnshown};
ghost use Rattle.kat_cli.specs.CheckCommand.{IsFileFor, output};
ghost use Rattle.kat_cli.specs.Commands.{Accepts, Ends, Inputs, IsRefusedLate, ProofFails, TellsItsEnd, has_files};
ghost use Rattle.kat_cli.specs.Headline.{AnswersAsFilesSay};
ghost use Rattle.kat_cli.specs.MigrateCommand.{HaveSmallHints};
ghost use Rattle.kat_cli.specs.Outcome.{AreRead, EndsSo, FirstRefusal, IfRead, IsEnd, IsRead, ProofRefuses, Refuses, Verdict};
ghost use Rattle.kat_cli.specs.Refusals.{too_long};
ghost use Rattle.kat_cli.specs.SynthCommand.{bounds};
ghost use Rattle.kat_cli.specs.declared.reading.TheConstants.{FILE_LIMIT};
ghost use Rattle.kat_cli.specs.declared.status.Refusal.{Refusal};
ghost use Rattle.kat_cli.specs.declared.status.Status.{Status};
ghost use Rattle.kat_invariant.specs.Inductive.{IsInductive};
ghost use Rattle.kat_search_laws.specs.Reports.{IsNarrowReport, IsShownReport};
ghost use Rattle.kat_search.specs.Laws.{AreRefuted, HasFew};
ghost use Rattle.kat_type_file.specs.TypeFiles.{IsTypeFile};
ghost use Rattle.kat_type.specs.Types.{TypeForm};
ghost use Rattle.kat_wire.specs.FileForms.{FileForm};
ghost use Rattle.kat_words.specs.Words.{KeepsRanges};
ghost use Rattle.kat_words.specs.declared.options.SynthOptions.{SynthOptions};
ghost use Rattle.kat_words.specs.declared.words.Command.{Command};
ghost use Rattle.kat_world.specs.AsType.{AnswersAsType};

use kat_hist::files_have_words;
use kat_search_laws::{reports_are_confirmed, reports_have_no_fault};

/// The headline. If `run` ends as done, its output answers each ask of the script by the type: after the operations that the
/// asked replica absorbed, in every order that respects the ranks. The type is what the first file says, the script what
/// the third says; which design was run, and by which proof it was accepted, isn't said.
pub fn run_answers_sequentially()
    ensures { (first second third text : List ℕ) → EndsSo Command.Run (first ∷ second ∷ third ∷ []) Status.Done text
        → AnswersAsFilesSay first third text }
{}

/// If the files are told, at most one file is refused, in one way, and then the command neither ends by
/// itself nor refuses a proof. Nor is any file refused if all are accepted and the command refuses none for
/// what all say together.
pub fn one_refusal()
    ensures once { (command : Command) (told : List (List ℕ)) (file other : ℕ) (refusal another : Refusal) →
        FirstRefusal command (map Some told) file refusal → FirstRefusal command (map Some told) other another → (file ≡ other)
        × (refusal ≡ another) }
    ensures apart { (command : Command) (told : List (List ℕ)) (file : ℕ) (refusal : Refusal) (status : Status) (text : List ℕ) →
        FirstRefusal command (map Some told) file refusal → IfRead (map Some told) (λ bytes. EndsSo command bytes status text) → ⊥ }
    ensures no_proof { (command : Command) (told : List (List ℕ)) (file : ℕ) (refusal : Refusal) (condition line : ℕ) →
        FirstRefusal command (map Some told) file refusal → IfRead (map Some told) (λ bytes. ProofRefuses command bytes condition line)
        → ⊥ }
    ensures accepted { (command : Command) (told read : List (List ℕ)) (inputs : Inputs command) (file : ℕ) (refusal : Refusal) →
        AreRead (map Some told) read → Accepts command read inputs
        → ((some : Inputs command) → IsRefusedLate command some file refusal → ⊥) →
        FirstRefusal command (map Some told) file refusal → ⊥ }
{}

/// If the files are told, a proof is refused in one way at most, and then the command doesn't end by itself. So
/// `check` of an accepted file ends as `Done`, unless memory runs out.
pub fn one_fault()
    ensures once { (command : Command) (told : List (List ℕ)) (condition line other another : ℕ) →
        IfRead (map Some told) (λ bytes. ProofRefuses command bytes condition line)
        → IfRead (map Some told) (λ bytes. ProofRefuses command bytes other another) →
        (condition ≡ other) × (line ≡ another) }
    ensures apart { (command : Command) (told : List (List ℕ)) (condition line : ℕ) (status : Status) (text : List ℕ) →
        IfRead (map Some told) (λ bytes. ProofRefuses command bytes condition line)
        → IfRead (map Some told) (λ bytes. EndsSo command bytes status text) → ⊥ }
{}

/// What `check` accepts: the relation of the file is an inductive invariant between the type and the design, over all
/// whole numbers and at every key. It holds at the start, every operation that may follow keeps it, and if it holds each
/// query has the same answer on both sides. So the design answers as the type does after any operations, in every order
/// that respects the ranks.
pub fn accepted_files_are_inductive()
    ensures inductive { (first second : List ℕ) (ty : TypeForm) (file : FileForm) → IsFileFor first second ty file → IsAcceptedFile ty file
        → IsInductive ty file.design file.relation }
    ensures answers { (first second : List ℕ) (ty : TypeForm) (file : FileForm) → IsFileFor first second ty file → IsAcceptedFile ty file
        → AnswersAsType ty file.design }
{}

/// As many files as a command takes are accepted, or one of them is the first that isn't judged good. If they are accepted, if the files
/// settle the command's end and if its numbers are in their ranges, it ends, or refuses a file or a proof for what all files say
/// together.
pub fn every_call_is_judged()
    ensures judged { (command : Command) (texts : List (List ℕ)) → has_files command (length texts) ≡ true →
        ((inputs : Inputs command) × Accepts command texts inputs)
        ⊎ ((file : ℕ) × (refusal : Refusal) × Refuses command [] texts file refusal) }
    ensures ended { (command : Command) (texts : List (List ℕ)) (inputs : Inputs command) → TellsItsEnd command → KeepsRanges command
        → Accepts command texts inputs →
        ((status : Status) × (text : List ℕ) × IsEnd status × Ends command inputs status text)
        ⊎ ((file : ℕ) × (refusal : Refusal) × IsRefusedLate command inputs file refusal)
        ⊎ ((condition : ℕ) × (line : ℕ) × ProofFails command inputs condition line) }
{}

/// A first file that is told and too long is the one that is refused, whatever is known of the others, and
/// there is nothing that all files say.
pub fn first_file_too_long()
    ensures refused { (command : Command) (bytes : List ℕ) (others : List (Option (List ℕ))) (file : ℕ) (refusal : Refusal)
        → FILE_LIMIT < length bytes →
        FirstRefusal command (Some bytes ∷ others) file refusal → (file ≡ 0) × (refusal ≡ too_long) }
    ensures unread { (bytes : List ℕ) (others : List (Option (List ℕ))) (read : List (List ℕ)) → FILE_LIMIT < length bytes →
        AreRead (Some bytes ∷ others) read → ⊥ }
{}

/// What `synth` writes if it is done is a file that may be read, and that `check` accepts with the same type file. So `check`
/// is done there, unless memory runs out.
pub fn found_designs_are_accepted()
    ensures accepted { (options : SynthOptions) (first text : List ℕ) → EndsSo (Command.Synth options) (first ∷ []) Status.Done text →
        IsRead (Some text) text × EndsSo Command.Check (first ∷ text ∷ []) Status.Done output }
    ensures checked { (options : SynthOptions) (first text : List ℕ) (status : Status) →
        IfRead (map Some (first ∷ [])) (λ bytes. EndsSo (Command.Synth options) bytes Status.Done text) →
        Verdict Command.Check (first ∷ text ∷ []) status → (status ≡ Status.Done) ⊎ (status ≡ Status.Memory) }
{}

/// What `migrate` writes if it is done is a file that may be read, and that `check` accepts with the same type file, if the
/// numbers of its hints are below 2^32, as those of any file. So `check` is done there, unless memory runs out.
pub fn migrated_files_are_accepted_again()
    ensures accepted { (first second text : List ℕ) (ended : EndsSo Command.Migrate (first ∷ second ∷ []) Status.Done text)
        → HaveSmallHints (migrated_file ended.inputs.ty ended.inputs.file).proof →
        IsRead (Some text) text × EndsSo Command.Check (first ∷ text ∷ []) Status.Done output }
    ensures checked { (first second text : List ℕ) (status : Status)
        (ended : EndsSo Command.Migrate (first ∷ second ∷ []) Status.Done text) → IsRead (Some first) first →
        HaveSmallHints (migrated_file ended.inputs.ty ended.inputs.file).proof → Verdict Command.Check (first ∷ text ∷ []) status
        → (status ≡ Status.Done) ⊎ (status ≡ Status.Memory) }
{}

/// `synth` ends with no design if and only if the listing of the type has at most as many designs as were asked, and each of them
/// differs from the type on a history; unless memory runs out.
pub fn no_design_is_answered_exactly()
    ensures ended { (options : SynthOptions) (first text : List ℕ) (ty : TypeForm) (status : Status) → IsTypeFile first ty →
        EndsSo (Command.Synth options) (first ∷ []) status text →
        (status ≡ Status.NoDesign) ↔ (HasFew ty (bounds options) × AreRefuted ty (bounds options)) }
    ensures called { (options : SynthOptions) (first : List ℕ) (ty : TypeForm) (status : Status) → IsTypeFile first ty
        → length first ≤ FILE_LIMIT →
        HasFew ty (bounds options) × AreRefuted ty (bounds options) →
        Verdict (Command.Synth options) (first ∷ []) status → (status ≡ Status.NoDesign) ⊎ (status ≡ Status.Memory) }
{}

/// `audit` ends as `Done`, unless memory runs out, if the report is one that `synth` may write for the type with the same options and hides
/// nothing; and of any report that `synth` may write, whose numbers don't pass 2^126, it says so, or that its evidence can't be looked at.
/// So it does of each report that `synth` writes. What it confirms is such a report: `Ends` says that.
pub fn reports_of_searches_are_confirmed()
    ensures shown { (options : SynthOptions) (first report : List ℕ) (ty : TypeForm) (status : Status) → IsTypeFile first ty
        → length first ≤ FILE_LIMIT → length report ≤ FILE_LIMIT →
        IsShownReport ty (bounds options) report → Verdict (Command.Audit options) (first ∷ report ∷ []) status → (status ≡ Status.Done)
        ⊎ (status ≡ Status.Memory) }
    ensures told { (options : SynthOptions) (first report : List ℕ) (ty : TypeForm) (status : Status) → IsTypeFile first ty
        → length first ≤ FILE_LIMIT → length report ≤ FILE_LIMIT →
        IsNarrowReport ty (bounds options) report → Verdict (Command.Audit options) (first ∷ report ∷ []) status →
        (status ≡ Status.Done) ⊎ (status ≡ Status.Memory) ⊎ ((refusal : Refusal) × (status ≡ Status.Refused 1 refusal)
        × IsUnshown refusal) }
    ensures written { (options : SynthOptions) (first report : List ℕ) (end status : Status)
        → IfRead (map Some (first ∷ [])) (λ bytes. EndsSo (Command.Synth options) bytes end report) →
        (end ≡ Status.Done → ⊥) → length report ≤ FILE_LIMIT → Verdict (Command.Audit options) (first ∷ report ∷ []) status →
        (status ≡ Status.Done) ⊎ (status ≡ Status.Memory) ⊎ ((refusal : Refusal) × (status ≡ Status.Refused 1 refusal)
        × IsUnshown refusal) }
{
    files_have_words();
    reports_are_confirmed();
    reports_have_no_fault();
}
