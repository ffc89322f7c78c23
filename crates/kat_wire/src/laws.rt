//! What holds of all design files: each law is a call that does nothing, whose clause says it.
ghost use Rattle.std.specs.Prelude.{◌≡◌, ℕ, List};
ghost use Rattle.kat_wire.specs.FileForms.{FileForm};
ghost use Rattle.kat_wire.specs.Files.{IsFileText, AreNumbered, IsFile};
ghost use Rattle.kat_wire.specs.Judgements.{IsRefusal, IsJudged};
ghost use Rattle.kat_json.specs.declared.errors.WireError.{WireError};
ghost use Rattle.kat_wire.specs.Printed.{file_text};
ghost use Rattle.kat_wire.specs.declared.causes.Cause.{Cause};

/// Of each text there is at most one file or refusal.
pub fn at_most_one_judgement()
    ensures one_file { (bytes : List ℕ) (some other : FileForm) → IsFileText bytes some → IsFileText bytes other → some ≡ other }
    ensures one_refusal { (bytes : List ℕ) (some other : WireError) → IsRefusal bytes some → IsRefusal bytes other → some ≡ other }
    ensures never_both { (bytes : List ℕ) (f : FileForm) (error : WireError) → IsFileText bytes f → IsRefusal bytes error → ⊥ }
{}

/// Of each text there is a file or a refusal.
pub fn every_text_is_judged()
    ensures { (bytes : List ℕ) → IsJudged bytes }
{}

/// The text of a file is read again as that file, whatever comes last in it.
pub fn printed_files_are_read()
    ensures { (f : FileForm) (earlier : List (ℕ × Cause)) → IsFile f → AreNumbered earlier → IsFileText (file_text f earlier) f }
{}
