//! What holds of all files: each law is a call that does nothing, whose clause says it.
ghost use Rattle.std.specs.Prelude.{◌≡◌, ◌⊎◌, ℕ};
ghost use Rattle.kat_type.specs.Types.{TypeForm};
ghost use Rattle.kat_wire.specs.FileForms.{FileForm};
ghost use Rattle.kat_check.specs.Acceptance.{IsAcceptedFile, IsFirstFault};
ghost use Rattle.kat_check.specs.Migration.{MigratedFilesAreAccepted, MigratedFilesAreOfVersionTwo, MigratedFilesKeepLiterals};

/// An accepted file has no first fault.
pub fn accepted_files_have_no_fault()
    ensures { (ty : TypeForm) (f : FileForm) (condition line : ℕ) → IsAcceptedFile ty f → IsFirstFault ty f condition line → ⊥ }
{}

/// A file has one first fault at most.
pub fn one_first_fault()
    ensures condition { (ty : TypeForm) (f : FileForm) (a b c d : ℕ) → IsFirstFault ty f a b → IsFirstFault ty f c d → a ≡ c }
    ensures line { (ty : TypeForm) (f : FileForm) (a b c d : ℕ) → IsFirstFault ty f a b → IsFirstFault ty f c d → b ≡ d }
{}

/// A file is accepted or has a first fault.
pub fn every_file_is_judged()
    ensures { (ty : TypeForm) (f : FileForm) → IsAcceptedFile ty f ⊎ ((condition : ℕ) × (line : ℕ) × IsFirstFault ty f condition line) }
{}

/// A migrated file is accepted if the file was.
pub fn migrated_files_are_accepted()
    ensures { MigratedFilesAreAccepted }
{}

/// The lines of a migrated file are of version 2.
pub fn migrated_files_are_of_version_two()
    ensures { MigratedFilesAreOfVersionTwo }
{}

/// No literal of a migrated file is 0 if none of the file was.
pub fn migrated_files_keep_literals()
    ensures { MigratedFilesKeepLiterals }
{}
