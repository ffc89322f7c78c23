//! What holds of all type files, and of all types that are accepted.
ghost use Rattle.std.specs.Prelude.{◌≡◌, ◌⊎◌, ℕ, None, List, map};
ghost use Rattle.kat_grammar.specs.Files.{IsTextOf};
ghost use Rattle.kat_grammar.specs.Forms.{type_form as written_form};
ghost use Rattle.kat_grammar.specs.Lines.{IsType};
ghost use Rattle.kat_grammar.specs.declared.phrases.TypeText.{TypeText};
ghost use Rattle.kat_type.specs.Alike.{FitsType, HasAlikeRanks};
ghost use Rattle.kat_type.specs.Fits.{IsWellSorted};
ghost use Rattle.kat_type.specs.Ranks.{kind_of, rank_of};
ghost use Rattle.kat_type.specs.Types.{TypeForm};
ghost use Rattle.kat_type.specs.Within.{IsWithinLimits};
ghost use Rattle.kat_type.specs.declared.done.Done.{Done};
ghost use Rattle.kat_type.specs.declared.errors.TypeError.{TypeError};
ghost use Rattle.kat_type_file.specs.Rules.{KeepsRules};
ghost use Rattle.kat_type_file.specs.TypeFiles.{IsRefusedFile, IsTypeFile, IsWritten};
ghost use Rattle.kat_type_file.specs.Typing.{first_refusal, type_in};

/// A text is a type file of at most one type and has at most one refusal, and never both.
pub fn at_most_one_judgement()
    ensures says { (text : List ℕ) (some other : TypeForm) → IsTypeFile text some → IsTypeFile text other → some ≡ other }
    ensures refusal { (text : List ℕ) (some other : TypeError) → IsRefusedFile text some → IsRefusedFile text other → some ≡ other }
    ensures apart { (text : List ℕ) (ty : TypeForm) (error : TypeError) → IsTypeFile text ty → IsRefusedFile text error → ⊥ }
{}

/// Every text is a type file, or refused.
pub fn every_type_file_is_judged()
    ensures { (text : List ℕ) → ((ty : TypeForm) × IsTypeFile text ty) ⊎ ((error : TypeError) × IsRefusedFile text error) }
{}

/// What a type file is, said without tokens and places, is what isn't refused: a type keeps the rules exactly if none is broken
/// first, and a text is written so exactly if the grammar has no refusal of it.
pub fn types_that_keep_the_rules()
    ensures keeps { (t : TypeText) → first_refusal t ≡ None → KeepsRules t }
    ensures accepted { (t : TypeText) → KeepsRules t → first_refusal t ≡ None }
    ensures written { (text : List ℕ) (t : TypeText) → IsTextOf text (written_form t) → IsWritten text t }
    ensures texts { (text : List ℕ) (t : TypeText) → IsWritten text t → IsTextOf text (written_form t) }
{}

/// A type that isn't refused is within the limits and well-sorted: its starts, ranks, right sides and queries have the
/// sorts that are required where they are, and each field and parameter that they read is there.
pub fn types_are_well_sorted()
    ensures phrases { (t : TypeText) → IsType (written_form t) → first_refusal t ≡ None → IsWellSorted (type_in t) }
    ensures files { (text : List ℕ) (ty : TypeForm) → IsTypeFile text ty → IsWellSorted ty }
{}

/// An accepted type is within the limits: the starts of its fields, and the nodes, constants and weights of its
/// expressions.
pub fn types_are_within_limits()
    ensures { (text : List ℕ) (ty : TypeForm) → IsTypeFile text ty → IsWithinLimits ty }
{}

/// The ranks of an accepted type have numbers and names at the same places, and so do those of the operations that were
/// done: only numbers are compared with numbers, and names with names.
pub fn ranks_are_alike()
    ensures stated { (text : List ℕ) (ty : TypeForm) → IsTypeFile text ty → HasAlikeRanks ty }
    ensures compared { (ty : TypeForm) (one other : Done) → IsWellSorted ty → HasAlikeRanks ty → FitsType ty one → FitsType ty other
        → map kind_of (rank_of ty one) ≡ map kind_of (rank_of ty other) }
{}
