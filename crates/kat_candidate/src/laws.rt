//! Laws of candidates.
ghost use Rattle.std.specs.Prelude.{◌≡◌, List};
ghost use Rattle.kat_candidate.specs.Candidates.{AreCandidates};
ghost use Rattle.kat_design.specs.Designs.{DesignForm};
ghost use Rattle.kat_relation.specs.declared.relations.Conjunct.{Conjunct};
ghost use Rattle.kat_type.specs.Types.{TypeForm};

/// A law: a type and a design have one list of candidates.
pub fn candidates_are_determined()
    ensures { (ty : TypeForm) (design : DesignForm) (a b : List Conjunct) → AreCandidates ty design a → AreCandidates ty design b → a ≡ b }
{}
