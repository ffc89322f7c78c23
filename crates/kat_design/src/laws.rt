//! What holds of all designs: each law is a call that does nothing, whose clause says it.
ghost use Rattle.std.specs.Prelude.{◌≡◌, ◌≤◌, true, All, List, length, map};
ghost use Rattle.std.specs.List.{list_all};
ghost use Rattle.kat_design.specs.Denotations.{denotation_of};
ghost use Rattle.kat_design.specs.Designs.{DesignForm};
ghost use Rattle.kat_design.specs.Fitting.{FitsSignature};
ghost use Rattle.kat_design.specs.Kinds.{kinds_of};
ghost use Rattle.kat_design.specs.Small.{IsSmallPart, is_roomy_part};
ghost use Rattle.kat_design.specs.Sorted.{AreMatched, IsStart, IsWellSorted};
ghost use Rattle.kat_num.specs.declared.values.Value as values;
ghost use Rattle.kat_shape.specs.Forms.{CellForm, leaf_kind_of, leaf_kinds_of};
ghost use Rattle.kat_type.specs.declared.done.Done.{Done};

use kat_num::Value;

/// The starts of a shape in an accepted design are those of a cell of that shape.
pub fn starts_fit_shapes()
    ensures { (shape : CellForm) (starts : List values.Value) → AreMatched IsStart starts (kinds_of shape)
        → map leaf_kind_of starts ≡ leaf_kinds_of shape }
{}

/// At most 100,000 operations that fit give a small state whose tallies have room for one more.
pub fn denotations_are_small()
    ensures small { (d : DesignForm) (ones : List Done) → IsWellSorted d → length ones ≤ 100000 → All (FitsSignature d.sig) ones
        → All IsSmallPart (denotation_of d ones) }
    ensures roomy { (d : DesignForm) (ones : List Done) → length ones ≤ 100000 → All (FitsSignature d.sig) ones
        → list_all is_roomy_part (denotation_of d ones) ≡ true }
{}
