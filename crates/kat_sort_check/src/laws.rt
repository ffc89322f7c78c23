//! What holds of accepted designs: each law is a call that does nothing, whose clause says it.
ghost use Rattle.std.specs.Prelude.{◌≡◌, []};
ghost use Rattle.kat_design.specs.Designs.{DesignForm};
ghost use Rattle.kat_design.specs.Faults.{faults_of};
ghost use Rattle.kat_design.specs.Small.{IsSmallDesign};
ghost use Rattle.kat_design.specs.Sorted.{IsWellSorted};

/// A design has no wrong place if and only if it is well-sorted.
pub fn accepted_designs_are_well_sorted()
    ensures sorted { (d : DesignForm) → faults_of d ≡ [] → IsWellSorted d }
    ensures accepted { (d : DesignForm) → IsWellSorted d → faults_of d ≡ [] }
{}

/// The size and the constants of an accepted design are small enough for its answers.
pub fn accepted_designs_are_small()
    ensures { (d : DesignForm) → faults_of d ≡ [] → IsSmallDesign d }
{}
