//! Laws of rows that are differences.
ghost use Rattle.kat_potential.specs.Differences.{DifferencesEndAtPoints};

/// A law: if some whole numbers meet all rows, and these are differences in at most 60 variables, elimination ends at a point,
/// so neither with multipliers nor with too many rows or too great numbers.
pub fn differences_end_at_points()
    ensures { DifferencesEndAtPoints }
{}
