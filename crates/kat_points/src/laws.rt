//! Laws of points.
ghost use Rattle.kat_points.specs.Held.{HeldPointsAreAlike};

/// A law: a point has the same outcome as one that it is held as.
pub fn held_points_are_alike()
    ensures { HeldPointsAreAlike }
{}
