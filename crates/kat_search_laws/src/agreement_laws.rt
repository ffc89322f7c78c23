//! Laws of both statements of points and of walks.
ghost use Rattle.kat_search_laws.specs.Points.{DecisivePointsDecide, PointsThatDecideAreDecisive};
ghost use Rattle.kat_search_laws.specs.Walks.{EndsAreEnds, EndsAreGiven};

/// A law: the walk ends in the same ways by both statements.
pub fn walks_are_one()
    ensures forth { EndsAreEnds }
    ensures back { EndsAreGiven }
{}

/// A law: the same points are decisive by both statements.
pub fn points_are_one()
    ensures forth { DecisivePointsDecide }
    ensures back { PointsThatDecideAreDecisive }
{}
