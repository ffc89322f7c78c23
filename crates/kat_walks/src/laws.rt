//! Laws of walks.
ghost use Rattle.kat_walks.specs.Laws.{OneComes};

/// A law: a node has one outcome, so a walk ends in one way.
pub fn walks_end_in_one_way()
    ensures { OneComes }
{}
