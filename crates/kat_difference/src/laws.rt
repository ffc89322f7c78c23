//! What differences and marks mean: each law is a call that does nothing, whose clause says it.
ghost use Rattle.kat_difference.specs.Sharing.{SharersAct, SharersBegin, SharersDeliver};
ghost use Rattle.kat_difference.specs.Uniting.{DifferencesUnite, MarksTellOperations, MarksUnite};

use kat_design::{designs_mean, states_go_together, states_join_by_parts};

/// Joined to the state of a replica that has all that is known, a difference gives what the whole state gives there.
pub fn differences_unite()
    ensures { DifferencesUnite }
{
    designs_mean();
    states_go_together();
    states_join_by_parts();
}

/// If the marks of what is known are at or below a replica's own, the replica has all these operations.
pub fn marks_tell_operations()
    ensures { MarksTellOperations }
{}

/// The marks of two lists, joined, are those of both together.
pub fn marks_unite()
    ensures { MarksUnite }
{}

/// A new sharer has no operations.
pub fn sharers_begin()
    ensures { SharersBegin }
{}

/// An operation that a sharer does is one more that it has.
pub fn sharers_act()
    ensures { SharersAct }
{
    designs_mean();
}

/// A packet that isn't refused gives a sharer all operations that its sender had: if of each replica one of two lists of operations
/// has a prefix, by time, of what the other has.
pub fn sharers_deliver()
    ensures { SharersDeliver }
{
    differences_unite();
}
