//! What holds of relations and situations: each law is a call that does nothing, whose clause says it.
ghost use Rattle.kat_invariant.specs.Accepted.{RefutedConditionsHold, SituationsStayLegal, StartsAreLegal, TypeFilesHaveKeys};
ghost use Rattle.kat_invariant.specs.Asked.{AsksAreHeld};
ghost use Rattle.kat_invariant.specs.Runs.{DenotationsAreHeld, InductiveDesignsAnswerAsType, RefutedDesignsAnswerAsType};

use kat_shape::tells_values_apart;

/// If some lines refute each condition of a relation, the relation is an inductive invariant: it holds at the start,
/// every operation that may follow keeps it, and if it holds each query has the same answer on both sides. That is so
/// over all whole numbers and at every key.
pub fn refuted_conditions_hold()
    ensures { RefutedConditionsHold }
{}

/// The situation before all operations is a legal one.
pub fn starts_are_legal()
    ensures { StartsAreLegal }
{}

/// After each operation that may follow, a legal situation is a legal one.
pub fn situations_stay_legal()
    ensures { SituationsStayLegal }
{}

/// The answer of a design in a state is its answer over what each part of the state holds at each key.
pub fn asks_are_held()
    ensures { AsksAreHeld }
{}

/// The tables of a type that a file says have numbers or names as keys.
pub fn type_files_have_keys()
    ensures { TypeFilesHaveKeys }
{}

/// What is held after operations, one after the other, is what the design's denotation of them holds at each key.
pub fn denotations_are_held()
    ensures { DenotationsAreHeld }
{
    tells_values_apart();
}

/// A design that has an inductive relation with a type answers as the type does: in the state that it gives to operations,
/// each query has the answer of the type after these operations, in whatever order that respects the ranks.
pub fn inductive_designs_answer_as_type()
    ensures { InductiveDesignsAnswerAsType }
{
    tells_values_apart();
}

/// So does a design whose conditions are all refuted, each by some lines.
pub fn refuted_designs_answer_as_type()
    ensures { RefutedDesignsAnswerAsType }
{
    refuted_conditions_hold();
    inductive_designs_answer_as_type();
}
