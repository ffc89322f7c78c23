//! What holds of every state: its sorts, and how great its numbers grow.
ghost use Rattle.std.specs.Prelude.{All, List, length};
ghost use Rattle.kat_expr.specs.Limits.{IsSlotAtMost};
ghost use Rattle.kat_seq.specs.Sizes.{HaveSmallArguments, most_after};
ghost use Rattle.kat_seq.specs.Sorts.{AnswersHaveSorts, RunsGoOn, StatesKeepSorts};
ghost use Rattle.kat_seq.specs.States.{state_after};
ghost use Rattle.kat_type.specs.Types.{TypeForm};
ghost use Rattle.kat_type.specs.Within.{IsWithinLimits};
ghost use Rattle.kat_type.specs.declared.done.Done.{Done};

/// A right side adds at most one number of the state to constants and arguments. So after some operations each number
/// of the state is at most the limit of literals and arguments, and 400 times that for each operation.
pub fn states_grow_slowly()
    ensures { (ty : TypeForm) (dones : List Done) → IsWithinLimits ty → HaveSmallArguments dones
        → All (IsSlotAtMost (most_after (length dones))) (state_after ty dones) }
{}

/// After operations of a well-sorted type, done with arguments of their sorts, each field has values of its sort; and a
/// query with arguments of their sorts answers a value of the query's sort.
pub fn states_keep_their_sorts()
    ensures states { StatesKeepSorts }
    ensures answers { AnswersHaveSorts }
{}

/// Operations done after others go on from the state that these left.
pub fn runs_go_on()
    ensures { RunsGoOn }
{}
