//! What holds of deltas: each law is a call that does nothing, whose clause says it.
ghost use Rattle.std.specs.List.{slice_index_or};
ghost use Rattle.std.specs.Prelude.{◌≡◌, ◌+◌, ℕ, List, [], ◌∷◌, ◌++◌, ◌≤◌, length, take};
ghost use Rattle.kat_type.specs.Lists.{Has, IsOnce};
ghost use Rattle.kat_type.specs.declared.done.Done.{Done};
ghost use Rattle.kat_design.specs.Denotations.{denotation_of};
ghost use Rattle.kat_design.specs.Designs.{DesignForm};
ghost use Rattle.kat_design.specs.Meanings.{are_kin};
ghost use Rattle.kat_design.specs.Parts.{PartsKin, parts_joined};
ghost use Rattle.kat_design.specs.Sorted.{IsWellSorted};
ghost use Rattle.kat_type.specs.Unions.{AreNested, united};
ghost use Rattle.kat_delta.specs.Deltas.{DeltasSum, KeyedDeltasSum, delta_of};
ghost use Rattle.kat_delta.specs.Spans.{ComesTo, HasFirst, HasTaken, Span, state_with};
ghost use Rattle.kat_delta.specs.Standing.{CarriesDelta, IsAsBefore, IsByTime, MayTake, MayTakeWhole, StandsFor, count_at, count_of};
ghost use Rattle.kat_delta.specs.Worlds.{AreJudgedDeltas, delta_world_after, done_by_lines, first_delta_world};
ghost use Rattle.kat_delta.specs.declared.replicas.DeltaPacket.{DeltaPacket};
ghost use Rattle.kat_delta.specs.declared.replicas.DeltaReplica.{DeltaReplica};
ghost use Rattle.kat_delta.specs.declared.script.DeltaLine.{DeltaLine};
ghost use Rattle.kat_delta.specs.declared.script.DeltaScript.{DeltaScript};
ghost use Rattle.kat_delta.specs.Lines.{IsJudgedScript, delta_lines_of};
ghost use Rattle.kat_delta.specs.Sequential.{DeltasAnswerSequentially};
ghost use Rattle.kat_type.specs.Signatures.{signature_of};
ghost use Rattle.kat_type.specs.Types.{TypeForm};
ghost use Rattle.kat_world.specs.AsType.{AnswersAsType};
ghost use Rattle.kat_world.specs.Lines.{shown_by};
ghost use Rattle.kat_script.specs.Facts.{HoldsFronts, IsFront};
ghost use Rattle.kat_script.specs.World.{Holder, World, fresh};
ghost use Rattle.kat_type.specs.declared.signatures.Signature.{Signature};

use kat_shape::tells_values_apart;

/// What operations give, joined with a delta of others, is what all of them give, if the operations before the delta are
/// there, and of each origin the one list's operations are among the other's.
pub fn deltas_join()
    ensures { (d : DesignForm) (all ones : List Done) (c : ℕ) → IsWellSorted d → IsOnce all → IsOnce ones → AreNested all ones
        → ((one : Done) → Has (take c ones) one → Has all one)
        → parts_joined (denotation_of d all) (delta_of d ones c) ≡ denotation_of d (united all ones) }
{
    tells_values_apart();
}

/// A delta, joined with that of the one operation after it, is the delta of both.
pub fn deltas_follow()
    ensures { (d : DesignForm) (ones : List Done) (next : Done) (c : ℕ) → IsWellSorted d → c ≤ length ones
        → parts_joined (delta_of d ones c) (delta_of d (ones ++ next ∷ []) (length ones)) ≡ delta_of d (ones ++ next ∷ []) c }
{
    tells_values_apart();
}

/// All deltas go together with all states of the design.
pub fn deltas_go_together()
    ensures { (d : DesignForm) (ones all : List Done) (c : ℕ) → IsWellSorted d
        → are_kin PartsKin (delta_of d ones c) (denotation_of d all) }
{
    tells_values_apart();
}

/// In every world of judged lines with deltas, each replica and packet holds a prefix of what was done before.
pub fn worlds_of_deltas_hold_fronts()
    ensures { (sig : Signature) (replicas : ℕ) (before behind : List DeltaLine)
        → AreJudgedDeltas sig (first_delta_world replicas) (before ++ behind)
        → HoldsFronts (done_by_lines before) (delta_world_after (first_delta_world replicas) before).world }
{}

/// A replica of a world may absorb a delta that holds a prefix, if it has as many operations of the origin as the delta needs: so what is
/// delivered without a gap is what the world holds.
pub fn deltas_may_be_taken()
    ensures { (d : DesignForm) (past : List Done) (world : World) (i : ℕ) (replica : DeltaReplica) (packet : DeltaPacket) (own : List Done)
        (theirs : Holder) → HoldsFronts past world → IsFront past theirs
        → replica.number ≡ i + 1 → StandsFor d replica own (slice_index_or world.replicas i fresh).absorbed
        → CarriesDelta d packet theirs.absorbed
        → packet.from ≤ count_of packet.origin (slice_index_or world.replicas i fresh).absorbed
        → MayTake replica own (slice_index_or world.replicas i fresh).absorbed packet theirs.absorbed }
{}

/// A replica of a world may absorb any whole state that holds a prefix.
pub fn wholes_may_be_taken()
    ensures { (d : DesignForm) (past : List Done) (world : World) (i : ℕ) (replica : DeltaReplica) (own : List Done) (theirs : Holder)
        → HoldsFronts past world → IsFront past theirs
        → replica.number ≡ i + 1 → StandsFor d replica own (slice_index_or world.replicas i fresh).absorbed
        → MayTakeWhole replica own (slice_index_or world.replicas i fresh).absorbed theirs.absorbed }
{}

/// A delta that comes twice isn't refused the second time, and changes nothing then.
pub fn deltas_come_again()
    ensures taken { (old mid : DeltaReplica) (packet : DeltaPacket) → 1 ≤ packet.origin → packet.origin ≤ length old.counts.items
        → HasTaken old packet mid
        → packet.from ≤ count_at old.counts.items packet.origin → packet.from ≤ count_at mid.counts.items packet.origin }
    ensures unchanged { (d : DesignForm) (old mid new : DeltaReplica) (packet : DeltaPacket) (own all ones : List Done) → IsWellSorted d
        → 1 ≤ packet.origin → packet.origin ≤ length old.counts.items
        → StandsFor d old own all → CarriesDelta d packet ones → MayTake old own all packet ones
        → HasTaken old packet mid → HasTaken mid packet new → IsAsBefore mid new }
{
    tells_values_apart();
}

/// Deltas of one replica that come without a gap, in whatever order, give what the whole state of its operations up to the
/// last of them gives.
pub fn deltas_come_in_any_order()
    ensures { (d : DesignForm) (origin : ℕ) (all ones : List Done) (spans : List Span) (have last : ℕ) → IsWellSorted d → IsOnce all
        → IsByTime ones → ((one : Done) → Has ones one → one.replica ≡ origin)
        → HasFirst origin all ones have → ComesTo have spans last
        → state_with d ones (denotation_of d all) spans
        ≡ parts_joined (denotation_of d all) (denotation_of d (take last ones)) }
{
    tells_values_apart();
}

/// The lines of a design that answers as a type does, on every judged script with deltas: each ask has the answer of the type
/// in every order that respects the ranks, of the operations that its replica absorbed; each show the clock and the state.
pub fn deltas_answer_sequentially()
    ensures { (ty : TypeForm) (d : DesignForm) (script : DeltaScript) → signature_of ty ≡ d.sig → AnswersAsType ty d
        → IsJudgedScript (signature_of ty) script
        → DeltasAnswerSequentially ty (shown_by d) script (delta_lines_of d script) }
{}

/// A delta tells whole sums: of a tally each sum that an operation after the first so many changes, and of tallies by key the
/// same at each key; it tells nothing of other sums.
pub fn deltas_tell_whole_sums()
    ensures tallies { DeltasSum }
    ensures keyed { KeyedDeltasSum }
{
    tells_values_apart();
}
