//! What the statements of an operation mean: a call that does nothing, whose clauses say it.
ghost use Rattle.std.specs.Prelude.{◌≡◌, ◌<◌, ℕ, Bool, true, false, None, Some, length};
ghost use Rattle.kat_design.specs.Designs.{DesignForm};
ghost use Rattle.kat_design.specs.Sorted.{IsWellSorted};
ghost use Rattle.kat_actions.specs.Texts.{FitsSignature};
ghost use Rattle.kat_actions.specs.declared.calls.Call.{Call};
ghost use Rattle.kat_actions.specs.declared.calls.Verb.TheVariants as Verb;
ghost use Rattle.kat_node.specs.Nodes.{IsNode};
ghost use Rattle.kat_node.specs.declared.nodes.Node as nodes;
ghost use Rattle.kat_step.specs.Limits.{refusal_of};
ghost use Rattle.kat_step.specs.declared.error.StepError.TheVariants.{FullState, TooLarge};
ghost use Rattle.kat_emit_laws.specs.Meanings.{emitted, full, late, stepped, unchanged, wrong};

use kat_shape::tells_values_apart;

/// The statements of an operation of a well-sorted design, at a node of it, with arguments that fit and that their checks let pass: where
/// kat_step refuses nothing, they leave the clock and the parts of its step; where it refuses the time or a sum, they refuse the same, and the
/// replica is as it was. And of any design and any arguments, the first that its check doesn't let pass is refused, and the
/// replica is as it was.
pub fn statements_mean_steps()
    ensures steps { (d : DesignForm) (node : nodes.Node) (call : Call) (passes : ℕ → Bool) → IsWellSorted d → IsNode d node
        → FitsSignature Verb.Do d.sig call → ((param : ℕ) → param < length call.args → passes param ≡ true)
        → refusal_of d node call ≡ None → emitted passes d node call ≡ stepped d node call }
    ensures late { (d : DesignForm) (node : nodes.Node) (call : Call) (passes : ℕ → Bool)
        → ((param : ℕ) → param < length call.args → passes param ≡ true)
        → refusal_of d node call ≡ Some (TooLarge call.line) → emitted passes d node call ≡ unchanged node late }
    ensures full { (d : DesignForm) (node : nodes.Node) (call : Call) (passes : ℕ → Bool) → IsNode d node
        → ((param : ℕ) → param < length call.args → passes param ≡ true)
        → refusal_of d node call ≡ Some (FullState call.line) → emitted passes d node call ≡ unchanged node full }
    ensures wrong { (d : DesignForm) (node : nodes.Node) (call : Call) (passes : ℕ → Bool) (param : ℕ) → param < length call.args
        → passes param ≡ false → ((earlier : ℕ) → earlier < param → passes earlier ≡ true)
        → emitted passes d node call ≡ unchanged node (wrong param) }
{
    tells_values_apart();
}
