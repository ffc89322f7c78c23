//! What holds of every text: for a signature it is a script with deltas or refused, in one way only. What holds of every
//! such script that is read.
ghost use Rattle.std.specs.Prelude.{◌≡◌, ℕ, ◌⊎◌, List};
ghost use Rattle.kat_type.specs.declared.signatures.Signature.{Signature};
ghost use Rattle.kat_delta.specs.Lines.{IsJudgedScript};
ghost use Rattle.kat_delta.specs.declared.script.DeltaScript.{DeltaScript};
ghost use Rattle.kat_delta_script.specs.Scripts.{IsDeltaRefused, IsDeltaScriptText};
ghost use Rattle.kat_delta_script.specs.declared.error.DeltaScriptError.{DeltaScriptError};

/// A text is a text of at most one script for a signature and has at most one refusal, and never both.
pub fn at_most_one_judgement()
    ensures script { (sig : Signature) (text : List ℕ) (some other : DeltaScript) → IsDeltaScriptText sig text some
        → IsDeltaScriptText sig text other → some ≡ other }
    ensures refusal { (sig : Signature) (text : List ℕ) (some other : DeltaScriptError) → IsDeltaRefused sig text some
        → IsDeltaRefused sig text other → some ≡ other }
    ensures apart { (sig : Signature) (text : List ℕ) (script : DeltaScript) (error : DeltaScriptError) → IsDeltaScriptText sig text script
        → IsDeltaRefused sig text error → ⊥ }
{}

/// Every text is a text of a script for a signature, or refused.
pub fn every_text_is_judged()
    ensures { (sig : Signature) (text : List ℕ) → ((script : DeltaScript) × IsDeltaScriptText sig text script)
        ⊎ ((error : DeltaScriptError) × IsDeltaRefused sig text error) }
{}

/// What is known of a script that is read from a text, from the script alone: its replicas, packets, operations and queries
/// exist, its times exceed the clocks, its arguments fit, a delta is from no more operations than its replica did, and none is
/// delivered over a gap.
pub fn scripts_with_deltas_are_judged()
    ensures { (sig : Signature) (text : List ℕ) (script : DeltaScript) → IsDeltaScriptText sig text script → IsJudgedScript sig script }
{}
