//! What holds of every text: for a verb and a signature it has calls or is refused, in one way only. What holds of calls that
//! are read.
ghost use Rattle.std.specs.Prelude.{◌≡◌, ℕ, ◌⊎◌, List};
ghost use Rattle.kat_script.specs.declared.error.ScriptError.{ScriptError};
ghost use Rattle.kat_type.specs.declared.signatures.Signature.{Signature};
ghost use Rattle.kat_actions.specs.Texts.{AreCallsOf, FitSignature, IsRefused};
ghost use Rattle.kat_actions.specs.declared.calls.Call.{Call};
ghost use Rattle.kat_actions.specs.declared.calls.Verb.{Verb};

/// A text has at most one list of calls and at most one refusal, and never both.
pub fn at_most_one_judgement()
    ensures calls { (verb : Verb) (sig : Signature) (text : List ℕ) (some other : List Call) → AreCallsOf verb sig text some
        → AreCallsOf verb sig text other → some ≡ other }
    ensures refusal { (verb : Verb) (sig : Signature) (text : List ℕ) (some other : ScriptError) → IsRefused verb sig text some
        → IsRefused verb sig text other → some ≡ other }
    ensures apart { (verb : Verb) (sig : Signature) (text : List ℕ) (calls : List Call) (error : ScriptError)
        → AreCallsOf verb sig text calls → IsRefused verb sig text error → ⊥ }
{}

/// Every text has calls, or is refused.
pub fn every_text_is_judged()
    ensures { (verb : Verb) (sig : Signature) (text : List ℕ) → ((calls : List Call) × AreCallsOf verb sig text calls)
        ⊎ ((error : ScriptError) × IsRefused verb sig text error) }
{}

/// The calls of a text are at most 100,000, each of an operation or query of the signature with arguments of its sorts.
pub fn calls_fit_signatures()
    ensures { (verb : Verb) (sig : Signature) (text : List ℕ) (calls : List Call) → AreCallsOf verb sig text calls
        → FitSignature verb sig calls }
{}
