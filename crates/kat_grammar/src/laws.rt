//! What holds of every text: it is that of a type or refused, in one way only.
ghost use Rattle.std.specs.Prelude.{◌≡◌, ◌⊎◌, ℕ, List};
ghost use Rattle.kat_grammar.specs.Files.{IsRefused, IsTextOf};
ghost use Rattle.kat_grammar.specs.Forms.{TypeForm};
ghost use Rattle.kat_grammar.specs.declared.errors.GrammarError.{GrammarError};

/// A text is a text of at most one type and has at most one refusal, and never both.
pub fn at_most_one_judgement()
    ensures text { (text : List ℕ) (some other : TypeForm) → IsTextOf text some → IsTextOf text other → some ≡ other }
    ensures refusal { (text : List ℕ) (some other : GrammarError) → IsRefused text some → IsRefused text other → some ≡ other }
    ensures apart { (text : List ℕ) (whole : TypeForm) (refusal : GrammarError) → IsTextOf text whole → IsRefused text refusal → ⊥ }
{}

/// Every text is a text of a type, or refused.
pub fn every_text_is_judged()
    ensures { (text : List ℕ) → ((whole : TypeForm) × IsTextOf text whole) ⊎ ((refusal : GrammarError) × IsRefused text refusal) }
{}
