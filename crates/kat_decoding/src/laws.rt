//! What holds of the search and of the design of a token list: each law is a call that does nothing, whose clause says it.
ghost use Rattle.std.specs.Prelude.{◌≡◌, ◌<◌, ◌^◌, ℕ, Bool, List};
ghost use Rattle.kat_design.specs.Designs.{DesignForm};
ghost use Rattle.kat_design.specs.Sizes.{size_of};
ghost use Rattle.kat_decoding.specs.Decoded.{decoded};
ghost use Rattle.kat_decoding.specs.Words.{AreListed, TellsListed};
ghost use Rattle.kat_rules.specs.Listed.{KeepsRules};
ghost use Rattle.kat_rules.specs.Tokens.{design_tokens};
ghost use Rattle.kat_rules.specs.declared.constants.Setting.{Setting};
ghost use Rattle.kat_rules.specs.declared.tokens.Token.{Token};
ghost use Rattle.kat_type.specs.Signatures.{IsSmall};

/// With a test that tells the token lists of the designs of a size that keep the rules, the lists that the machine gives are
/// exactly these, ascending.
pub fn words_are_listed()
    ensures { (x : Setting) (n : ℕ) (test : List Token → Bool) → IsSmall x.sig → TellsListed x n test → AreListed x n test }
{}

/// A token list is that of one design at most.
pub fn designs_are_told_by_tokens()
    ensures { (x : Setting) (d : DesignForm) → KeepsRules x d → size_of d < 2 ^ 32 → decoded x (design_tokens x.constants d) ≡ d }
{}
