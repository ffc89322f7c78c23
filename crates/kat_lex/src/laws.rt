//! What holds of every text: it has either tokens or a fault, and one answer only.
ghost use Rattle.std.specs.Prelude.{◌≡◌, ℕ, ◌⊎◌, List};
ghost use Rattle.kat_lex.specs.Tokens.{FaultOf, TokensOf};
ghost use Rattle.kat_lex.specs.declared.lexer.LexError.{LexError};
ghost use Rattle.kat_lex.specs.declared.lexer.Token.{Token};

/// A text has at most one list of tokens and one fault, and never both.
pub fn at_most_one_reading()
    ensures tokens { (text : List ℕ) (some other : List Token) → TokensOf text some → TokensOf text other → some ≡ other }
    ensures fault { (text : List ℕ) (some other : LexError) → FaultOf text some → FaultOf text other → some ≡ other }
    ensures apart { (text : List ℕ) (some : List Token) (fault : LexError) → TokensOf text some → FaultOf text fault → ⊥ }
{}

/// Every text has tokens or a fault.
pub fn every_text_is_read()
    ensures { (text : List ℕ) → ((found : List Token) × TokensOf text found) ⊎ ((fault : LexError) × FaultOf text fault) }
{}
