//! The reader of a whole text.
ghost use Rattle.std.specs.Prelude.{◌≡◌, map, IfErr, IfOk};
ghost use Rattle.std.specs.List.{slice_index_or};
ghost use Rattle.kat_grammar.specs.Files.{IsTextOf, TellsRefusal};
ghost use Rattle.kat_grammar.specs.Forms.{type_form};
ghost use Rattle.kat_grammar.specs.Marks.{placed};
ghost use Rattle.kat_grammar.specs.declared.marks.Placed.{Placed};

use crate::errors::GrammarError;
use crate::phrases::TypeText;
use crate::reader::{Judgement, judge};
use kat_lex::{Token, tokens};
use std::alloc::Global;

/// Reads the whole text of a type file as far as its grammar says: what it says, with the place of each token,
/// or its first refusal. A fault of tokens comes first, for the whole text; then, token by token, an expression
/// that is too deep or too large and a token with which no type can go on, whichever comes first.
pub fn read_text(alloc: Global, bytes: &[u8]) -> Result<TypeText, GrammarError>
    ensures text { IfOk result (λ text. IsTextOf bytes.now (type_form text)) }
    ensures refusal { IfErr result (λ refusal. TellsRefusal bytes.now refusal) }
{
    let found = tokens(alloc, bytes)?;
    match judge(alloc, &found)? {
        Judgement::Whole(text) => Ok(text),
        Judgement::Syntax(number) => {
            Err(GrammarError::Syntax(place(&found, number, bytes.len())))
        }
        Judgement::TooLarge(number) => {
            Err(GrammarError::TooLarge(place(&found, number, bytes.len())))
        }
    }
}

/// The byte at which the token of this number begins, or the end.
#[tactic(auto, using(crate::proofs::Texted::place_read, crate::proofs::Texted::place_past))]
fn place(tokens: &[Token], number: usize, end: usize) -> usize
    ensures { result ≡ slice_index_or (map (λ (t : Placed). t.at) (placed tokens.now)) number end }
{
    if number < tokens.len() {
        tokens[number].from
    } else {
        end
    }
}
