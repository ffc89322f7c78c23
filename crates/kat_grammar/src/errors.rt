//! Why a text isn't that of a type, as far as its grammar says.
use kat_lex::LexError;
use std::alloc::AllocError;

/// The first refusal of a text, with its byte, or out of memory, which says nothing of the text. For `type @` it
/// is `BadByte(5)`, for `type type` it is `Syntax(5)`.
#[derive(Clone, Copy, PartialEq, Eq, Debug, thiserror::Error)]
pub enum GrammarError {
    #[error("a byte that begins no token, at byte {0}")]
    BadByte(usize),
    #[error("a word or name of more than 15 bytes, at byte {0}")]
    LongName(usize),
    #[error("a number past the limit, at byte {0}")]
    LongNumber(usize),
    #[error("no type goes on so, at byte {0}")]
    Syntax(usize),
    #[error("an expression that is too deep or too large, at byte {0}")]
    TooLarge(usize),
    #[error("out of memory")]
    Memory,
}

impl From<AllocError> for GrammarError {
    ghost use Rattle.std.specs.Prelude.{◌≡◌};
    ghost use Rattle.kat_grammar.specs.declared.errors.GrammarError.TheVariants.{Memory};

    ghost from_gives = { λ _ error. error ≡ Memory };

    fn from(_: AllocError) -> Self {
        GrammarError::Memory
    }
}

impl From<LexError> for GrammarError {
    ghost use Rattle.std.specs.Prelude.{◌≡◌};
    ghost use Rattle.kat_grammar.specs.Files.{refusal_of_fault};

    ghost from_gives = { λ fault error. error ≡ refusal_of_fault fault };

    fn from(fault: LexError) -> Self {
        match fault {
            LexError::BadByte(at) => GrammarError::BadByte(at),
            LexError::LongName(at) => GrammarError::LongName(at),
            LexError::LongNumber(at) => GrammarError::LongNumber(at),
            LexError::Memory => GrammarError::Memory,
        }
    }
}
