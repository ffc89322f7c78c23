//! Words in one piece of bytes.
ghost use Rattle.std.specs.Prelude.{◌≡◌, IfOk, map};
ghost use Rattle.kat_passed.specs.Passing.{AreTexts, words_said};

use crate::splitting::{behind_first, split_pieces};
use crate::texts::text_of;
use std::alloc::{AllocError, Global};

/// The words after the first, which names the program; a zero byte is between two. None if one isn't text.
pub fn words_in(alloc: Global, bytes: &[u8]) -> Result<Option<Vec<String>>, AllocError>
    ensures { IfOk result (λ found. AreTexts (words_said bytes.now) found) }
{
    let said = split_pieces(alloc, bytes)?;
    texts_of(alloc, behind_first(&said))
}

/// The texts that pieces are, or none if one isn't text.
fn texts_of(alloc: Global, said: &[&[u8]]) -> Result<Option<Vec<String>>, AllocError>
    ensures { IfOk result (λ found. AreTexts (map (λ piece. piece.now) said.now) found) }
{
    let mut texts = Vec::new(alloc);
    for piece in said {
        let Some(text) = text_of(alloc, piece)? else {
            return Ok(None);
        };
        texts.push(text)?;
    }
    Ok(Some(texts))
}
