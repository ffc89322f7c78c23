//! Bytes in pieces.
ghost use Rattle.std.specs.Prelude.{◌≡◌, ◌∷◌, [], IfOk, MatchOption, drop, map, take};
ghost use Rattle.kat_passed.specs.Passing.{pieces};

use std::alloc::{AllocError, Global};

/// The pieces between zero bytes.
pub(crate) fn split_pieces(alloc: Global, bytes: &[u8]) -> Result<Vec<&[u8]>, AllocError>
    ensures { IfOk result (λ found. map (λ piece. piece.now) found.items ≡ pieces bytes.now) }
{
    bytes.split(|byte| *byte == 0).collect(alloc)
}

/// All pieces but the first.
pub(crate) fn behind_first<'a, 'b>(said: &'a [&'b [u8]]) -> &'a [&'b [u8]]
    ensures { result.now ≡ drop 1 said.now }
{
    match said {
        [_, rest @ ..] => rest,
        [] => said,
    }
}

/// The first length, and those after it.
pub(crate) fn first_length(lengths: &[usize]) -> Option<(usize, &[usize])>
    ensures { MatchOption result (lengths.now ≡ []) (λ found. lengths.now ≡ found.0 ∷ found.1.now) }
{
    match lengths {
        [first, rest @ ..] => Some((*first, rest)),
        [] => None,
    }
}

/// This many bytes, or all if there are fewer, and those after them.
pub(crate) fn cut(bytes: &[u8], count: usize) -> (&[u8], &[u8])
    ensures front { result.0.now ≡ take count bytes.now }
    ensures behind { result.1.now ≡ drop count bytes.now }
{
    if count <= bytes.len() {
        bytes.split_at(count)
    } else {
        (bytes, &[])
    }
}
