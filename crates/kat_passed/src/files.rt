//! Files by name in plain bytes.
ghost use Rattle.std.specs.Prelude.{◌≡◌, IfOk, IsUtf8, MatchOption, map};
ghost use Rattle.kat_passed.specs.Passing.{AreFiles, named, pieces};

use crate::splitting::{cut, first_length, split_pieces};
use crate::texts::text_of;
use std::alloc::{AllocError, Global};

/// The files: names are separated by zero bytes, each length says how many bytes the file of its name has, and the bytes of a file come
/// after those of the file before it. None if a name isn't text.
pub fn files_in(
    alloc: Global,
    names: &[u8],
    lengths: &[usize],
    bytes: &[u8],
) -> Result<Option<Vec<(String, Vec<u8>)>>, AllocError>
    ensures { IfOk result (λ found. AreFiles (pieces names.now) lengths.now bytes.now found) }
{
    let names = split_pieces(alloc, names)?;
    paired(alloc, &names, lengths, bytes)
}

/// Each name with its bytes, as far as there are names and lengths, or none if a name isn't text.
fn paired(
    alloc: Global,
    names: &[&[u8]],
    lengths: &[usize],
    bytes: &[u8],
) -> Result<Option<Vec<(String, Vec<u8>)>>, AllocError>
    ensures { IfOk result (λ found. AreFiles (map (λ name. name.now) names.now) lengths.now bytes.now found) }
{
    let mut files = Vec::new(alloc);
    let mut counts = lengths;
    let mut rest = bytes;
    for name in names {
        let Some((count, later)) = first_length(counts) else {
            return Ok(Some(files));
        };
        let (text, behind) = cut(rest, count);
        let Some(file) = file_of(alloc, name, text)? else {
            return Ok(None);
        };
        files.push(file)?;
        counts = later;
        rest = behind;
    }
    Ok(Some(files))
}

/// The file of this name, if that is text, with these bytes.
fn file_of(
    alloc: Global,
    name: &[u8],
    bytes: &[u8],
) -> Result<Option<(String, Vec<u8>)>, AllocError>
    ensures { IfOk result (λ found. MatchOption found (IsUtf8 name.now → ⊥) (λ file. named file ≡ (name.now, bytes.now))) }
{
    let Some(name) = text_of(alloc, name)? else {
        return Ok(None);
    };
    let copied = Vec::from_slice(alloc, bytes)?;
    Ok(Some((name, copied)))
}
