//! Reading a line of a block.
ghost use Rattle.std.specs.Prelude.{◌≡◌, ◌↔◌, ◌≤◌, ◌^◌, IfOk, IsTrue, MatchOption, unsigned_abs};
ghost use Rattle.std.specs.List.{All};
ghost use Rattle.kat_said.specs.Guesses.{IsPointFor, IsWritten, after, point_part};
ghost use Rattle.kat_said.specs.Sayings.{IsHeldLine, IsLineOf, IsNarrow, IsNarrowPlace, IsNarrowSaid, SaidForm, said_form};

use crate::cutting::{after, front};
use crate::forms::has_form;
use crate::guessing::{behind, guess};
use crate::printing::push_line;
use crate::said::{Place, Said};
use std::alloc::{AllocError, Global};

/// What a line of a block says, or none if it is no such line, or a number other than those of a point passes 2^126 in absolute
/// value.
///
/// It is guessed and written again: a line that is written otherwise has another number of blanks, or leading zeros, or isn't of the
/// form at all. The numbers of a point may have more digits than are kept, so its bytes stand for themselves there. The form of what
/// is kept as a list is looked at first, so that a line which isn't of that form takes no memory.
pub fn read_said(alloc: Global, line: &[u8]) -> Result<Option<Said>, AllocError>
    ensures { IfOk result (λ found. MatchOption found ((s : SaidForm) → IsLineOf line.now s
        → ⊥) (λ said. IsHeldLine line.now (said_form said))) }
{
    if !has_form(line) {
        return Ok(None);
    }
    let said = guess(alloc, line)?;
    if !is_narrow(&said) {
        return Ok(None);
    }
    if !is_written(alloc, &said, line)? {
        return Ok(None);
    }
    Ok(Some(said))
}

/// Whether a line with a point of that form is written so, whichever the numbers of its point are.
fn is_written(alloc: Global, said: &Said, line: &[u8]) -> Result<bool, AllocError>
    requires narrow { IsNarrowSaid (said_form said.now) }
    requires point { IsPointFor (said_form said.now) (point_part (said_form said.now) line.now) }
    ensures { IfOk result (λ same. IsTrue same ↔ IsWritten line.now (said_form said.now)) }
{
    let point = point_part(said, line);
    let mut text = Vec::new(alloc);
    push_line(said, point, &mut text)?;
    Ok(is_same(line, &text))
}

/// Where the point of a line is, if it has one.
fn point_part<'a>(said: &Said, line: &'a [u8]) -> &'a [u8]
    ensures { result.now ≡ point_part (said_form said.now) line.now }
{
    match said {
        Said::Drop { at, .. } => after(behind(at, after(front(line, b'\n'), b' ')), b' '),
        Said::Fail { .. } => behind_four(front(line, b'\n')),
        Said::Spent(_) => &[],
        Said::Rows { .. } => &[],
        Said::Wide { .. } => &[],
        Said::Long(_) => &[],
    }
}

/// What comes after four blanks.
fn behind_four(bytes: &[u8]) -> &[u8]
    ensures { result.now ≡ after 32 (after 32 (after 32 (after 32 bytes.now))) }
{
    after(after(after(after(bytes, b' '), b' '), b' '), b' ')
}

fn is_same(a: &[u8], b: &[u8]) -> bool
    ensures { IsTrue result ↔ (a.now ≡ b.now) }
{
    a == b
}

/// Whether no number passes 2^126 but those of a point.
fn is_narrow(said: &Said) -> bool
    ensures { IsTrue result ↔ IsNarrowSaid (said_form said.now) }
{
    match said {
        Said::Drop { at, .. } => is_narrow_place(at),
        Said::Fail { query, .. } => is_few(*query),
        Said::Spent(at) => is_narrow_place(at),
        Said::Rows {
            at,
            plus,
            minus,
            rest,
            lits,
        } => is_narrow_place(at) && are_few(*plus, *minus, *rest) && are_narrow(lits),
        Said::Wide {
            at,
            left,
            right,
            lits,
        } => is_narrow_place(at) && are_both_narrow(left, right) && are_narrow(lits),
        Said::Long(bytes) => is_few(*bytes),
    }
}

fn is_narrow_place(at: &Place) -> bool
    ensures { IsTrue result ↔ IsNarrowPlace at.now }
{
    match at {
        Place::Start(conjunct) => is_few(*conjunct),
        Place::Step { op, conjunct } => is_few(*op) && is_few(*conjunct),
        Place::Query(query) => is_few(*query),
    }
}

/// The greatest number of a report, in absolute value.
const LIMIT: u128 = 1 << 126;

fn is_few(number: u128) -> bool
    ensures { IsTrue result ↔ (number ≤ 2 ^ 126) }
{
    number <= LIMIT
}

fn are_few(a: u128, b: u128, c: u128) -> bool
    ensures { IsTrue result ↔ ((a ≤ 2 ^ 126) × (b ≤ 2 ^ 126) × (c ≤ 2 ^ 126)) }
{
    is_few(a) && is_few(b) && is_few(c)
}

fn is_whole_narrow(number: &i128) -> bool
    ensures { IsTrue result ↔ IsNarrow number.now }
{
    number.unsigned_abs() <= LIMIT
}

fn are_both_narrow(left: &i128, right: &i128) -> bool
    ensures { IsTrue result ↔ (IsNarrow left.now × IsNarrow right.now) }
{
    is_whole_narrow(left) && is_whole_narrow(right)
}

fn are_narrow(numbers: &[i128]) -> bool
    ensures { IsTrue result ↔ All IsNarrow numbers.now }
{
    numbers.iter().all(|n| n.unsigned_abs() <= LIMIT)
}
