//! What is guessed of any line.
ghost use Rattle.std.specs.Prelude.{◌≡◌, IfOk};
ghost use Rattle.kat_points.specs.Answers.{point_form};
ghost use Rattle.kat_said.specs.Guesses.{behind, crowd_by, crowd_in, drop_in, fail_in, first_number, guess, place_in, point_in, said_by, said_in, second_number, width_by, width_in};
ghost use Rattle.kat_said.specs.Sayings.{said_form};

use crate::cutting::{after, bits, byte_at, front, number, whole, wholes};
use crate::said::{Place, Said};
use kat_points::Point;
use std::alloc::{AllocError, Global};

/// What a line says, if it says anything.
pub(crate) fn guess(alloc: Global, line: &[u8]) -> Result<Said, AllocError>
    ensures { IfOk result (λ said. said_form said ≡ guess line.now) }
{
    said_in(alloc, front(line, b'\n'))
}

fn said_in(alloc: Global, bytes: &[u8]) -> Result<Said, AllocError>
    ensures { IfOk result (λ said. said_form said ≡ said_in bytes.now) }
{
    said_by(alloc, byte_at(bytes, 0), after(bytes, b' '))
}

/// By the first byte, from what comes after the first blank.
fn said_by(alloc: Global, tag: u8, bytes: &[u8]) -> Result<Said, AllocError>
    ensures { IfOk result (λ said. said_form said ≡ said_by tag bytes.now) }
{
    if tag == b'd' {
        return drop_in(alloc, bytes);
    }
    if tag == b'f' {
        return fail_in(alloc, bytes);
    }
    if tag == b's' {
        return Ok(Said::Spent(place_in(bytes)));
    }
    if tag == b'r' {
        return crowd_in(alloc, bytes);
    }
    if tag == b'w' {
        return width_in(alloc, bytes);
    }
    Ok(Said::Long(number(bytes)))
}

fn drop_in(alloc: Global, bytes: &[u8]) -> Result<Said, AllocError>
    ensures { IfOk result (λ said. said_form said ≡ drop_in bytes.now) }
{
    let at = place_in(bytes);
    let point = point_in(alloc, after(behind(&at, bytes), b' '))?;
    Ok(Said::Drop { at, point })
}

fn fail_in(alloc: Global, bytes: &[u8]) -> Result<Said, AllocError>
    ensures { IfOk result (λ said. said_form said ≡ fail_in bytes.now) }
{
    let point = point_in(alloc, after(after(after(bytes, b' '), b' '), b' '))?;
    Ok(Said::Fail {
        query: first_number(bytes),
        point,
    })
}

fn crowd_in(alloc: Global, bytes: &[u8]) -> Result<Said, AllocError>
    ensures { IfOk result (λ said. said_form said ≡ crowd_in bytes.now) }
{
    let at = place_in(bytes);
    crowd_by(alloc, at, behind(&at, bytes))
}

fn crowd_by(alloc: Global, at: Place, bytes: &[u8]) -> Result<Said, AllocError>
    ensures { IfOk result (λ said. said_form said ≡ crowd_by at bytes.now) }
{
    let second = after(bytes, b' ');
    let third = after(second, b' ');
    let lits = wholes(alloc, third)?;
    Ok(Said::Rows {
        at,
        plus: number(front(bytes, b' ')),
        minus: number(front(second, b' ')),
        rest: number(front(third, b' ')),
        lits,
    })
}

fn width_in(alloc: Global, bytes: &[u8]) -> Result<Said, AllocError>
    ensures { IfOk result (λ said. said_form said ≡ width_in bytes.now) }
{
    let at = place_in(bytes);
    width_by(alloc, at, behind(&at, bytes))
}

fn width_by(alloc: Global, at: Place, bytes: &[u8]) -> Result<Said, AllocError>
    ensures { IfOk result (λ said. said_form said ≡ width_by at bytes.now) }
{
    let second = after(bytes, b' ');
    let lits = wholes(alloc, second)?;
    Ok(Said::Wide {
        at,
        left: whole(front(bytes, b' ')),
        right: whole(front(second, b' ')),
        lits,
    })
}

/// A point: the denominator, the numerators and the truth values.
fn point_in(alloc: Global, bytes: &[u8]) -> Result<Point, AllocError>
    ensures { IfOk result (λ point. point_form point ≡ point_in bytes.now) }
{
    let second = after(bytes, b';');
    let nums = wholes(alloc, front(second, b';'))?;
    let truths = bits(alloc, after(second, b';'))?;
    Ok(Point {
        den: whole(front(bytes, b';')),
        nums,
        truths,
    })
}

/// A place, by its first byte and then by its third.
pub(crate) fn place_in(bytes: &[u8]) -> Place
    ensures { result ≡ place_in bytes.now }
{
    if byte_at(bytes, 0) == b'q' {
        return Place::Query(first_number(bytes));
    }
    if byte_at(bytes, 2) == b'a' {
        return Place::Start(first_number(bytes));
    }
    Place::Step {
        op: first_number(bytes),
        conjunct: second_number(bytes),
    }
}

/// What comes after a place and its blank.
pub(crate) fn behind<'a>(at: &Place, bytes: &'a [u8]) -> &'a [u8]
    ensures { result.now ≡ behind at.now bytes.now }
{
    match at {
        Place::Start(_) | Place::Query(_) => after(after(bytes, b' '), b' '),
        Place::Step { .. } => after(after(after(bytes, b' '), b' '), b' '),
    }
}

fn first_number(bytes: &[u8]) -> u128
    ensures { result ≡ first_number bytes.now }
{
    number(front(after(bytes, b' '), b' '))
}

fn second_number(bytes: &[u8]) -> u128
    ensures { result ≡ second_number bytes.now }
{
    first_number(after(bytes, b' '))
}
