//! How the lines of a block are written.
ghost use Rattle.std.specs.Fmt.{decimal, signed_decimal};
ghost use Rattle.std.specs.List.{flat_map};
ghost use Rattle.std.specs.Prelude.{◌≡◌, ◌++◌, ◌∷◌, [], OnOk, codes};
ghost use Rattle.kat_said.specs.Guesses.{line_with, text_with};
ghost use Rattle.kat_said.specs.Sayings.{behind_blank, place_text, said_form};

use crate::said::{Place, Said};
use itoa::Buffer;
use std::alloc::AllocError;

/// Appends a line and its newline, with these bytes for its point.
pub(crate) fn push_line(said: &Said, point: &[u8], into: &mut Vec<u8>) -> Result<(), AllocError>
    ensures { OnOk result (into.new.items ≡ into.old.items ++ line_with (said_form said.now) point.now) }
{
    push_said(said, point, into)?;
    into.extend_from_slice(b"\n")
}

fn push_said(said: &Said, point: &[u8], into: &mut Vec<u8>) -> Result<(), AllocError>
    ensures { OnOk result (into.new.items ≡ into.old.items ++ text_with (said_form said.now) point.now) }
{
    match said {
        Said::Drop { at, .. } => push_drop(*at, point, into),
        Said::Fail { query, .. } => push_fail(*query, point, into),
        Said::Spent(at) => {
            into.extend_from_slice(b"spent ")?;
            push_place(*at, into)
        }
        Said::Rows {
            at,
            plus,
            minus,
            rest,
            lits,
        } => {
            into.extend_from_slice(b"rows ")?;
            push_place(*at, into)?;
            push_counts(*plus, *minus, *rest, lits, into)
        }
        Said::Wide {
            at,
            left,
            right,
            lits,
        } => {
            into.extend_from_slice(b"wide ")?;
            push_place(*at, into)?;
            push_widths(left, right, lits, into)
        }
        Said::Long(bytes) => {
            into.extend_from_slice(b"long ")?;
            push_number(*bytes, into)
        }
    }
}

fn push_drop(at: Place, point: &[u8], into: &mut Vec<u8>) -> Result<(), AllocError>
    ensures { OnOk result (into.new.items ≡ into.old.items ++ codes "drop " ++ place_text at ++ codes " at " ++ point.now) }
{
    into.extend_from_slice(b"drop ")?;
    push_place(at, into)?;
    into.extend_from_slice(b" at ")?;
    into.extend_from_slice(point)
}

fn push_fail(query: u128, point: &[u8], into: &mut Vec<u8>) -> Result<(), AllocError>
    ensures { OnOk result (into.new.items ≡ into.old.items ++ codes "fail query " ++ decimal query ++ codes " at " ++ point.now) }
{
    into.extend_from_slice(b"fail query ")?;
    push_number(query, into)?;
    into.extend_from_slice(b" at ")?;
    into.extend_from_slice(point)
}

/// Appends three numbers and literals, each after a blank.
fn push_counts(
    plus: u128,
    minus: u128,
    rest: u128,
    lits: &[i128],
    into: &mut Vec<u8>,
) -> Result<(), AllocError>
    ensures { OnOk result (into.new.items ≡ into.old.items ++ 32 ∷ (decimal plus
        ++ 32 ∷ (decimal minus ++ 32 ∷ (decimal rest ++ flat_map behind_blank lits.now)))) }
{
    push_next(plus, into)?;
    push_next(minus, into)?;
    push_next(rest, into)?;
    push_wholes(lits, into)
}

/// Appends a number after a blank.
fn push_next(number: u128, into: &mut Vec<u8>) -> Result<(), AllocError>
    ensures { OnOk result (into.new.items ≡ into.old.items ++ 32 ∷ decimal number) }
{
    into.extend_from_slice(b" ")?;
    push_number(number, into)
}

fn push_number(number: u128, into: &mut Vec<u8>) -> Result<(), AllocError>
    ensures { OnOk result (into.new.items ≡ into.old.items ++ decimal number) }
{
    into.extend_from_slice(Buffer::new().format(number).as_bytes())
}

/// Appends two whole numbers and literals, each after a blank.
fn push_widths(
    left: &i128,
    right: &i128,
    lits: &[i128],
    into: &mut Vec<u8>,
) -> Result<(), AllocError>
    ensures { OnOk result (into.new.items ≡ into.old.items ++ behind_blank left.now ++ behind_blank right.now
        ++ flat_map behind_blank lits.now) }
{
    push_whole(*left, into)?;
    push_whole(*right, into)?;
    push_wholes(lits, into)
}

/// Appends whole numbers, each after a blank.
fn push_wholes(zs: &[i128], into: &mut Vec<u8>) -> Result<(), AllocError>
    ensures { OnOk result (into.new.items ≡ into.old.items ++ flat_map behind_blank zs.now) }
{
    for z in zs {
        push_whole(*z, into)?;
    }
    Ok(())
}

/// Appends a whole number after a blank.
fn push_whole(z: i128, into: &mut Vec<u8>) -> Result<(), AllocError>
    ensures { OnOk result (into.new.items ≡ into.old.items ++ behind_blank z) }
{
    into.extend_from_slice(b" ")?;
    into.extend_from_slice(Buffer::new().format(z).as_bytes())
}

/// Appends a place among the conditions.
fn push_place(at: Place, into: &mut Vec<u8>) -> Result<(), AllocError>
    ensures { OnOk result (into.new.items ≡ into.old.items ++ place_text at) }
{
    match at {
        Place::Start(conjunct) => {
            into.extend_from_slice(b"start ")?;
            push_number(conjunct, into)
        }
        Place::Step { op, conjunct } => push_step(op, conjunct, into),
        Place::Query(query) => {
            into.extend_from_slice(b"query ")?;
            push_number(query, into)
        }
    }
}

fn push_step(op: u128, conjunct: u128, into: &mut Vec<u8>) -> Result<(), AllocError>
    ensures { OnOk result (into.new.items ≡ into.old.items ++ codes "step " ++ (decimal op ++ 32 ∷ decimal conjunct)) }
{
    into.extend_from_slice(b"step ")?;
    push_number(op, into)?;
    push_next(conjunct, into)
}
