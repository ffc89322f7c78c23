//! Writing reports.
ghost use Rattle.std.specs.List.{flat_map};
ghost use Rattle.std.specs.Prelude.{◌≡◌, ◌++◌, ◌≤◌, ◌^◌, [], All, OnOk, codes, map};
ghost use Rattle.kat_design.specs.Designs.{design_form};
ghost use Rattle.kat_design.specs.Faults.{faults_of};
ghost use Rattle.kat_hist.specs.Scripts.{number_text};
ghost use Rattle.kat_drop.specs.Certificates.{DropForm, drop_form, drops_of, point_form};
ghost use Rattle.kat_telling.specs.Reports.{behind_blank, bit_text, crowd_text, differs_line, done_text, dones_text, drop_line, ending_line, further_text, history_line, place_text, point_text, undecided_block, wholes_text, width_text};
ghost use Rattle.kat_telling.specs.Evidence.{IsNarrow};
ghost use Rattle.kat_telling.specs.Evidence.Ending.{fails};
ghost use Rattle.kat_telling.specs.Narrow.{IsNarrowDrop, IsNarrowEnding, IsNarrowEvidence, IsNarrowPlace};
ghost use Rattle.kat_telling.specs.Reasons.{ending_of, evidence_of};
ghost use Rattle.kat_design_json.specs.PrintedDesigns.{design_text};

use crate::reasons::Reason;
use itoa::Buffer;
use kat_candidate::Place1;
use kat_cases::Point;
use kat_design::Design;
use kat_drop::Drop1;
use kat_hist::{History, push_args, push_number, push_op_name};
use kat_type::{Done, Signature};
use kat_wire::design_text;
use std::alloc::{AllocError, Global};

/// Appends the line of a history with its number.
pub fn push_history(
    alloc: Global,
    sig: &Signature,
    number: u64,
    history: &History,
    into: &mut Vec<u8>,
) -> Result<(), AllocError>
    ensures { OnOk result (into.new.items ≡ into.old.items ++ history_line sig.now number history.now) }
{
    push_number(b"history ", number, b":", into)?;
    push_dones(alloc, sig, history.ops.as_slice(), into)?;
    into.extend_from_slice(b"\n")
}

/// Appends operations after a blank, with `; ` between each two.
fn push_dones(
    alloc: Global,
    sig: &Signature,
    ones: &[Done],
    into: &mut Vec<u8>,
) -> Result<(), AllocError>
    ensures { OnOk result (into.new.items ≡ into.old.items ++ dones_text sig.now ones.now) }
{
    match ones {
        [] => Ok(()),
        [first, more @ ..] => {
            into.extend_from_slice(b" ")?;
            push_done(alloc, sig, first, into)?;
            push_further(alloc, sig, more, into)
        }
    }
}

/// Appends further operations.
fn push_further(
    alloc: Global,
    sig: &Signature,
    ones: &[Done],
    into: &mut Vec<u8>,
) -> Result<(), AllocError>
    ensures { OnOk result (into.new.items ≡ into.old.items ++ flat_map (further_text sig.now) ones.now) }
{
    for one in ones {
        into.extend_from_slice(b"; ")?;
        push_done(alloc, sig, one, into)?;
    }
    Ok(())
}

/// Appends `do R OP ARGS at T`.
fn push_done(
    alloc: Global,
    sig: &Signature,
    done: &Done,
    into: &mut Vec<u8>,
) -> Result<(), AllocError>
    ensures { OnOk result (into.new.items ≡ into.old.items ++ done_text sig.now done.now) }
{
    push_number(b"do ", u64::from(done.replica), b" ", into)?;
    push_op_name(alloc, sig, done.op, into)?;
    push_args(alloc, done.args.as_slice(), into)?;
    push_number(b" at ", done.time, b"", into)
}

/// Appends the line of a refuted design: its number, that of the history that it cites, and its text.
pub fn push_differs(
    alloc: Global,
    number: u64,
    history: u64,
    design: &Design,
    into: &mut Vec<u8>,
) -> Result<(), AllocError>
    requires { faults_of (design_form design.now) ≡ [] }
    ensures { OnOk result (into.new.items ≡ into.old.items ++ differs_line number history (design_form design.now)) }
{
    push_number(b"design ", number, b" differs ", into)?;
    push_number(b"", history, b" ", into)?;
    push_design(alloc, design, into)
}

/// Appends the text of a design and a newline.
fn push_design(alloc: Global, design: &Design, into: &mut Vec<u8>) -> Result<(), AllocError>
    requires { faults_of (design_form design.now) ≡ [] }
    ensures { OnOk result (into.new.items ≡ into.old.items ++ design_text (design_form design.now) ++ codes "\n") }
{
    into.extend_from_slice(&design_text(alloc, design)?)?;
    into.extend_from_slice(b"\n")
}

/// Appends whole numbers, each after a blank.
fn push_wholes(zs: &[i128], into: &mut Vec<u8>) -> Result<(), AllocError>
    ensures { OnOk result (into.new.items ≡ into.old.items ++ wholes_text zs.now) }
{
    for z in zs {
        push_whole(*z, into)?;
    }
    Ok(())
}

/// Appends a whole number after a blank.
fn push_whole(z: i128, into: &mut Vec<u8>) -> Result<(), AllocError>
    ensures { OnOk result (into.new.items ≡ into.old.items ++ behind_blank z) }
{
    into.extend_from_slice(b" ")?;
    into.extend_from_slice(Buffer::new().format(z).as_bytes())
}

/// Appends literals, each after a blank.
fn push_literals(lits: &[i32], into: &mut Vec<u8>) -> Result<(), AllocError>
    ensures text { OnOk result (into.new.items ≡ into.old.items ++ wholes_text lits.now) }
    ensures narrow { OnOk result (All IsNarrow lits.now) }
{
    for lit in lits {
        push_literal(*lit, into)?;
    }
    Ok(())
}

/// Appends a literal after a blank.
fn push_literal(lit: i32, into: &mut Vec<u8>) -> Result<(), AllocError>
    ensures text { OnOk result (into.new.items ≡ into.old.items ++ behind_blank lit) }
    ensures narrow { OnOk result (IsNarrow lit) }
{
    push_whole(i128::from(lit), into)
}

/// Appends truth values as 0 or 1, each after a blank.
fn push_bits(truths: &[bool], into: &mut Vec<u8>) -> Result<(), AllocError>
    ensures { OnOk result (into.new.items ≡ into.old.items ++ flat_map bit_text truths.now) }
{
    for truth in truths {
        push_bit(*truth, into)?;
    }
    Ok(())
}

/// Appends a truth value as 0 or 1 after a blank.
fn push_bit(truth: bool, into: &mut Vec<u8>) -> Result<(), AllocError>
    ensures { OnOk result (into.new.items ≡ into.old.items ++ bit_text truth) }
{
    match truth {
        true => into.extend_from_slice(b" 1"),
        false => into.extend_from_slice(b" 0"),
    }
}

/// Appends a point: its denominator, numerators and truth values.
fn push_point(point: &Point, into: &mut Vec<u8>) -> Result<(), AllocError>
    ensures { OnOk result (into.new.items ≡ into.old.items ++ point_text (point_form point.now)) }
{
    into.extend_from_slice(Buffer::new().format(point.den).as_bytes())?;
    into.extend_from_slice(b";")?;
    push_wholes(&point.nums, into)?;
    into.extend_from_slice(b";")?;
    push_bits(&point.truths, into)
}

/// Appends a place among the conditions.
fn push_place(at: Place1, into: &mut Vec<u8>) -> Result<(), AllocError>
    ensures text { OnOk result (into.new.items ≡ into.old.items ++ place_text at) }
    ensures narrow { OnOk result (IsNarrowPlace at) }
{
    match at {
        Place1::Start { conjunct } => push_number(b"start ", u64::from(conjunct), b"", into),
        Place1::Step { op, conjunct } => {
            push_number(b"step ", u64::from(op), b" ", into)?;
            push_number(b"", u64::from(conjunct), b"", into)
        }
        Place1::Query(query) => push_number(b"query ", u64::from(query), b"", into),
    }
}

/// Appends a line for each candidate that was dropped.
fn push_drops(drops: &[Drop1], into: &mut Vec<u8>) -> Result<(), AllocError>
    ensures text { OnOk result (into.new.items ≡ into.old.items ++ flat_map drop_line (drops_of drops.now)) }
    ensures narrow { OnOk result (All IsNarrowDrop (drops_of drops.now)) }
{
    for drop in drops {
        push_drop(drop, into)?;
    }
    Ok(())
}

/// Appends the line of a candidate that was dropped.
fn push_drop(drop: &Drop1, into: &mut Vec<u8>) -> Result<(), AllocError>
    ensures text { OnOk result (into.new.items ≡ into.old.items ++ drop_line (drop_form drop.now)) }
    ensures narrow { OnOk result (IsNarrowDrop (drop_form drop.now)) }
{
    into.extend_from_slice(b"drop ")?;
    push_place(drop.at, into)?;
    into.extend_from_slice(b" at ")?;
    push_point(&drop.point, into)?;
    into.extend_from_slice(b"\n")
}

/// Appends the line that says how the search for a proof ended.
fn push_ending(reason: &Reason, into: &mut Vec<u8>) -> Result<(), AllocError>
    ensures text { OnOk result (into.new.items ≡ into.old.items ++ ending_line (ending_of reason.now)) }
    ensures narrow { OnOk result (IsNarrowEnding (ending_of reason.now)) }
{
    match reason {
        Reason::Fails { query, point } => push_fails(*query, point, into),
        Reason::Spent(at) => push_placed(b"spent ", *at, b"\n", into),
        Reason::Crowded {
            at,
            plus,
            minus,
            rest,
            lits,
        } => {
            push_placed(b"rows ", *at, b"", into)?;
            push_crowd(*plus, *minus, *rest, lits, into)
        }
        Reason::Wide {
            at,
            left,
            right,
            lits,
        } => {
            push_placed(b"wide ", *at, b"", into)?;
            push_width(left, right, lits, into)
        }
        Reason::Long(bytes) => push_number(b"long ", *bytes, b"\n", into),
    }
}

/// Appends the line of a query that is answered otherwise at a point.
fn push_fails(query: u32, point: &Point, into: &mut Vec<u8>) -> Result<(), AllocError>
    ensures text { OnOk result (into.new.items ≡ into.old.items ++ ending_line (fails query (point_form point.now))) }
    ensures narrow { OnOk result (query ≤ 2 ^ 126) }
{
    push_number(b"fail query ", u64::from(query), b" at ", into)?;
    push_point(point, into)?;
    into.extend_from_slice(b"\n")
}

/// Appends a place between two texts.
fn push_placed(
    before: &[u8],
    at: Place1,
    behind: &[u8],
    into: &mut Vec<u8>,
) -> Result<(), AllocError>
    ensures text { OnOk result (into.new.items ≡ into.old.items ++ before.now ++ place_text at ++ behind.now) }
    ensures narrow { OnOk result (IsNarrowPlace at) }
{
    into.extend_from_slice(before)?;
    push_place(at, into)?;
    into.extend_from_slice(behind)
}

/// Appends three numbers, each after a blank.
fn push_counts(plus: u64, minus: u64, rest: u64, into: &mut Vec<u8>) -> Result<(), AllocError>
    ensures text { OnOk result (into.new.items ≡ into.old.items ++ number_text (codes " ") plus (codes " ")
        ++ number_text [] minus (codes " ") ++ number_text [] rest []) }
    ensures narrow { OnOk result ((plus ≤ 2 ^ 126) × (minus ≤ 2 ^ 126) × (rest ≤ 2 ^ 126)) }
{
    push_number(b" ", plus, b" ", into)?;
    push_number(b"", minus, b" ", into)?;
    push_number(b"", rest, b"", into)
}

/// Appends two whole numbers, each after a blank.
fn push_pair(left: &i128, right: &i128, into: &mut Vec<u8>) -> Result<(), AllocError>
    ensures { OnOk result (into.new.items ≡ into.old.items ++ behind_blank left.now ++ behind_blank right.now) }
{
    push_whole(*left, into)?;
    push_whole(*right, into)
}

/// Appends how many rows there are, the literals and a newline.
fn push_crowd(
    plus: u64,
    minus: u64,
    rest: u64,
    lits: &[i32],
    into: &mut Vec<u8>,
) -> Result<(), AllocError>
    ensures text { OnOk result (into.new.items ≡ into.old.items ++ crowd_text plus minus rest lits.now) }
    ensures narrow { OnOk result (((plus ≤ 2 ^ 126) × (minus ≤ 2 ^ 126) × (rest ≤ 2 ^ 126)) × All IsNarrow lits.now) }
{
    push_counts(plus, minus, rest, into)?;
    push_literals(lits, into)?;
    into.extend_from_slice(b"\n")
}

/// Appends two numbers, the literals and a newline.
fn push_width(left: &i128, right: &i128, lits: &[i32], into: &mut Vec<u8>) -> Result<(), AllocError>
    ensures text { OnOk result (into.new.items ≡ into.old.items ++ width_text left.now right.now lits.now) }
    ensures narrow { OnOk result (All IsNarrow lits.now) }
{
    push_pair(left, right, into)?;
    push_literals(lits, into)?;
    into.extend_from_slice(b"\n")
}

/// Appends what is reported of an undecided design: a line with its number and its text, a line for each candidate that was
/// dropped, and one that says how the search for a proof ended.
pub fn push_undecided(
    alloc: Global,
    number: u64,
    design: &Design,
    drops: &[Drop1],
    reason: &Reason,
    into: &mut Vec<u8>,
) -> Result<(), AllocError>
    requires { faults_of (design_form design.now) ≡ [] }
    ensures text { OnOk result (into.new.items ≡ into.old.items
        ++ undecided_block number (design_form design.now) (evidence_of drops.now reason.now)) }
    ensures narrow { OnOk result (IsNarrowEvidence (evidence_of drops.now reason.now)) }
{
    push_number(b"design ", number, b" undecided ", into)?;
    push_design(alloc, design, into)?;
    push_drops(drops, into)?;
    push_ending(reason, into)
}
