//! Refutations of clauses over linear arithmetic, checked line by line.
#![tactic(auto)]

ghost use Rattle.std.specs.Prelude.{◌≡◌, ℕ, ◌+◌, ◌<◌, ◌≤◌, ◌^◌, ◌↔◌, ℤ, pos, ◌≤ℤ◌, List, [], ◌∷◌, ◌++◌, length, map, IfOk, OnOk, IsTrue, Option, MatchOption, option_map, Some, vec_len};
ghost use Rattle.std.specs.List.{All};
ghost use Rattle.kat_linear.specs.Rows.{IsAscending, form_of, forms};
ghost use Rattle.kat_linear.specs.Sums.{AreNarrow, IsCertificate};
ghost use Rattle.kat_clause.specs.Clauses.{Follows, lists};
ghost use Rattle.kat_clause.specs.Tables.{AreSetsOf};
ghost use Rattle.kat_clause.specs.Hints.{numbered};
ghost use Rattle.kat_clause.specs.Known.{AreUpTo};
ghost use Rattle.kat_refute.specs.HintedLines.{IsShown, AddsHints, HintedLinesRefute, GivesHints, GivesLine};
ghost use Rattle.kat_form.specs.Encodings.{encoding, form_in, sense_of, senses_of, atom_at, IsLiteral, IsFit, AreFitAtoms};
ghost use Rattle.kat_refute.specs.Lines.{denial_form, IsMultiplier, line_of, lines_of, literals_of, added, IsAcceptedLine, IsHintedLine, AreARefutation, EndsEmpty, IsVerdict, IsLinear};
ghost use Rattle.kat_refute.specs.Weighed.{weighed_denials, weighed_form};
ghost use Rattle.kat_refute.specs.Laws.{RefutationsRefute, RefutationsRefuteAt, RefutedFactsFail, PointsStayOpen, FactsStayOpen};

use kat_clause::{Clauses, HintReader, HintStep, Hinter};
use kat_form::{Encoded, Meaning};
use kat_linear::{Farkas, Row, farkas};
use std::alloc::{AllocError, Global};

/// A line of a refutation: a clause, and why it holds. Contracts see it as a `Line` (`line_of line`).
///
/// ```
/// let line = ProofLine::Rup(vec![in alloc; -1, 2]?);
/// assert_eq!(line.copy(alloc)?.literals(), line.literals());
/// ```
#[derive(Debug)]
pub enum ProofLine {
    /// The clause follows by unit propagation from the condition's clauses and those of the lines before it.
    Rup(Vec<i32>),
    /// Linear arithmetic: the literals are of atoms, and the multipliers show that they aren't all false.
    Linear {
        lits: Vec<i32>,
        multipliers: Vec<i64>,
    },
    /// The clause follows by unit propagation, and the hints, numbers of clauses from 1, show it: those of the condition come
    /// first, then those of the lines before it.
    Hinted {
        lits: Vec<i32>,
        hints: Vec<u32>,
    },
}

impl Drop for ProofLine {
    fn drop(self) {
        match self {
            Self::Rup(_) => {}
            Self::Linear {
                lits: _,
                multipliers: _,
            } => {}
            Self::Hinted { lits: _, hints: _ } => {}
        }
    }
}

impl ProofLine {
    /// The same line.
    pub fn copy(&self, alloc: Global) -> Result<ProofLine, AllocError>
        ensures { IfOk result (λ line. line_of line ≡ line_of self.now) }
    {
        match self {
            ProofLine::Rup(lits) => Ok(ProofLine::Rup(Vec::from_slice(alloc, lits)?)),
            ProofLine::Linear { lits, multipliers } => {
                let lits = Vec::from_slice(alloc, lits)?;
                let multipliers = Vec::from_slice(alloc, multipliers)?;
                Ok(ProofLine::Linear { lits, multipliers })
            }
            ProofLine::Hinted { lits, hints } => {
                let lits = Vec::from_slice(alloc, lits)?;
                let hints = Vec::from_slice(alloc, hints)?;
                Ok(ProofLine::Hinted { lits, hints })
            }
        }
    }

    /// The literals of the line's clause.
    pub fn literals(&self) -> &[i32]
        ensures { result.now ≡ literals_of (line_of self.now) }
    {
        match self {
            ProofLine::Rup(lits) => lits,
            ProofLine::Linear { lits, .. } => lits,
            ProofLine::Hinted { lits, .. } => lits,
        }
    }
}

/// What is answered of lines.
#[derive(Debug, Clone, Copy, PartialEq, Eq)]
pub enum Verdict {
    /// Each line is accepted, and the last clause is empty.
    Accepted,
    /// The number, from 1, of the first line that isn't accepted. If all are and the last clause isn't empty, it is
    /// one more than the number of lines.
    Bad(u32),
}

/// Checks lines against an encoded condition, in order, each with the clauses of the condition and of the lines before
/// it. A refutation is accepted; else the answer is the bad line.
///
/// What the clauses give by themselves is found once and kept from line to line.
pub fn check_lines(
    alloc: Global,
    encoded: &Encoded,
    lines: &[ProofLine],
) -> Result<Verdict, AllocError>
    requires fit { IsFit (encoding encoded.now) }
    requires variables { vec_len encoded.now.meanings ≤ 2 ^ 28 }
    requires lines { length lines.now ≤ 2 ^ 28 }
    ensures { IfOk result (λ verdict. IsVerdict (encoding encoded.now) (lines_of lines.now) verdict) }
{
    let mut known = clauses_in(alloc, encoded)?;
    let mut reader = HintReader::new(alloc, encoded.meanings.len() as u32)?;
    for (i, line) in lines.iter().enumerate() {
        if !is_accepted(alloc, encoded, &mut known, &mut reader, line)? {
            return Ok(Verdict::Bad(i as u32 + 1));
        }
        known.add(alloc, line.literals())?;
    }
    if ends_empty(lines) {
        return Ok(Verdict::Accepted);
    }
    Ok(Verdict::Bad(lines.len() as u32 + 1))
}

/// Adds hints: each line by propagation becomes one with the hints that are found for it, every other line stays. None if
/// the lines aren't accepted.
pub fn add_hints(
    alloc: Global,
    encoded: &Encoded,
    lines: &[ProofLine],
) -> Result<Option<Vec<ProofLine>>, AllocError>
    requires fit { IsFit (encoding encoded.now) }
    requires variables { vec_len encoded.now.meanings ≤ 2 ^ 28 }
    requires lines { length lines.now ≤ 2 ^ 28 }
    ensures { IfOk result (λ o. AddsHints (encoding encoded.now) (lines_of lines.now) (option_map (λ ls. lines_of ls.items) o)) }
{
    let mut hinter = numbered_clauses(alloc, encoded)?;
    let mut reader = HintReader::new(alloc, encoded.meanings.len() as u32)?;
    let mut hinted = Vec::new(alloc);
    for line in lines {
        let Some(new) = with_hints(alloc, encoded, &hinter, &mut reader, line)? else {
            return Ok(None);
        };
        hinter.add_line(alloc, line.literals(), hints_in(&new))?;
        hinted.push(new)?;
    }
    if !ends_empty(lines) {
        return Ok(None);
    }
    Ok(Some(hinted))
}

/// A law: lines stay accepted when hints are added.
pub fn hinted_lines_refute()
    ensures { HintedLinesRefute }
{}

/// A law: if lines are accepted, no valuation makes the condition's clauses true, if atoms are read over whole
/// numbers, or over fractions that make each atom's form at most 0 or at least 1.
pub fn refutations_refute()
    ensures whole { RefutationsRefute }
    ensures fractions { RefutationsRefuteAt }
{}

/// A law: if lines are accepted for what `clauses_of` makes of facts, no truth values and whole numbers make all facts
/// hold.
pub fn refuted_facts_fail()
    ensures { RefutedFactsFail }
{}

/// A law: no lines are accepted for what `clauses_of` makes of facts, if a point of truth values and fractions makes all
/// facts true and the form of each atom, or each form in the facts, at most 0 or at least 1.
pub fn points_stay_open()
    ensures atoms { PointsStayOpen }
    ensures forms { FactsStayOpen }
{}

// The condition's clauses.
fn clauses_in(alloc: Global, encoded: &Encoded) -> Result<Clauses, AllocError>
    requires fit { IsFit (encoding encoded.now) }
    requires variables { vec_len encoded.now.meanings ≤ 2 ^ 28 }
    ensures greatest { IfOk result (λ known. known.greatest ≡ length (encoding encoded.now).senses) }
    ensures clauses { IfOk result (λ known. AreSetsOf (encoding encoded.now).clauses known.clauses) }
    ensures assumed { IfOk result (λ known. known.assumed ≡ []) }
{
    let mut known = Clauses::new(alloc, encoded.meanings.len() as u32)?;
    for clause in &encoded.clauses {
        known.add(alloc, clause)?;
    }
    Ok(known)
}

// The condition's clauses, by number.
fn numbered_clauses(alloc: Global, encoded: &Encoded) -> Result<Hinter, AllocError>
    requires fit { IsFit (encoding encoded.now) }
    requires variables { vec_len encoded.now.meanings ≤ 2 ^ 28 }
    ensures { IfOk result (λ hinter. hinter ≡ record {
      greatest = length (encoding encoded.now).senses;
      clauses =
          (encoding encoded.now).clauses;
    }) }
{
    let mut hinter = Hinter::new(alloc, encoded.meanings.len() as u32)?;
    for clause in &encoded.clauses {
        hinter.add(alloc, clause)?;
    }
    Ok(hinter)
}

// The line, with hints if it is one by propagation; none if it isn't accepted.
fn with_hints(
    alloc: Global,
    encoded: &Encoded,
    hinter: &Hinter,
    reader: &mut HintReader,
    line: &ProofLine,
) -> Result<Option<ProofLine>, AllocError>
    requires fit { IsFit (encoding encoded.now) }
    requires greatest { hinter.now.greatest ≡ length (encoding encoded.now).senses }
    requires reader { reader.old ≡ record { greatest = length (encoding encoded.now).senses; known = [] } }
    requires own { All (AreUpTo (length (encoding encoded.now).senses)) hinter.now.clauses }
    ensures line { IfOk result (λ o. GivesLine (encoding encoded.now) hinter.now.clauses (line_of line.now) (option_map line_of o)) }
    ensures reader { reader.new ≡ reader.old }
{
    match line {
        ProofLine::Rup(lits) => hint_line(alloc, encoded.meanings.len(), hinter, lits),
        ProofLine::Linear { lits, multipliers } => {
            if !is_linear(alloc, &encoded.meanings, lits, multipliers)? {
                return Ok(None);
            }
            Ok(Some(line.copy(alloc)?))
        }
        ProofLine::Hinted { lits, hints } => {
            if !is_hinted_by(hinter, encoded.meanings.len(), reader, lits, hints)? {
                return Ok(None);
            }
            Ok(Some(line.copy(alloc)?))
        }
    }
}

// The hints of a line, if it has some.
fn hints_in(line: &ProofLine) -> &[u32] {
    match line {
        ProofLine::Hinted { hints, .. } => hints,
        _ => &[],
    }
}

// A line by propagation, with hints; none if it isn't accepted.
fn hint_line(
    alloc: Global,
    count: usize,
    hinter: &Hinter,
    literals: &[i32],
) -> Result<Option<ProofLine>, AllocError>
    requires { hinter.now.greatest ≡ count }
    ensures { IfOk result (λ o. GivesHints count hinter.now.clauses literals.now (option_map line_of o)) }
{
    if !are_literals(literals, count) {
        return Ok(None);
    }
    let Some(hints) = hinter.hints(alloc, literals)? else {
        return Ok(None);
    };
    let lits = Vec::from_slice(alloc, literals)?;
    Ok(Some(ProofLine::Hinted { lits, hints }))
}

// Whether the last line's clause is empty.
fn ends_empty(lines: &[ProofLine]) -> bool
    ensures { IsTrue result ↔ EndsEmpty (added (lines_of lines.now)) }
{
    match lines.last() {
        Some(line) => line.literals().is_empty(),
        None => false,
    }
}

// Whether the line is accepted with the known clauses.
fn is_accepted(
    alloc: Global,
    encoded: &Encoded,
    known: &mut Clauses,
    reader: &mut HintReader,
    line: &ProofLine,
) -> Result<bool, AllocError>
    requires fit { IsFit (encoding encoded.now) }
    requires variables { known.old.greatest ≡ length (encoding encoded.now).senses }
    requires assumed { known.old.assumed ≡ [] }
    requires reader { reader.old ≡ record { greatest = length (encoding encoded.now).senses; known = [] } }
    requires own { All (AreUpTo (length (encoding encoded.now).senses)) known.old.clauses }
    ensures accepted { IfOk result (λ b. IsTrue b ↔ IsAcceptedLine (encoding encoded.now) known.old.clauses (line_of line.now)) }
    ensures clauses { known.new.clauses ≡ known.old.clauses }
    ensures greatest { known.new.greatest ≡ known.old.greatest }
    ensures assumed { known.new.assumed ≡ known.old.assumed }
    ensures reader { reader.new ≡ reader.old }
{
    match line {
        ProofLine::Rup(lits) => is_propagated(known, encoded.meanings.len(), lits),
        ProofLine::Linear { lits, multipliers } => is_linear(
            alloc,
            &encoded.meanings,
            lits,
            multipliers,
        ),
        ProofLine::Hinted { lits, hints } => is_hinted(
            encoded.meanings.len(),
            known.clauses(),
            reader,
            lits,
            hints,
        ),
    }
}

// Whether the literals are of this many variables, and the hints show that they follow. The reader is left as it was.
fn is_hinted(
    count: usize,
    clauses: &[Vec<i32>],
    reader: &mut HintReader,
    literals: &[i32],
    hints: &[u32],
) -> Result<bool, AllocError>
    requires reader { reader.old ≡ record { greatest = count; known = [] } }
    requires own { All (AreUpTo count) (lists clauses.now) }
    ensures hinted { IfOk result (λ b. IsTrue b ↔ IsHintedLine count (lists clauses.now) literals.now hints.now) }
    ensures reader { reader.new ≡ reader.old }
{
    if !are_literals(literals, count) {
        return Ok(false);
    }
    let shown = leads_on(count, clauses, reader, literals, hints);
    reader.clear();
    shown
}

// The same with the clauses of a hinter.
fn is_hinted_by(
    hinter: &Hinter,
    count: usize,
    reader: &mut HintReader,
    literals: &[i32],
    hints: &[u32],
) -> Result<bool, AllocError>
    requires reader { reader.old ≡ record { greatest = count; known = [] } }
    requires own { All (AreUpTo count) hinter.now.clauses }
    ensures hinted { IfOk result (λ b. IsTrue b ↔ IsHintedLine count hinter.now.clauses literals.now hints.now) }
    ensures reader { reader.new ≡ reader.old }
{
    is_hinted(count, hinter.sets(), reader, literals, hints)
}

// Whether the hints are numbers of clauses, and show that the literals follow.
fn leads_on(
    count: usize,
    clauses: &[Vec<i32>],
    reader: &mut HintReader,
    literals: &[i32],
    hints: &[u32],
) -> Result<bool, AllocError>
    requires reader { reader.old ≡ record { greatest = count; known = [] } }
    requires own { All (AreUpTo count) (lists clauses.now) }
    requires literals { AreUpTo count literals.now }
    ensures shown { IfOk result (λ b. IsTrue b ↔ IsShown (lists clauses.now) literals.now hints.now) }
    ensures greatest { reader.new.greatest ≡ reader.old.greatest }
{
    let _count = count;
    reader.deny(literals)?;
    for (i, hint) in hints.iter().enumerate() {
        let Some(clause) = clause_of(clauses, *hint) else {
            return Ok(false);
        };
        match reader.read(clause)? {
            HintStep::Falsified => return Ok(i + 1 == hints.len()),
            HintStep::Gives => {}
            HintStep::Useless => return Ok(false),
        }
    }
    Ok(false)
}

// The clause of a number.
fn clause_of(clauses: &[Vec<i32>], hint: u32) -> Option<&[i32]>
    ensures { MatchOption result
        ((0 < hint) × (hint ≤ length (lists clauses.now)) → ⊥)
        (λ clause. (0 < hint) × (hint ≤ length (lists clauses.now)) × (clause.now ≡ numbered (lists clauses.now) hint)) }
{
    if hint == 0 {
        return None;
    }
    match clauses.get(hint as usize - 1) {
        Some(clause) => Some(clause.as_slice()),
        None => None,
    }
}

// Whether the literals are of this many variables and follow by unit propagation.
fn is_propagated(known: &mut Clauses, count: usize, literals: &[i32]) -> Result<bool, AllocError>
    requires variables { known.old.greatest ≡ count }
    requires assumed { known.old.assumed ≡ [] }
    ensures propagated { IfOk result (λ b. IsTrue b ↔ (All (IsLiteral count) literals.now × Follows known.old.clauses literals.now)) }
    ensures clauses { known.new.clauses ≡ known.old.clauses }
    ensures greatest { known.new.greatest ≡ known.old.greatest }
    ensures assumed { known.new.assumed ≡ known.old.assumed }
{
    if !are_literals(literals, count) {
        return Ok(false);
    }
    known.follows(literals)
}

// Whether the literals are of atoms, and the multipliers a certificate that they aren't all false.
fn is_linear(
    alloc: Global,
    meanings: &[Meaning],
    literals: &[i32],
    multipliers: &[i64],
) -> Result<bool, AllocError>
    requires { AreFitAtoms (senses_of meanings.now) }
    ensures { IfOk result (λ b. IsTrue b ↔ IsLinear (senses_of meanings.now) literals.now multipliers.now) }
{
    if literals.len() != multipliers.len() {
        return Ok(false);
    }
    if !are_multipliers(multipliers) {
        return Ok(false);
    }
    let Some(rows) = denials(alloc, meanings, literals, multipliers)? else {
        return Ok(false);
    };
    Ok(are_contradictory(&rows, multipliers))
}

// Whether the rows and multipliers are a certificate.
fn are_contradictory(rows: &[Row], multipliers: &[i64]) -> bool
    requires lengths { length rows.now ≡ length multipliers.now }
    requires ascending { All IsAscending (forms rows.now) }
    ensures { IsTrue result ↔ (AreNarrow (forms rows.now) multipliers.now × IsCertificate (forms rows.now) multipliers.now) }
{
    match farkas(rows, multipliers) {
        Farkas::Contradiction => true,
        _ => false,
    }
}

// The rows that say that the literals are false, if all of them are of atoms. Those with multiplier 0 are empty.
fn denials(
    alloc: Global,
    meanings: &[Meaning],
    literals: &[i32],
    multipliers: &[i64],
) -> Result<Option<Vec<Row>>, AllocError>
    requires atoms { AreFitAtoms (senses_of meanings.now) }
    requires lengths { length literals.now ≡ length multipliers.now }
    ensures { IfOk result (λ o. option_map (λ rows. forms rows.items) o
        ≡ weighed_denials (senses_of meanings.now) literals.now multipliers.now) }
{
    let mut rows = Vec::with_capacity(alloc, literals.len())?;
    for (i, literal) in literals.iter().enumerate() {
        let Some(row) = weighed_denial(alloc, meanings, *literal, multipliers[i])? else {
            return Ok(None);
        };
        rows.push(row)?;
    }
    Ok(Some(rows))
}

// The row that says that the literal is false, if it is of an atom. One with multiplier 0 adds nothing, whatever the row, so an empty one
// stands for it.
fn weighed_denial(
    alloc: Global,
    meanings: &[Meaning],
    literal: i32,
    multiplier: i64,
) -> Result<Option<Row>, AllocError>
    requires { AreFitAtoms (senses_of meanings.now) }
    ensures { IfOk result (λ o. option_map (λ row. form_of row) o
        ≡ option_map (weighed_form multiplier) (denial_form (senses_of meanings.now) literal)) }
{
    if multiplier != 0 {
        return denial(alloc, meanings, literal);
    }
    match atom(meanings, literal.unsigned_abs()) {
        Some(_) => Ok(Some(Row {
            terms: Vec::new(alloc),
            constant: 0,
        })),
        None => Ok(None),
    }
}

// The row that says that the literal is false, if it is of an atom.
fn denial(alloc: Global, meanings: &[Meaning], literal: i32) -> Result<Option<Row>, AllocError>
    requires { AreFitAtoms (senses_of meanings.now) }
    ensures { IfOk result (λ o. option_map (λ row. form_of row) o ≡ denial_form (senses_of meanings.now) literal) }
{
    let Some(row) = atom(meanings, literal.unsigned_abs()) else {
        return Ok(None);
    };
    if literal > 0 {
        return Ok(Some(row.negated(alloc)?));
    }
    Ok(Some(row.copy(alloc)?))
}

// The form of the variable, if that is an atom.
fn atom(meanings: &[Meaning], variable: u32) -> Option<&Row>
    ensures { option_map (λ row. form_of row.now) result ≡ atom_at (senses_of meanings.now) variable }
{
    if variable == 0 {
        return None;
    }
    match meanings.get(variable as usize - 1) {
        Some(meaning) => row_in(meaning),
        None => None,
    }
}

// The row of an atom.
fn row_in(meaning: &Meaning) -> Option<&Row>
    ensures { option_map (λ row. form_of row.now) result ≡ form_in (sense_of meaning.now) }
{
    match meaning {
        Meaning::Atom(row) => Some(row),
        _ => None,
    }
}

// Whether each literal is one of this many variables, or the negative of one.
fn are_literals(literals: &[i32], count: usize) -> bool
    ensures { IsTrue result ↔ All (IsLiteral count) literals.now }
{
    literals
        .iter()
        .all(|k| *k != 0 && k.unsigned_abs() as usize <= count)
}

// The greatest multiplier.
const LIMIT: i64 = 1 << 62;

// Whether the multipliers are from 0 to the greatest.
fn are_multipliers(multipliers: &[i64]) -> bool
    ensures { IsTrue result ↔ All IsMultiplier multipliers.now }
{
    multipliers.iter().all(|m| 0 <= *m && *m <= LIMIT)
}
