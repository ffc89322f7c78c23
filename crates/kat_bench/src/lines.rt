//! `lines KIND SIZE LINES` checks generated lines against a generated condition, and prints the answer.
//!
//! - `chain`: a chain of SIZE clauses, in which each variable gives the next one; each line says that one variable of the
//!   chain gives a later one.
//! - `repeats`: a line that has one literal SIZE times, and LINES short ones after it.
//! - `long`: a clause of SIZE variables; each line is that clause.
//! - `linear`: x is at most 0 and at least 3; each line shows by multipliers that it isn't, with SIZE literals.
//!
//! All lines are accepted, and none is empty, so the bad line is the one after them.
use crate::words::print_line;
use kat_form::{Encoded, Meaning};
use kat_linear::Row;
use kat_refute::{ProofLine, Verdict, check_lines};
use kat_table::{number_of, push_number};
use std::alloc::{AllocError, Global};
use std::env::Args;
use std::io;

// What is measured.
#[derive(Drop)]
struct Work {
    condition: Encoded,
    lines: Vec<ProofLine>,
}

// No condition and no line.
fn nothing(alloc: Global) -> Work {
    Work {
        condition: Encoded {
            clauses: Vec::new(alloc),
            meanings: Vec::new(alloc),
            numbers: 0,
        },
        lines: Vec::new(alloc),
    }
}

// Adds this many gates.
fn add_gates(count: u16, meanings: &mut Vec<Meaning>) -> Result<(), AllocError> {
    for _ in 0..count {
        meanings.push(Meaning::Gate)?;
    }
    Ok(())
}

// Adds a clause.
fn add_clause(
    alloc: Global,
    clause: &[i32],
    clauses: &mut Vec<Vec<i32>>,
) -> Result<(), AllocError> {
    Ok(clauses.push(Vec::from_slice(alloc, clause)?)?)
}

// Adds a line that is to follow by unit propagation.
fn add_line(alloc: Global, clause: &[i32], lines: &mut Vec<ProofLine>) -> Result<(), AllocError> {
    Ok(lines.push(ProofLine::Rup(Vec::from_slice(alloc, clause)?))?)
}

// The same line that many times.
fn add_same(
    alloc: Global,
    clause: &[i32],
    count: u16,
    lines: &mut Vec<ProofLine>,
) -> Result<(), AllocError> {
    for _ in 0..count {
        add_line(alloc, clause, lines)?;
    }
    Ok(())
}

// The clauses of a chain.
fn add_links(alloc: Global, size: u16, clauses: &mut Vec<Vec<i32>>) -> Result<(), AllocError> {
    for i in 0..size {
        add_clause(alloc, &[-1 - i32::from(i), i32::from(i) + 2], clauses)?;
    }
    Ok(())
}

// Lines that say of two variables of a chain that the earlier one gives the later one.
fn add_jumps(
    alloc: Global,
    size: u16,
    count: u16,
    lines: &mut Vec<ProofLine>,
) -> Result<(), AllocError> {
    let mut seed = 1;
    for _ in 0..count {
        let a = next_below(&mut seed, size);
        let b = next_below(&mut seed, size);
        add_line(alloc, &jump(a, b), lines)?;
    }
    Ok(())
}

// The earlier one of two variables gives the later one's next.
fn jump(a: u16, b: u16) -> [i32; 2] {
    if a < b {
        [-1 - i32::from(a), i32::from(b) + 2]
    } else {
        [-1 - i32::from(b), i32::from(a) + 2]
    }
}

// The chain has one variable more than clauses.
fn chain(alloc: Global, size: u16, count: u16, work: &mut Work) -> Result<(), AllocError> {
    add_links(alloc, size, &mut work.condition.clauses)?;
    add_jumps(alloc, size, count, &mut work.lines)?;
    add_gates(size.saturating_add(1), &mut work.condition.meanings)
}

// Lets a clause have a literal that many times more.
fn repeat(literal: i32, size: u16, clause: &mut Vec<i32>) -> Result<(), AllocError> {
    for _ in 0..size {
        clause.push(literal)?;
    }
    Ok(())
}

// A literal that a line repeats, and short lines after it.
fn repeats(alloc: Global, size: u16, count: u16, work: &mut Work) -> Result<(), AllocError> {
    let clause = [-1, 2];
    add_clause(alloc, &clause, &mut work.condition.clauses)?;
    let mut first = Vec::from_slice(alloc, &clause)?;
    repeat(-1, size, &mut first)?;
    work.lines.push(ProofLine::Rup(first))?;
    add_same(alloc, &clause, count, &mut work.lines)?;
    add_gates(2, &mut work.condition.meanings)
}

// The clause of all variables.
fn add_all(size: u16, clause: &mut Vec<i32>) -> Result<(), AllocError> {
    for i in 0..size {
        clause.push(i32::from(i) + 1)?;
    }
    Ok(())
}

// A long clause, and lines that are that clause.
fn long(alloc: Global, size: u16, count: u16, work: &mut Work) -> Result<(), AllocError> {
    let mut clause = Vec::new(alloc);
    add_all(size, &mut clause)?;
    add_same(alloc, &clause, count, &mut work.lines)?;
    work.condition.clauses.push(clause)?;
    add_gates(size, &mut work.condition.meanings)
}

// Adds the atom of the variable 0 plus a constant.
fn add_atom(alloc: Global, constant: i128, meanings: &mut Vec<Meaning>) -> Result<(), AllocError> {
    let terms = vec![in alloc; (0, 1)]?;
    Ok(meanings.push(Meaning::Atom(Row { terms, constant }))?)
}

// Appends the two literals and their multipliers that many times.
fn add_pairs(size: u16, lits: &mut Vec<i32>, multipliers: &mut Vec<i64>) -> Result<(), AllocError> {
    for _ in 0..size {
        lits.push(-1)?;
        lits.push(2)?;
        multipliers.push(1)?;
        multipliers.push(1)?;
    }
    Ok(())
}

// A line that shows that many times by multipliers that x isn't what the bounds say.
fn linear_line(alloc: Global, size: u16) -> Result<ProofLine, AllocError> {
    let mut lits = Vec::new(alloc);
    let mut multipliers = Vec::new(alloc);
    add_pairs(size, &mut lits, &mut multipliers)?;
    Ok(ProofLine::Linear { lits, multipliers })
}

// Two bounds that no number meets, and lines of linear arithmetic that say so.
fn linear(alloc: Global, size: u16, count: u16, work: &mut Work) -> Result<(), AllocError> {
    add_clause(alloc, &[1], &mut work.condition.clauses)?;
    add_clause(alloc, &[-2], &mut work.condition.clauses)?;
    add_atom(alloc, 0, &mut work.condition.meanings)?;
    add_atom(alloc, -2, &mut work.condition.meanings)?;
    work.condition.numbers = 1;
    for _ in 0..count {
        work.lines.push(linear_line(alloc, size)?)?;
    }
    Ok(())
}

// A number below a bound, by a linear congruence.
fn next_below(seed: &mut u32, bound: u16) -> u16 {
    *seed = seed.wrapping_mul(1_664_525).wrapping_add(1_013_904_223);
    if bound == 0 {
        return 0;
    }
    ((*seed >> 16) % u32::from(bound)) as u16
}

// The number of a word, or 0 if there is none.
fn number(word: Option<String>) -> u16 {
    match word {
        Some(word) => number_of(word.as_str()).unwrap_or(0),
        None => 0,
    }
}

// Makes the work of a kind.
fn fill(
    alloc: Global,
    kind: &str,
    size: u16,
    count: u16,
    work: &mut Work,
) -> Result<(), AllocError> {
    match kind {
        "repeats" => repeats(alloc, size, count, work),
        "long" => long(alloc, size, count, work),
        "linear" => linear(alloc, size, count, work),
        _ => chain(alloc, size, count, work),
    }
}

// Appends what is answered of lines.
fn push_verdict(text: &mut Vec<u8>, verdict: Verdict) -> Result<(), AllocError> {
    match verdict {
        Verdict::Accepted => text.extend_from_slice(b"Accepted"),
        Verdict::Bad(line) => {
            push_number(text, "Bad(", line)?;
            Ok(text.push(b')')?)
        }
    }
}

// Checks the lines, and appends what is answered.
fn push_answer(
    alloc: Global,
    work: &Work,
    size: u16,
    count: u16,
    text: &mut Vec<u8>,
) -> Result<(), AllocError> {
    if !work.condition.is_fit() {
        return text.extend_from_slice(b"no condition");
    }
    if work.condition.meanings.len() > 1 << 28 {
        return text.extend_from_slice(b"no condition");
    }
    if work.lines.len() > 1 << 28 {
        return text.extend_from_slice(b"no lines");
    }
    let verdict = check_lines(alloc, &work.condition, &work.lines)?;
    push_number(text, "", size)?;
    push_number(text, " of each, ", count)?;
    text.extend_from_slice(b" lines: ")?;
    push_verdict(text, verdict)
}

// What is answered of the work of a kind.
fn answer(alloc: Global, kind: &str, size: u16, count: u16) -> Result<Vec<u8>, AllocError> {
    let mut work = nothing(alloc);
    fill(alloc, kind, size, count, &mut work)?;
    let mut text = Vec::new(alloc);
    push_answer(alloc, &work, size, count, &mut text)?;
    Ok(text)
}

// Without a kind the chain is measured.
pub(crate) fn measure(rt: &HostRuntime, mut words: Args) -> io::Result<()> {
    let kind = words.next();
    let size = number(words.next());
    let count = number(words.next());
    let kind = match &kind {
        Some(kind) => kind.as_str(),
        None => "chain",
    };
    print_line(rt, answer(rt.alloc(), kind, size, count)?)
}
