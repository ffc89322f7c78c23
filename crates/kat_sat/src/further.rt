//! What a further search finds, tried before it is answered.
ghost use Rattle.std.specs.Prelude.{◌≡◌, ◌≤◌, ◌^◌, true, IfOk, IfSome, length, vec_len};
ghost use Rattle.kat_form.specs.Encodings.{encoding, IsFit};
ghost use Rattle.kat_cases.specs.Answers.{answer_of};
ghost use Rattle.kat_cases.specs.Further.{GivesUp, IsAnswered, IsFound};
ghost use Rattle.kat_cases.specs.Settings.{setting_of, IsWalkable};
ghost use Rattle.kat_cases.specs.Walks.{WalkGives};

use kat_cases::{Decision, Found, are_plain, learn, try_literals};
use kat_form::Encoded;
use kat_refute::{ProofLine, Verdict, check_lines};
use std::alloc::{AllocError, Global};

/// What a further search finds if the walk gave up; otherwise, and if it finds nothing, what the walk gave.
pub(crate) fn go_on(
    alloc: Global,
    encoded: &Encoded,
    walked: Decision,
    effort: u32,
) -> Result<Decision, AllocError>
    requires walkable { IsWalkable encoded.now.numbers (encoding encoded.now) }
    requires effort { (1 ≤ effort) × (effort ≤ 10_000) }
    requires walked { WalkGives (setting_of encoded.now) effort (answer_of walked) }
    ensures { IfOk result (λ d. IsAnswered encoded.now effort (answer_of d)) }
{
    if !gives_up(&walked) {
        return Ok(walked);
    }
    match decide_further(alloc, encoded, effort)? {
        Some(found) => Ok(found),
        None => Ok(walked),
    }
}

// Whether a walk gave up.
fn gives_up(walked: &Decision) -> bool
    ensures { result ≡ true → GivesUp (answer_of walked.now) }
{
    match walked {
        Decision::Refutation(_) | Decision::Point(_) => false,
        Decision::Spent | Decision::Rows { .. } | Decision::Wide { .. } => true,
    }
}

// What a search that learns clauses finds, with at most so many lines.
fn decide_further(
    alloc: Global,
    encoded: &Encoded,
    effort: u32,
) -> Result<Option<Decision>, AllocError>
    requires walkable { IsWalkable encoded.now.numbers (encoding encoded.now) }
    requires variables { vec_len encoded.now.meanings ≤ 2 ^ 28 }
    requires effort { effort ≤ 10_000 }
    ensures { IfOk result (λ o. IfSome o (λ d. IsFound encoded.now effort (answer_of d))) }
{
    match learn(alloc, encoded, effort)? {
        Some(Found::Lines(lines)) => try_lines(alloc, encoded, effort, lines),
        Some(Found::Literals(literals)) => try_literals(alloc, encoded, effort, &literals),
        None => Ok(None),
    }
}

// The lines as a decision, if they refute the condition and are few and plain.
fn try_lines(
    alloc: Global,
    encoded: &Encoded,
    effort: u32,
    lines: Vec<ProofLine>,
) -> Result<Option<Decision>, AllocError>
    requires fit { IsFit (encoding encoded.now) }
    requires variables { vec_len encoded.now.meanings ≤ 2 ^ 28 }
    requires effort { effort ≤ 10_000 }
    ensures { IfOk result (λ o. IfSome o (λ d. IsFound encoded.now effort (answer_of d))) }
{
    if !are_few(&lines, effort) || !are_plain(&lines) {
        return Ok(None);
    }
    match check_lines(alloc, encoded, &lines)? {
        Verdict::Accepted => Ok(Some(Decision::Refutation(lines))),
        Verdict::Bad(_) => Ok(None),
    }
}

// Whether there are at most so many lines.
fn are_few(lines: &[ProofLine], effort: u32) -> bool
    ensures { result ≡ true → length lines.now ≤ effort }
{
    lines.len() <= effort as usize
}
