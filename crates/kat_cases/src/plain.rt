//! Whether lines and literals are plain: no variable occurs twice, and there are no hints.
ghost use Rattle.std.specs.Prelude.{◌≡◌, ◌≢◌, ℤ, unsigned_abs, true};
ghost use Rattle.std.specs.List.{All, AllPairs};
ghost use Rattle.kat_refute.specs.Lines.{line_of, lines_of};
ghost use Rattle.kat_cases.specs.Decisions.{HasEachOnce, HasNoHints};

use kat_refute::ProofLine;

/// Whether no line has a variable twice, or hints.
pub fn are_plain(lines: &[ProofLine]) -> bool
    ensures { result ≡ true → All HasEachOnce (lines_of lines.now) × All HasNoHints (lines_of lines.now) }
{
    for line in lines {
        if !is_plain(line) {
            return false;
        }
    }
    true
}

// Whether a line has no variable twice, and no hints.
fn is_plain(line: &ProofLine) -> bool
    ensures { result ≡ true → HasEachOnce (line_of line.now) × HasNoHints (line_of line.now) }
{
    match line {
        ProofLine::Rup(lits) => has_each_once(lits),
        ProofLine::Linear { lits, .. } => has_each_once(lits),
        ProofLine::Hinted { .. } => false,
    }
}

/// Whether no variable occurs twice.
pub(crate) fn has_each_once(literals: &[i32]) -> bool
    ensures { result ≡ true → AllPairs (λ (k l : ℤ). unsigned_abs k ≢ unsigned_abs l) literals.now }
{
    for i in 0..literals.len() {
        if !is_apart(&literals[..i], literals[i]) {
            return false;
        }
    }
    true
}

// Whether no literal is of this literal's variable.
fn is_apart(literals: &[i32], literal: i32) -> bool
    ensures { result ≡ true → All (λ k. unsigned_abs k ≢ unsigned_abs literal) literals.now }
{
    literals
        .iter()
        .all(|k| k.unsigned_abs() != literal.unsigned_abs())
}
