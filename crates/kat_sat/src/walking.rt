//! The walk over the nodes.
ghost use Rattle.std.specs.Prelude.{◌≡◌, ℕ, ◌+◌, ◌-◌, ◌<◌, ◌≤◌, ◌^◌, ℤ, List, [], ◌∷◌, ◌++◌, reverse, true, false, IfOk, option_map, vec_len};
ghost use Rattle.std.specs.List.{All};
ghost use Rattle.kat_clause.specs.Clauses.{AreAmong};
ghost use Rattle.kat_watch.specs.Watched.{AreLiterals};
ghost use Rattle.kat_form.specs.Encodings.{encoding};
ghost use Rattle.kat_refute.specs.Lines.{line_of, literals_of, added};
ghost use Rattle.kat_cases.specs.Answers.{answer_of};
ghost use Rattle.kat_cases.specs.Guests.{IsPath};
ghost use Rattle.kat_cases.specs.Nodes.{Setting, IsJudged};
ghost use Rattle.kat_cases.specs.Nodes.Judgement.{leaf};
ghost use Rattle.kat_cases.specs.Settings.{setting_of, IsWalkable};
ghost use Rattle.kat_cases.specs.Stacks.{path_of, Stands, Unwound, Keeps, Assumes, end_of};
ghost use Rattle.kat_cases.specs.Walks.{Shrinks, WalkGives, own, core_line};
ghost use Rattle.kat_cases.specs.Walks.Answer.{stopped};

use kat_cases::{Assumptions, Decision, Ending, Judged, Values, Walk, judge};
use kat_form::Encoded;
use kat_refute::ProofLine;
use std::alloc::{AllocError, Global};

/// Walks from the first node, until it has its core or the walk ends.
pub(crate) fn run(
    alloc: Global,
    encoded: &Encoded,
    known: &mut Assumptions,
    effort: u32,
) -> Result<Decision, AllocError>
    requires walkable { IsWalkable encoded.now.numbers (encoding encoded.now) }
    requires variables { vec_len encoded.now.meanings ≤ 2 ^ 28 }
    requires keeps { Keeps (encoding encoded.now) known.old }
    requires none { known.old.assumed ≡ [] }
    ensures { IfOk result (λ d. WalkGives (setting_of encoded.now) effort (answer_of d)) }
{
    let mut walk = Walk::new(alloc, effort);
    let mut values = Values::new(alloc, &encoded.meanings, encoded.numbers)?;
    let mut last = None;
    'nodes: loop {
        match judge(alloc, encoded, known, &mut values, &mut last)? {
            Judged::Ends(end) => return Ok(decided(end)),
            Judged::Splits(literal) => walk.descend(known, literal)?,
            Judged::Leaf(line) => {
                if walk.is_spent() {
                    return Ok(Decision::Spent);
                }
                if !pass_leaf(alloc, &mut walk, known, line)? {
                    return Ok(Decision::Refutation(walk.into_lines()));
                }
            }
        }
    }
}

/// Closes a leaf, and goes to the next node; whether there is one.
fn pass_leaf(
    alloc: Global,
    walk: &mut Walk,
    known: &mut Assumptions,
    line: Option<ProofLine>,
) -> Result<bool, AllocError>
    requires limit { known.old.greatest ≤ 2 ^ 28 }
    requires assumed { reverse known.old.assumed ≡ path_of walk.old.steps }
    requires path { IsPath known.old.greatest (path_of walk.old.steps) }
    requires literals { All (λ l. AreLiterals known.old.greatest (literals_of l)) (own (option_map line_of line)) }
    requires left { 0 < walk.old.left }
    ensures unwound { IfOk result (λ more. (s : Setting) (effort : ℕ) → Keeps s.encoding known.old →
        IsJudged s (path_of walk.old.steps) (leaf (option_map line_of line)) → Stands s effort walk.old.steps walk.old.left walk.old.lines
        → Unwound s effort walk.new more) }
    ensures leaves { IfOk result (λ more. walk.new.left + 1 ≡ walk.old.left) }
    ensures known { IfOk result (λ more. more ≡ true → Assumes known.old known.new (path_of walk.new.steps)) }
{
    let core = close(alloc, walk, known, line)?;
    if !walk.unwind(alloc, core)? {
        return Ok(false);
    }
    walk.assume(known)?;
    Ok(true)
}

/// The core of a leaf, whose lines are recorded.
fn close(
    alloc: Global,
    walk: &mut Walk,
    known: &mut Assumptions,
    line: Option<ProofLine>,
) -> Result<Vec<i32>, AllocError>
    requires limit { known.old.greatest ≤ 2 ^ 28 }
    requires assumed { reverse known.old.assumed ≡ path_of walk.old.steps }
    requires path { IsPath known.old.greatest (path_of walk.old.steps) }
    requires literals { All (λ l. AreLiterals known.old.greatest (literals_of l)) (own (option_map line_of line)) }
    requires left { 0 < walk.old.left }
    ensures core { IfOk result (λ core. (F : List (List ℤ)) → AreAmong known.old.clauses F → AreAmong F known.old.clauses
        → Shrinks (F ++ added (own (option_map line_of line))) (path_of walk.old.steps) [] core.items) }
    ensures walk { IfOk result (λ core. walk.new ≡ record walk.old {
      lines = walk.old.lines
          ++ (own (option_map line_of line) ++ core_line core.items ∷ []);
      left = walk.old.left - 1;
    }) }
    ensures known { IfOk result (λ core. known.new ≡ record known.old { assumed = []; settled = false }) }
{
    let core = walk.own_core(alloc, known, line)?;
    walk.record(alloc, &core)?;
    walk.count_leaf();
    Ok(core)
}

/// The decision at an end.
fn decided(end: Ending) -> Decision
    ensures { answer_of result ≡ stopped (end_of end) }
{
    match end {
        Ending::Spent => Decision::Spent,
        Ending::Point(point) => Decision::Point(point),
        Ending::Rows {
            lits,
            plus,
            minus,
            rest,
        } => Decision::Rows {
            lits,
            plus,
            minus,
            rest,
        },
        Ending::Wide { lits, left, right } => Decision::Wide { lits, left, right },
    }
}
