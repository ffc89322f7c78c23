//! Decides encoded conditions: a case split over the propositional variables, with unit propagation and elimination at each node.
#![tactic(auto)]

ghost use Rattle.std.specs.Prelude.{◌≢◌, ◌*◌, ◌<◌, ◌≤◌, ◌^◌, length, IfOk};
ghost use Rattle.kat_form.specs.Encodings.{encoding};
ghost use Rattle.kat_refute.specs.Lines.{AreARefutation};
ghost use Rattle.kat_cases.specs.Nodes.End.{spent};
ghost use Rattle.kat_cases.specs.Walks.{IfRefuted};
ghost use Rattle.kat_cases.specs.Walks.Answer.{stopped};
ghost use Rattle.kat_cases.specs.Points.{IsDecisive, IfPoint};
ghost use Rattle.kat_cases.specs.Settings.{setting_of, IsWalkable};
ghost use Rattle.kat_cases.specs.Answers.{answer_of};
ghost use Rattle.kat_cases.specs.Decisions.{Decides, HasNarrowNumbers};

mod further;
mod walking;

use further::go_on;
use kat_cases::clauses_in;
pub use kat_cases::{
    Decision, Point, decisive_points_stay_open, encodings_are_walkable, is_walkable,
    walks_are_determined,
};
use kat_form::Encoded;
pub use kat_resolution::resolve;
use std::alloc::{AllocError, Global};
use walking::run;

/// Decides an encoded condition by a walk of at most `effort` leaves.
///
/// If the walk refutes, the answer is its lines, and if it gives a point, that point. If it gives up, the answer is
/// the same, or what a further search finds: at most `effort` lines, in which no variable occurs twice, or a point. No line has
/// hints. The numbers of `Wide` are at most 2^126.
pub fn decide(alloc: Global, encoded: &Encoded, effort: u32) -> Result<Decision, AllocError>
    requires walkable { IsWalkable encoded.now.numbers (encoding encoded.now) }
    requires effort { (1 ≤ effort) × (effort ≤ 10_000) }
    ensures walk { IfOk result (λ d. Decides (setting_of encoded.now) effort (answer_of d)) }
    ensures refutes { IfOk result (λ d. IfRefuted (answer_of d) (λ lines. AreARefutation (encoding encoded.now) lines
        × (length lines < 3 * effort))) }
    ensures point { IfOk result (λ d. IfPoint (answer_of d) (IsDecisive (encoding encoded.now) encoded.now.numbers)) }
    ensures narrow { IfOk result (λ d. HasNarrowNumbers (answer_of d)) }
    ensures unspent { 2 ^ length (encoding encoded.now).senses ≤ effort → IfOk result (λ d. answer_of d ≢ stopped spent) }
{
    let mut known = clauses_in(alloc, encoded)?;
    let walked = run(alloc, encoded, &mut known, effort)?;
    go_on(alloc, encoded, walked, effort)
}
