//! Clauses of which two literals each are watched: unit propagation looks at a clause only if one of these becomes false
//! (Moskewicz, Madigan, Zhao, Zhang and Malik 2001). No memory is taken while literals are assumed, propagated and taken back.
#![tactic(auto)]

mod assignment;
mod literals;
mod walking;
mod watches;

ghost use Rattle.kat_watch.specs.Laws.{QuietDerives, QuietRefutesNot, ConflictRefutes};

pub use watches::{Propagation, Watches};

/// Laws: if no clause is falsified or unit, the assigned literals are those that the clauses give under the given ones, and
/// the given ones falsify no clause; if a clause is falsified, they falsify one. Given are the literals that were assumed,
/// and any others that are assigned.
pub fn propagation_derives()
    ensures derives { QuietDerives }
    ensures refutes_not { QuietRefutesNot }
    ensures refutes { ConflictRefutes }
{}
