//! The machine that reads the token lists of a type's designs.
//!
//! A place of the machine (`modes`) has what is read next and what the components so far keep, which copies share (`shared`).
//! `steps` tells which tokens may follow, by `choices`, and where each leads. Of these, `usable` leaves out components that no
//! operation and no query can use, and `ascent` those that don't come after the one before them. The machine may read a list
//! of no design, and only must not lose one: each way of leaving lists out has a lemma that no listed design is lost.
#![tactic(auto)]

mod ascent;
mod choices;
mod modes;
mod shared;
mod steps;
mod usable;

pub use ascent::{LatestComponent, latest_behind, may_ascend, with_token};
pub use modes::{Keyed, Mode, Place, Row, Rows, Want};
pub use shared::Shared;
pub use steps::{goes_to, is_finished, is_nothing, may_follow};
pub use usable::may_be_used;
