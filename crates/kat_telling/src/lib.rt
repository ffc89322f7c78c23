//! What a search tells of the designs that it tries, and the text of its report.
//!
//! A design is refuted by a history that was cited before, or by a further one that is cited from here on, or it is undecided:
//! then there is evidence, which ends in a [`Reason`]. The report has the lines of these ([`push_history`], [`push_differs`],
//! [`push_undecided`]).
#![tactic(auto)]

mod limits;
mod reasons;
mod report;

pub use limits::{TEXT_LIMIT, UNDECIDED_LIMIT};
pub use reasons::{Reason, reason_at};
pub use report::{push_differs, push_history, push_undecided};
