//! The histories of a sequential type, what a design gives after one, and what one asks of all designs.
//!
//! A [`History`] is what two replicas did, at most three operations at times 1 to 3, with arguments of small pools.
//! [`Histories`] are all of them in order, up to a limit; three laws say which these are. [`asks_of`] are the queries with all
//! arguments of the pools, and [`denotation`] is the state of a design after operations.
//!
//! A [`Card`] has the operations of a history, and the one answer of the type to each query, if each of [`orders_of`] these
//! operations that respects the ranks gives the same ([`one_answer`]). By a card alone a design is compared with the type
//! ([`differs_by`]). kat_hist makes cards.
#![tactic(auto)]

mod answers;
mod calls;
mod cards;
mod choices;
mod denotations;
mod groups;
mod histories;
mod laws;
mod orders;
mod stamps;
mod telling;

pub use answers::{is_same_value, one_answer};
pub use calls::{Call, asks_of};
pub use cards::{Card, CardAnswer};
pub use denotations::denotation;
pub use histories::{HISTORY_LIMIT, Histories, History};
pub use laws::{histories_are_complete, histories_ascend, histories_fit};
pub use orders::orders_of;
pub use stamps::Stamp;
pub use telling::differs_by;
