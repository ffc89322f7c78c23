//! Laws of searches and reports: each is the contract of a function that does nothing.
//!
//! Reports, points and walks are stated by the search and apart from it, and both statements are one. And a search for a
//! design of the cart doesn't end with none: the design that keeps a sum for each thing is listed, and no history refutes it.
#![tactic(auto)]

mod agreement_laws;
mod cart_laws;
mod report_laws;

pub use agreement_laws::{points_are_one, walks_are_one};
pub use cart_laws::carts_have_designs;
pub use report_laws::{
    answers_have_no_fault, evidence_is_one, reports_are_confirmed, reports_have_no_fault,
    reports_have_one_verdict,
};
