//! What conditions state of two sides: what is known of any state before an operation, and what a relation claims.
//!
//! A place is a field of the type or a leaf of the design. [`spots_of`] lists them, [`keys_of`] the keys of a condition,
//! [`all_looked_at`] where a condition looks, [`all_natural`] and [`natural_claim`] what is at least 0 there.
//!
//! [`StartSide`] and [`OldSide`] say how the start and a state before an operation are read. [`Change::leaf_after`] reads
//! what a leaf of a design is after an operation, from what it was, and [`claim_read`] what a conjunct of a relation
//! claims on a side. The facts of a condition are stated group by group, as by [`state_order`] and [`state_relation`].
//!
//! An error is out of memory, or a number that doesn't fit: 128 bits for a coefficient or a constant, 32 bits for the
//! number of a variable, a leaf or an element, and for a count of places.
#![tactic(auto)]

mod asks;
mod claims;
mod effects;
mod groups;
mod keys;
mod naturals;
mod spots;
mod states;

pub use claims::{answers_of, claim_read, query_at};
pub use effects::{Change, Numbers, same_key_read, sum};
pub use groups::{
    equal_read, last_read, start_read, state_denied, state_naturals, state_order, state_relation,
};
pub use keys::{all_looked_at, instances_of, keys_of};
pub use naturals::{all_natural, natural_claim};
pub use spots::{Spot, places_by, spots_of};
pub use states::{OldSide, StartSide, field_start, is_truth_field};
