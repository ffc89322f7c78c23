//! A design with an open certificate has no accepted file.
//!
//! The facts of a condition under a relation are each the same, up to the numbers of variables, as a fact of that condition
//! under conjuncts of which the relation consists. So a point that decides the latter leaves the former open.
#![tactic(auto)]

mod laws;

pub use laws::{open_designs_have_no_proof, smaller_relations_fail};
