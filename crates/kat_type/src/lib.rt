//! Ordinary sequential types, their signatures, and the operations that were done, in the order of their ranks.
#![tactic(auto)]

mod calls;
mod comparing;
mod copying;
mod done;
mod errors;
mod laws;
mod signatures;
mod types;

pub use calls::signature;
pub use comparing::{canonical_order, compare};
pub use done::Done;
pub use errors::TypeError;
pub use laws::{
    canonical_arrangements, orders_are_total, signatures_are_small, ties_have_one_time_and_replica,
};
pub use signatures::{OpSig, QuerySig, Signature};
pub use types::{Assign, Field, Operation, Param, Query, Rank, SeqType};
