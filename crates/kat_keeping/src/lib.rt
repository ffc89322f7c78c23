//! What keeps a field of a type, and what another field tells of it.
//!
//! A [`Subject`] is a field with the right sides that change it. Rules put components into a [`Store`] and give the field's
//! reading, a formula over their leaves and over other fields. [`finished`] joins what can be one component and leaves out what no
//! ask reads. Nothing is promised of what is made but that it ends.
#![tactic(auto)]

mod derived;
mod finishing;
mod flattening;
mod grown;
mod marks;
mod pieces;
mod several;
mod slots;
mod standards;
mod starts;
mod stores;
mod subjects;
mod weights;

pub use derived::derived_reading;
pub use finishing::{Selection, finished};
pub use flattening::{Joint, joined_by, joint_of, push_members};
pub use grown::grown_reading;
pub use marks::{above_0, joined, marked, touched, touches_of};
pub use pieces::{Holds, Piece, Register, Slot, Touch};
pub use slots::{holds_sort, register_of};
pub use starts::{CODES, Solved, first_code, held_by, solve};
pub use stores::{
    Step, Store, add_leaf, add_made, add_piece, add_register, add_step, leaf_of, new_store,
    next_piece, scope_of,
};
pub use subjects::{
    Change, Subject, assigns, copied_change, is_before, is_change, is_own, subject_of,
};
pub use weights::{Share, factors_of, leaf_with, shares_of};
