//! Designs in words and pseudo-code: what each replica keeps, what each operation does to it, how two states are merged, and how each
//! query is answered, with the type's own names.
//!
//! [`component_names`] names the components of a design; the texts of components, operations and queries are appended with these
//! names.
#![tactic(auto)]

mod asking;
mod effects;
mod keeping;
mod leaves;
mod merging;
mod naming;
mod phrases;
mod texts;

pub use asking::{Scene, push_query, push_reference};
pub use effects::push_op;
pub use keeping::push_keeps;
pub use merging::push_merge;
pub use naming::component_names;
pub use phrases::{Phrase, say};
pub use texts::{
    push_call, push_commas, push_name, push_number, push_param, push_sort, push_tuple, text_at,
};
