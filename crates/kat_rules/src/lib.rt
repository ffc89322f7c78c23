//! The rules of a listing: which designs of a type it has, and in which order.
//!
//! `specs/Listed` says both, a field for each rule. A design's token list (`printing`) says it part by part, its constants by
//! their places among those of the type (`constants`); `ranks` is the order of tokens and of their lists, and `costs` what each
//! token counts for the size. `rules` tests a design, rule by rule.
#![tactic(auto)]

mod constants;
mod costs;
mod kind_sets;
mod printing;
mod ranks;
mod rules;
mod tokens;

pub use constants::{Constants, Setting, of_kind, setting_of};
pub use costs::{cost, total_cost};
pub use kind_sets::Kinds;
pub use printing::design_tokens;
pub use ranks::{is_before, is_same_list};
pub use rules::keeps_rules;
pub use tokens::Token;
