//! Languages of source code: their forms, the names of a module in one of them, and the page on which it is written.
//!
//! A [`Printer`] is a module with its names in a language. It fills the forms of the language ([`Form`]) with words, on a [`Page`].
#![tactic(auto)]

mod comments;
mod forms;
mod go;
mod kept;
mod languages;
mod members;
mod names;
mod pages;
mod printers;
mod python;
mod rust;
mod scopes;
mod shapes;
mod typescript;
mod values;

pub use comments::{put_comment, put_docstring, put_marked, put_remark};
pub use forms::Form;
pub use languages::{Family, Language, language_of};
pub use members::{call_head, close_member, open_member};
pub use names::{Names, PartNames, names_of, param_names};
pub use pages::Page;
pub use printers::{Printer, name_at};
pub use shapes::{
    Leaves, and_sign, not_sign, or_sign, push_joined_leaf, push_lacks_leaves, push_leaf_less,
    same_sign,
};
pub use values::{
    is_zero, kind_type, leaf_type, push_constant, push_kept_constant, sort_type, truth_word,
};
