//! What accepted conditions say: a relation between the states of a sequential type and of a design that every operation
//! keeps, and under which both give the same answers.
#![tactic(auto)]

mod laws;

pub use laws::{
    asks_are_held, denotations_are_held, inductive_designs_answer_as_type, refuted_conditions_hold,
    refuted_designs_answer_as_type, situations_stay_legal, starts_are_legal, type_files_have_keys,
};
