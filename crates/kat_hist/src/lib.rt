//! Designs compared with a sequential type on its histories: small runs of it.
//!
//! A [`History`] is what two replicas did, at most three operations at times 1 to 3, with arguments of small pools.
//! [`Histories`] are all of them in order, up to a limit. A design [`differs`] on a history if it answers some query otherwise
//! than the type does in an order of the operations that respects the ranks, and [`first_difference`] finds the first history
//! on which it does. A [`Card`] keeps what the type answers after a history ([`card`]), so that designs are compared with it
//! without the type ([`differs_by`]). [`script_of`] is a script that shows a history, and is judged good.
#![tactic(auto)]

mod answering;
mod arrangements;
mod differing;
mod laws;
mod refuting;
mod scripts;
mod trials;

pub use answering::card;
pub use differing::{differs, first_difference};
pub use kat_histories::{
    Call, Card, CardAnswer, HISTORY_LIMIT, Histories, History, Stamp, differs_by,
    histories_are_complete, histories_ascend, histories_fit,
};
pub use laws::{files_have_words, script_texts_are_judged};
pub use scripts::{push_args, push_number, push_op_name, script_of};
pub use trials::Trials;
