//! Scripts run over many replicas: the lines that are printed.
//!
//! [`model`] prints what a sequential type answers: each ask the answer after the operations that its replica absorbed,
//! arranged by rank, then time, then replica. [`converge`] prints what a design answers and shows, in states that are
//! joined and keep no operation, and [`answers`] gives its answers as values. [`summary`] counts the operations and the
//! asks of a script and adds up what was answered.
//!
//! Laws say what may change in the deliveries of a script without a change in what is printed: a packet may come again, and
//! two packets may come in either order.
#![tactic(auto)]

mod answering;
mod checkpoints;
mod converging;
mod delivery_laws;
mod laws;
mod order;
mod places;
mod replying;
mod running;
mod summaries;
mod summary_laws;
mod texts;
mod times;
mod worlds;
mod writing;

pub use answering::model;
pub use converging::converge;
pub use delivery_laws::{
    absorbed_deliveries_change_nothing, packets_come_again, packets_come_in_any_order,
};
pub use laws::{
    designs_answer_sequentially, designs_reply_as_types, judged_scripts_fit_types,
    same_operations_same_lines, sequential_answers_are_the_models,
};
pub use replying::answers;
pub use summaries::summary;
pub use summary_laws::cart_answers_are_small;
pub use texts::{push_ask, push_show};
pub use worlds::{a_line_keeps_fronts, what_is_absorbed_can_be_done};
pub use writing::{WorldError, emit};
