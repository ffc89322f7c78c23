//! Scripts: what happens at the replicas of a world, line by line.
//!
//! A script says how many replicas there are and then, in order, what each of them does: it does an
//! operation (`do`), ships what it holds in a packet (`ship`), takes a packet in (`deliver`), answers a
//! query (`ask`) or shows its state (`show`). A packet may be delivered any number of times, late, or
//! never. [`read_script`] judges a text whole: it gives the script, or the first refusal.
//!
//! A reader of scripts with further lines takes the same steps for each line: [`said_of`], the numbers of its packet and of
//! what it calls ([`Ledger::packet_in`], [`call_in`]), [`Ledger::first_broken`] with its [`refusal`], [`Ledger::line_of`], and
//! [`advance`].
#![tactic(auto)]

mod advancing;
mod calls;
mod error;
mod laws;
mod ledger;
mod marks;
mod reader;
mod rules;
mod said;
mod script;

pub use advancing::advance;
pub use calls::{call_in, op_of, query_of};
pub use error::ScriptError;
pub use laws::{
    at_most_one_judgement, every_text_is_judged, fronts_are_prefixes,
    lines_are_judged_where_they_stand, replicas_stay, scripts_are_judged,
    scripts_are_what_reads_well, worlds_hold_fronts,
};
pub use ledger::{Ledger, Shipped};
pub use marks::Mark;
pub use reader::{read_script, refusal, said_of};
pub use rules::{
    CALL_LIMIT, LINE_LIMIT, PACKET_LIMIT, REPLICA_LIMIT, Rule, TIME_LIMIT, fit, values_of,
};
pub use said::{Constant, Said};
pub use script::{Line, Script};
