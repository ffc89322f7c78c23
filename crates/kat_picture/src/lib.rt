//! Scripts as space-time pictures, in the manner of Lamport (1978): a line for each replica, a mark for each event, and an
//! arrow for each packet that is delivered.
//!
//! [`picture_of`] makes the picture of a script as data: what is drawn, at which replica, in which order, and where each arrow
//! begins. [`push_svg`] and [`push_text`] draw it, as SVG and for a terminal of 80 columns.
#![tactic(auto)]

mod cells;
mod drawing;
mod escaping;
mod histories;
mod labels;
mod naming;
mod pictures;
mod plain;
mod scale;
mod shipping;

pub use drawing::push_svg;
pub use escaping::push_escaped;
pub use histories::history_script;
pub use naming::{Names, names_in};
pub use pictures::{Event, EventKind, Picture, picture_of};
pub use plain::push_text;
pub use shipping::Shipping;
