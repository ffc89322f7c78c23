//! Signatures and designs as JSON values.
//!
//! [`FileSignature`] reads a signature and [`DesignBody`] the components and asks of a design. [`signature_value`] and
//! [`design_value`] print them, [`design_text`] is the compact text of a design.
#![tactic(auto)]

mod asks;
mod bodies;
mod components;
mod printing;
mod shapes;
mod signature_printing;
mod signatures;
mod tags;
mod words;

pub use bodies::DesignBody;
pub use printing::{design_text, design_value};
pub use signature_printing::signature_value;
pub use signatures::FileSignature;
