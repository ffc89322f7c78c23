//! The outside of a program, as two traits: files that are read by path, and a sink for output.
//!
//! A program that is generic over [`Files`] and [`Sink`] can be proved whole: the traits say which
//! bytes were read and written, if the object tells them, and that a fault comes only if the
//! object's count of faults rose. [`MemFiles`] and [`MemSink`] are in memory and tell everything;
//! [`HostFiles`] and [`HostSink`] are the host's files and a writer of the host's, and tell nothing.
#![tactic(auto)]

mod host;
mod memory;
mod outside;

pub use host::{HostFiles, HostSink};
pub use memory::{MemFiles, MemSink};
pub use outside::{Files, ReadEnd, ReadError, Sink, WriteError};
