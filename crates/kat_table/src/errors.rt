//! Why a row can't be tried.
use std::alloc::{AllocError, AllocFailed};

/// Why a row file is damaged, or that memory ran out.
#[derive(Clone, Copy)]
pub enum RowError {
    Damaged(&'static str),
    Memory,
}

impl From<AllocError> for RowError {
    fn from(_error: AllocError) -> RowError {
        RowError::Memory
    }
}

impl<T: Drop> From<AllocFailed<T>> for RowError {
    fn from(_failed: AllocFailed<T>) -> RowError {
        RowError::Memory
    }
}
