//! Why a row has no answer.

use std::alloc::{AllocError, AllocFailed};
use thiserror::Error;

/// Why a row has no answer.
#[derive(Clone, Copy, Debug, Drop, PartialEq, Eq, Error)]
pub(crate) enum RowError {
    #[error("unreadable row")]
    Unreadable,
    #[error("no rows of this name")]
    NoRows,
    #[error("no spool")]
    NoSpool,
    #[error("no volume")]
    NoVolume,
    #[error("no change")]
    NoChange,
    #[error("no memory")]
    Memory,
}

impl From<AllocError> for RowError {
    fn from(_error: AllocError) -> RowError {
        RowError::Memory
    }
}

impl<T: Drop> From<AllocFailed<T>> for RowError {
    fn from(_error: AllocFailed<T>) -> RowError {
        RowError::Memory
    }
}
