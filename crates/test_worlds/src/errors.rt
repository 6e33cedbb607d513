//! Why a row has no answer.

use std::alloc::{AllocError, AllocFailed};
use test_support_world::SimError;
use thiserror::Error;

/// Why a row has no answer.
#[derive(Clone, Copy, Debug, Drop, PartialEq, Eq, Error)]
pub(crate) enum RowError {
    #[error("unreadable row")]
    Unreadable,
    #[error("no world")]
    NoWorld,
    #[error("no device")]
    NoDevice,
    #[error("no end of the device calls")]
    NoEnd,
    #[error("no memory")]
    Memory,
    #[error("{0}")]
    Sim(SimError),
}

impl From<SimError> for RowError {
    fn from(error: SimError) -> RowError {
        match error {
            SimError::NoEvent => RowError::Unreadable,
            error => RowError::Sim(error),
        }
    }
}

impl From<AllocError> for RowError {
    fn from(_error: AllocError) -> RowError {
        RowError::Memory
    }
}

impl<T: Drop> From<AllocFailed<T>> for RowError {
    fn from(_error: AllocFailed<T>) -> RowError {
        RowError::Memory
    }
}
