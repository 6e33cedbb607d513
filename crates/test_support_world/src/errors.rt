//! The errors of a simulated system.

use std::alloc::{AllocError, AllocFailed};
use thiserror::Error;
use world::OpenError;

/// Why a simulation stops.
#[derive(Clone, Copy, Debug, Drop, PartialEq, Eq, Error)]
pub enum SimError {
    #[error("no volume was made")]
    NotMade,
    #[error("no such octet")]
    NoPlace,
    #[error("no such event")]
    NoEvent,
    #[error("no memory")]
    Memory,
    #[error("{0}")]
    NotOpened(OpenError),
}

impl From<AllocError> for SimError {
    fn from(_error: AllocError) -> SimError {
        SimError::Memory
    }
}

impl<T: Drop> From<AllocFailed<T>> for SimError {
    fn from(_error: AllocFailed<T>) -> SimError {
        SimError::Memory
    }
}
