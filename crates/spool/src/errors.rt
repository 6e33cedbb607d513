//! The refusals of a spool's changes.

use thiserror::Error;

/// Why a group was not added.
#[derive(Clone, Copy, Debug, Drop, PartialEq, Eq, Error)]
pub enum AddError {
    /// A group with this name exists already.
    #[error("E11 Exists")]
    Exists,
    /// There is no room for the group.
    #[error("E6 Full")]
    Full,
    /// An allocation was refused.
    #[error("E2 Memory")]
    Memory,
}

/// Why articles were not removed from a group.
#[derive(Clone, Copy, Debug, Drop, PartialEq, Eq, Error)]
pub enum ExpireError {
    /// The group does not exist, or the number is below its lowest or above its highest.
    #[error("E12 NotFound")]
    NotFound,
    /// There is no room for the expiry.
    #[error("E6 Full")]
    Full,
    /// An allocation was refused.
    #[error("E2 Memory")]
    Memory,
}
