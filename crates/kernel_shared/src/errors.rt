//! The refusals of the kernel's calls.

use thiserror::Error;

/// Why a session cannot join.
#[derive(Clone, Copy, Debug, Drop, PartialEq, Eq, Error)]
pub enum JoinError {
    /// An earlier device fault has halted the kernel.
    #[error("E4 Halted")]
    Halted,
    /// 64 sessions exist, or the greatest u64 was used as a session's number.
    #[error("E7 TooManySessions")]
    TooManySessions,
    #[error("E2 Memory")]
    Memory,
}

/// Why a message is not served now.
#[derive(Clone, Copy, Debug, Drop, PartialEq, Eq, Error)]
pub enum ExecError {
    /// No session of this number exists, or it was closed.
    #[error("E10 NoSession")]
    NoSession,
    /// The session has 1,048,576 or more buffered octets: ask again after a release.
    #[error("E9 LaterOut")]
    LaterOut,
    /// Too many blocks are dirty: ask again after a batch is taken.
    #[error("E8 LaterDirty")]
    LaterDirty,
    #[error("E2 Memory")]
    Memory,
}

/// Why a group was not made.
#[derive(Clone, Copy, Debug, Drop, PartialEq, Eq, Error)]
pub enum AdminError {
    /// An earlier device fault has halted the kernel.
    #[error("E4 Halted")]
    Halted,
    /// Too many blocks are dirty: ask again after a batch is taken.
    #[error("E8 LaterDirty")]
    LaterDirty,
    /// A group with this name exists already.
    #[error("E11 Exists")]
    Exists,
    /// There is no room for the group.
    #[error("E6 Full")]
    Full,
    #[error("E2 Memory")]
    Memory,
}

/// Why articles were not removed from a group.
#[derive(Clone, Copy, Debug, Drop, PartialEq, Eq, Error)]
pub enum ExpireError {
    /// An earlier device fault has halted the kernel.
    #[error("E4 Halted")]
    Halted,
    /// Too many blocks are dirty: ask again after a batch is taken.
    #[error("E8 LaterDirty")]
    LaterDirty,
    /// The group does not exist, or the number is below its lowest or above its highest.
    #[error("E12 NotFound")]
    NotFound,
    /// There is no room for the change.
    #[error("E6 Full")]
    Full,
    #[error("E2 Memory")]
    Memory,
}

/// The ticket is not that of the batch in flight, or the kernel is halted.
#[derive(Clone, Copy, Debug, Drop, PartialEq, Eq, Error)]
#[error("E13 Stale")]
pub struct Stale;
