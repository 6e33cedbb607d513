//! The refusals of arriving octets.

use thiserror::Error;

/// Why octets did not arrive.
#[derive(Clone, Copy, Debug, Drop, PartialEq, Eq, Error)]
pub enum ArriveError {
    /// No session of this number exists, or it was closed.
    #[error("E10 NoSession")]
    NoSession,
    #[error("E2 Memory")]
    Memory,
}
