//! The refusals of an opening.

ghost use Rattle.std.specs.Prelude.{◌≡◌};
ghost use Rattle.spool_reading.specs.declared.errors.ReadSpoolError.TheVariants.{Memory};

use std::alloc::AllocError;
use thiserror::Error;

/// Why no spool was opened. Nothing has changed.
#[derive(Clone, Copy, Debug, PartialEq, Eq, Error)]
pub enum ReadSpoolError {
    /// An allocation was refused.
    #[error("E2 Memory")]
    Memory,
    /// The blocks hold no spool of this host.
    #[error("E5 Damaged")]
    Damaged,
}

impl From<AllocError> for ReadSpoolError {
    ghost from_gives = { λ _ e. e ≡ Memory };

    fn from(_error: AllocError) -> ReadSpoolError {
        ReadSpoolError::Memory
    }
}
