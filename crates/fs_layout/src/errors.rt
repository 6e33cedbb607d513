//! The refusals of the file system.

ghost use Rattle.std.specs.Prelude.{◌≡◌};
ghost use Rattle.fs_layout.specs.declared.errors.FsError.TheVariants.{Memory};

use std::alloc::AllocError;
use thiserror::Error;

/// Why a call is refused.
#[derive(Clone, Copy, Debug, PartialEq, Eq, Error)]
pub enum FsError {
    /// An allocation was refused.
    #[error("E2 Memory")]
    Memory,
    /// The blocks break the rule of blocks.
    #[error("E5 Damaged")]
    Damaged,
    /// Blocks or inodes are used up, or the file would be too large.
    #[error("E6 Full")]
    Full,
    /// A file with this name exists already.
    #[error("E11 Exists")]
    Exists,
    /// No file has this name.
    #[error("E12 NotFound")]
    NotFound,
}

impl From<AllocError> for FsError {
    ghost from_gives = { λ _ e. e ≡ Memory };

    fn from(_error: AllocError) -> FsError {
        FsError::Memory
    }
}
