//! The refusals of a load.

ghost use Rattle.std.specs.Prelude.{◌≡◌};
ghost use Rattle.journal_loading.specs.declared.errors.LoadError.TheVariants.{Memory};

use std::alloc::AllocError;
use thiserror::Error;

/// Why a volume cannot be loaded.
#[derive(Clone, Copy, Debug, Drop, PartialEq, Eq, Error)]
pub enum LoadError {
    /// The device failed in this call. This halts the journal for good.
    #[error("E1 Fault")]
    Fault,
    /// An allocation was refused in this call. The journal was at most read, and stays ready.
    #[error("E2 Memory")]
    Memory,
}

impl From<AllocError> for LoadError {
    ghost from_gives = { λ _ e. e ≡ Memory };

    fn from(_error: AllocError) -> LoadError {
        LoadError::Memory
    }
}
