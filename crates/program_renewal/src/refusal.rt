//! Why a volume was not renewed.

use disk_causes::Cause;
use journal::JournalError;
use program_printing::{CommandError, Failure};
use std::alloc::AllocError;
use std::io;
use thiserror::Error;
use volume_renewing::Shortage;

/// Why a volume was not renewed. It has all its changes, and the new one is not there.
#[derive(Debug, Drop, Error)]
pub enum Refusal {
    /// The new volume has no room for the change with this serial, and too little of this.
    #[error("E6 Full: change {0}: {1}")]
    Full(u64, Shortage),
    /// A word, a file, its device or memory was refused.
    #[error(transparent)]
    Failed(Failure),
    /// The new volume was made, and could not be put in its place.
    #[error("E1 Fault: the new volume can't be put in its place: {0}")]
    NotPut(io::Error),
}

impl Refusal {
    /// The refusal of a device that failed first for this cause. Any other refusal stays what it is.
    pub(crate) fn because(self, cause: Option<Cause>) -> Refusal {
        match self {
            Refusal::Failed(Failure::Command(error)) => Refusal::from(error.because(cause)),
            refusal => refusal,
        }
    }
}

impl From<Failure> for Refusal {
    fn from(failure: Failure) -> Refusal {
        Refusal::Failed(failure)
    }
}

impl From<CommandError> for Refusal {
    fn from(error: CommandError) -> Refusal {
        Refusal::Failed(Failure::Command(error))
    }
}

impl From<JournalError> for Refusal {
    fn from(error: JournalError) -> Refusal {
        Refusal::from(CommandError::from(error))
    }
}

impl From<AllocError> for Refusal {
    fn from(_error: AllocError) -> Refusal {
        Refusal::from(CommandError::Memory)
    }
}

impl From<io::Error> for Refusal {
    fn from(error: io::Error) -> Refusal {
        Refusal::from(CommandError::from(error))
    }
}
