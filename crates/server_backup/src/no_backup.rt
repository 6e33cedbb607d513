//! Why there is no backup.

use disk_causes::Cause;
use disk_file::FileError;
use std::alloc::AllocError;
use std::io;
use thiserror::Error;

/// Why there is no backup. Each leaves what stands at its path, and nothing beside that but what `NoFile` found there.
#[derive(Debug, Drop, Error)]
pub enum NoBackup {
    /// Something stands at its path.
    #[error("E11 Exists: something stands at the path of the backup")]
    Exists,
    /// Its path isn't text that begins with a slash, or has octets that no path has.
    #[error("E14 Bad: the path of a backup begins with /")]
    Bad,
    /// The file beside its path can't be made.
    #[error("E1 Fault: {0}")]
    NoFile(FileError),
    /// The system refused a call to the file.
    #[error("E1 Fault: {0}")]
    Failed(Cause),
    /// The device of the file failed.
    #[error("E1 Fault")]
    Fault,
    /// An allocation was refused.
    #[error("E2 Memory")]
    Memory,
    /// The server stopped, or its own device failed, before the backup was whole.
    #[error("E4 Halted")]
    Halted,
}

impl From<AllocError> for NoBackup {
    fn from(_error: AllocError) -> NoBackup {
        NoBackup::Memory
    }
}

impl From<FileError> for NoBackup {
    fn from(error: FileError) -> NoBackup {
        match error {
            FileError::Failed(cause) => NoBackup::Failed(cause),
            other => NoBackup::NoFile(other),
        }
    }
}

impl NoBackup {
    /// The system refused to give the file its name, or to make that durable.
    pub(crate) fn unnamed(error: io::Error) -> NoBackup {
        match error.kind() {
            io::ErrorKind::AlreadyExists => NoBackup::Exists,
            _ => NoBackup::Failed(Cause::of(&error)),
        }
    }
}
