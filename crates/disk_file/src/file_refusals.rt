//! Why a file is not opened as a device.

ghost use Rattle.std.specs.Prelude.{◌≡◌};
ghost use Rattle.disk_file.specs.Refusals.{refusal_of};

use disk_causes::Cause;
use std::io::ErrorKind;
use thiserror::Error;

/// Why a file is not opened as a device.
#[derive(Clone, Copy, Debug, Drop, PartialEq, Eq, Error)]
pub enum FileError {
    /// There is no such file, or no directory for it.
    #[error("the file isn't there")]
    Missing,
    /// The system doesn't open the file, for reading or for writing.
    #[error("the file can't be opened: {0}")]
    Refused(ErrorKind),
    /// It is a directory, a device, a pipe or something else that isn't a regular file.
    #[error("it is no regular file")]
    Irregular,
    /// The file is locked: a server or another command has it.
    #[error("the volume is in use by a server or another command")]
    Held,
    /// The file was opened, and a later call to it failed.
    #[error("{0}")]
    Failed(Cause),
}

impl FileError {
    /// Why the system didn't open a file, by the kind of its error.
    pub fn of(kind: ErrorKind) -> FileError
        ensures { result ≡ refusal_of kind }
    {
        match kind {
            ErrorKind::NotFound => FileError::Missing,
            _ => FileError::Refused(kind),
        }
    }
}
