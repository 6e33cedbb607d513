//! The refusals of a command over a volume in a file.

ghost use Rattle.std.specs.Prelude.{◌≡◌};
ghost use Rattle.program_printing.specs.declared.errors.CommandError.TheVariants.{Memory};
ghost use Rattle.program_printing.specs.Faults.{because};
ghost use Rattle.program_printing.specs.Streams.{command_error_of};

use disk_causes::Cause;
use disk_file::FileError;
use journal::JournalError;
use kernel::OpenError;
use std::alloc::AllocError;
use std::io::{self, ErrorKind};
use std::net::SocketAddr;
use thiserror::Error;

/// Why a command over a volume in a file was not done.
#[derive(Debug, Drop, Error)]
pub enum CommandError {
    /// The device failed, and nothing says why.
    #[error("E1 Fault: the device failed")]
    Fault,
    /// The device failed for this cause.
    #[error("E1 Fault: {0}")]
    Failed(Cause),
    /// The file is not opened as a device.
    #[error("E1 Fault: {0}")]
    NoDevice(FileError),
    /// This process holds the volume.
    #[error("E1 Fault: the volume is in use by process {0}")]
    HeldBy(u32),
    /// An allocation was refused.
    #[error("E2 Memory")]
    Memory,
    /// The file does not hold a volume.
    #[error("E3 NotAVolume")]
    NotAVolume,
    /// The journal was halted before.
    #[error("E4 Halted")]
    Halted,
    /// The volume holds no spool.
    #[error(transparent)]
    NotOpened(OpenError),
    /// The volume holds no spool, and this is wrong with it, in words.
    #[error("{0}: {1}")]
    Found(OpenError, String),
    /// There is no room for the change.
    #[error("E6 Full")]
    Full,
    /// The group exists already.
    #[error("E11 Exists: the group is here already")]
    Exists,
    /// The group does not exist.
    #[error("E12 NotFound: the group isn't here")]
    NotFound,
    /// The group exists, and the number is below its lowest or above its highest.
    #[error("E12 NotFound: the group has no article of this number")]
    NoArticle,
    /// It is not possible to listen on an endpoint.
    #[error("can't listen on {0}: {1}")]
    NotBound(SocketAddr, io::Error),
    /// The file for a monitor can't be written.
    #[error("can't write the file of --metrics: {0}")]
    NoMetrics(io::Error),
    /// The file for a monitor, or the one beside it, is the volume.
    #[error("E14 Bad: --metrics FILE or FILE.part is the volume")]
    MetricsOverVolume,
    /// It is no regular file.
    #[error("E14 Bad: --metrics FILE is no regular file")]
    MetricsIrregular,
    /// It, or the one beside it, has octets that no server wrote.
    #[error("E14 Bad: --metrics FILE or FILE.part isn't empty, and newsd hasn't written it")]
    MetricsForeign,
    /// What stands where the control socket is to be is no socket.
    #[error("E14 Bad: --control SOCKET is no socket")]
    ControlForeign,
    /// Somebody answers at the socket that stands there.
    #[error("E14 Bad: --control SOCKET is one that somebody answers")]
    ControlAnswered,
    /// The control socket can't be made.
    #[error("can't make the socket of --control: {0}")]
    NoControl(io::Error),
    /// A socket or a stream failed.
    #[error(transparent)]
    Stream(io::Error),
}

impl CommandError {
    /// The refusal of a device that failed first for this cause. Any other refusal stays what it is.
    pub fn because(self, cause: Option<Cause>) -> CommandError
        ensures { result ≡ because self cause }
    {
        match (self, cause) {
            (CommandError::Fault, Some(cause)) => CommandError::Failed(cause),
            (error, _) => error,
        }
    }
}

impl From<AllocError> for CommandError {
    ghost from_gives = { λ _ refused. refused ≡ Memory };

    fn from(_error: AllocError) -> CommandError {
        CommandError::Memory
    }
}

impl From<io::Error> for CommandError {
    ghost from_gives = { λ error refused. refused ≡ command_error_of error };

    /// A stream error for want of memory counts as any other refusal of memory.
    fn from(error: io::Error) -> CommandError {
        match error.kind() {
            ErrorKind::OutOfMemory => CommandError::Memory,
            _ => CommandError::Stream(error),
        }
    }
}

impl From<JournalError> for CommandError {
    fn from(error: JournalError) -> CommandError {
        match error {
            JournalError::Fault => CommandError::Fault,
            JournalError::Memory => CommandError::Memory,
            JournalError::NotAVolume => CommandError::NotAVolume,
            JournalError::Halted => CommandError::Halted,
        }
    }
}
