//! Why the system refused a call to a file: in words, by a name, and the first cause of several as threads share it.
#![tactic(auto)]

mod first;

ghost use Rattle.std.specs.Prelude.{◌≡◌, Some};
ghost use Rattle.std.specs.IoError.{error_kind, raw_os_error};
ghost use Rattle.disk_causes.specs.Causes.{by_kind, by_number, cause_of, name_of, words_of};

pub use first::FirstCause;
use std::fmt::{self, Display};
use std::io::{Error, ErrorKind};

/// The number of an error of input or output in Linux (errno(3)). It has no kind of its own.
const EIO: i32 = 5;

/// Why the system refused a call to a file.
#[derive(Clone, Copy, Debug, Drop, PartialEq, Eq)]
pub enum Cause {
    /// The file system has no block left.
    NoSpace,
    /// The owner has as many blocks as the file system allows.
    Quota,
    /// The file system is mounted to be read only.
    ReadOnly,
    /// The file would have more octets than the file system or a limit of the process allows.
    TooLarge,
    /// The device below the file system failed.
    Io,
    /// The process has no right to it.
    Denied,
    /// The file, or a directory of its path, isn't there.
    Missing,
    /// The server of a network's file system no longer has the file.
    Stale,
    /// The file ended before the octets that were asked for.
    Short,
    /// Others moved, removed, replaced or cut the file, or wrote to it, while it was open.
    Replaced,
    /// Anything else.
    Other,
}

impl Cause {
    /// The cause of an error of the system.
    pub fn of(error: &Error) -> Cause
        ensures { result ≡ cause_of (error_kind error.now) (raw_os_error error.now) }
    {
        match by_kind(error.kind()) {
            Cause::Other => by_number(error.raw_os_error()),
            cause => cause,
        }
    }
}

/// The cause of an error of this kind, if the kind says it.
fn by_kind(kind: ErrorKind) -> Cause
    ensures { result ≡ by_kind kind }
{
    match kind {
        ErrorKind::StorageFull => Cause::NoSpace,
        ErrorKind::QuotaExceeded => Cause::Quota,
        ErrorKind::ReadOnlyFilesystem => Cause::ReadOnly,
        ErrorKind::FileTooLarge => Cause::TooLarge,
        ErrorKind::PermissionDenied => Cause::Denied,
        ErrorKind::NotFound => Cause::Missing,
        ErrorKind::StaleNetworkFileHandle => Cause::Stale,
        ErrorKind::UnexpectedEof => Cause::Short,
        _ => Cause::Other,
    }
}

/// The cause of an error with this number of the system, if the number alone says it.
fn by_number(number: Option<i32>) -> Cause
    ensures { result ≡ by_number number }
{
    match number {
        Some(EIO) => Cause::Io,
        _ => Cause::Other,
    }
}

/// The words of a cause.
impl Display for Cause {
    ghost output = { λ cause. Some (words_of cause) };

    fn fmt<W: fmt::Write>(&self, f: &mut fmt::Formatter<W>) -> fmt::Result {
        f.write_str(match self {
            Cause::NoSpace => "no space left on the file system",
            Cause::Quota => "no space left within the quota",
            Cause::ReadOnly => "the file system is read-only",
            Cause::TooLarge => "the file may not grow so large",
            Cause::Io => "I/O error",
            Cause::Denied => "permission denied",
            Cause::Missing => "the file isn't there",
            Cause::Stale => "the file's server no longer has it",
            Cause::Short => "the file is too short",
            Cause::Replaced => "the file was replaced, moved, removed, cut or changed by another",
            Cause::Other => "the device failed",
        })
    }
}

/// A cause that is shown by its name, as fields of the log have it.
#[derive(Clone, Copy, Debug, Drop, PartialEq, Eq)]
pub struct CauseName(pub Cause);

impl Display for CauseName {
    ghost output = { λ named. Some (name_of named.0) };

    fn fmt<W: fmt::Write>(&self, f: &mut fmt::Formatter<W>) -> fmt::Result {
        f.write_str(match self.0 {
            Cause::NoSpace => "nospace",
            Cause::Quota => "quota",
            Cause::ReadOnly => "readonly",
            Cause::TooLarge => "toolarge",
            Cause::Io => "io",
            Cause::Denied => "denied",
            Cause::Missing => "missing",
            Cause::Stale => "stale",
            Cause::Short => "short",
            Cause::Replaced => "replaced",
            Cause::Other => "other",
        })
    }
}
