//! What rows answer.

use anyhow::Result;
use disk::DiskError;
use disk_causes::Cause;
use disk_file::FileError;
use std::io::{self, ErrorKind, Write};

/// What a row answers.
#[derive(Drop)]
pub(crate) enum Said {
    Word(&'static str),
    Number(u64),
    /// The answers to two questions.
    Both(bool, bool),
    /// A file with so many octets, and its mode.
    File(u64, u32),
    Octets(Vec<u8>),
    /// Why the first call of a device failed, if one did.
    Cause(Option<Cause>),
    /// Why the system refuses a call.
    System(ErrorKind),
    /// Why a file isn't opened as a device.
    Refused(FileError),
    /// The same in words.
    Words(FileError),
}

pub(crate) const DONE: Said = Said::Word("done");

pub(crate) const UNREADABLE: Said = Said::Word("unreadable row");

/// There is no device of this name.
pub(crate) const NO_DEVICE: Said = Said::Word("no device");

/// The call's preconditions do not hold, so it was not made.
pub(crate) const NOT_ASKED: Said = Said::Word("not asked");

pub(crate) const NO_MEMORY: Said = Said::Word("no memory");

pub(crate) fn of_device(answer: Result<(), DiskError>) -> Said {
    match answer {
        Ok(()) => DONE,
        Err(DiskError::Fault) => Said::Word("fault"),
        Err(DiskError::Memory) => NO_MEMORY,
    }
}

pub(crate) fn of_system(answer: io::Result<()>) -> Said {
    match answer {
        Ok(()) => DONE,
        Err(error) => Said::System(error.kind()),
    }
}

/// Prints an answer, and the end of its line.
pub(crate) fn print_said<W: Write>(output: &mut W, said: &Said) -> Result<()> {
    match said {
        Said::Word(word) => writeln!(output, "{word}")?,
        Said::Number(number) => writeln!(output, "{number}")?,
        Said::Both(one, other) => writeln!(output, "{one} {other}")?,
        Said::File(octets, mode) => writeln!(output, "a file of {octets}, mode {mode:o}")?,
        Said::Octets(octets) => print_octets(output, octets.as_slice())?,
        Said::Cause(Some(cause)) => writeln!(output, "{cause:?}")?,
        Said::Cause(None) => writeln!(output, "none")?,
        Said::System(kind) => writeln!(output, "{kind:?}")?,
        // what is behind it is the file system's own
        Said::Refused(FileError::Failed(_)) => writeln!(output, "Failed")?,
        Said::Refused(error) => writeln!(output, "{error:?}")?,
        Said::Words(error) => writeln!(output, "{error}")?,
    }
    Ok(())
}

/// Letters and digits stand as they are, any other octet as its number after a backslash.
fn print_octets<W: Write>(output: &mut W, octets: &[u8]) -> Result<()> {
    for octet in octets {
        if octet.is_ascii_alphanumeric() {
            write!(output, "{}", char::from(*octet))?;
        } else {
            write!(output, "\\{octet}")?;
        }
    }
    writeln!(output)?;
    Ok(())
}
