//! Why the program ends before its input does, and the status with which it then ends.

ghost use Rattle.std.specs.Prelude.{◌≡◌};
ghost use Rattle.program_printing.specs.declared.failure.Failure.TheVariants.{Memory};
ghost use Rattle.program_printing.specs.Status.{status_of};
ghost use Rattle.program_printing.specs.Streams.{failure_of};

use crate::{CommandError, NOT_UNDERSTOOD, REFUSED};
use kernel::OpenError;
use program_script::escaped;
use std::alloc::{AllocError, AllocFailed, Global};
use std::io::{self, ErrorKind};
use thiserror::Error;

/// Why the program ends before its input does.
#[derive(Debug, Drop, Error)]
pub enum Failure {
    /// An allocation was refused.
    #[error("E2 Memory")]
    Memory,
    /// A word is outside its grammar or range.
    #[error("E14 Bad")]
    Bad,
    /// A word is outside its grammar or range: which one, and what it is not.
    #[error("E14 Bad: {0}")]
    BadWord(String),
    /// The new volume was refused.
    #[error(transparent)]
    NotOpened(OpenError),
    /// The line with this number, from 1, is not an event. The events before it are done and printed.
    #[error("line {0}: bad event")]
    BadEvent(u64),
    /// A command over a volume in a file was refused.
    #[error(transparent)]
    Command(CommandError),
    /// The input could not be read or the output not written.
    #[error(transparent)]
    Stream(io::Error),
}

impl Failure {
    /// The refusal of a word that is outside its grammar: `NAME 'WORD' FAULT`, with the word in its printed form.
    /// `Memory` if an allocation was refused.
    pub fn bad_word(alloc: Global, name: &str, word: &str, fault: &str) -> Failure
        ensures { status_of result ≡ 1 }
    {
        match complaint(alloc, name, word, fault) {
            Ok(text) => Failure::BadWord(text),
            Err(_) => Failure::Memory,
        }
    }

    /// The status with which the program ends.
    pub fn status(&self) -> u8
        ensures { result ≡ status_of self.now }
    {
        match self {
            Failure::BadEvent(_) => NOT_UNDERSTOOD,
            _ => REFUSED,
        }
    }
}

/// What is said of a word that is outside its grammar.
fn complaint(alloc: Global, name: &str, word: &str, fault: &str) -> Result<String, AllocError> {
    let octets = escaped(alloc, word.as_bytes())?;
    let shown = str::from_utf8(octets.as_slice()).unwrap_or("");
    format!(in alloc; "{name} '{shown}' {fault}")
}

impl From<AllocError> for Failure {
    ghost from_gives = { λ _ failure. failure ≡ Memory };

    fn from(_error: AllocError) -> Failure {
        Failure::Memory
    }
}

impl<T: Drop> From<AllocFailed<T>> for Failure {
    ghost from_gives = { λ _ failure. failure ≡ Memory };

    fn from(_error: AllocFailed<T>) -> Failure {
        Failure::Memory
    }
}

impl From<CommandError> for Failure {
    fn from(error: CommandError) -> Failure {
        Failure::Command(error)
    }
}

impl From<io::Error> for Failure {
    ghost from_gives = { λ error failure. failure ≡ failure_of error };

    /// A stream error for want of memory counts as any other refusal of memory.
    fn from(error: io::Error) -> Failure {
        match error.kind() {
            ErrorKind::OutOfMemory => Failure::Memory,
            _ => Failure::Stream(error),
        }
    }
}
