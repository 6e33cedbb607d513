//! The call of the server.

use crate::answers::{Verdict, line_of, read_answer};
use std::alloc::{AllocError, Global};
use std::io::{self, BufReader, ErrorKind, Write};
use std::net::Net;
use std::os::unix::net::UnixStream;
use std::sync::Wait;
use thiserror::Error;

/// The status where nobody answers.
pub const NOT_ANSWERED: u8 = 2;

/// The status of any other refusal.
const REFUSED: u8 = 1;

/// Why there is no answer.
#[derive(Debug, Drop, Error)]
pub enum NoAnswer {
    /// Nobody answers at the socket.
    #[error("nobody answers: {0}")]
    Nobody(io::Error),
    /// What came is no whole answer.
    #[error("the answer has no end: the server was killed, or it is another one")]
    Cut,
    /// The answer can't be read to its end.
    #[error("the answer has no end: {0}")]
    Unread(io::Error),
    /// The answer can't be written.
    #[error(transparent)]
    Unwritten(io::Error),
    /// An allocation was refused.
    #[error("E2 Memory")]
    Memory,
}

impl NoAnswer {
    /// Lines can't be read.
    pub(crate) fn unread(error: io::Error) -> NoAnswer {
        match error.kind() {
            ErrorKind::OutOfMemory => NoAnswer::Memory,
            _ => NoAnswer::Unread(error),
        }
    }

    /// A line can't be written.
    pub(crate) fn unwritten(error: io::Error) -> NoAnswer {
        match error.kind() {
            ErrorKind::OutOfMemory => NoAnswer::Memory,
            _ => NoAnswer::Unwritten(error),
        }
    }

    /// The status with which the program ends.
    pub fn status(&self) -> u8 {
        match self {
            NoAnswer::Nobody(_) | NoAnswer::Cut | NoAnswer::Unread(_) => NOT_ANSWERED,
            NoAnswer::Unwritten(_) | NoAnswer::Memory => REFUSED,
        }
    }
}

impl From<AllocError> for NoAnswer {
    fn from(_error: AllocError) -> NoAnswer {
        NoAnswer::Memory
    }
}

/// Asks the server at a socket one line, which these words are, and writes the answer. A refusal leaves open whether the server has done
/// what it was asked for, except `Nobody`.
pub fn ask<R: Net + Wait, W: Write>(
    rt: &R,
    alloc: Global,
    socket: &str,
    words: &[&str],
    output: &mut W,
) -> Result<Verdict, NoAnswer> {
    let line = line_of(alloc, words)?;
    let stream = UnixStream::connect(rt, socket).map_err(NoAnswer::Nobody)?;
    let mut server = &stream;
    // who isn't let in is told so, whether the line is taken or not
    let _ = server.write_all(line.as_bytes());
    let mut lines = BufReader::new(alloc, server).map_err(NoAnswer::unread)?;
    read_answer(rt, alloc, &mut lines, output)
}
