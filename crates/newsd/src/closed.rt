//! Standard streams that are closed when the program starts.

use std::fs::File;
use std::io;
use std::os::fd::{AsRawFd, RawFd};
use std::rt::Files;

/// What is opened in place of a closed stream.
pub(crate) const NULL_DEVICE: &str = "/dev/null";

/// The descriptor of standard input.
const INPUT: RawFd = 0;

/// The descriptor of standard error, the last of the three.
const FAULTS: RawFd = 2;

/// The places of the standard streams that were closed. While this is held, no file or socket that is opened gets the
/// descriptor of one of the three streams, so what is written to a stream never goes to a volume.
#[derive(Drop)]
pub(crate) struct ClosedStreams {
    _input: Option<File>,
    _output: Option<File>,
    _faults: Option<File>,
}

impl ClosedStreams {
    /// Opens the null device in the place of each standard stream that is closed, so it is called before anything else
    /// is opened. It is opened for writing as standard input, and for reading as the others: using a closed stream
    /// still fails. Refused if the null device can't be opened; then nothing is held.
    pub(crate) fn hold<R: Files<File = File>>(rt: &R) -> io::Result<ClosedStreams> {
        Ok(ClosedStreams {
            _input: if_at_most(INPUT, File::options().write(true).open(rt, NULL_DEVICE)?),
            _output: if_at_most(FAULTS, File::open(rt, NULL_DEVICE)?),
            _faults: if_at_most(FAULTS, File::open(rt, NULL_DEVICE)?),
        })
    }
}

/// An open file, if its descriptor is at most this one. Otherwise it is closed. The system gives each file the lowest
/// descriptor that is free.
fn if_at_most(last: RawFd, file: File) -> Option<File> {
    if file.as_raw_fd() <= last {
        Some(file)
    } else {
        None
    }
}
