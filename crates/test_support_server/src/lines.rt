//! The lines that a server writes, for the test to read.

use std::alloc::{AllocError, Global};
use std::io::{self, Write};
use std::sync::{Arc, Mutex, Wait};
use std::thread;
use std::time::{Clock, Duration};

/// A test waits for a line for at most this many milliseconds.
const WAIT_MILLIS: u32 = 30_000;

/// Lines that were written.
pub struct Lines {
    text: Arc<Mutex<Vec<u8>>, Global>,
}

// By hand: a crate of tests that drops one would otherwise prove the derived one again, field by field.
impl Drop for Lines {
    fn drop(self) {
        let Lines { text: _ } = self;
    }
}

impl Lines {
    pub fn new(alloc: Global) -> Result<Lines, AllocError> {
        Ok(Lines {
            text: Arc::new(alloc, Mutex::new(Vec::new(alloc)))?,
        })
    }

    /// A writer of these lines.
    pub fn writer<R: Wait + Copy>(&self, rt: &R) -> Result<Writer<R>, AllocError> {
        Ok(Writer {
            rt: *rt,
            text: Arc::try_clone(&self.text)?,
        })
    }

    /// Whether a line with this end comes in time.
    pub fn have<R: Wait + Clock>(&self, rt: &R, end: &str) -> bool {
        for _ in 0..WAIT_MILLIS {
            if has_line(self.text.lock(rt).as_slice(), end.as_bytes()) {
                return true;
            }
            thread::sleep(rt, Duration::from_millis(1));
        }
        false
    }

    /// Whether this many lines come in time.
    pub fn are<R: Wait + Clock>(&self, rt: &R, count: usize) -> bool {
        for _ in 0..WAIT_MILLIS {
            if line_count(self.text.lock(rt).as_slice()) >= count {
                return true;
            }
            thread::sleep(rt, Duration::from_millis(1));
        }
        false
    }

    /// Whether this is what was written last.
    pub fn end_with<R: Wait>(&self, rt: &R, end: &str) -> bool {
        self.text.lock(rt).as_slice().ends_with(end.as_bytes())
    }

    /// How many lines have this part.
    pub fn count<R: Wait>(&self, rt: &R, part: &str) -> usize {
        let text = self.text.lock(rt);
        text.split(|octet| *octet == b'\n')
            .filter(|line| has_part(line, part.as_bytes()))
            .count()
    }
}

/// Whether a text has a line with this end.
fn has_line(text: &[u8], end: &[u8]) -> bool {
    text.split(|octet| *octet == b'\n')
        .any(|line| line.ends_with(end))
}

fn line_count(text: &[u8]) -> usize {
    text.iter().filter(|octet| **octet == b'\n').count()
}

/// Whether a line has a field, between two spaces, with this text.
fn has_part(line: &[u8], part: &[u8]) -> bool {
    line.split(|octet| *octet == b' ')
        .any(|field| field == part)
}

/// A writer of lines.
#[derive(Drop)]
pub struct Writer<R> {
    rt: R,
    text: Arc<Mutex<Vec<u8>>, Global>,
}

impl<R: Wait> Write for Writer<R> {
    fn write(&mut self, octets: &[u8]) -> io::Result<usize> {
        self.text.lock(&self.rt).extend_from_slice(octets)?;
        Ok(octets.len())
    }

    fn flush(&mut self) -> io::Result<()> {
        Ok(())
    }
}
