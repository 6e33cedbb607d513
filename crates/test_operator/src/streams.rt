//! The source of the lines, and the destination of the answers.

use std::io::{self, BufRead, Read, Write};
use std::sync::atomic::{AtomicU64, Ordering};
use std::sync::{Arc, Mutex, Wait};
use std::thread::Parker;

/// Lines, once or repeated without end.
#[derive(Drop)]
pub(crate) struct Lines {
    pub(crate) octets: Vec<u8>,
    pub(crate) is_endless: bool,
    /// The number of octets that were read, plus one once the end was read.
    pub(crate) read: Arc<AtomicU64>,
}

impl Lines {
    /// What comes next, empty at the end.
    fn rest(&self) -> &[u8] {
        let (read, len) = (self.read.load(Ordering::SeqCst), self.octets.len() as u64);
        if len == 0 || (read >= len && !self.is_endless) {
            return &[];
        }
        let at = (read % len) as usize;
        &self.octets.as_slice()[at..]
    }
}

impl Read for Lines {
    fn read(&mut self, into: &mut [u8]) -> io::Result<usize> {
        let Some(place) = into.first_mut() else {
            return Ok(0);
        };
        let next = self.rest().first().copied();
        self.read.fetch_add(1, Ordering::SeqCst);
        match next {
            Some(octet) => {
                *place = octet;
                Ok(1)
            }
            None => Ok(0),
        }
    }
}

impl BufRead for Lines {
    fn fill_buf(&mut self) -> io::Result<&[u8]> {
        Ok(self.rest())
    }

    fn consume(&mut self, amount: usize) {
        self.read.fetch_add(amount as u64, Ordering::SeqCst);
    }
}

/// What the operator has read. If nothing is read, a write never ends.
#[derive(Drop)]
pub(crate) struct Answers<R> {
    pub(crate) rt: R,
    pub(crate) text: Arc<Mutex<Vec<u8>>>,
    pub(crate) is_read: bool,
}

impl<R: Wait> Write for Answers<R> {
    fn write(&mut self, octets: &[u8]) -> io::Result<usize> {
        let never = Parker::new();
        for _ in self.rt.forever() {
            if self.is_read {
                break;
            }
            never.park(&self.rt);
        }
        self.text.lock(&self.rt).extend_from_slice(octets)?;
        Ok(octets.len())
    }

    fn flush(&mut self) -> io::Result<()> {
        Ok(())
    }
}
