//! The operator of a test.

use crate::waits::sleep_until;
use std::alloc::Global;
use std::io::{self, BufRead, Read};
use std::sync::Arc;
use std::sync::atomic::AtomicBool;
use std::time::Clock;

/// The operator's lines: the first at once, and the last once they are due.
pub struct Operator<R: Clock + Drop> {
    pub rt: R,
    pub is_due: Arc<AtomicBool, Global>,
    pub first: &'static [u8],
    pub last: &'static [u8],
}

impl<R: Clock + Drop> Drop for Operator<R> {
    fn drop(self) {
        let Operator {
            rt: _,
            is_due: _,
            first: _,
            last: _,
        } = self;
    }
}

impl<R: Clock + Drop> Operator<R> {
    fn wait(&self) {
        if self.first.is_empty() {
            sleep_until(&self.rt, &self.is_due);
        }
    }
}

impl<R: Clock + Drop> Read for Operator<R> {
    fn read(&mut self, into: &mut [u8]) -> io::Result<usize> {
        self.wait();
        if self.first.is_empty() {
            self.last.read(into)
        } else {
            self.first.read(into)
        }
    }
}

impl<R: Clock + Drop> BufRead for Operator<R> {
    fn fill_buf(&mut self) -> io::Result<&[u8]> {
        self.wait();
        if self.first.is_empty() {
            Ok(self.last)
        } else {
            Ok(self.first)
        }
    }

    fn consume(&mut self, amount: usize) {
        if self.first.is_empty() {
            self.last.consume(amount);
        } else {
            self.first.consume(amount);
        }
    }
}
