//! The writers of all sessions' threads.

use crate::ReplyWriter;
use server_places::{Held, Places};
use std::alloc::{AllocError, Global};
use std::sync::atomic::{AtomicUsize, Ordering};
use std::sync::{OnceLock, Wait};

/// A writer for each session's thread that was started. They are made one after another, as callers come, and stay.
#[derive(Drop)]
pub struct Writers {
    made: Vec<OnceLock<Box<ReplyWriter>>>,
    count: AtomicUsize,
    /// For their sessions' large replies.
    pub(crate) places: Places,
}

impl Writers {
    /// Room for so many writers, of which none is made.
    pub fn new(alloc: Global, most: usize) -> Result<Writers, AllocError> {
        let mut made = Vec::with_capacity(alloc, most)?;
        for _ in 0..most {
            made.push(OnceLock::new())?;
        }
        Ok(Writers {
            made,
            count: AtomicUsize::new(0),
            places: Places::new(alloc, most)?,
        })
    }

    /// Makes one more. `None` if all are made, or memory is refused. One thread at a time calls this.
    pub fn make<R: Wait>(&self, rt: &R, alloc: Global) -> Option<&ReplyWriter> {
        let place = self.len();
        let slot = self.made.get(place)?;
        let writer = Box::new(alloc, ReplyWriter::new(alloc, place).ok()?).ok()?;
        if slot.set(rt, writer).is_err() {
            return None;
        }
        self.count.store(place + 1, Ordering::SeqCst);
        self.get(place)
    }

    /// The number of those that are made.
    pub fn len(&self) -> usize {
        self.count.load(Ordering::SeqCst)
    }

    /// The writer at a place; `None` behind the last one that is made.
    pub fn get(&self, place: usize) -> Option<&ReplyWriter> {
        match self.made.get(place)?.get() {
            Some(writer) => Some(&**writer),
            None => None,
        }
    }

    /// Frees a place, and wakes the thread whose session is given it.
    pub(crate) fn free_place<R: Wait>(&self, rt: &R, place: Held) {
        self.wake(self.places.free(rt, place));
    }

    /// Has a writer's session wait for a place no more.
    pub(crate) fn forget<R: Wait>(&self, rt: &R, writer: usize) {
        self.wake(self.places.forget(rt, writer));
    }

    /// Has nobody wait for a place from now on, as the kernel is halted.
    pub fn open_places<R: Wait>(&self, rt: &R) {
        self.places.open(rt);
        for place in 0..self.len() {
            self.wake(Some(place));
        }
    }

    /// Wakes a session's thread.
    fn wake(&self, writer: Option<usize>) {
        if let Some(place) = writer
            && let Some(writer) = self.get(place)
        {
            writer.wake_session();
        }
    }
}
