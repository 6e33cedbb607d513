//! The lock on what a session has outside of the kernel, and the flags that other threads set and read without it.

use crate::Hand;
use crate::outgoing::Outgoing;
use std::alloc::{AllocError, Global};
use std::sync::atomic::{AtomicBool, AtomicU64, Ordering};
use std::sync::{Mutex, MutexGuard, Wait};

/// What a session has outside of the kernel, under its lock, and what is known of it without the lock.
#[derive(Drop)]
pub struct Desk {
    outgoing: Mutex<Outgoing>,
    /// Something may be ready that the holder of the lock has not seen. A thread that sets this flag and then does not
    /// get the lock has done its part: the holder looks at the flag once more after it releases the lock.
    is_missed: AtomicBool,
    /// Outputs may be held until a commit. False only if the kernel was seen to hold none, under the lock.
    is_waiting: AtomicBool,
    /// A block is left. It is set and cleared under the lock.
    has_left: AtomicBool,
    /// The socket did not take at once what was written to it, at least once in this session.
    is_slow: AtomicBool,
    /// The octets that were written to the caller, as of the last turn.
    octets_out: AtomicU64,
}

/// A thread's turn with the lock of a desk. It has no `Drop`, so a thread ends it by one of the two functions that say who
/// looks at `is_missed` after it. Until then the thread's hand is lent, or the thread was given none: so it can't wait for
/// another session.
pub struct Turn<'a> {
    outgoing: MutexGuard<'a, Outgoing>,
    desk: &'a Desk,
}

impl Desk {
    /// A desk without a session. Refused only for want of memory.
    pub fn new(alloc: Global) -> Result<Desk, AllocError> {
        Ok(Desk {
            outgoing: Mutex::new(Outgoing::new(alloc)?),
            is_missed: AtomicBool::new(false),
            is_waiting: AtomicBool::new(false),
            has_left: AtomicBool::new(false),
            is_slow: AtomicBool::new(false),
            octets_out: AtomicU64::new(0),
        })
    }

    /// Takes the lock. The hand is lent until the turn ends.
    pub fn turn<'a, R: Wait>(&'a self, rt: &R, _hand: &'a mut Hand) -> Turn<'a> {
        Turn {
            outgoing: self.outgoing.lock(rt),
            desk: self,
        }
    }

    /// Takes the lock if no thread has it. It may also fail if a thread is about to have it.
    pub fn try_turn(&self) -> Option<Turn<'_>> {
        let outgoing = self.outgoing.try_lock()?;
        Some(Turn {
            outgoing,
            desk: self,
        })
    }

    /// Whether outputs may be held until a commit.
    pub fn is_waiting(&self) -> bool {
        self.is_waiting.load(Ordering::SeqCst)
    }

    /// Notes that the holder of the lock is about to take all that is ready. From here on a commit learns that it may be
    /// missed.
    pub fn note_taking(&self) {
        self.is_missed.store(false, Ordering::SeqCst);
        self.is_waiting.store(true, Ordering::SeqCst);
    }

    /// Notes whether outputs may be held, as the kernel said.
    pub fn note_waiting(&self, is_waiting: bool) {
        self.is_waiting.store(is_waiting, Ordering::SeqCst);
    }

    /// Whether something may be ready that a holder of the lock has not seen.
    pub fn is_missed(&self) -> bool {
        self.is_missed.load(Ordering::SeqCst)
    }

    /// Notes that something may be ready.
    pub fn note_missed(&self) {
        self.is_missed.store(true, Ordering::SeqCst);
    }

    /// Whether a block is left.
    pub fn has_left(&self) -> bool {
        self.has_left.load(Ordering::SeqCst)
    }

    /// Whether the socket once did not take at once what was written to it.
    pub fn is_slow(&self) -> bool {
        self.is_slow.load(Ordering::SeqCst)
    }

    /// The octets that were written to the caller, as of the last turn with the lock.
    pub fn octets_out(&self) -> u64 {
        self.octets_out.load(Ordering::SeqCst)
    }

    /// Notes whether the socket did not take at once what was written to it.
    pub fn note_slow(&self, is_slow: bool) {
        self.is_slow.store(is_slow, Ordering::SeqCst);
    }
}

impl<'a> Turn<'a> {
    /// What the session has outside of the kernel.
    pub fn outgoing(&mut self) -> &mut Outgoing {
        &mut *self.outgoing
    }

    /// Notes whether a block is left.
    pub fn note_left(&self, has_left: bool) {
        self.desk.has_left.store(has_left, Ordering::SeqCst);
    }

    /// Lets the lock go, and answers whether something was missed: then the thread takes what is ready.
    pub fn end(self) -> bool {
        let desk = self.desk;
        self.end_before_send();
        desk.is_missed()
    }

    /// Lets the lock go. The session's thread, which alone calls this, calls `send` or `release` before it waits.
    pub fn end_before_send(self) {
        let Turn { outgoing, desk } = self;
        desk.octets_out
            .store(outgoing.octets_out(), Ordering::SeqCst);
        drop(outgoing);
    }
}
