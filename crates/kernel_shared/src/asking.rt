//! How a thread that takes the kernel's lock again and again makes room for the sessions' threads.

use std::sync::atomic::{AtomicU64, Ordering};
use std::thread;

/// Such a thread lets others run so many times before it takes the lock again, until a message was answered.
const YIELDS: u32 = 32;

/// The sessions' threads that have a message answered: a thread that takes the kernel's lock again and again makes room for
/// them.
#[derive(Drop)]
pub struct Asking {
    /// How many have a message answered at the moment.
    now: AtomicU64,
    /// How many messages were answered.
    answered: AtomicU64,
}

impl Asking {
    /// No message was answered yet.
    pub fn new() -> Asking {
        Asking {
            now: AtomicU64::new(0),
            answered: AtomicU64::new(0),
        }
    }

    /// A session's thread is about to have a message answered.
    pub fn begin(&self) {
        self.now.fetch_add(1, Ordering::SeqCst);
    }

    /// The message was answered, or refused.
    pub fn end(&self) {
        self.now.fetch_sub(1, Ordering::SeqCst);
        self.answered.fetch_add(1, Ordering::SeqCst);
    }

    /// Lets other threads run where one of them has a message answered, until one message was. Otherwise a thread that files
    /// block after block, or counts part after part, would have the kernel's lock again before anyone who waits for it is awake.
    pub fn make_room(&self) {
        let seen = self.answered.load(Ordering::SeqCst);
        for _ in 0..YIELDS {
            if self.now.load(Ordering::SeqCst) == 0
                || self.answered.load(Ordering::SeqCst) != seen
            {
                return;
            }
            thread::yield_now();
        }
    }
}
