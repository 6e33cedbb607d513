//! How the threads wake one another. Each waiter has its bell; a ring that comes before the wait is not lost.

use crate::arrivals::Arrivals;
use crate::{Hand, Hooks};
use std::sync::Wait;
use std::sync::atomic::{AtomicBool, AtomicU64, Ordering};
use std::thread::Parker;

/// A bell on which any number of threads wait. A waiter first notes the count, then looks for work, and then sleeps as
/// long as the count is the one that it noted.
#[derive(Drop)]
pub struct Bell {
    rings: AtomicU64,
    sleepers: AtomicU64,
}

impl Bell {
    /// A bell that never rang, and on which nobody waits.
    pub fn new() -> Bell {
        Bell {
            rings: AtomicU64::new(0),
            sleepers: AtomicU64::new(0),
        }
    }

    /// The number of rings so far.
    pub fn count(&self) -> u64 {
        self.rings.load(Ordering::SeqCst)
    }

    /// Rings, and wakes all threads that wait.
    pub fn ring(&self) {
        self.rings.fetch_add(1, Ordering::SeqCst);
        if self.sleepers.load(Ordering::SeqCst) != 0 {
            self.rings.wake_all();
        }
    }

    /// Waits as long as the number of rings is the noted one. The hand shows that the thread holds no session's desk.
    pub fn wait_past<R: Wait>(&self, rt: &R, _hand: &mut Hand, noted: u64) {
        self.sleepers.fetch_add(1, Ordering::SeqCst);
        for _ in rt.forever() {
            if self.count() != noted {
                break;
            }
            self.rings.park(rt, (noted & 0xffff_ffff) as u32);
        }
        self.sleepers.fetch_sub(1, Ordering::SeqCst);
    }
}

/// The bells of the server's threads, and how far the server's stop has progressed.
#[derive(Drop)]
pub struct Bells {
    /// There may be something to flush.
    pub flusher: Parker,
    /// A batch is committed: there may be something to release.
    pub releaser: Parker,
    /// The mark was raised, or the flusher has stopped.
    pub operator: Parker,
    /// The volume's file shall be looked at now.
    pub watcher: Parker,
    /// Rung when a batch is taken: a message that was refused with E8 (LaterDirty) may be tried again.
    pub later: Bell,
    pub arrivals: Arrivals,
    /// The operator has asked for the server's end.
    is_stopping: AtomicBool,
    /// The flusher has stopped because of that, with every accepted change durable.
    has_stopped: AtomicBool,
}

impl Bells {
    /// Bells that never rang, of a server whose end was not asked for.
    pub fn new() -> Bells {
        Bells {
            flusher: Parker::new(),
            releaser: Parker::new(),
            operator: Parker::new(),
            watcher: Parker::new(),
            later: Bell::new(),
            arrivals: Arrivals::new(),
            is_stopping: AtomicBool::new(false),
            has_stopped: AtomicBool::new(false),
        }
    }

    /// Asks for the server's end: from now on nothing more is read from any caller, and the flusher stops once every
    /// accepted change is durable.
    pub fn ask_to_stop(&self) {
        self.is_stopping.store(true, Ordering::SeqCst);
        self.flush_now();
    }

    /// Whether the server's end was asked for. A thread looks at this before it reads from a caller, and an acceptor
    /// before it hands on a caller whose session was joined.
    pub fn is_stopping(&self) -> bool {
        self.is_stopping.load(Ordering::SeqCst)
    }

    /// Notes that the flusher is about to stop as it was asked to.
    pub fn note_stop(&self) {
        self.has_stopped.store(true, Ordering::SeqCst);
    }

    /// Whether the flusher has stopped as it was asked to. It says so once a seat of the mark has seen the stop.
    pub fn has_stopped(&self) -> bool {
        self.has_stopped.load(Ordering::SeqCst)
    }

    /// Notes that a command that asks for a block was served, or a block, which may have brought a change.
    pub fn note_post(&self, is_block: bool) {
        if self.arrivals.note(is_block) {
            self.flusher.unpark();
        }
    }

    /// Has the dirty blocks flushed without waiting for more.
    pub fn flush_now(&self) {
        self.arrivals.hurry();
        self.flusher.unpark();
    }
}

/// Hooks that ring the bells of a flush before they call the other ones.
#[derive(Clone, Copy)]
pub struct Ringing<'a, 'b, H: Hooks> {
    pub bells: &'a Bells,
    pub hooks: &'b H,
}

impl<'a, 'b, H: Hooks> Hooks for Ringing<'a, 'b, H> {
    fn before_flush(&self) {
        self.bells.later.ring();
        self.hooks.before_flush();
    }

    fn after_flush(&self) {
        self.bells.arrivals.note_commit();
        self.bells.releaser.unpark();
        self.bells.operator.unpark();
        self.hooks.after_flush();
    }

    fn after_batch(&self) {
        self.hooks.after_batch();
    }

    fn before_release(&self, sid: u64) {
        self.hooks.before_release(sid);
    }

    fn after_release(&self, sid: u64) {
        self.hooks.after_release(sid);
    }
}
