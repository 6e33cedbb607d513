//! Where a test holds the flusher or the releaser, and the flags between its threads.

use crate::kernels::Watch;
use kernel_shared::{Arrivals, Hooks};
use std::alloc::{AllocError, Global};
use std::sync::atomic::{AtomicBool, AtomicU64, Ordering};
use std::sync::{Arc, Mutex, Wait};
use std::thread::{self, Parker};
use test_support_server::{TURNS, turn_until};

/// The turns for which the operator's batch is held, and a session's line once its commit has happened.
const PAUSE: u32 = 1_000;

/// The first post is change 3: the two groups come before it.
const FIRST_POST: u64 = 3;

/// The flags between the threads of a test.
#[derive(Drop)]
pub(crate) struct Flags {
    /// A flush is about to begin.
    pub(crate) flushing: AtomicBool,
    /// A batch is committed, and the mark is raised.
    pub(crate) flushed: AtomicBool,
    /// The caller has read what the test waits for.
    pub(crate) has_read: AtomicBool,
    /// A hook reached the limit of its turns, or saw what it must not.
    pub(crate) failed: AtomicBool,
    /// The next commit is refused, so that the server ends.
    pub(crate) over: AtomicBool,
    /// The answer to the operator: its octets, as the digits of a number.
    pub(crate) answered: Arc<AtomicU64>,
    /// The number of releases that have begun.
    releases: AtomicU64,
}

impl Flags {
    pub(crate) fn new(alloc: Global) -> Result<Flags, AllocError> {
        Ok(Flags {
            flushing: AtomicBool::new(false),
            flushed: AtomicBool::new(false),
            has_read: AtomicBool::new(false),
            failed: AtomicBool::new(false),
            over: AtomicBool::new(false),
            answered: Arc::new(alloc, AtomicU64::new(0))?,
            releases: AtomicU64::new(0),
        })
    }

    /// Takes turns until a flag is set, as a hook does.
    fn hold_until(&self, flag: &AtomicBool) {
        if !turn_until(flag) {
            self.failed.store(true, Ordering::SeqCst);
        }
    }
}

/// What is held, and until when, in a play.
#[derive(Clone, Copy, Debug, PartialEq, Eq)]
pub(crate) enum Holds {
    Nothing,
    /// Nothing is held, and the device fails at its first sync.
    Fault,
    /// The write of the operator's first answer, forever, and the device fails at its first write.
    Unread,
    /// A flush, until a caller has read its reply.
    Flush,
    /// Each release to session 1, until a seat of the mark sees that the first post, which is session 2's, is durable.
    Release,
    /// A flush, for a while in which the operator must get no answer.
    Answer,
    /// The second release, until a seat of the mark sees that the first post is durable, and the thread that releases the
    /// replies of its commit had time to find the session's line taken. That thread may be the one that is held.
    Taken,
}

/// The hooks of a test, with a seat of its own.
#[derive(Drop)]
pub(crate) struct TestHooks<'a> {
    pub(crate) flags: &'a Flags,
    pub(crate) holds: Holds,
    watch: Mutex<Watch<'a>>,
}

impl<'a> TestHooks<'a> {
    pub(crate) fn new(flags: &'a Flags, holds: Holds, watch: Watch<'a>) -> TestHooks<'a> {
        TestHooks {
            flags,
            holds,
            watch: Mutex::new(watch),
        }
    }

    /// Turns until the seat sees the first post. The test fails at the limit.
    fn hold_until_posted(&self) {
        for _ in 0..TURNS {
            if self.sees_post() {
                return;
            }
            thread::yield_now();
        }
        self.flags.failed.store(true, Ordering::SeqCst);
    }

    /// Whether the seat sees that the first post is durable. False while another thread has the seat.
    fn sees_post(&self) -> bool {
        match self.watch.try_lock() {
            Some(mut watch) => watch.durable() >= FIRST_POST,
            None => false,
        }
    }
}

impl<'a> Hooks for TestHooks<'a> {
    fn before_flush(&self) {
        self.flags.flushing.store(true, Ordering::SeqCst);
        match self.holds {
            Holds::Flush => self.flags.hold_until(&self.flags.has_read),
            Holds::Answer => {
                for _ in 0..PAUSE {
                    thread::yield_now();
                }
                if !self.flags.flushed.load(Ordering::SeqCst)
                    && self.flags.answered.load(Ordering::SeqCst) != 0
                {
                    self.flags.failed.store(true, Ordering::SeqCst);
                }
            }
            _ => {}
        }
    }

    fn after_flush(&self) {
        self.flags.flushed.store(true, Ordering::SeqCst);
    }

    fn before_release(&self, sid: u64) {
        let before = self.flags.releases.fetch_add(1, Ordering::SeqCst);
        if self.holds == Holds::Release && sid == 1 {
            self.hold_until_posted();
        }
        if self.holds == Holds::Taken && before == 1 {
            self.hold_until_posted();
            for _ in 0..PAUSE {
                thread::yield_now();
            }
        }
    }

    fn after_release(&self, _sid: u64) {}
}

/// Waits for more blocks than arrive, again and again until a flag is set.
pub(crate) fn gather_until<R: Wait>(rt: &R, arrivals: &Arrivals, flag: &AtomicBool) {
    let bell = Parker::new();
    for _ in 0..TURNS {
        if flag.load(Ordering::SeqCst) {
            return;
        }
        arrivals.gather(rt, &bell, u64::from(u32::MAX));
    }
}

/// Notes blocks until one wakes no thread, because the flusher waits for a later one, and then sets the flag. It is
/// false at the limit.
pub(crate) fn note_until_quiet(arrivals: &Arrivals, flag: &AtomicBool) -> bool {
    let mut is_quiet = false;
    for _ in 0..TURNS {
        if !arrivals.note(true) {
            is_quiet = true;
            break;
        }
        thread::yield_now();
    }
    flag.store(true, Ordering::SeqCst);
    is_quiet
}
