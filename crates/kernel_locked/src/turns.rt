//! Turns that come in the order in which they were asked for. A lock would often go to the thread that has just let it go, before one that
//! waits is awake.
//!
//! They are a lock all the same: whoever has a turn waits for the kernel's lock alone, and for no session. So a thread may wait for one
//! while it holds its session's desk, as it may for a lock, and isn't asked for its hand.

use std::sync::{Condvar, Mutex, Wait};

/// How many turns were asked for, and how many are over. They are counted round the numbers that there are.
#[derive(Drop)]
struct Counted {
    asked: u64,
    over: u64,
}

/// Turns of which one lasts at a time.
#[derive(Drop)]
pub(crate) struct Turns {
    counted: Mutex<Counted>,
    moved: Condvar,
}

impl Turns {
    /// Nobody has a turn, and nobody waits.
    pub(crate) fn new() -> Turns {
        Turns {
            counted: Mutex::new(Counted { asked: 0, over: 0 }),
            moved: Condvar::new(),
        }
    }

    /// Waits for a turn, which lasts until `end`. Those who asked before make an answer each, and no more.
    pub(crate) fn begin<R: Wait>(&self, rt: &R) {
        let mut counted = self.counted.lock(rt);
        let own = counted.asked;
        counted.asked = own.wrapping_add(1);
        let _counted = self
            .moved
            .wait_while(rt, counted, |counted| counted.over != own);
    }

    /// Ends the turn, so that the next one begins.
    pub(crate) fn end<R: Wait>(&self, rt: &R) {
        let mut counted = self.counted.lock(rt);
        counted.over = counted.over.wrapping_add(1);
        self.moved.notify_all();
    }
}
