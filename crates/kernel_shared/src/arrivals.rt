//! How the flusher gathers a batch. Callers whose replies it has just released often send again at once. It waits a
//! little for them, so that the changes of all share the syncs of one batch.

use std::sync::Wait;
use std::sync::atomic::{AtomicBool, AtomicU64, Ordering};
use std::thread::Parker;
use std::time::Duration;

/// The wait ends once no part of a post was served for this many microseconds.
const PAUSE_MICROS: u64 = 1000;

/// The wait takes at most this many pauses.
const PAUSES: u32 = 20;

/// Counts of what the sessions have served of posts and transfers, as the flusher needs them.
#[derive(Drop)]
pub struct Arrivals {
    /// The commands that ask for a block, and the blocks.
    served: AtomicU64,
    /// Only the blocks. Each may have brought a change.
    blocks: AtomicU64,
    /// The blocks that were served before the last commit.
    before_commit: AtomicU64,
    /// The flusher waits for this block, and need not be woken for an earlier one. 0 if it waits for none.
    awaited: AtomicU64,
    /// Some thread cannot continue before a batch is taken.
    is_hurried: AtomicBool,
}

impl Arrivals {
    /// Counts before anything was served. No thread is in a hurry.
    pub fn new() -> Arrivals {
        Arrivals {
            served: AtomicU64::new(0),
            blocks: AtomicU64::new(0),
            before_commit: AtomicU64::new(0),
            awaited: AtomicU64::new(0),
            is_hurried: AtomicBool::new(false),
        }
    }

    /// Notes that a command that asks for a block was served, or a block. Answers whether the flusher must be woken.
    pub fn note(&self, is_block: bool) -> bool {
        self.served.fetch_add(1, Ordering::SeqCst);
        if !is_block {
            return false;
        }
        let number = self.blocks.fetch_add(1, Ordering::SeqCst).wrapping_add(1);
        number >= self.awaited.load(Ordering::SeqCst)
    }

    /// Notes that the flusher has committed a batch and is about to release what waited for it.
    pub fn note_commit(&self) {
        self.before_commit
            .store(self.blocks.load(Ordering::SeqCst), Ordering::SeqCst);
    }

    /// Makes the flusher take the next batch without waiting, until the next turn begins.
    pub fn hurry(&self) {
        self.is_hurried.store(true, Ordering::SeqCst);
    }

    /// Begins a turn.
    pub fn begin_turn(&self) {
        self.is_hurried.store(false, Ordering::SeqCst);
    }

    /// Waits until as many blocks were served after the last commit as that batch had changes, in pauses of the
    /// flusher's bell. It ends early if no part of a post was served during a pause, if a thread is in a hurry, and in
    /// any case after the last pause. For a batch of one change it does not wait, since the next block wakes the
    /// flusher anyway.
    pub fn gather<R: Wait>(&self, rt: &R, flusher: &Parker, released: u64) {
        if released < 2 {
            return;
        }
        let awaited = self
            .before_commit
            .load(Ordering::SeqCst)
            .wrapping_add(released);
        self.awaited.store(awaited, Ordering::SeqCst);
        for pause in 0..PAUSES {
            let served = self.served.load(Ordering::SeqCst);
            if self.blocks.load(Ordering::SeqCst) >= awaited
                || self.is_hurried.load(Ordering::SeqCst)
            {
                break;
            }
            flusher.park_timeout(rt, Duration::from_micros(PAUSE_MICROS));
            // an earlier ring may cut the first pause short
            if pause > 0 && self.served.load(Ordering::SeqCst) == served {
                break;
            }
        }
        self.awaited.store(0, Ordering::SeqCst);
    }
}
