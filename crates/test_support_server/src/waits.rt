//! How a thread of a test waits for another.

use std::sync::atomic::{AtomicBool, Ordering};
use std::thread;
use std::time::{Clock, Duration};

/// A thread that has a clock looks this many times, a millisecond apart.
const LOOKS: u32 = 40_000;

/// A thread that has none takes this many turns of one look and one yield.
pub const TURNS: u32 = 1_000_000;

/// Looks every millisecond until a flag is set. Answers false if the time ends first.
pub fn sleep_until<R: Clock>(rt: &R, flag: &AtomicBool) -> bool {
    for _ in 0..LOOKS {
        if flag.load(Ordering::SeqCst) {
            return true;
        }
        thread::sleep(rt, Duration::from_millis(1));
    }
    false
}

/// Takes turns until a flag is set. Answers false at the limit.
pub fn turn_until(flag: &AtomicBool) -> bool {
    for _ in 0..TURNS {
        if flag.load(Ordering::SeqCst) {
            return true;
        }
        thread::yield_now();
    }
    false
}
