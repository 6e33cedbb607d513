//! The longest of some times.

use std::sync::atomic::{AtomicU64, Ordering};
use std::time::Duration;

/// The longest time that was noted since it was taken last. Every thread may note one, so no clause speaks of it.
#[derive(Drop)]
pub struct LongestTime {
    micros: AtomicU64,
}

impl LongestTime {
    /// No time was noted yet.
    pub fn new() -> LongestTime {
        LongestTime {
            micros: AtomicU64::new(0),
        }
    }

    /// Notes a time.
    pub fn note(&self, took: Duration) {
        let micros = u64::try_from(took.as_micros()).unwrap_or(u64::MAX);
        self.micros.fetch_max(micros, Ordering::SeqCst);
    }

    /// The longest time in microseconds, or 0 if none was noted. From now on only later ones count.
    pub fn take(&self) -> u64 {
        self.micros.swap(0, Ordering::SeqCst)
    }
}
