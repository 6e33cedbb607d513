//! What is counted while a server runs, for its operator.

use disk_causes::Cause;
use disk_file::Counts;
use std::alloc::Global;
use std::sync::Arc;
use std::sync::atomic::{AtomicU64, Ordering};
use std::time::Duration;

/// What never changes of a volume that is served.
#[derive(Clone, Copy)]
pub struct VolumeFacts<'a> {
    pub host: &'a [u8],
    /// Its format, 1 or 2.
    pub format: u32,
    /// Its logical blocks, used or free.
    pub blocks: u64,
    /// Its inodes, used or free.
    pub inodes: u64,
}

/// What was counted since a server's start. Every thread may read it. `note_batch` counts the batches, and the device
/// counts its syncs.
#[derive(Drop)]
pub struct Tally {
    batches: AtomicU64,
    used_blocks: AtomicU64,
    commits: AtomicU64,
    commit_micros: AtomicU64,
    device: Arc<Counts, Global>,
}

/// What a tally says at one moment.
#[derive(Clone, Copy, Debug, PartialEq, Eq)]
pub struct Tallied {
    /// The batches that were committed.
    pub batches: u64,
    /// The logical blocks that are used as of the last of these batches.
    pub used_blocks: u64,
    /// The syncs that were asked of the device.
    pub syncs: u64,
    /// The commits whose times were measured.
    pub commits: u64,
    /// Their times in all, in microseconds.
    pub commit_micros: u64,
}

impl Tally {
    /// A tally of a volume with this many used blocks, and these counts of its device.
    pub fn new(used_blocks: u64, device: Arc<Counts, Global>) -> Tally {
        Tally {
            batches: AtomicU64::new(0),
            used_blocks: AtomicU64::new(used_blocks),
            commits: AtomicU64::new(0),
            commit_micros: AtomicU64::new(0),
            device,
        }
    }

    /// What the tally says now.
    pub fn read(&self) -> Tallied {
        Tallied {
            batches: self.batches.load(Ordering::SeqCst),
            used_blocks: self.used_blocks.load(Ordering::SeqCst),
            syncs: self.device.syncs.load(Ordering::SeqCst),
            commits: self.commits.load(Ordering::SeqCst),
            commit_micros: self.commit_micros.load(Ordering::SeqCst),
        }
    }

    /// Notes how long a commit took. `read` counts it from then on. Only the thread that commits calls this.
    pub fn note_commit(&self, took: Duration) {
        let micros = u64::try_from(took.as_micros()).unwrap_or(u64::MAX);
        self.commit_micros.fetch_add(micros, Ordering::SeqCst);
        self.commits.fetch_add(1, Ordering::SeqCst);
    }

    /// Why the first call of the device failed. `None` if none has.
    pub fn cause(&self) -> Option<Cause> {
        self.device.cause.read()
    }

    /// Counts one more batch that was committed, and notes the used blocks as of that batch, this many. `read` gives both
    /// from then on. No clause says so, since other threads may change an atomic at any time.
    pub fn note_batch(&self, used_blocks: u64) {
        self.used_blocks.store(used_blocks, Ordering::SeqCst);
        self.batches.fetch_add(1, Ordering::SeqCst);
    }
}
