//! A device that counts the syncs that are asked of another one, and the octets that are read of it, and notes why its first
//! call failed. Other threads may read that. Every call is passed on to the other device.

ghost use Rattle.std.specs.Prelude.{◌≡◌, Option};
ghost use Rattle.disk_causes.specs.declared.Cause.{Cause as CauseView};

use disk::{Disk, DiskError};
use disk_causes::{Cause, FirstCause};
use std::alloc::Global;
use std::sync::Arc;
use std::sync::atomic::{AtomicU64, Ordering};

/// A device that says why a call of it failed.
pub trait Explains: Disk {
    /// What it says at each moment.
    ghost said: { Self → Option CauseView };

    /// Why the first call failed that was not refused for want of memory. `None` if there was none.
    fn cause(&self) -> Option<Cause>
        ensures { result ≡ said self.now };
}

/// What was counted of a device. Each count wraps at 2^64. No clause speaks of one, since other threads may change an
/// atomic at any time.
#[derive(Drop)]
pub struct Counts {
    /// The syncs that were asked of it, also those that failed.
    pub syncs: AtomicU64,
    /// The octets that were read of it, by reads that didn't fail.
    pub octets_read: AtomicU64,
    /// Why its first call failed.
    pub cause: FirstCause,
}

impl Counts {
    /// The counts of a device of which nothing was asked yet.
    pub fn new() -> Counts {
        Counts {
            syncs: AtomicU64::new(0),
            octets_read: AtomicU64::new(0),
            cause: FirstCause::new(),
        }
    }
}

/// A device, and its counts. The contracts of its calls are about the device within.
#[derive(Drop)]
pub struct CountedDisk<D: Explains> {
    disk: D,
    counts: Arc<Counts, Global>,
}

impl<D: Explains> CountedDisk<D> {
    /// A device that adds to these counts.
    pub fn new(disk: D, counts: Arc<Counts, Global>) -> CountedDisk<D>
        ensures { result.disk ≡ disk }
    {
        CountedDisk { disk, counts }
    }

    // Notes why a call failed, and answers the same error.
    fn explained(&self, error: DiskError) -> DiskError
        ensures { result ≡ error }
    {
        if let Some(cause) = self.disk.cause() {
            self.counts.cause.note(cause);
        }
        error
    }
}

impl<D: Explains> Disk for CountedDisk<D> {
    ghost device = { λ counted. D.device counted.disk };

    ghost write_grows = { D.write_grows };

    ghost sync_grows = { D.sync_grows };

    fn len(&self) -> u64 {
        self.disk.len()
    }

    fn read(&mut self, at: u64, into: &mut [u8]) -> Result<(), DiskError> {
        match self.disk.read(at, into) {
            Ok(()) => {
                self.counts
                    .octets_read
                    .fetch_add(into.len() as u64, Ordering::SeqCst);
                Ok(())
            }
            Err(error) => Err(self.explained(error)),
        }
    }

    fn write(&mut self, at: u64, from: &[u8]) -> Result<(), DiskError> {
        match self.disk.write(at, from) {
            Ok(()) => Ok(()),
            Err(error) => Err(self.explained(error)),
        }
    }

    fn sync(&mut self) -> Result<(), DiskError> {
        self.counts.syncs.fetch_add(1, Ordering::SeqCst);
        match self.disk.sync() {
            Ok(()) => Ok(()),
            Err(error) => Err(self.explained(error)),
        }
    }

    ghost image_size = { λ counted. D.image_size counted.disk };

    ghost counts_content = { λ counted. D.counts_content counted.disk };

    ghost counts_now = { λ counted. D.counts_now counted.disk };

    ghost only_now = { λ counted. D.only_now counted.disk };
}
