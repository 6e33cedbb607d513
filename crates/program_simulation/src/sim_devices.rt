//! The devices of a simulation.

use disk::Faults;
use disk_cache::WCache;
use disk_memory::{MemDisk, Pick};
use std::alloc::Global;

/// A device that can be made to fail, and that crashes.
pub(crate) trait Device: Faults + Drop {
    /// The device over this one in memory.
    fn over(alloc: Global, disk: MemDisk) -> Self;

    /// The device after a crash: each octet that was touched since the last good sync becomes what the pick says, and
    /// what a cache had collected is lost. A pending failure stays pending.
    fn crashed(self, alloc: Global, pick: Pick) -> Self;
}

impl Device for MemDisk {
    fn over(_alloc: Global, disk: MemDisk) -> MemDisk {
        disk
    }

    fn crashed(self, _alloc: Global, pick: Pick) -> MemDisk {
        let mut disk = self;
        disk.crash(&[pick]);
        disk
    }
}

impl Device for WCache<MemDisk> {
    fn over(alloc: Global, disk: MemDisk) -> WCache<MemDisk> {
        WCache::new(alloc, disk)
    }

    fn crashed(self, alloc: Global, pick: Pick) -> WCache<MemDisk> {
        let mut disk = self.into_inner();
        disk.crash(&[pick]);
        WCache::new(alloc, disk)
    }
}
