//! A device in memory that can be made to refuse a write for want of memory.

use disk::{Disk, DiskError};
use disk_memory::MemDisk;

/// A device in memory, and which write from now on is refused, counted from 1; 0 for none.
#[derive(Drop)]
pub struct Scarce {
    pub disk: MemDisk,
    pub refused: u64,
}

impl Disk for Scarce {
    ghost use Rattle.std.specs.Prelude.{false, true};
    ghost use Rattle.disk_memory.specs.MemDisk.{counts_content, memory_device};

    ghost device = { λ s. memory_device s.disk };

    ghost write_grows = { true };

    ghost sync_grows = { false };

    fn len(&self) -> u64 {
        self.disk.len()
    }

    fn read(&mut self, at: u64, into: &mut [u8]) -> Result<(), DiskError> {
        self.disk.read(at, into)
    }

    fn write(&mut self, at: u64, from: &[u8]) -> Result<(), DiskError> {
        let is_refused = self.refused == 1;
        self.refused = self.refused.saturating_sub(1);
        if is_refused {
            return Err(DiskError::Memory);
        }
        self.disk.write(at, from)
    }

    fn sync(&mut self) -> Result<(), DiskError> {
        self.disk.sync()
    }

    ghost image_size = { λ s c tells left. left.size };

    ghost counts_content = { λ s tells. counts_content s.disk };

    ghost counts_now = { λ s t c tells le now. now };

    ghost only_now = { λ s c tells left. left };
}
