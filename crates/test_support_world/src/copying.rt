//! Copies the blocks of one device in memory to another.

use crate::errors::SimError;
use disk::Disk;
use disk_memory::MemDisk;
use journal_layout::layout::BLOCK;
use std::alloc::Global;

/// Room for a block of each of two devices.
#[derive(Drop)]
pub(crate) struct Room {
    wanted: Vec<u8>,
    here: Vec<u8>,
}

impl Room {
    pub(crate) fn new(alloc: Global) -> Result<Room, SimError> {
        Ok(Room {
            wanted: vec![in alloc; 0; BLOCK]?,
            here: vec![in alloc; 0; BLOCK]?,
        })
    }

    /// Makes a block equal to that of another device. It is not written if it is equal already.
    pub(crate) fn copy(
        &mut self,
        from: &mut MemDisk,
        to: &mut MemDisk,
        block: u64,
    ) -> Result<(), SimError> {
        read(from, block, self.wanted.as_mut_slice())?;
        read(to, block, self.here.as_mut_slice())?;
        if self.wanted.as_slice() == self.here.as_slice() {
            return Ok(());
        }
        write(to, block, self.wanted.as_slice())
    }
}

fn read(disk: &mut MemDisk, block: u64, into: &mut [u8]) -> Result<(), SimError> {
    let Some(at) = block.checked_mul(BLOCK as u64) else {
        return Err(SimError::NoPlace);
    };
    let Some(end) = at.checked_add(into.len() as u64) else {
        return Err(SimError::NoPlace);
    };
    if end > disk.len() || disk.read(at, into).is_err() {
        return Err(SimError::NoPlace);
    }
    Ok(())
}

fn write(disk: &mut MemDisk, block: u64, from: &[u8]) -> Result<(), SimError> {
    let Some(at) = block.checked_mul(BLOCK as u64) else {
        return Err(SimError::NoPlace);
    };
    let Some(end) = at.checked_add(from.len() as u64) else {
        return Err(SimError::NoPlace);
    };
    if end > disk.len() || disk.write(at, from).is_err() {
        return Err(SimError::NoPlace);
    }
    Ok(())
}
