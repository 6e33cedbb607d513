//! Reads of a device.

use disk::Disk;
use journal_layout::layout::BLOCK;
use std::alloc::AllocError;

/// The octets of a block.
pub type Block = [u8; BLOCK];

/// Why a look ends early.
#[derive(Drop)]
pub enum ReadStop {
    /// What is wrong, as a text.
    Wrong(String),
    /// A read failed, or memory was refused.
    Unseen,
}

impl ReadStop {
    /// The end of a look that found what this text says. `Unseen` if memory for the text was refused.
    pub fn of(text: Result<String, AllocError>) -> ReadStop {
        match text {
            Ok(text) => ReadStop::Wrong(text),
            Err(_) => ReadStop::Unseen,
        }
    }
}

impl From<AllocError> for ReadStop {
    fn from(_error: AllocError) -> ReadStop {
        ReadStop::Unseen
    }
}

/// Fills `into` with the octets of a block of the device from a place in it on.
pub(crate) fn read<D: Disk>(
    disk: &mut D,
    block: u64,
    at: usize,
    into: &mut [u8],
) -> Result<(), ReadStop> {
    let start = block.saturating_mul(BLOCK as u64).saturating_add(at as u64);
    let Some(end) = start.checked_add(into.len() as u64) else {
        return Err(ReadStop::Unseen);
    };
    if end > disk.len() {
        return Err(ReadStop::Unseen);
    }
    match disk.read(start, into) {
        Ok(()) => Ok(()),
        Err(_) => Err(ReadStop::Unseen),
    }
}

/// The octets of a block of the device.
pub(crate) fn read_block<D: Disk>(disk: &mut D, block: u64) -> Result<Block, ReadStop> {
    let mut octets = [0; BLOCK];
    read(disk, block, 0, &mut octets)?;
    Ok(octets)
}
