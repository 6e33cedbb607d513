//! New volumes, and what an opening finds.

use crate::said::{DONE, NOT_ASKED, Said};
use disk::Disk;
use disk_memory::MemDisk;
use fs_blocks::BLOCK_SIZE;
use journal::Journal;
use std::alloc::Global;
use text_names::is_host;
use volume_new::{VolumePlan, are_sizes, device_octets, format};

/// The blocks of a new volume.
pub const BLOCKS: u64 = 1024;

/// Its inodes.
const INODES: u64 = 64;

/// A new volume of this format.
fn plan(format: u32) -> Option<VolumePlan<'static>> {
    let host: &'static [u8] = b"news.example";
    if !is_host(host) || host.len() > 64 || !are_sizes(BLOCKS, INODES) {
        return None;
    }
    if format < 1 || format > 3 {
        return None;
    }
    Some(VolumePlan {
        host,
        blocks: BLOCKS,
        inodes: INODES,
        format,
    })
}

/// Makes an empty volume of this format on a device.
pub fn format_on(alloc: Global, disk: MemDisk, number: u32) -> (MemDisk, Said) {
    let Some(plan) = plan(number) else {
        return (disk, NOT_ASKED);
    };
    if disk.len() != device_octets(plan.blocks) {
        return (disk, NOT_ASKED);
    }
    match format(alloc, disk, &plan) {
        Ok(disk) => (disk, DONE),
        Err(refused) => (refused.disk, Said::NotOpened(refused.error)),
    }
}

/// What an opening finds on a device: the first octet of the first logical block.
pub fn found_on(alloc: Global, disk: MemDisk) -> Said {
    match Journal::open(alloc, disk) {
        Ok(journal) => first_octet(journal),
        Err(refused) => Said::NotOpened(refused.error),
    }
}

fn first_octet(mut journal: Journal<MemDisk>) -> Said {
    if !journal.is_idle() {
        return NOT_ASKED;
    }
    let mut block = [0; BLOCK_SIZE];
    match journal.load(0, &mut block) {
        Ok(()) => Said::Number(u64::from(block[0])),
        Err(error) => Said::NotOpened(error),
    }
}
