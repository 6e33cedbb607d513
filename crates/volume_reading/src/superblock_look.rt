//! Checks the length of a device and its superblock.

use crate::device::{Block, ReadStop, read_block};
use crate::grouped::Grouped;
use crate::wrong_unless;
use disk::Disk;
use disk_numbers::number32;
use fs_layout::inodes::{FEWEST_DATA, FEWEST_INODES, MOST_INODES, first_data};
use journal_layout::layout::{
    BLOCK, EPOCH_AT, FEWEST_BLOCKS, FORMAT_2_AT, FORMAT_3_AT, LABEL_AT, MAGIC, MOST_BLOCKS,
    ONE_SEGMENT, SEGMENTS, VERSION, home_block,
};
use journal_layout::{read_epoch, read_format};
use std::alloc::Global;
use text_names::{HOST_LIMIT, is_host};

/// The offsets of the length of the label's host, and of the host.
const HOST_SIZE_AT: usize = LABEL_AT + 4;

const HOST_AT: usize = LABEL_AT + 5;

const INODES_IN_A_BLOCK: u64 = 64;

/// What a superblock says: the numbers of logical blocks, segments and inodes, the format, which is 1 to 3, and the epoch,
/// which is 1 or 2.
#[derive(Clone, Copy)]
pub struct ReadSizes {
    pub blocks: u32,
    pub segments: u32,
    pub inodes: u32,
    pub format: u32,
    pub epoch: u8,
}

/// Checks the superblock and the length of a device, and answers the sizes of its volume.
pub(crate) fn look<D: Disk>(alloc: Global, disk: &mut D) -> Result<ReadSizes, ReadStop> {
    let octets = Grouped(disk.len());
    wrong_unless!(alloc; disk.len() >= BLOCK as u64, "the file has {octets} octets, fewer than the 4,096 of a superblock");
    let superblock = read_block(disk, 0)?;
    let sizes = look_at_front(alloc, &superblock)?;
    let blocks = home_block(sizes.segments, u64::from(sizes.blocks));
    let wanted = blocks.saturating_mul(BLOCK as u64);
    wrong_unless!(alloc; disk.len() == wanted, "the file has {octets} octets, where its superblock asks for {}", Grouped(wanted));
    look_at_label(alloc, &superblock, sizes)?;
    Ok(sizes)
}

/// Checks what precedes the label.
fn look_at_front(alloc: Global, superblock: &Block) -> Result<ReadSizes, ReadStop> {
    wrong_unless!(alloc; superblock[..8] == MAGIC[..], "the superblock doesn't begin with XNNTPFS1");
    let version = number32(superblock, 8);
    wrong_unless!(alloc; version == VERSION, "the superblock is of version {version}, where this program reads version {VERSION}");
    let blocks = number32(superblock, 12);
    let count = u64::from(blocks);
    wrong_unless!(alloc; FEWEST_BLOCKS <= count && count <= MOST_BLOCKS,
        "the superblock says {} blocks, where a volume has {} to {}", Grouped(count), Grouped(FEWEST_BLOCKS), Grouped(MOST_BLOCKS));
    let segments = number32(superblock, 16);
    wrong_unless!(alloc; segments == ONE_SEGMENT || segments == SEGMENTS,
        "the superblock says {segments} segments, where a volume has {ONE_SEGMENT} or {SEGMENTS}");
    Ok(ReadSizes {
        blocks,
        segments,
        inodes: number32(superblock, LABEL_AT),
        format: read_format(superblock),
        epoch: read_epoch(superblock),
    })
}

/// Checks the label, and the octets after its host.
fn look_at_label(alloc: Global, superblock: &Block, sizes: ReadSizes) -> Result<(), ReadStop> {
    let inodes = u64::from(sizes.inodes);
    wrong_unless!(alloc; FEWEST_INODES <= inodes && inodes <= MOST_INODES && inodes % INODES_IN_A_BLOCK == 0,
        "the label says {} inodes, where a volume has a multiple of {INODES_IN_A_BLOCK} from {FEWEST_INODES} to {}",
        Grouped(inodes), Grouped(MOST_INODES));
    let (first, blocks) = (
        u64::from(first_data(sizes.blocks, sizes.inodes)),
        u64::from(sizes.blocks),
    );
    wrong_unless!(alloc; first + FEWEST_DATA <= blocks,
        "the label says {} inodes, for which {} blocks are too few", Grouped(inodes), Grouped(blocks));
    let size = superblock[HOST_SIZE_AT] as usize;
    wrong_unless!(alloc; 1 <= size && size <= HOST_LIMIT,
        "the label's host has {size} octets, where a host has 1 to {HOST_LIMIT}");
    let host_end = HOST_AT + size;
    let host = &superblock[HOST_AT..host_end];
    wrong_unless!(alloc; is_host(host), "the label's host '{}' is no name of a server", host.escape_ascii());
    look_at_rest(alloc, superblock, host_end)
}

/// Checks the octets after the host, which must be zero. The gates of formats 2 and 3 and the epoch may be any octets.
fn look_at_rest(alloc: Global, superblock: &Block, from: usize) -> Result<(), ReadStop> {
    for at in from..BLOCK {
        let is_any = at == FORMAT_2_AT || at == FORMAT_3_AT || at == EPOCH_AT;
        wrong_unless!(alloc; is_any || superblock[at] == 0, "octet {at} of the superblock isn't zero");
    }
    Ok(())
}
