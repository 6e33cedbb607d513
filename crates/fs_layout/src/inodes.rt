//! Inodes: the kind of a file, its size, and pointers to its blocks.

ghost use Rattle.std.specs.Prelude.{◌≡◌, ◌+◌, ◌-◌, ◌*◌, ◌/◌, ◌==◌, ◌<◌, ◌≤◌, [], count_by, if◌then◌else◌, length};
ghost use Rattle.std.specs.List.{range_with_len};
ghost use Rattle.model.specs.Volume.{number_at};
ghost use Rattle.fs_layout.specs.Blocks.{IsThere};
ghost use Rattle.model.specs.Files as files;
ghost use Rattle.model.specs.Files.{HasRoom, bitmap_blocks, entry, entry_of, first_data, free_inodes, indirect_pointer, pointer};
ghost use Rattle.model.specs.Files.{largest_file};
ghost use Rattle.model.specs.Files.{most_octets};

use crate::bitmap::BLOCK_BITS;
use crate::records::{RECORD_SIZE, get_inode};
use disk_numbers::{number32, number64};
use fs_blocks::{BLOCK_SIZE, Blocks};

/// The fewest inodes that a volume may have, and the most.
pub const FEWEST_INODES: u64 = 64;

pub const MOST_INODES: u64 = 4_194_304;

/// The fewest blocks that a volume must have for data.
pub const FEWEST_DATA: u64 = 256;

/// A volume with no more blocks than this has the smallest bitmap, which is two blocks.
const SMALL_BITS: u32 = 65_536;

/// The number of blocks of the bitmap of a volume with this many blocks. The inodes begin after them.
pub fn bitmap_blocks(count: u32) -> u32
    ensures { result ≡ bitmap_blocks count }
{
    2 + count.saturating_sub(SMALL_BITS).div_ceil(BLOCK_BITS as u32)
}

/// The first block of the data, in a volume with this many blocks and inodes.
pub fn first_data(count: u32, inodes: u32) -> u32
    ensures { result ≡ first_data count inodes }
{
    bitmap_blocks(count) + 2 * (inodes / RECORDS as u32)
}

/// The kind of a free inode.
pub const FREE_KIND: u8 = 0;

/// The kind of a file.
pub const FILE_KIND: u8 = 1;

/// Where the size is in an inode.
pub const SIZE_AT: usize = 4;

/// Where the pointers of an inode begin.
pub const POINTERS_AT: usize = 12;

/// The number of pointers in an inode.
pub const DIRECT_POINTERS: u32 = 10;

/// Where the pointer to the first block of pointers is in an inode.
pub const INDIRECT_AT: usize = 52;

/// The number of pointers in a block of pointers.
pub const BLOCK_POINTERS: u32 = 1024;

/// Where the pointer to the double-indirect block, which names the other blocks of pointers, is in an inode.
pub const DOUBLE_AT: usize = 56;

/// Where the zeros at the end of an inode begin.
pub const SPARE_AT: usize = 60;

/// The number of blocks for the octets of the largest file.
pub const MOST_BLOCKS: u32 = 1_048_575;

/// The number of octets in the largest file.
pub const MOST_OCTETS: u64 = MOST_BLOCKS as u64 * BLOCK_SIZE as u64;

/// The number of octets in the largest file of format 1, whose blocks an inode and one block of pointers name.
pub const MOST_OCTETS_1: u64 = (DIRECT_POINTERS + BLOCK_POINTERS) as u64 * BLOCK_SIZE as u64;

/// The number of records in a block.
const RECORDS: usize = 64;

/// The size of the file of an inode.
pub fn size_of<B: Blocks>(blocks: &B, inodes: u32, at: u32) -> u64
    requires room { HasRoom inodes (B.blocks blocks.now) }
    requires below { at < inodes }
    ensures { result ≡ files.size (entry inodes (B.blocks blocks.now) at) }
{
    let mut inode = [0; RECORD_SIZE];
    get_inode(blocks, at, &mut inode);
    number64(&inode, SIZE_AT)
}

/// The number of a file's i-th block.
pub fn pointer_at<B: Blocks>(blocks: &B, inode: &[u8], i: u32) -> u32
    requires whole { length inode.now ≡ 64 }
    requires few { i < 1049610 }
    requires double { 1034 ≤ i → IsThere (number_at 56 4 inode.now) (B.blocks blocks.now) }
    requires indirect { 10 ≤ i → IsThere (indirect_pointer (entry_of (B.blocks blocks.now) inode.now []) ((i - 10) / 1024))
        (B.blocks blocks.now) }
    ensures { result ≡ pointer (entry_of (B.blocks blocks.now) inode.now []) i }
{
    if i < DIRECT_POINTERS {
        return number32(inode, POINTERS_AT + 4 * i as usize);
    }
    let place = i - DIRECT_POINTERS;
    let pointers = blocks.block(indirect_at(blocks, inode, place / BLOCK_POINTERS));
    number32(pointers, 4 * (place % BLOCK_POINTERS) as usize)
}

/// The number of a file's p-th block of pointers.
pub fn indirect_at<B: Blocks>(blocks: &B, inode: &[u8], p: u32) -> u32
    requires whole { length inode.now ≡ 64 }
    requires few { p < 1025 }
    requires double { 0 < p → IsThere (number_at 56 4 inode.now) (B.blocks blocks.now) }
    ensures { result ≡ indirect_pointer (entry_of (B.blocks blocks.now) inode.now []) p }
{
    if p == 0 {
        return number32(inode, INDIRECT_AT);
    }
    let double = blocks.block(number32(inode, DOUBLE_AT));
    number32(double, 4 * (p - 1) as usize)
}

/// The number of octets in the largest file of a volume of this format.
pub fn most_octets(format: u32) -> u64
    ensures { result ≡ most_octets format }
{
    if format == 1 {
        MOST_OCTETS_1
    } else {
        MOST_OCTETS
    }
}

/// The number of blocks that content of this many octets takes.
pub fn content_blocks(octets: u64) -> u32
    requires { octets ≤ largest_file }
    ensures { result ≡ (octets + 4095) / 4096 }
{
    ((octets + BLOCK_SIZE as u64 - 1) / BLOCK_SIZE as u64) as u32
}

/// The number of free inodes.
pub fn free_inode_count<B: Blocks>(blocks: &B, inodes: u32) -> u32
    requires { HasRoom inodes (B.blocks blocks.now) }
    ensures { result ≡ free_inodes inodes (B.blocks blocks.now) }
{
    let mut free = 0;
    let first = bitmap_blocks(blocks.len());
    for table in 0..inodes / 64 {
        free += count_free(blocks.block(first + table), RECORDS);
    }
    free
}

// The number of free inodes among the first `count` of a block.
fn count_free(block: &[u8], count: usize) -> u32
    requires whole { length block.now ≡ 4096 }
    requires few { count ≤ 64 }
    ensures free { result ≡ count_by (λ k. number_at (64 * k) 4 block.now == 0) (range_with_len 0 count) }
    ensures few { result ≤ count }
{
    let mut free = 0;
    for place in 0..count {
        if number32(block, RECORD_SIZE * place) == 0 {
            free += 1;
        }
    }
    free
}
