//! Whether a file can grow.

ghost use Rattle.std.specs.Prelude.{◌≡◌, ◌+◌, ◌≤◌};
ghost use Rattle.std.specs.Bool.{OnTrue, OnFalse};
ghost use Rattle.model.specs.Files.{HasRoom, indirect_for, largest_file, most_octets};
ghost use Rattle.fs_inodes.specs.Growing.{blocks_for, HasNoRoomFor};
ghost use Rattle.fs_inodes.specs.Growing.{HasRoomFor};

use fs_blocks::Blocks;
use fs_layout::bitmap::free_block_count;
use fs_layout::inodes::{BLOCK_POINTERS, DIRECT_POINTERS, content_blocks, most_octets};

// The number of blocks that a file of this many octets owns, including those that name its blocks.
fn owned_blocks(size: u64) -> u64
    requires { size ≤ largest_file }
    ensures { result ≡ blocks_for size }
{
    let count = content_blocks(size);
    let indirect = indirect_blocks(count);
    let double = if indirect > 1 { 1 } else { 0 };
    u64::from(count + indirect + double)
}

// The number of blocks of pointers of a file whose octets take this many blocks.
fn indirect_blocks(count: u32) -> u32
    requires { count ≤ 1048575 }
    ensures { result ≡ indirect_for count }
{
    (count + BLOCK_POINTERS - 1 - DIRECT_POINTERS) / BLOCK_POINTERS
}

// The number of additional blocks that a file owns when it grows from `was` to `size` octets.
pub(crate) fn blocks_more(was: u64, size: u64) -> u32
    requires order { was ≤ size }
    requires small { size ≤ largest_file }
    ensures { blocks_for was + result ≡ blocks_for size }
{
    (owned_blocks(size) - owned_blocks(was)) as u32
}

/// Whether a file of `was` octets can have `size` in a volume of this format. Free blocks are counted only if some are
/// needed.
pub fn has_room_for<B: Blocks>(blocks: &B, inodes: u32, format: u32, was: u64, size: u64) -> bool
    requires room { HasRoom inodes (B.blocks blocks.now) }
    requires small { was ≤ largest_file }
    ensures room { OnTrue result (HasRoomFor (B.blocks blocks.now) was size) }
    ensures within { OnTrue result (size ≤ most_octets format) }
    ensures full { OnFalse result (HasNoRoomFor format (B.blocks blocks.now) was size) }
{
    if size > most_octets(format) {
        return false;
    }
    let owned = owned_blocks(was);
    let needed = owned_blocks(size);
    if needed <= owned {
        return true;
    }
    needed - owned <= free_block_count(blocks, inodes) as u64
}
