//! Octets that a change puts into blocks.

ghost use Rattle.std.specs.Prelude.{◌≡◌, ◌+◌, ◌<◌, ◌≤◌, [], length, replicate, slice_index_or, slice_set, OnOk};
ghost use Rattle.byteorder.specs.Endian.{little_bytes};
ghost use Rattle.disk.specs.Image.{overwritten};
ghost use Rattle.fs_inodes.specs.Growing.{PutsPiece};

use disk_numbers::put32;
use fs_blocks::{BLOCK_SIZE, Blocks, put_part};
use std::alloc::AllocError;

// Puts a number into four octets of a block.
pub(crate) fn put_number<B: Blocks>(
    blocks: &mut B,
    block: u32,
    at: usize,
    number: u32,
) -> Result<(), AllocError>
    requires there { block < length (B.blocks blocks.old) }
    requires fits { at + 4 ≤ 4096 }
    ensures done { OnOk result (B.blocks blocks.new ≡ slice_set (B.blocks blocks.old) block
        (overwritten at (little_bytes 4 number) (slice_index_or (B.blocks blocks.old) block []))) }
    ensures whole { length (slice_index_or (B.blocks blocks.old) block []) ≡ 4096 }
    ensures kept { B.applied blocks.new ≡ B.applied blocks.old }
{
    let mut octets = [0; 4];
    put32(&mut octets, 0, number);
    blocks.put_at(block, at, &octets)
}

// Puts a piece of a file into a block, from a place in it on. A block that begins with the piece is new.
pub(crate) fn put_piece<B: Blocks>(
    blocks: &mut B,
    number: u32,
    within: usize,
    piece: &[u8],
) -> Result<(), AllocError>
    requires there { number < length (B.blocks blocks.old) }
    requires fits { within + length piece.now ≤ 4096 }
    ensures done { OnOk result (PutsPiece number within piece.now (B.blocks blocks.old) (B.blocks blocks.new)) }
    ensures kept { B.applied blocks.new ≡ B.applied blocks.old }
{
    if within == 0 {
        return put_new(blocks, number, piece);
    }
    blocks.put_at(number, within, piece)
}

// Puts a piece of a file into a new block, with zeros after it: nothing is left of what the block had.
fn put_new<B: Blocks>(blocks: &mut B, number: u32, piece: &[u8]) -> Result<(), AllocError>
    requires there { number < length (B.blocks blocks.old) }
    requires fits { length piece.now ≤ 4096 }
    ensures done { OnOk result (B.blocks blocks.new
        ≡ slice_set (B.blocks blocks.old) number (overwritten 0 piece.now (replicate 4096 0))) }
    ensures kept { B.applied blocks.new ≡ B.applied blocks.old }
{
    if piece.len() < BLOCK_SIZE {
        let mut block = [0; BLOCK_SIZE];
        put_part(&mut block, 0, piece);
        return blocks.put(number, &block);
    }
    blocks.put(number, piece)
}
