//! Records of 64 octets, 64 to a block: inodes, and slots of the directory.

ghost use Rattle.std.specs.Prelude.{◌≡◌, ◌≢◌, ℕ, ◌+◌, ◌*◌, ◌/◌, ◌%◌, ◌<◌, ◌≤◌, [], length, slice_index_or, MatchOption, OnOk};
ghost use Rattle.disk.specs.Image.{part};
ghost use Rattle.model.specs.Files.{HasRoom, bitmap_blocks, inode_of, most_blocks, slot_of};
ghost use Rattle.fs_layout.specs.Blocks.{PutsRecord, IsFoundIn, IsFound};

use crate::inodes::bitmap_blocks;
use fs_blocks::Blocks;
use std::alloc::AllocError;

/// The number of octets in a record.
pub const RECORD_SIZE: usize = 64;

// Copies a record of those that begin at block `first`.
fn get_record<B: Blocks>(blocks: &B, first: u32, at: u32, into: &mut [u8])
    requires there { first + at / 64 < length (B.blocks blocks.now) }
    requires few { length (B.blocks blocks.now) ≤ most_blocks }
    requires whole { length into.old ≡ 64 }
    ensures { into.new ≡ part (at % 64 * 64) 64 (slice_index_or (B.blocks blocks.now) (first + at / 64) []) }
{
    let block = blocks.block(first + at / 64);
    let start = (at % 64) as usize * RECORD_SIZE;
    into.copy_from_slice(&block[start..start + RECORD_SIZE]);
}

// Replaces a record of those that begin at block `first`. Refused only for want of memory; then the caller must drop
// the stage.
fn put_record<B: Blocks>(
    blocks: &mut B,
    first: u32,
    at: u32,
    octets: &[u8],
) -> Result<(), AllocError>
    requires there { first + at / 64 < length (B.blocks blocks.old) }
    requires few { length (B.blocks blocks.old) ≤ most_blocks }
    requires whole { length octets.now ≡ 64 }
    ensures done { OnOk result (PutsRecord first at octets.now (B.blocks blocks.old) (B.blocks blocks.new)) }
    ensures kept { B.applied blocks.new ≡ B.applied blocks.old }
{
    let start = (at % 64) as usize * RECORD_SIZE;
    blocks.put_at(first + at / 64, start, octets)
}

/// Copies an inode.
pub fn get_inode<B: Blocks>(blocks: &B, at: u32, into: &mut [u8])
    requires there { bitmap_blocks (length (B.blocks blocks.now)) + at / 64 < length (B.blocks blocks.now) }
    requires few { length (B.blocks blocks.now) ≤ most_blocks }
    requires whole { length into.old ≡ 64 }
    ensures { into.new ≡ inode_of (B.blocks blocks.now) at }
{
    get_record(blocks, bitmap_blocks(blocks.len()), at, into);
}

/// Copies a slot of the directory.
pub fn get_slot<B: Blocks>(blocks: &B, inodes: u32, at: u32, into: &mut [u8])
    requires room { HasRoom inodes (B.blocks blocks.now) }
    requires below { at < inodes }
    requires whole { length into.old ≡ 64 }
    ensures { into.new ≡ slot_of inodes (B.blocks blocks.now) at }
{
    get_record(blocks, bitmap_blocks(blocks.len()) + inodes / 64, at, into);
}

/// Replaces an inode. Refused only for want of memory; then the caller must drop the stage.
pub fn put_inode<B: Blocks>(blocks: &mut B, at: u32, octets: &[u8]) -> Result<(), AllocError>
    requires there { bitmap_blocks (length (B.blocks blocks.old)) + at / 64 < length (B.blocks blocks.old) }
    requires few { length (B.blocks blocks.old) ≤ most_blocks }
    requires whole { length octets.now ≡ 64 }
    ensures done { OnOk result
        (PutsRecord (bitmap_blocks (length (B.blocks blocks.old))) at octets.now (B.blocks blocks.old) (B.blocks blocks.new)) }
    ensures kept { B.applied blocks.new ≡ B.applied blocks.old }
{
    let first = bitmap_blocks(blocks.len());
    put_record(blocks, first, at, octets)
}

/// Replaces a slot of the directory. Refused only for want of memory; then the caller must drop the stage.
pub fn put_slot<B: Blocks>(
    blocks: &mut B,
    inodes: u32,
    at: u32,
    octets: &[u8],
) -> Result<(), AllocError>
    requires there { bitmap_blocks (length (B.blocks blocks.old)) + inodes / 64 + at / 64 < length (B.blocks blocks.old) }
    requires few { length (B.blocks blocks.old) ≤ most_blocks }
    requires whole { length octets.now ≡ 64 }
    ensures done { OnOk result
        (PutsRecord (bitmap_blocks (length (B.blocks blocks.old)) + inodes / 64) at octets.now (B.blocks blocks.old)
        (B.blocks blocks.new)) }
    ensures kept { B.applied blocks.new ≡ B.applied blocks.old }
{
    let first = bitmap_blocks(blocks.len()) + inodes / 64;
    put_record(blocks, first, at, octets)
}

/// The lowest inode whose slot has these octets.
pub fn find<B: Blocks>(blocks: &B, inodes: u32, slot: &[u8]) -> Option<u32>
    requires room { HasRoom inodes (B.blocks blocks.now) }
    requires whole { length slot.now ≡ 64 }
    ensures { MatchOption result
        ((k : ℕ) → k < inodes → slot_of inodes (B.blocks blocks.now) k ≢ slot.now)
        (IsFound inodes (B.blocks blocks.now) slot.now) }
{
    find_from(blocks, inodes, 0, slot)
}

/// The lowest inode whose slot has these octets. The search starts at `from`; no slot below it may have them.
pub fn find_from<B: Blocks>(blocks: &B, inodes: u32, from: u32, slot: &[u8]) -> Option<u32>
    requires room { HasRoom inodes (B.blocks blocks.now) }
    requires whole { length slot.now ≡ 64 }
    requires before { (k : ℕ) → k < from → slot_of inodes (B.blocks blocks.now) k ≢ slot.now }
    ensures { MatchOption result
        ((k : ℕ) → k < inodes → slot_of inodes (B.blocks blocks.now) k ≢ slot.now)
        (IsFound inodes (B.blocks blocks.now) slot.now) }
{
    let first = bitmap_blocks(blocks.len()) + inodes / 64;
    for table in from / 64..inodes / 64 {
        let block = blocks.block(first + table);
        if let Some(place) = find_in(block, slot) {
            return Some(64 * table + place);
        }
    }
    None
}

// The place of the first record of a block that has these octets.
fn find_in(block: &[u8], octets: &[u8]) -> Option<u32>
    requires block { length block.now ≡ 4096 }
    requires whole { length octets.now ≡ 64 }
    ensures { MatchOption result
        ((k : ℕ) → k < 64 → part (k * 64) 64 block.now ≢ octets.now)
        (IsFoundIn block.now octets.now) }
{
    for place in 0..64u32 {
        let start = place as usize * RECORD_SIZE;
        if &block[start..start + RECORD_SIZE] == octets {
            return Some(place);
        }
    }
    None
}
