//! The marks of the bitmap, which say which blocks are used.

ghost use Rattle.std.specs.Prelude.{◌≡◌, ◌<◌, ◌≤◌, ℕ, ◌+◌, ◌*◌, true, false, length, MatchOption, IfOk, OnOk};
ghost use Rattle.model.specs.Files.{HasRoom, bitmap_blocks, free_blocks, is_marked_used, most_blocks};
ghost use Rattle.fs_layout.specs.Marks.{IsLowestFree, HasNoFreeBlock, NoneFreeBelow, SetsMark, TakesBlock};

use crate::bits::{count_clear, lowest_clear, set, unset};
use crate::inodes::bitmap_blocks;
use fs_blocks::{BLOCK_SIZE, Blocks};
use std::alloc::AllocError;

/// The number of bits in a block.
pub const BLOCK_BITS: usize = 8 * BLOCK_SIZE;

/// The lowest free block. The search starts at `from`; no block below it may be free.
pub fn lowest_free<B: Blocks>(blocks: &B, from: u32) -> Option<u32>
    requires some { 2 ≤ length (B.blocks blocks.now) }
    requires few { length (B.blocks blocks.now) ≤ most_blocks }
    requires none { NoneFreeBelow from (B.blocks blocks.now) }
    ensures { MatchOption result (HasNoFreeBlock (B.blocks blocks.now)) (IsLowestFree (B.blocks blocks.now)) }
{
    let count = blocks.len();
    for table in from / BLOCK_BITS as u32..bitmap_blocks(count) {
        if let Some(number) = lowest_free_in(blocks, from, table) {
            return Some(number);
        }
    }
    None
}

// The lowest free block of those whose marks are in one block of the bitmap. No block below `from` may be free.
fn lowest_free_in<B: Blocks>(blocks: &B, from: u32, table: u32) -> Option<u32>
    requires there { table < length (B.blocks blocks.now) }
    requires few { length (B.blocks blocks.now) ≤ most_blocks }
    requires none { NoneFreeBelow from (B.blocks blocks.now) }
    ensures { MatchOption result
        ((b : ℕ) → 32768 * table ≤ b → b < 32768 * table + 32768 → b < length (B.blocks blocks.now)
        → is_marked_used (B.blocks blocks.now) b ≡ true)
        (λ number. (number < length (B.blocks blocks.now)) × (is_marked_used (B.blocks blocks.now) number ≡ false)
        × ((b : ℕ) → 32768 * table ≤ b → b < number → is_marked_used (B.blocks blocks.now) b ≡ true)) }
{
    let start = BLOCK_BITS * table as usize;
    let count = (blocks.len() as usize)
        .saturating_sub(start)
        .min(BLOCK_BITS);
    let low = (from as usize).saturating_sub(start).min(count);
    match lowest_clear(blocks.block(table), low, count) {
        Some(bit) => Some((start + bit) as u32),
        None => None,
    }
}

// Marks a block.
fn mark<B: Blocks>(blocks: &mut B, number: u32) -> Result<(), AllocError>
    requires there { number < length (B.blocks blocks.old) }
    requires some { 2 ≤ length (B.blocks blocks.old) }
    requires few { length (B.blocks blocks.old) ≤ most_blocks }
    ensures done { OnOk result (SetsMark number true (B.blocks blocks.old) (B.blocks blocks.new)) }
    ensures kept { B.applied blocks.new ≡ B.applied blocks.old }
{
    let table = number / BLOCK_BITS as u32;
    let bit = number as usize % BLOCK_BITS;
    let mut octet = [blocks.block(table)[bit / 8]];
    set(&mut octet, bit % 8);
    blocks.put_at(table, bit / 8, &octet)
}

/// Marks the lowest free block, and answers it. A block must be free, and none below `from` may be. Refused only for
/// want of memory; then the caller must drop the stage.
pub fn take_block<B: Blocks>(blocks: &mut B, from: u32) -> Result<u32, AllocError>
    requires some { 2 ≤ length (B.blocks blocks.old) }
    requires few { length (B.blocks blocks.old) ≤ most_blocks }
    requires none { NoneFreeBelow from (B.blocks blocks.old) }
    requires free { 0 < free_blocks (B.blocks blocks.old) }
    ensures taken { IfOk result (λ block. TakesBlock block (B.blocks blocks.old) (B.blocks blocks.new)) }
    ensures kept { B.applied blocks.new ≡ B.applied blocks.old }
{
    let Some(number) = lowest_free(blocks, from) else {
        unreachable!()
    };
    mark(blocks, number)?;
    Ok(number)
}

/// Removes a block's mark. Refused only for want of memory; then the caller must drop the stage.
pub fn unmark<B: Blocks>(blocks: &mut B, number: u32) -> Result<(), AllocError>
    requires there { number < length (B.blocks blocks.old) }
    requires some { 2 ≤ length (B.blocks blocks.old) }
    requires few { length (B.blocks blocks.old) ≤ most_blocks }
    ensures done { OnOk result (SetsMark number false (B.blocks blocks.old) (B.blocks blocks.new)) }
    ensures kept { B.applied blocks.new ≡ B.applied blocks.old }
{
    let table = number / BLOCK_BITS as u32;
    let bit = number as usize % BLOCK_BITS;
    let mut octet = [blocks.block(table)[bit / 8]];
    unset(&mut octet, bit % 8);
    blocks.put_at(table, bit / 8, &octet)
}

/// The number of free blocks.
pub fn free_block_count<B: Blocks>(blocks: &B, inodes: u32) -> u32
    requires { HasRoom inodes (B.blocks blocks.now) }
    ensures { result ≡ free_blocks (B.blocks blocks.now) }
{
    let count = blocks.len() as usize;
    let mut free = 0;
    for table in 0..bitmap_blocks(blocks.len()) {
        let some = count
            .saturating_sub(BLOCK_BITS * table as usize)
            .min(BLOCK_BITS);
        free += count_clear(blocks.block(table), some);
    }
    free
}
