//! The blocks in use, marked one after the other in a bitmap.

ghost use Rattle.std.specs.Prelude.{◌≡◌, ℕ, ◌<◌, ◌≤◌, ◌↔◌, ◌==◌, ◌+◌, ◌*◌, if◌then◌else◌, true, false, [], ◌∷◌, length, map, IsTrue};
ghost use Rattle.std.specs.List.{range_with_len};
ghost use Rattle.std.specs.Bool.{OnTrue, OnFalse};
ghost use Rattle.model.specs.Volume.{number_at};
ghost use Rattle.model.specs.Files.{HasRoom, entry, entry_of, indirect_for, indirect_pointer, owned, pointer, first_data, is_marked_used};
ghost use Rattle.model.specs.Files.{bitmap_bits, bitmap_blocks, most_blocks};
ghost use Rattle.fs_layout.specs.Blocks.{IsThere};
ghost use Rattle.fs_layout.specs.Bits.{bit_of, SetsBit, IsFront};
ghost use Rattle.fs_check.specs.Checking.{HasEntry, CanMark, Marks, HasOwners, MarksUsed};

use crate::entry::tables_for;
use disk_numbers::{number32, number64};
use fs_blocks::{BLOCK_SIZE, Blocks, block_of};
use fs_layout::bits::{is_set, set};
use fs_layout::inodes::{
    DOUBLE_AT, SIZE_AT, bitmap_blocks, content_blocks, indirect_at, pointer_at,
};
use fs_layout::records::{RECORD_SIZE, get_inode};

// Marks the blocks that entries own. False if one lies outside the data, or is owned twice.
pub fn mark_owners<B: Blocks>(blocks: &B, inodes: u32, marks: &mut [u8]) -> bool
    requires room { HasRoom inodes (B.blocks blocks.now) }
    requires entries { (k : ℕ) → k < inodes → HasEntry inodes (B.blocks blocks.now) k }
    requires whole { length (B.blocks blocks.now) ≤ 8 * length marks.old }
    requires front { IsFront (first_data (length (B.blocks blocks.now)) inodes) marks.old }
    ensures marked { OnTrue result (HasOwners inodes inodes (B.blocks blocks.now)
        × MarksUsed inodes inodes (B.blocks blocks.now) marks.new) }
    ensures refused { OnFalse result (¬ (HasOwners inodes inodes (B.blocks blocks.now))) }
{
    for at in 0..inodes {
        if !mark_owned(blocks, inodes, at, marks) {
            return false;
        }
    }
    true
}

// Marks the blocks that an entry owns. False if one does not exist, is marked, or occurs twice.
fn mark_owned<B: Blocks>(blocks: &B, inodes: u32, at: u32, marks: &mut [u8]) -> bool
    requires room { HasRoom inodes (B.blocks blocks.now) }
    requires below { at < inodes }
    requires entry { HasEntry inodes (B.blocks blocks.now) at }
    requires whole { length (B.blocks blocks.now) ≤ 8 * length marks.old }
    ensures marked { OnTrue result
        (Marks (length (B.blocks blocks.now)) (owned (entry inodes (B.blocks blocks.now) at)) marks.old marks.new) }
    ensures refused { OnFalse result
        (¬ (CanMark (length (B.blocks blocks.now)) (owned (entry inodes (B.blocks blocks.now) at)) marks.old)) }
{
    let mut inode = [0; RECORD_SIZE];
    get_inode(blocks, at, &mut inode);
    let count = content_blocks(number64(&inode, SIZE_AT));
    if !mark_double(marks, blocks.len(), number32(&inode, DOUBLE_AT)) {
        return false;
    }
    if !mark_tables(blocks, &inode, tables_for(count), marks) {
        return false;
    }
    mark_pointers(blocks, &inode, count, marks)
}

// Marks a double-indirect block, if there is one.
fn mark_double(marks: &mut [u8], count: u32, double: u32) -> bool
    requires whole { count ≤ 8 * length marks.old }
    ensures marked { OnTrue result (Marks count (if double == 0 then [] else double ∷ []) marks.old marks.new) }
    ensures refused { OnFalse result (¬ (CanMark count (if double == 0 then [] else double ∷ []) marks.old)) }
{
    if double == 0 {
        return true;
    }
    mark(marks, count, double)
}

// Marks the first `tables` blocks of pointers of an inode.
fn mark_tables<B: Blocks>(blocks: &B, inode: &[u8], tables: u32, marks: &mut [u8]) -> bool
    requires size { length inode.now ≡ 64 }
    requires few { tables ≤ 1025 }
    requires double { 1 < tables → IsThere (number_at 56 4 inode.now) (B.blocks blocks.now) }
    requires whole { length (B.blocks blocks.now) ≤ 8 * length marks.old }
    ensures marked { OnTrue result (Marks (length (B.blocks blocks.now))
        (map (λ p. indirect_pointer (entry_of (B.blocks blocks.now) inode.now []) p) (range_with_len 0 tables)) marks.old marks.new) }
    ensures refused { OnFalse result
        (¬ (CanMark (length (B.blocks blocks.now))
        (map (λ p. indirect_pointer (entry_of (B.blocks blocks.now) inode.now []) p) (range_with_len 0 tables)) marks.old)) }
{
    for p in 0..tables {
        if !mark(marks, blocks.len(), indirect_at(blocks, inode, p)) {
            return false;
        }
    }
    true
}

// Marks the first `count` blocks of a file's octets.
fn mark_pointers<B: Blocks>(blocks: &B, inode: &[u8], count: u32, marks: &mut [u8]) -> bool
    requires size { length inode.now ≡ 64 }
    requires few { count ≤ 1048575 }
    requires double { 1 < indirect_for count → IsThere (number_at 56 4 inode.now) (B.blocks blocks.now) }
    requires tables { (p : ℕ) → p < indirect_for count
        → IsThere (indirect_pointer (entry_of (B.blocks blocks.now) inode.now []) p) (B.blocks blocks.now) }
    requires whole { length (B.blocks blocks.now) ≤ 8 * length marks.old }
    ensures marked { OnTrue result (Marks (length (B.blocks blocks.now))
        (map (λ i. pointer (entry_of (B.blocks blocks.now) inode.now []) i) (range_with_len 0 count)) marks.old marks.new) }
    ensures refused { OnFalse result
        (¬ (CanMark (length (B.blocks blocks.now))
        (map (λ i. pointer (entry_of (B.blocks blocks.now) inode.now []) i) (range_with_len 0 count)) marks.old)) }
{
    for i in 0..count {
        if !mark(marks, blocks.len(), pointer_at(blocks, inode, i)) {
            return false;
        }
    }
    true
}

// Marks a block. False if it does not exist or is marked.
fn mark(marks: &mut [u8], count: u32, number: u32) -> bool
    requires whole { count ≤ 8 * length marks.old }
    ensures marked { OnTrue result ((number < count) × (bit_of marks.old number ≡ false) × SetsBit number true marks.old marks.new) }
    ensures refused { OnFalse result (number < count → bit_of marks.old number ≡ true) }
{
    if number >= count || is_set(marks, number as usize) {
        return false;
    }
    set(marks, number as usize);
    true
}

// Whether the bitmap has these bits and no others.
pub fn is_bitmap<B: Blocks>(blocks: &B, marks: &[u8]) -> bool
    requires few { length (B.blocks blocks.now) ≤ most_blocks }
    requires there { bitmap_blocks (length (B.blocks blocks.now)) ≤ length (B.blocks blocks.now) }
    requires whole { length marks.now ≡ 4096 * bitmap_blocks (length (B.blocks blocks.now)) }
    ensures { IsTrue result ↔ ((b : ℕ) → b < bitmap_bits (length (B.blocks blocks.now))
        → is_marked_used (B.blocks blocks.now) b ≡ bit_of marks.now b) }
{
    for table in 0..bitmap_blocks(blocks.len()) {
        if !is_bitmap_block(blocks, marks, table) {
            return false;
        }
    }
    true
}

// Whether a block of the bitmap has its bits and no others.
fn is_bitmap_block<B: Blocks>(blocks: &B, marks: &[u8], table: u32) -> bool
    requires there { table < length (B.blocks blocks.now) }
    requires whole { 4096 * table + 4096 ≤ length marks.now }
    ensures { IsTrue result ↔ ((b : ℕ) → b < 32768 → is_marked_used (B.blocks blocks.now) (32768 * table + b)
        ≡ bit_of marks.now (32768 * table + b)) }
{
    has_bits(blocks.block(table), block_of(marks, table as usize))
}

// Whether a block has the same bits.
fn has_bits(block: &[u8], marks: &[u8]) -> bool
    requires whole { length block.now ≡ 4096 }
    requires same { length marks.now ≡ 4096 }
    ensures { IsTrue result ↔ ((b : ℕ) → b < 32768 → bit_of block.now b ≡ bit_of marks.now b) }
{
    for bit in 0..8 * BLOCK_SIZE {
        if is_set(block, bit) != is_set(marks, bit) {
            return false;
        }
    }
    true
}
