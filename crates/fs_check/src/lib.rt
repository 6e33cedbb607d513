//! Checks whether blocks with any content keep the rule of blocks.
#![tactic(auto)]

ghost use Rattle.std.specs.Prelude.{◌≡◌, ◌⊎◌, ℕ, ◌<◌, ◌*◌, ◌↔◌, IfErr, IfOk, IsTrue, length};
ghost use Rattle.std.specs.Bool.{OnTrue, OnFalse};
ghost use Rattle.std.specs.List.{All};
ghost use Rattle.model.specs.Files.{AreWithin, HasRoom, IsFileSystem, bitmap_bits, bitmap_blocks, is_marked_used, most_octets};
ghost use Rattle.fs_layout.specs.Bits.{bit_of};
ghost use Rattle.fs_check.specs.Checking.{HasEntry, HasOwners, HasSmallEntry, MarksUsed};

use crate::entry::is_entry;
use crate::names::are_names_distinct;
use crate::used_blocks::{is_bitmap, mark_owners};
use disk_numbers::zeros;
use fs_blocks::{BLOCK_SIZE, Blocks};
use fs_layout::FsError;
use fs_layout::bits::set_front;
use fs_layout::inodes::{bitmap_blocks, first_data};
use std::alloc::Global;

mod entry;
mod names;
mod used_blocks;

/// Checks the rule of blocks, whatever the blocks contain, and that no file is too large for the format. Changes
/// nothing. `Damaged` exactly if the rule is broken or a file is too large. `Memory` if there is no room to mark the
/// blocks or to gather names.
pub fn check<B: Blocks>(alloc: Global, blocks: &B, inodes: u32, format: u32) -> Result<(), FsError>
    requires room { HasRoom inodes (B.blocks blocks.now) }
    ensures sound { IfOk result (λ _. IsFileSystem inodes (B.blocks blocks.now)
        × AreWithin (most_octets format) inodes (B.blocks blocks.now)) }
    ensures damaged { IfErr result (λ e. e ≡ FsError.Damaged
        → ¬ (IsFileSystem inodes (B.blocks blocks.now) × AreWithin (most_octets format) inodes (B.blocks blocks.now))) }
    ensures no_other { IfErr result (λ e. (e ≡ FsError.Memory) ⊎ (e ≡ FsError.Damaged)) }
{
    if !are_entries(blocks, inodes, format) {
        return Err(FsError::Damaged);
    }
    let mut marks = zeros(alloc, BLOCK_SIZE * bitmap_blocks(blocks.len()) as usize)?;
    if !are_marked(blocks, inodes, marks.as_mut_slice()) {
        return Err(FsError::Damaged);
    }
    if !are_names_distinct(alloc, blocks, inodes)? {
        return Err(FsError::Damaged);
    }
    Ok(())
}

// Whether no block has two owners, and the bitmap marks exactly the blocks that are used. The marks begin as zeros.
fn are_marked<B: Blocks>(blocks: &B, inodes: u32, marks: &mut [u8]) -> bool
    requires room { HasRoom inodes (B.blocks blocks.now) }
    requires entries { (k : ℕ) → k < inodes → HasEntry inodes (B.blocks blocks.now) k }
    requires whole { length marks.old ≡ 4096 * bitmap_blocks (length (B.blocks blocks.now)) }
    requires clear { All (λ octet. octet ≡ 0) marks.old }
    ensures owners { OnTrue result (HasOwners inodes inodes (B.blocks blocks.now)
        × MarksUsed inodes inodes (B.blocks blocks.now) marks.new) }
    ensures bits { OnTrue result ((b : ℕ) → b < bitmap_bits (length (B.blocks blocks.now))
        → is_marked_used (B.blocks blocks.now) b ≡ bit_of marks.new b) }
    ensures refused { OnFalse result (¬ (IsFileSystem inodes (B.blocks blocks.now))) }
{
    set_front(marks, first_data(blocks.len(), inodes) as usize);
    if !mark_owners(blocks, inodes, marks) || !is_bitmap(blocks, marks) {
        return false;
    }
    true
}

// Whether each entry is free or a file.
fn are_entries<B: Blocks>(blocks: &B, inodes: u32, format: u32) -> bool
    requires { HasRoom inodes (B.blocks blocks.now) }
    ensures { IsTrue result ↔ ((k : ℕ) → k < inodes → HasSmallEntry (most_octets format) inodes (B.blocks blocks.now) k) }
{
    for at in 0..inodes {
        if !is_entry(blocks, inodes, format, at) {
            return false;
        }
    }
    true
}
