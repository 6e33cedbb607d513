//! Files that lose octets, and files that are removed.

ghost use Rattle.std.specs.Prelude.{◌≡◌, ℕ, ◌+◌, ◌*◌, ◌/◌, ◌<◌, ◌≤◌, [], ◌∷◌, None, length, take, OnOk, slice_set};
ghost use Rattle.model.specs.Files.{HasRoom, IsFileSystem, IsFile, entry, size, block_count, content_of, indirect_for, pointer, table};
ghost use Rattle.model.specs.Files.{most_blocks};
ghost use Rattle.fs_layout.specs.Table.{Makes};
ghost use Rattle.fs_layout.specs.Touches.{SameBut, TouchesInode, inode_block, slot_block};
ghost use Rattle.fs_inodes.specs.Changes.{ReplacesContent, SameMarks, TakesNone};
ghost use Rattle.fs_inodes.specs.Growing.{NamesBlocks, inode_entry};
ghost use Rattle.fs_inodes.specs.Shrinking.{DropsPointer, DropsTable};

use crate::growing::{put_indirect, put_pointer};
use disk_numbers::{number32, number64, put32, put64};
use fs_blocks::{BLOCK_SIZE, Blocks};
use fs_layout::bitmap::unmark;
use fs_layout::inodes::{
    BLOCK_POINTERS, DIRECT_POINTERS, DOUBLE_AT, SIZE_AT, content_blocks, indirect_at, pointer_at,
};
use fs_layout::records::{RECORD_SIZE, get_inode, put_inode, put_slot};
use std::alloc::AllocError;

/// Cuts the file of an inode to `end` octets, which must not exceed its size. Refused only for want of memory; then the
/// caller must drop the stage.
pub fn shrink_to<B: Blocks>(
    blocks: &mut B,
    inodes: u32,
    at: u32,
    end: u64,
) -> Result<(), AllocError>
    // A file of a file system, with at least this many octets.
    requires room { HasRoom inodes (B.blocks blocks.old) }
    requires rule { IsFileSystem inodes (B.blocks blocks.old) }
    requires below { at < inodes }
    requires file { IsFile (entry inodes (B.blocks blocks.old) at) }
    requires shorter { end ≤ size (entry inodes (B.blocks blocks.old) at) }

    // What is left of the file. No block is taken.
    ensures done { OnOk result (ReplacesContent inodes at
        (take end (content_of (B.blocks blocks.old) (entry inodes (B.blocks blocks.old) at)))
        (B.blocks blocks.old) (B.blocks blocks.new)) }
    ensures none_taken { OnOk result (TakesNone (B.blocks blocks.old) (B.blocks blocks.new)) }

    // The blocks that change, all of them in the stage.
    ensures touches { OnOk result (TouchesInode at ((end + 4095) / 4096) (block_count (entry inodes (B.blocks blocks.old) at))
        (B.blocks blocks.old) (B.blocks blocks.new)) }
    ensures kept { B.applied blocks.new ≡ B.applied blocks.old }
{
    let mut inode = [0; RECORD_SIZE];
    get_inode(blocks, at, &mut inode);
    let keep = content_blocks(end);
    let mut left = content_blocks(number64(&inode, SIZE_AT));
    while left > keep {
        left -= 1;
        drop_block(blocks, inodes, at, left)?;
    }
    cut(blocks, inodes, at, end)
}

// Drops the last block of the file of an inode, and the blocks of pointers that only the last one needed.
fn drop_block<B: Blocks>(blocks: &mut B, inodes: u32, at: u32, last: u32) -> Result<(), AllocError>
    // A file of a file system, and the number of its last block.
    requires room { HasRoom inodes (B.blocks blocks.old) }
    requires rule { IsFileSystem inodes (B.blocks blocks.old) }
    requires below { at < inodes }
    requires file { IsFile (entry inodes (B.blocks blocks.old) at) }
    requires counted { last + 1 ≡ block_count (entry inodes (B.blocks blocks.old) at) }

    // What is left of the file. No block is taken.
    ensures done { OnOk result (ReplacesContent inodes at
        (take (4096 * last) (content_of (B.blocks blocks.old) (entry inodes (B.blocks blocks.old) at)))
        (B.blocks blocks.old) (B.blocks blocks.new)) }
    ensures none_taken { OnOk result (TakesNone (B.blocks blocks.old) (B.blocks blocks.new)) }

    // The blocks that change, all of them in the stage.
    ensures touches { OnOk result (TouchesInode at last (last + 1) (B.blocks blocks.old) (B.blocks blocks.new)) }
    ensures kept { B.applied blocks.new ≡ B.applied blocks.old }
{
    let mut inode = [0; RECORD_SIZE];
    get_inode(blocks, at, &mut inode);
    let number = pointer_at(blocks, &inode, last);
    drop_pointer(blocks, &mut inode, last)?;
    unmark(blocks, number)?;
    put64(&mut inode, SIZE_AT, last as u64 * BLOCK_SIZE as u64);
    put_inode(blocks, at, &inode)
}

// Drops the i-th pointer of an inode, which is the last, and its block of pointers if that has no other.
fn drop_pointer<B: Blocks>(blocks: &mut B, inode: &mut [u8], i: u32) -> Result<(), AllocError>
    // An inode, a pointer and blocks within the bounds of the format.
    requires whole { length inode.old ≡ 64 }
    requires few { i < 1048576 }
    requires some { 2 ≤ length (B.blocks blocks.old) }
    requires count_few { length (B.blocks blocks.old) ≤ most_blocks }

    // The blocks of pointers that the inode names, and no later pointer.
    requires names { NamesBlocks (indirect_for (i + 1)) (inode_entry (B.blocks blocks.old) inode.old) (B.blocks blocks.old) }
    requires last { (j : ℕ) → i < j → pointer (inode_entry (B.blocks blocks.old) inode.old) j ≡ 0 }

    // What `Ok` leaves of the inode and the blocks. Only the stage changes.
    ensures done { OnOk result (DropsPointer i inode.old inode.new (B.blocks blocks.old) (B.blocks blocks.new)) }
    ensures kept { B.applied blocks.new ≡ B.applied blocks.old }
{
    if i % BLOCK_POINTERS == DIRECT_POINTERS {
        return drop_table(blocks, inode, i / BLOCK_POINTERS);
    }
    put_pointer(blocks, inode, i, 0)
}

// Drops the p-th block of pointers of an inode, which is the last, and the double-indirect block if that names no
// other.
fn drop_table<B: Blocks>(blocks: &mut B, inode: &mut [u8], p: u32) -> Result<(), AllocError>
    requires whole { length inode.old ≡ 64 }
    requires few { p < 1024 }
    requires some { 2 ≤ length (B.blocks blocks.old) }
    requires count_few { length (B.blocks blocks.old) ≤ most_blocks }
    requires names { NamesBlocks (p + 1) (inode_entry (B.blocks blocks.old) inode.old) (B.blocks blocks.old) }
    ensures done { OnOk result (DropsTable p inode.old inode.new (B.blocks blocks.old) (B.blocks blocks.new)) }
    ensures kept { B.applied blocks.new ≡ B.applied blocks.old }
{
    let table = indirect_at(blocks, inode, p);
    unmark(blocks, table)?;
    if p != 1 {
        return put_indirect(blocks, inode, p, 0);
    }
    unmark(blocks, number32(inode, DOUBLE_AT))?;
    put32(inode, DOUBLE_AT, 0);
    Ok(())
}

// Cuts the file of an inode at an end within its last block.
fn cut<B: Blocks>(blocks: &mut B, inodes: u32, at: u32, end: u64) -> Result<(), AllocError>
    // A file of a file system, and an end that needs all of its blocks.
    requires room { HasRoom inodes (B.blocks blocks.old) }
    requires rule { IsFileSystem inodes (B.blocks blocks.old) }
    requires below { at < inodes }
    requires file { IsFile (entry inodes (B.blocks blocks.old) at) }
    requires shorter { end ≤ size (entry inodes (B.blocks blocks.old) at) }
    requires same_count { (end + 4095) / 4096 ≡ block_count (entry inodes (B.blocks blocks.old) at) }

    // What is left of the file, in the same blocks.
    ensures done { OnOk result (ReplacesContent inodes at
        (take end (content_of (B.blocks blocks.old) (entry inodes (B.blocks blocks.old) at)))
        (B.blocks blocks.old) (B.blocks blocks.new)) }
    ensures marks { OnOk result (SameMarks (B.blocks blocks.old) (B.blocks blocks.new)) }

    // The blocks that change, all of them in the stage.
    ensures touches { OnOk result (TouchesInode at ((end + 4095) / 4096) ((end + 4095) / 4096)
        (B.blocks blocks.old) (B.blocks blocks.new)) }
    ensures kept { B.applied blocks.new ≡ B.applied blocks.old }
{
    let mut inode = [0; RECORD_SIZE];
    get_inode(blocks, at, &mut inode);
    put64(&mut inode, SIZE_AT, end);
    put_inode(blocks, at, &inode)
}

/// Removes the file of an inode. The file must be empty. Refused only for want of memory; then the caller must drop the
/// stage.
pub fn remove_empty<B: Blocks>(blocks: &mut B, inodes: u32, at: u32) -> Result<(), AllocError>
    // A file of a file system, which has no octets.
    requires room { HasRoom inodes (B.blocks blocks.old) }
    requires rule { IsFileSystem inodes (B.blocks blocks.old) }
    requires below { at < inodes }
    requires file { IsFile (entry inodes (B.blocks blocks.old) at) }
    requires empty { size (entry inodes (B.blocks blocks.old) at) ≡ 0 }

    // The other files, and as many blocks as before.
    ensures done { OnOk result (Makes inodes (slice_set (table inodes (B.blocks blocks.old)) at None) (B.blocks blocks.new)) }
    ensures count { OnOk result (length (B.blocks blocks.new) ≡ length (B.blocks blocks.old)) }

    // The blocks that change, all of them in the stage.
    ensures touches { OnOk result
        (SameBut (inode_block (length (B.blocks blocks.old)) at ∷ slot_block (length (B.blocks blocks.old)) inodes at ∷ [])
        (B.blocks blocks.old) (B.blocks blocks.new)) }
    ensures kept { B.applied blocks.new ≡ B.applied blocks.old }
{
    let zeros = [0; RECORD_SIZE];
    put_inode(blocks, at, &zeros)?;
    put_slot(blocks, inodes, at, &zeros)
}
