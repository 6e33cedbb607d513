//! Files that grow.

ghost use Rattle.std.specs.Prelude.{◌≡◌, ◌≢◌, ℕ, ◌+◌, ◌-◌, ◌/◌, ◌%◌, ◌<◌, ◌≤◌, [], ◌∷◌, length, replicate, true, IfOk, OnOk};
ghost use Rattle.model.specs.Volume.{number_at};
ghost use Rattle.fs_layout.specs.Blocks.{IsThere};
ghost use Rattle.model.specs.Files.{HasRoom, IsFileSystem, IsFile, entry, indirect_for, indirect_pointer, size, is_marked_used};
ghost use Rattle.model.specs.Files.{bitmap_blocks, most_blocks};
ghost use Rattle.model.specs.Files.{free_blocks};
ghost use Rattle.model.specs.Room.{content_blocks};
ghost use Rattle.fs_layout.specs.Marks.{NoneFreeBelow};
ghost use Rattle.fs_layout.specs.Touches.{Touches, TouchesData, touched_by_growth};
ghost use Rattle.fs_inodes.specs.Growing.{IsApart, PutsIndirect, PutsPointer, TakesZeros, AddsDouble, AddsTable, AddsBlock, NamesBlocks};
ghost use Rattle.fs_inodes.specs.Growing.{inode_entry, with_double, with_indirect, GrowsBy, HasRoomFor};

use crate::file_room::blocks_more;
use crate::pieces::{put_number, put_piece};
use disk_numbers::{number32, number64, put32, put64};
use fs_blocks::{BLOCK_SIZE, Blocks};
use fs_layout::bitmap::take_block;
use fs_layout::inodes::{
    BLOCK_POINTERS, DIRECT_POINTERS, DOUBLE_AT, INDIRECT_AT, POINTERS_AT, SIZE_AT, indirect_at,
    pointer_at, size_of,
};
use fs_layout::records::{RECORD_SIZE, get_inode, put_inode};
use std::alloc::AllocError;

// Puts the number of a file's i-th block into its inode, or into a block of pointers.
pub(crate) fn put_pointer<B: Blocks>(
    blocks: &mut B,
    inode: &mut [u8],
    i: u32,
    number: u32,
) -> Result<(), AllocError>
    requires whole { length inode.old ≡ 64 }
    requires few { i < 1048576 }
    requires double { 1034 ≤ i → IsThere (number_at 56 4 inode.old) (B.blocks blocks.old) }
    requires indirect { 10 ≤ i → (bitmap_blocks (length (B.blocks blocks.old))
        ≤ indirect_pointer (inode_entry (B.blocks blocks.old) inode.old) ((i - 10) / 1024))
        × (indirect_pointer (inode_entry (B.blocks blocks.old) inode.old) ((i - 10) / 1024) < length (B.blocks blocks.old)) }
    requires apart { 10 ≤ i → IsApart ((i - 10) / 1024) (inode_entry (B.blocks blocks.old) inode.old) }
    ensures done { OnOk result (PutsPointer i number inode.old inode.new (B.blocks blocks.old) (B.blocks blocks.new)) }
    ensures kept { B.applied blocks.new ≡ B.applied blocks.old }
{
    if i < DIRECT_POINTERS {
        put32(inode, POINTERS_AT + 4 * i as usize, number);
        return Ok(());
    }
    let place = i - DIRECT_POINTERS;
    let indirect = indirect_at(blocks, inode, place / BLOCK_POINTERS);
    let at = 4 * (place % BLOCK_POINTERS) as usize;
    put_number(blocks, indirect, at, number)
}

// Puts the number of a file's p-th block of pointers into its inode, or into its double-indirect block.
pub(crate) fn put_indirect<B: Blocks>(
    blocks: &mut B,
    inode: &mut [u8],
    p: u32,
    number: u32,
) -> Result<(), AllocError>
    requires whole { length inode.old ≡ 64 }
    requires few { p < 1025 }
    requires double { 0 < p → (bitmap_blocks (length (B.blocks blocks.old)) ≤ number_at 56 4 inode.old)
        × (number_at 56 4 inode.old < length (B.blocks blocks.old)) }
    requires apart { 0 < p → (q : ℕ) → q ≢ p → indirect_pointer (inode_entry (B.blocks blocks.old) inode.old) q ≢ number_at 56 4 inode.old }
    ensures done { OnOk result (PutsIndirect p number inode.old inode.new (B.blocks blocks.old) (B.blocks blocks.new)) }
    ensures kept { B.applied blocks.new ≡ B.applied blocks.old }
{
    if p == 0 {
        put32(inode, INDIRECT_AT, number);
        return Ok(());
    }
    let double = number32(inode, DOUBLE_AT);
    put_number(blocks, double, 4 * (p - 1) as usize, number)
}

// Takes a free block, and fills it with zeros. No block below `from` is free.
fn take_zeros<B: Blocks>(blocks: &mut B, from: u32) -> Result<u32, AllocError>
    requires some { 2 ≤ length (B.blocks blocks.old) }
    requires count_few { length (B.blocks blocks.old) ≤ most_blocks }
    requires reserved { (b : ℕ) → b < bitmap_blocks (length (B.blocks blocks.old)) → is_marked_used (B.blocks blocks.old) b ≡ true }
    requires free { 0 < free_blocks (B.blocks blocks.old) }
    requires none { NoneFreeBelow from (B.blocks blocks.old) }
    ensures done { IfOk result (λ number. TakesZeros number (B.blocks blocks.old) (B.blocks blocks.new)) }
    ensures kept { B.applied blocks.new ≡ B.applied blocks.old }
{
    let number = take_block(blocks, from)?;
    blocks.put(number, &[0; BLOCK_SIZE])?;
    Ok(number)
}

// Gives an inode its double-indirect block if its p-th block of pointers is the first to need it. No block below `from`
// is free.
fn add_double<B: Blocks>(
    blocks: &mut B,
    from: u32,
    inode: &mut [u8],
    p: u32,
) -> Result<(), AllocError>
    // An inode, and blocks of which those of the bitmap are marked as used.
    requires whole { length inode.old ≡ 64 }
    requires some { 2 ≤ length (B.blocks blocks.old) }
    requires count_few { length (B.blocks blocks.old) ≤ most_blocks }
    requires reserved { (b : ℕ) → b < bitmap_blocks (length (B.blocks blocks.old)) → is_marked_used (B.blocks blocks.old) b ≡ true }

    // What the inode names so far, and which blocks are free.
    requires names { NamesBlocks p (inode_entry (B.blocks blocks.old) inode.old) (B.blocks blocks.old) }
    requires free { p ≡ 1 → 0 < free_blocks (B.blocks blocks.old) }
    requires none { NoneFreeBelow from (B.blocks blocks.old) }

    // What `Ok` leaves of the inode and the blocks. Only the stage changes.
    ensures done { OnOk result (AddsDouble p inode.old inode.new (B.blocks blocks.old) (B.blocks blocks.new)) }
    ensures kept { B.applied blocks.new ≡ B.applied blocks.old }
{
    if p != 1 {
        return Ok(());
    }
    let double = take_zeros(blocks, from)?;
    put32(inode, DOUBLE_AT, double);
    Ok(())
}

// Gives an inode a block of pointers if its i-th block is the first to need it, and the double-indirect block if that
// block of pointers is the first to need it. No block below `from` is free.
fn add_table<B: Blocks>(
    blocks: &mut B,
    from: u32,
    inode: &mut [u8],
    i: u32,
) -> Result<(), AllocError>
    // An inode, and blocks of which those of the bitmap are marked as used.
    requires whole { length inode.old ≡ 64 }
    requires few { i < 1048576 }
    requires some { 2 ≤ length (B.blocks blocks.old) }
    requires count_few { length (B.blocks blocks.old) ≤ most_blocks }
    requires reserved { (b : ℕ) → b < bitmap_blocks (length (B.blocks blocks.old)) → is_marked_used (B.blocks blocks.old) b ≡ true }

    // What the inode names so far, and which blocks are free.
    requires names { NamesBlocks (indirect_for i) (inode_entry (B.blocks blocks.old) inode.old) (B.blocks blocks.old) }
    requires free { with_double (indirect_for (i + 1)) ≤ free_blocks (B.blocks blocks.old) + with_double (indirect_for i) }
    requires none { NoneFreeBelow from (B.blocks blocks.old) }

    // What `Ok` leaves of the inode and the blocks. Only the stage changes.
    ensures done { OnOk result (AddsTable i inode.old inode.new (B.blocks blocks.old) (B.blocks blocks.new)) }
    ensures kept { B.applied blocks.new ≡ B.applied blocks.old }
{
    if i % BLOCK_POINTERS != DIRECT_POINTERS {
        return Ok(());
    }
    let p = i / BLOCK_POINTERS;
    let table = take_zeros(blocks, from)?;
    add_double(blocks, from, inode, p)?;
    put_indirect(blocks, inode, p, table)
}

// Gives a file its i-th block, and the blocks of pointers that the i-th is the first to need. No block below `from` is
// free.
fn add_block<B: Blocks>(
    blocks: &mut B,
    from: u32,
    inode: &mut [u8],
    i: u32,
) -> Result<u32, AllocError>
    // An inode, and blocks of which those of the bitmap are marked as used.
    requires whole { length inode.old ≡ 64 }
    requires few { i < 1048576 }
    requires some { 2 ≤ length (B.blocks blocks.old) }
    requires count_few { length (B.blocks blocks.old) ≤ most_blocks }
    requires reserved { (b : ℕ) → b < bitmap_blocks (length (B.blocks blocks.old)) → is_marked_used (B.blocks blocks.old) b ≡ true }

    // What the inode names so far, and which blocks are free.
    requires names { NamesBlocks (indirect_for i) (inode_entry (B.blocks blocks.old) inode.old) (B.blocks blocks.old) }
    requires free { with_indirect (i + 1) ≤ free_blocks (B.blocks blocks.old) + with_indirect i }
    requires none { NoneFreeBelow from (B.blocks blocks.old) }

    // What `Ok` leaves of the inode and the blocks. Only the stage changes.
    ensures done { IfOk result (λ number. AddsBlock i number inode.old inode.new (B.blocks blocks.old) (B.blocks blocks.new)) }
    ensures kept { B.applied blocks.new ≡ B.applied blocks.old }
{
    let number = take_block(blocks, from)?;
    add_table(blocks, from, inode, i)?;
    put_pointer(blocks, inode, i, number)?;
    Ok(number)
}

// Appends octets to a file, all of them in its last block or all in a new one. No block below `from` is free.
fn add_piece<B: Blocks>(
    blocks: &mut B,
    inodes: u32,
    from: u32,
    at: u32,
    piece: &[u8],
) -> Result<(), AllocError>
    // A file of a file system.
    requires room { HasRoom inodes (B.blocks blocks.old) }
    requires rule { IsFileSystem inodes (B.blocks blocks.old) }
    requires below { at < inodes }
    requires file { IsFile (entry inodes (B.blocks blocks.old) at) }

    // A piece that fits into one block, and enough free blocks.
    requires some { 0 < length piece.now }
    requires within { size (entry inodes (B.blocks blocks.old) at) % 4096 + length piece.now ≤ 4096 }
    requires enough { HasRoomFor (B.blocks blocks.old) (size (entry inodes (B.blocks blocks.old) at))
        (size (entry inodes (B.blocks blocks.old) at) + length piece.now) }
    requires none { NoneFreeBelow from (B.blocks blocks.old) }

    // The longer file, and the blocks that change.
    ensures grown { OnOk result (GrowsBy inodes at piece.now (B.blocks blocks.old) (B.blocks blocks.new)) }
    ensures touches { OnOk result ((block : ℕ) × TouchesData at (block ∷ [])
        (content_blocks (size (entry inodes (B.blocks blocks.old) at)))
        (content_blocks (size (entry inodes (B.blocks blocks.old) at) + length piece.now))
        (B.blocks blocks.old) (B.blocks blocks.new)) }

    // Only the stage changes.
    ensures kept { B.applied blocks.new ≡ B.applied blocks.old }
{
    let mut inode = [0; RECORD_SIZE];
    get_inode(blocks, at, &mut inode);
    let size = number64(&inode, SIZE_AT);
    let i = (size / BLOCK_SIZE as u64) as u32;
    let within = (size % BLOCK_SIZE as u64) as usize;
    let number = if within == 0 {
        add_block(blocks, from, &mut inode, i)?
    } else {
        pointer_at(blocks, &inode, i)
    };
    put_piece(blocks, number, within, piece)?;
    put64(&mut inode, SIZE_AT, size + piece.len() as u64);
    put_inode(blocks, at, &inode)
}

/// Appends octets to the file of an inode, which must have room for them, and answers how many blocks that took. The
/// search for blocks starts at `from`; no block below it may be free. Refused only for want of memory; then the caller
/// must drop the stage.
pub fn extend<B: Blocks>(
    blocks: &mut B,
    inodes: u32,
    from: u32,
    at: u32,
    octets: &[u8],
) -> Result<u32, AllocError>
    // A file of a file system.
    requires room { HasRoom inodes (B.blocks blocks.old) }
    requires rule { IsFileSystem inodes (B.blocks blocks.old) }
    requires below { at < inodes }
    requires file { IsFile (entry inodes (B.blocks blocks.old) at) }

    // Enough free blocks, and where the search may start.
    requires enough { HasRoomFor (B.blocks blocks.old) (size (entry inodes (B.blocks blocks.old) at))
        (size (entry inodes (B.blocks blocks.old) at) + length octets.now) }
    requires none { NoneFreeBelow from (B.blocks blocks.old) }

    // The longer file, the blocks taken, and how many change at most.
    ensures grown { OnOk result (GrowsBy inodes at octets.now (B.blocks blocks.old) (B.blocks blocks.new)) }
    ensures taken { IfOk result (λ taken. free_blocks (B.blocks blocks.new) + taken ≡ free_blocks (B.blocks blocks.old)) }
    ensures touches { OnOk result (Touches (touched_by_growth (size (entry inodes (B.blocks blocks.old) at)) (length octets.now))
        (B.blocks blocks.old) (B.blocks blocks.new)) }

    // Only the stage changes.
    ensures kept { B.applied blocks.new ≡ B.applied blocks.old }
{
    let size = size_of(blocks, inodes, at) as usize;
    let mut done = 0;
    while done < octets.len() {
        let some = (BLOCK_SIZE - (size + done) % BLOCK_SIZE).min(octets.len() - done);
        add_piece(blocks, inodes, from, at, &octets[done..done + some])?;
        done += some;
    }
    Ok(blocks_more(size as u64, (size + octets.len()) as u64))
}

/// Appends `count` zeros to the file of an inode, which must have room for them. Refused only for want of memory; then
/// the caller must drop the stage.
pub fn extend_zeros<B: Blocks>(
    blocks: &mut B,
    inodes: u32,
    at: u32,
    count: u64,
) -> Result<(), AllocError>
    // A file of a file system, and enough free blocks.
    requires room { HasRoom inodes (B.blocks blocks.old) }
    requires rule { IsFileSystem inodes (B.blocks blocks.old) }
    requires below { at < inodes }
    requires file { IsFile (entry inodes (B.blocks blocks.old) at) }
    requires enough { HasRoomFor (B.blocks blocks.old) (size (entry inodes (B.blocks blocks.old) at))
        (size (entry inodes (B.blocks blocks.old) at) + count) }

    // The longer file, and how many blocks change at most.
    ensures grown { OnOk result (GrowsBy inodes at (replicate count 0) (B.blocks blocks.old) (B.blocks blocks.new)) }
    ensures touches { OnOk result (Touches (touched_by_growth (size (entry inodes (B.blocks blocks.old) at)) count)
        (B.blocks blocks.old) (B.blocks blocks.new)) }

    // Only the stage changes.
    ensures kept { B.applied blocks.new ≡ B.applied blocks.old }
{
    let zeros = [0; BLOCK_SIZE];
    let size = size_of(blocks, inodes, at);
    let mut from = 0;
    while from < count {
        let free = BLOCK_SIZE - ((size + from) % BLOCK_SIZE as u64) as usize;
        let some = free.min((count - from) as usize);
        add_piece(blocks, inodes, 0, at, &zeros[..some])?;
        from += some as u64;
    }
    Ok(())
}
