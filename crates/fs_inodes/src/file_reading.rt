//! The octets of files.

ghost use Rattle.std.specs.Prelude.{◌≡◌, ◌-◌, ◌%◌, ◌<◌, ◌++◌, min, take, drop, IfOk, OnOk};
ghost use Rattle.model.specs.Files.{HasRoom, IsFileSystem, IsFile, entry, content_of};

use disk_numbers::number64;
use fs_blocks::{BLOCK_SIZE, Blocks};
use fs_layout::inodes::{SIZE_AT, pointer_at, size_of};
use fs_layout::records::{RECORD_SIZE, get_inode};
use std::alloc::{AllocError, Global};

/// Borrows the octets of the file of an inode from a place on: at most `count`, and no further than the end of the
/// block that contains the place. From the file's size on the result is empty.
pub fn piece<B: Blocks>(blocks: &B, inodes: u32, at: u32, place: u64, count: u64) -> &[u8]
    requires room { HasRoom inodes (B.blocks blocks.now) }
    requires rule { IsFileSystem inodes (B.blocks blocks.now) }
    requires below { at < inodes }
    requires file { IsFile (entry inodes (B.blocks blocks.now) at) }
    ensures { result.now ≡ take (min count (4096 - place % 4096))
        (drop place (content_of (B.blocks blocks.now) (entry inodes (B.blocks blocks.now) at))) }
{
    let mut inode = [0; RECORD_SIZE];
    get_inode(blocks, at, &mut inode);
    let size = number64(&inode, SIZE_AT);
    if size <= place {
        return &[];
    }
    let within = (place % BLOCK_SIZE as u64) as usize;
    let some = count.min(size - place).min((BLOCK_SIZE - within) as u64) as usize;
    let number = pointer_at(blocks, &inode, (place / BLOCK_SIZE as u64) as u32);
    &blocks.block(number)[within..within + some]
}

// Appends the octets of the file of an inode from a place up to its size, at most `count`. If memory is refused, some
// of them may have been appended.
fn read_into<B: Blocks>(
    blocks: &B,
    inodes: u32,
    at: u32,
    place: u64,
    count: u64,
    into: &mut Vec<u8>,
) -> Result<(), AllocError>
    requires room { HasRoom inodes (B.blocks blocks.now) }
    requires rule { IsFileSystem inodes (B.blocks blocks.now) }
    requires below { at < inodes }
    requires file { IsFile (entry inodes (B.blocks blocks.now) at) }
    ensures { OnOk result (into.new.items ≡ into.old.items ++ take count
        (drop place (content_of (B.blocks blocks.now) (entry inodes (B.blocks blocks.now) at)))) }
{
    let end = size_of(blocks, inodes, at).min(place.saturating_add(count));
    let mut from = place;
    while from < end {
        let octets = piece(blocks, inodes, at, from, end - from);
        into.extend_from_slice(octets)?;
        from += octets.len() as u64;
    }
    Ok(())
}

/// The octets of the file of an inode from a place up to its size, at most `count`.
pub fn read_entry<B: Blocks>(
    alloc: Global,
    blocks: &B,
    inodes: u32,
    at: u32,
    place: u64,
    count: u64,
) -> Result<Vec<u8>, AllocError>
    requires room { HasRoom inodes (B.blocks blocks.now) }
    requires rule { IsFileSystem inodes (B.blocks blocks.now) }
    requires below { at < inodes }
    requires file { IsFile (entry inodes (B.blocks blocks.now) at) }
    ensures { IfOk result (λ octets. octets.items
        ≡ take count (drop place (content_of (B.blocks blocks.now) (entry inodes (B.blocks blocks.now) at)))) }
{
    let mut octets = Vec::new(alloc);
    read_into(blocks, inodes, at, place, count, &mut octets)?;
    Ok(octets)
}
