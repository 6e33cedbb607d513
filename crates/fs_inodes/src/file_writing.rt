//! Overwrites the octets of files.

ghost use Rattle.std.specs.Prelude.{◌≡◌, ℕ, ◌+◌, ◌%◌, ◌<◌, ◌≤◌, [], ◌∷◌, length, OnOk};
ghost use Rattle.disk.specs.Image.{overwritten};
ghost use Rattle.model.specs.Files.{HasRoom, IsFileSystem, IsFile, entry, size, content_of};
ghost use Rattle.fs_layout.specs.Touches.{SameBut, Touches, blocks_reached};
ghost use Rattle.fs_inodes.specs.Changes.{ReplacesContent, SameMarks};

use fs_blocks::{BLOCK_SIZE, Blocks};
use fs_layout::inodes::pointer_at;
use fs_layout::records::{RECORD_SIZE, get_inode};
use std::alloc::AllocError;

/// Overwrites octets of the file of an inode, from a place on and within its size. Refused only for want of memory;
/// then the caller must drop the stage.
pub fn overwrite<B: Blocks>(
    blocks: &mut B,
    inodes: u32,
    at: u32,
    place: u64,
    octets: &[u8],
) -> Result<(), AllocError>
    // A file of a file system, with octets at all these places.
    requires room { HasRoom inodes (B.blocks blocks.old) }
    requires rule { IsFileSystem inodes (B.blocks blocks.old) }
    requires below { at < inodes }
    requires file { IsFile (entry inodes (B.blocks blocks.old) at) }
    requires fits { place + length octets.now ≤ size (entry inodes (B.blocks blocks.old) at) }

    // The new content, in the same blocks.
    ensures done { OnOk result (ReplacesContent inodes at
        (overwritten place octets.now (content_of (B.blocks blocks.old) (entry inodes (B.blocks blocks.old) at)))
        (B.blocks blocks.old) (B.blocks blocks.new)) }
    ensures marks { OnOk result (SameMarks (B.blocks blocks.old) (B.blocks blocks.new)) }

    // The blocks that change, all of them in the stage.
    ensures touches { OnOk result (Touches (blocks_reached place (length octets.now)) (B.blocks blocks.old) (B.blocks blocks.new)) }
    ensures kept { B.applied blocks.new ≡ B.applied blocks.old }
{
    let mut done = 0;
    while done < octets.len() {
        let from = place + done as u64;
        let room = BLOCK_SIZE - (from % BLOCK_SIZE as u64) as usize;
        let some = room.min(octets.len() - done);
        overwrite_part(blocks, inodes, at, from, &octets[done..done + some])?;
        done += some;
    }
    Ok(())
}

// Overwrites octets that lie in one block of the file of an inode.
fn overwrite_part<B: Blocks>(
    blocks: &mut B,
    inodes: u32,
    at: u32,
    place: u64,
    octets: &[u8],
) -> Result<(), AllocError>
    // A file of a file system.
    requires room { HasRoom inodes (B.blocks blocks.old) }
    requires rule { IsFileSystem inodes (B.blocks blocks.old) }
    requires below { at < inodes }
    requires file { IsFile (entry inodes (B.blocks blocks.old) at) }

    // Some of its octets, all in one block.
    requires some { 0 < length octets.now }
    requires fits { place + length octets.now ≤ size (entry inodes (B.blocks blocks.old) at) }
    requires one_block { place % 4096 + length octets.now ≤ 4096 }

    // The new content, in the same blocks.
    ensures done { OnOk result (ReplacesContent inodes at
        (overwritten place octets.now (content_of (B.blocks blocks.old) (entry inodes (B.blocks blocks.old) at)))
        (B.blocks blocks.old) (B.blocks blocks.new)) }
    ensures marks { OnOk result (SameMarks (B.blocks blocks.old) (B.blocks blocks.new)) }

    // The blocks that change, all of them in the stage.
    ensures touches { OnOk result ((block : ℕ) × SameBut (block ∷ []) (B.blocks blocks.old) (B.blocks blocks.new)) }
    ensures kept { B.applied blocks.new ≡ B.applied blocks.old }
{
    let mut inode = [0; RECORD_SIZE];
    get_inode(blocks, at, &mut inode);
    let number = pointer_at(blocks, &inode, (place / BLOCK_SIZE as u64) as u32);
    let within = (place % BLOCK_SIZE as u64) as usize;
    blocks.put_at(number, within, octets)
}
