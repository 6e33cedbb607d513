//! Lays the blocks of a new volume, but for the last octet of its magic.

ghost use Rattle.std.specs.Prelude.{◌≡◌, ◌<◌, ◌≤◌, IsTrue, OnOk, length};
ghost use Rattle.disk.specs.Device.{LeavesOnly};
ghost use Rattle.model.specs.Files.{first_data};
ghost use Rattle.disk.specs.Image.{overwritten};
ghost use Rattle.std.specs.Prelude.{drop, take};
ghost use Rattle.journal_layout.specs.Formatting.{CountsFaults, zeroed};
ghost use Rattle.volume_new.specs.Formatting.{HasBitmap, IsLaid, IsLaidOut, LeavesItOut, tables_of};
ghost use Rattle.volume_new.specs.Sizes.{device_size};

use crate::calls::{sync, write_beside};
use crate::magic::MAGIC_END;
use disk::Disk;
use fs::bitmap_block;
use fs_layout::bitmap::BLOCK_BITS;
use fs_layout::inodes::first_data;
use journal_layout::FormatError;
use journal_layout::layout::{BLOCK, SEGMENTS, home_block, start_of};

/// Writes the volume of the empty file system with this superblock, but for the last octet of its magic, and syncs it.
pub(crate) fn lay_out<D: Disk>(
    disk: &mut D,
    blocks: u64,
    inodes: u32,
    superblock: &[u8],
) -> Result<(), FormatError>
    requires low { 1024 ≤ blocks }
    requires high { blocks ≤ 4194304 }
    requires room { first_data blocks inodes ≤ blocks }
    requires whole { length superblock.now ≡ 4096 }
    requires size { (D.device disk.old).size ≡ device_size blocks }
    ensures laid { IsTrue (D.device disk.old).tells
        → OnOk result (IsLaidOut blocks inodes superblock.now (D.device disk.new).content) }
    ensures synced { IsTrue (D.device disk.old).tells → OnOk result (LeavesOnly (D.device disk.new) (D.device disk.new).content) }
    ensures leaves { LeavesItOut (D.device disk.old) (D.device disk.new) }
    ensures failures { CountsFaults result (D.device disk.old) (D.device disk.new) }
{
    write_zeros(disk, blocks)?;
    write_bitmap(disk, blocks, first_data(blocks as u32, inodes))?;
    write_superblock(disk, superblock)?;
    sync(disk)
}

// Writes zeros into each block but the first.
fn write_zeros<D: Disk>(disk: &mut D, blocks: u64) -> Result<(), FormatError>
    requires low { 1024 ≤ blocks }
    requires high { blocks ≤ 4194304 }
    requires size { (D.device disk.old).size ≡ device_size blocks }
    ensures laid { IsTrue (D.device disk.old).tells → OnOk result (IsLaid blocks (zeroed blocks) (D.device disk.new).content) }
    ensures leaves { LeavesItOut (D.device disk.old) (D.device disk.new) }
    ensures failures { CountsFaults result (D.device disk.old) (D.device disk.new) }
{
    let zeros = [0; BLOCK];
    for k in 1..home_block(SEGMENTS, blocks) {
        write_beside(disk, start_of(k), &zeros)?;
    }
    Ok(())
}

// Writes the blocks of the bitmap that have a mark, of a volume whose first blocks are used, this many.
fn write_bitmap<D: Disk>(disk: &mut D, blocks: u64, first: u32) -> Result<(), FormatError>
    requires low { 1024 ≤ blocks }
    requires high { blocks ≤ 4194304 }
    requires room { first ≤ blocks }
    requires size { (D.device disk.old).size ≡ device_size blocks }
    requires laid { IsTrue (D.device disk.old).tells → IsLaid blocks (zeroed blocks) (D.device disk.old).content }
    ensures marked { IsTrue (D.device disk.old).tells
        → OnOk result (HasBitmap first (tables_of first) blocks (D.device disk.new).content) }
    ensures leaves { LeavesItOut (D.device disk.old) (D.device disk.new) }
    ensures failures { CountsFaults result (D.device disk.old) (D.device disk.new) }
{
    for table in 0..first.div_ceil(BLOCK_BITS as u32) {
        let place = start_of(home_block(SEGMENTS, u64::from(table)));
        write_beside(disk, place, &bitmap_block(table, first))?;
    }
    Ok(())
}

// Writes the octets of a superblock before the last one of its magic, and those behind it.
fn write_superblock<D: Disk>(disk: &mut D, superblock: &[u8]) -> Result<(), FormatError>
    requires whole { length superblock.now ≡ 4096 }
    requires there { 4096 ≤ (D.device disk.old).size }
    ensures content { IsTrue (D.device disk.old).tells → OnOk result ((D.device disk.new).content
        ≡ overwritten 8 (drop 8 superblock.now) (overwritten 0 (take 7 superblock.now) (D.device disk.old).content)) }
    ensures leaves { LeavesItOut (D.device disk.old) (D.device disk.new) }
    ensures failures { CountsFaults result (D.device disk.old) (D.device disk.new) }
{
    write_beside(disk, 0, &superblock[..MAGIC_END])?;
    write_beside(disk, MAGIC_END as u64 + 1, &superblock[MAGIC_END + 1..])
}
