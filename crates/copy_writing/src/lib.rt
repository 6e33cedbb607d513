//! Writes a copy of a volume's blocks to another device. The copy is no volume until it is whole: its superblock comes last.
#![tactic(auto)]

ghost use Rattle.std.specs.Prelude.{◌≡◌, ◌<◌, ◌≤◌, ◌*◌, ◌+◌, List, ℕ, length, OnOk, IsTrue};
ghost use Rattle.std.specs.List.{All};
ghost use Rattle.disk.specs.Device.{LeavesOnly};
ghost use Rattle.disk.specs.Image.{overwritten};
ghost use Rattle.model.specs.Volume.{blocks_from, laid_over};
ghost use Rattle.copy_writing.specs.Writing.{HasHome, IsCopyOf};
ghost use Rattle.volume_new.specs.Formatting.{IsLaid};
ghost use Rattle.volume_new.specs.Sizes.{device_size};

use disk::{Disk, DiskError};
use fs_blocks::block_of;
use journal_layout::FormatError;
use journal_layout::layout::{BLOCK, SEGMENTS, home_block, start_of};
use std::alloc::Global;
use volume_new::superblock;

/// What a copy has in common with its volume.
#[derive(Drop)]
pub struct CopyPlan<'a> {
    /// The 128 octets of the label.
    pub label: &'a [u8],
    /// The number of blocks.
    pub blocks: u64,
    /// 1 to 3.
    pub format: u32,
    ghost labelled: { length label.now ≡ 128 },
    ghost low: { 1024 ≤ blocks },
    ghost high: { blocks ≤ 4194304 },
    ghost known: { (1 ≤ format) × (format ≤ 3) },
}

/// Writes zeros before the home of the blocks, so that no segment is open. Then blocks can be put. The device has `device_octets` of the
/// blocks. `Fault` or `Memory` may leave anything there.
pub fn begin<D: Disk>(disk: &mut D, plan: &CopyPlan<'_>) -> Result<(), FormatError>
    requires size { (D.device disk.old).size ≡ device_size plan.now.blocks }
    ensures size { (D.device disk.new).size ≡ device_size plan.now.blocks }
    ensures begun { IsTrue (D.device disk.old).tells → OnOk result (HasHome plan.now.blocks (D.device disk.new).content) }
    ensures tells { (D.device disk.new).tells ≡ (D.device disk.old).tells }
{
    let zeros = [0; BLOCK];
    for k in 0..home_block(SEGMENTS, 0) {
        write(disk, start_of(k), &zeros)?;
    }
    Ok(())
}

/// Puts these blocks to their home. `images` has the octets of each, laid end to end. `Fault` or `Memory` may leave any octets in these
/// blocks.
pub fn put<D: Disk>(
    disk: &mut D,
    blocks: u64,
    numbers: &[u32],
    images: &[u8],
) -> Result<(), FormatError>
    requires size { (D.device disk.old).size ≡ device_size blocks }
    requires high { blocks ≤ 4194304 }
    requires there { All (λ n. n < blocks) numbers.now }
    requires whole { length images.now ≡ 4096 * length numbers.now }
    ensures size { (D.device disk.new).size ≡ device_size blocks }
    ensures put { IsTrue (D.device disk.old).tells → OnOk result ((homes : List (List ℕ)) → IsLaid blocks homes (D.device disk.old).content
        → IsLaid blocks (laid_over homes numbers.now (blocks_from 0 (length numbers.now) images.now)) (D.device disk.new).content) }
    ensures tells { (D.device disk.new).tells ≡ (D.device disk.old).tells }
{
    for (place, number) in numbers.iter().enumerate() {
        let at = start_of(home_block(SEGMENTS, u64::from(*number)));
        write(disk, at, block_of(images, place))?;
    }
    Ok(())
}

/// Makes a volume of what was put: syncs, writes the superblock, and syncs. `Fault` or `Memory` may leave anything in the first block.
pub fn complete<D: Disk>(
    alloc: Global,
    disk: &mut D,
    plan: &CopyPlan<'_>,
) -> Result<(), FormatError>
    requires size { (D.device disk.old).size ≡ device_size plan.now.blocks }
    ensures copied { IsTrue (D.device disk.old).tells → OnOk result ((homes : List (List ℕ))
        → IsLaid plan.now.blocks homes (D.device disk.old).content
        → IsCopyOf plan.now.label.now plan.now.format homes (D.device disk.new).content) }
    ensures synced { IsTrue (D.device disk.old).tells → OnOk result (LeavesOnly (D.device disk.new) (D.device disk.new).content) }
{
    let Ok(octets) = superblock(alloc, plan.blocks as u32, plan.label, plan.format) else {
        return Err(FormatError::Memory);
    };
    // so that a crash leaves no superblock before blocks that are lost
    sync(disk)?;
    write(disk, 0, &octets)?;
    sync(disk)
}

// Syncs the device.
fn sync<D: Disk>(disk: &mut D) -> Result<(), FormatError>
    ensures content { IsTrue (D.device disk.old).tells → OnOk result ((D.device disk.new).content ≡ (D.device disk.old).content) }
    ensures synced { IsTrue (D.device disk.old).tells → OnOk result (LeavesOnly (D.device disk.new) (D.device disk.old).content) }
    ensures size { (D.device disk.new).size ≡ (D.device disk.old).size }
    ensures tells { (D.device disk.new).tells ≡ (D.device disk.old).tells }
{
    match disk.sync() {
        Ok(()) => Ok(()),
        Err(error) => Err(refusal(error)),
    }
}

// Writes octets from a place on.
fn write<D: Disk>(disk: &mut D, at: u64, from: &[u8]) -> Result<(), FormatError>
    requires { at + length from.now ≤ (D.device disk.old).size }
    ensures content { IsTrue (D.device disk.old).tells
        → OnOk result ((D.device disk.new).content ≡ overwritten at from.now (D.device disk.old).content) }
    ensures size { (D.device disk.new).size ≡ (D.device disk.old).size }
    ensures tells { (D.device disk.new).tells ≡ (D.device disk.old).tells }
{
    match disk.write(at, from) {
        Ok(()) => Ok(()),
        Err(error) => Err(refusal(error)),
    }
}

fn refusal(error: DiskError) -> FormatError
    ensures fault { result ≡ FormatError.Fault → error ≡ DiskError.Fault }
    ensures memory { result ≡ FormatError.Memory → error ≡ DiskError.Memory }
{
    match error {
        DiskError::Fault => FormatError::Fault,
        DiskError::Memory => FormatError::Memory,
    }
}
