//! Writes a new volume.

ghost use Rattle.std.specs.Prelude.{◌≡◌, ◌^◌, ◌⊎◌, ◌+◌, ◌*◌, ◌<◌, ◌≤◌, ℕ, [], length, OnOk, IsTrue};
ghost use Rattle.std.specs.List.{All};
ghost use Rattle.disk.specs.Device.{Elapses, LeavesOnly};
ghost use Rattle.disk.specs.Image.{overwritten};
ghost use Rattle.model.specs.Volume.{StandsFor, block, format_number, home_place, open_segments, segment_count};
ghost use Rattle.journal_layout.specs.Formatting.{CountsFaults, zeroed};

use crate::FormatError;
use crate::layout::{BLOCK, SEGMENTS, home_block, start_of};
use crate::superblock::describe_in;
use disk::{Disk, DiskError};
use disk_numbers::zeros;
use std::alloc::Global;

/// Writes a volume of zeroed logical blocks with this label, eight closed segments and this format, and syncs. `label`
/// has 128 octets, which the journal does not read. The volume has 1,024 to 4,194,304 blocks. `format` is 1 to 3.
///
/// `Fault` or `Memory` may leave anything on the device.
pub fn format<D: Disk>(
    alloc: Global,
    disk: &mut D,
    blocks: u64,
    label: &[u8],
    format: u32,
) -> Result<(), FormatError>
    requires low { 1024 ≤ blocks }
    requires high { blocks ≤ 4194304 }
    requires label { length label.now ≡ 128 }
    requires format { (1 ≤ format) × (format ≤ 3) }
    requires size { (D.device disk.old).size ≡ 4096 * home_place 8 blocks }
    ensures volume { IsTrue (D.device disk.old).tells → OnOk result (StandsFor (D.device disk.new).content label.now (zeroed blocks)) }
    ensures count { IsTrue (D.device disk.old).tells → OnOk result (segment_count (D.device disk.new).content ≡ 8) }
    ensures format { IsTrue (D.device disk.old).tells → OnOk result (format_number (D.device disk.new).content ≡ format) }
    ensures synced { IsTrue (D.device disk.old).tells → OnOk result (LeavesOnly (D.device disk.new) (D.device disk.new).content) }
    ensures closed { IsTrue (D.device disk.old).tells → OnOk result (open_segments (D.device disk.new).content ≡ []) }
    ensures time { Elapses (D.device disk.old) (D.device disk.new) }
    ensures failures { CountsFaults result (D.device disk.old) (D.device disk.new) }
{
    format_with(alloc, disk, SEGMENTS, blocks, label, format)
}

/// Does the same as `format`, with 1 segment or 8.
pub fn format_with<D: Disk>(
    alloc: Global,
    disk: &mut D,
    segments: u32,
    blocks: u64,
    label: &[u8],
    format: u32,
) -> Result<(), FormatError>
    requires segments { (segments ≡ 1) ⊎ (segments ≡ 8) }
    requires low { 1024 ≤ blocks }
    requires high { blocks ≤ 4194304 }
    requires label { length label.now ≡ 128 }
    requires format { (1 ≤ format) × (format ≤ 3) }
    requires size { (D.device disk.old).size ≡ 4096 * home_place segments blocks }
    ensures volume { IsTrue (D.device disk.old).tells → OnOk result (StandsFor (D.device disk.new).content label.now (zeroed blocks)) }
    ensures count { IsTrue (D.device disk.old).tells → OnOk result (segment_count (D.device disk.new).content ≡ segments) }
    ensures format { IsTrue (D.device disk.old).tells → OnOk result (format_number (D.device disk.new).content ≡ format) }
    ensures synced { IsTrue (D.device disk.old).tells → OnOk result (LeavesOnly (D.device disk.new) (D.device disk.new).content) }
    ensures closed { IsTrue (D.device disk.old).tells → OnOk result (open_segments (D.device disk.new).content ≡ []) }
    ensures time { Elapses (D.device disk.old) (D.device disk.new) }
    ensures failures { CountsFaults result (D.device disk.old) (D.device disk.new) }
{
    match zeros(alloc, BLOCK) {
        Ok(octets) => write_volume(disk, segments, blocks, label, format, octets),
        Err(_) => Err(FormatError::Memory),
    }
}

// Writes the volume. `zeros` is the content of each block but the first.
fn write_volume<D: Disk>(
    disk: &mut D,
    segments: u32,
    blocks: u64,
    label: &[u8],
    format: u32,
    mut octets: Vec<u8>,
) -> Result<(), FormatError>
    requires segments { (segments ≡ 1) ⊎ (segments ≡ 8) }
    requires low { 1024 ≤ blocks }
    requires high { blocks ≤ 4194304 }
    requires label { length label.now ≡ 128 }
    requires format { (1 ≤ format) × (format ≤ 3) }
    requires size { (D.device disk.old).size ≡ 4096 * home_place segments blocks }
    requires whole { length octets.items ≡ 4096 }
    requires zero { All (λ octet. octet ≡ 0) octets.items }
    ensures volume { IsTrue (D.device disk.old).tells → OnOk result (StandsFor (D.device disk.new).content label.now (zeroed blocks)) }
    ensures count { IsTrue (D.device disk.old).tells → OnOk result (segment_count (D.device disk.new).content ≡ segments) }
    ensures format { IsTrue (D.device disk.old).tells → OnOk result (format_number (D.device disk.new).content ≡ format) }
    ensures synced { IsTrue (D.device disk.old).tells → OnOk result (LeavesOnly (D.device disk.new) (D.device disk.new).content) }
    ensures closed { IsTrue (D.device disk.old).tells → OnOk result (open_segments (D.device disk.new).content ≡ []) }
    ensures time { Elapses (D.device disk.old) (D.device disk.new) }
    ensures failures { CountsFaults result (D.device disk.old) (D.device disk.new) }
{
    write_blocks(disk, home_block(segments, blocks), octets.as_slice())?;
    describe_in(&mut octets, segments, blocks as u32, label, format);
    write_part(disk, 0, octets.as_slice())?;
    sync_last(disk)
}

// Writes these octets into each block from the second on.
fn write_blocks<D: Disk>(disk: &mut D, end: u64, octets: &[u8]) -> Result<(), FormatError>
    requires low { end < 2 ^ 40 }
    requires whole { length octets.now ≡ 4096 }
    requires size { (D.device disk.old).size ≡ 4096 * end }
    ensures blocks { IsTrue (D.device disk.old).tells
        → OnOk result ((k : ℕ) → 0 < k → k < end → block k (D.device disk.new).content ≡ octets.now) }
    ensures time { Elapses (D.device disk.old) (D.device disk.new) }
    ensures failures { CountsFaults result (D.device disk.old) (D.device disk.new) }
{
    for k in 1..end {
        write_part(disk, start_of(k), octets)?;
    }
    Ok(())
}

fn write_part<D: Disk>(disk: &mut D, at: u64, from: &[u8]) -> Result<(), FormatError>
    requires { at + length from.now ≤ (D.device disk.old).size }
    ensures content { IsTrue (D.device disk.old).tells
        → OnOk result ((D.device disk.new).content ≡ overwritten at from.now (D.device disk.old).content) }
    ensures time { Elapses (D.device disk.old) (D.device disk.new) }
    ensures failures { CountsFaults result (D.device disk.old) (D.device disk.new) }
{
    match disk.write(at, from) {
        Ok(()) => Ok(()),
        Err(DiskError::Fault) => Err(FormatError::Fault),
        Err(DiskError::Memory) => Err(FormatError::Memory),
    }
}

fn sync_last<D: Disk>(disk: &mut D) -> Result<(), FormatError>
    ensures content { IsTrue (D.device disk.old).tells → OnOk result ((D.device disk.new).content ≡ (D.device disk.old).content) }
    ensures synced { IsTrue (D.device disk.old).tells → OnOk result (LeavesOnly (D.device disk.new) (D.device disk.old).content) }
    ensures time { Elapses (D.device disk.old) (D.device disk.new) }
    ensures failures { CountsFaults result (D.device disk.old) (D.device disk.new) }
{
    match disk.sync() {
        Ok(()) => Ok(()),
        Err(DiskError::Fault) => Err(FormatError::Fault),
        Err(DiskError::Memory) => Err(FormatError::Memory),
    }
}
