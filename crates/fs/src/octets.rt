//! The octets of files, by name.

ghost use Rattle.std.specs.Prelude.{◌≡◌, ◌≢◌, ℕ, ◌+◌, ◌-◌, ◌++◌, ◌≤◌, List, length, take, drop, replicate, IfErr, IfOk, OnOk};
ghost use Rattle.disk.specs.Image.{overwritten};
ghost use Rattle.model.specs.Files.{AreWithin, HasRoom, IsFileSystem, table, most_octets};
ghost use Rattle.fs.specs.Calls.{IsName, IsThere, IsFileAt, HasNoRoomFor};
ghost use Rattle.fs.specs.Changes.{Rewrites};
ghost use Rattle.fs.specs.Touches.{Touches, touched_by_growth, touched_by_truncation, touched_by_write};
ghost use Rattle.fs.specs.Growing.{Appends, CannotGrow};

use fs_blocks::Blocks;
use fs_inodes::{extend, extend_zeros, has_room_for, overwrite, read_entry, shrink_to};
use fs_layout::FsError;
use fs_layout::inodes::size_of;
use fs_layout::records::find;
use fs_layout::slots::slot_for;
use std::alloc::Global;

/// The octets of a file from a place up to its size, at most `count`. `NotFound` exactly if no file has the name. The
/// only other refusal is `Memory`.
pub fn read_at<B: Blocks>(
    alloc: Global,
    blocks: &B,
    inodes: u32,
    name: &[u8],
    place: u64,
    count: u64,
) -> Result<Vec<u8>, FsError>
    requires room { HasRoom inodes (B.blocks blocks.now) }
    requires name { IsName name.now }
    requires rule { IsFileSystem inodes (B.blocks blocks.now) }
    ensures found { IfOk result (λ octets. (k : ℕ) × (content : List ℕ)
        × IsFileAt (table inodes (B.blocks blocks.now)) k name.now content × (octets.items ≡ take count (drop place content))) }
    ensures not_found { IfErr result (λ e. e ≡ FsError.NotFound → ¬ (IsThere (table inodes (B.blocks blocks.now)) name.now)) }
    ensures no_other { IfErr result (λ e. (e ≢ FsError.Damaged) × (e ≢ FsError.Full) × (e ≢ FsError.Exists)) }
{
    let Some(at) = find(blocks, inodes, &slot_for(name)) else {
        return Err(FsError::NotFound);
    };
    let octets = read_entry(alloc, blocks, inodes, at, place, count)?;
    Ok(octets)
}

/// Appends octets to a file. `NotFound` exactly if no file has the name, else `Full` exactly if the file would be too
/// large for the format or need more blocks than are free; both change nothing. After `Memory` the caller must drop the
/// stage.
pub fn append<B: Blocks>(
    blocks: &mut B,
    inodes: u32,
    format: u32,
    name: &[u8],
    octets: &[u8],
) -> Result<(), FsError>
    // A file system, and a name for a file.
    requires room { HasRoom inodes (B.blocks blocks.old) }
    requires name { IsName name.now }
    requires rule { IsFileSystem inodes (B.blocks blocks.old) }

    // The longer file, how many blocks change at most, and sizes that the format allows.
    ensures appended { OnOk result (Appends inodes name.now octets.now (B.blocks blocks.old) (B.blocks blocks.new)) }
    ensures touches { OnOk result ((k : ℕ) (content : List ℕ) → IsFileAt (table inodes (B.blocks blocks.old)) k name.now content
        → Touches (touched_by_growth (length content) (length octets.now)) (B.blocks blocks.old) (B.blocks blocks.new)) }
    ensures format { OnOk result (AreWithin (most_octets format) inodes (B.blocks blocks.old)
        → AreWithin (most_octets format) inodes (B.blocks blocks.new)) }

    // The cause of each refusal, and what it leaves.
    ensures not_found { IfErr result (λ e. e ≡ FsError.NotFound
        → (¬ (IsThere (table inodes (B.blocks blocks.old)) name.now)) × (blocks.new ≡ blocks.old)) }
    ensures full { IfErr result (λ e. e ≡ FsError.Full
        → CannotGrow format inodes name.now (length octets.now) (B.blocks blocks.old) × (blocks.new ≡ blocks.old)) }
    ensures no_other { IfErr result (λ e. (e ≢ FsError.Damaged) × (e ≢ FsError.Exists)) }

    // Only the stage changes.
    ensures kept { B.applied blocks.new ≡ B.applied blocks.old }
{
    let Some(at) = find(blocks, inodes, &slot_for(name)) else {
        return Err(FsError::NotFound);
    };
    let size = size_of(blocks, inodes, at);
    if !has_room_for(blocks, inodes, format, size, size + octets.len() as u64) {
        return Err(FsError::Full);
    }
    extend(blocks, inodes, 0, at, octets)?;
    Ok(())
}

/// Writes octets into a file from a place on, which must not be after its end: over those already there, and past the
/// end. `NotFound` exactly if no file has the name, else `Full` exactly if the file would be too large for the format
/// or too few blocks are free; both change nothing. After `Memory` the caller must drop the stage.
pub fn write_at<B: Blocks>(
    blocks: &mut B,
    inodes: u32,
    format: u32,
    name: &[u8],
    place: u64,
    octets: &[u8],
) -> Result<(), FsError>
    // A file system, a name, and a place in the file or at its end.
    requires room { HasRoom inodes (B.blocks blocks.old) }
    requires name { IsName name.now }
    requires rule { IsFileSystem inodes (B.blocks blocks.old) }
    requires place { (k : ℕ) (content : List ℕ) → IsFileAt (table inodes (B.blocks blocks.old)) k name.now content
        → place ≤ length content }

    // The new content, how many blocks change at most, and sizes that the format allows.
    ensures written { OnOk result (Rewrites inodes name.now (overwritten place octets.now) (B.blocks blocks.old) (B.blocks blocks.new)) }
    ensures touches { OnOk result ((k : ℕ) (content : List ℕ) → IsFileAt (table inodes (B.blocks blocks.old)) k name.now content
        → Touches (touched_by_write (length content) place (length octets.now)) (B.blocks blocks.old) (B.blocks blocks.new)) }
    ensures format { OnOk result (AreWithin (most_octets format) inodes (B.blocks blocks.old)
        → AreWithin (most_octets format) inodes (B.blocks blocks.new)) }

    // The cause of each refusal, and what it leaves.
    ensures not_found { IfErr result (λ e. e ≡ FsError.NotFound
        → (¬ (IsThere (table inodes (B.blocks blocks.old)) name.now)) × (blocks.new ≡ blocks.old)) }
    ensures full { IfErr result (λ e. e ≡ FsError.Full
        → (k : ℕ) × (content : List ℕ) × IsFileAt (table inodes (B.blocks blocks.old)) k name.now content
        × HasNoRoomFor format (B.blocks blocks.old) (length content) (place + length octets.now) × (blocks.new ≡ blocks.old)) }
    ensures no_other { IfErr result (λ e. (e ≢ FsError.Damaged) × (e ≢ FsError.Exists)) }

    // Only the stage changes.
    ensures kept { B.applied blocks.new ≡ B.applied blocks.old }
{
    let Some(at) = find(blocks, inodes, &slot_for(name)) else {
        return Err(FsError::NotFound);
    };
    let size = size_of(blocks, inodes, at);
    let end = place + octets.len() as u64;
    if end <= size {
        overwrite(blocks, inodes, at, place, octets)?;
        return Ok(());
    }
    if !has_room_for(blocks, inodes, format, size, end) {
        return Err(FsError::Full);
    }
    let within = (size - place) as usize;
    overwrite(blocks, inodes, at, place, &octets[..within])?;
    extend(blocks, inodes, 0, at, &octets[within..])?;
    Ok(())
}

/// Gives a file a size: it is cut off there, or extended with zeros. `NotFound` exactly if no file has the name, else
/// `Full` exactly if the file would be too large for the format or too few blocks are free; both change nothing. After
/// `Memory` the caller must drop the stage.
pub fn truncate<B: Blocks>(
    blocks: &mut B,
    inodes: u32,
    format: u32,
    name: &[u8],
    size: u64,
) -> Result<(), FsError>
    // A file system, and a name for a file.
    requires room { HasRoom inodes (B.blocks blocks.old) }
    requires name { IsName name.now }
    requires rule { IsFileSystem inodes (B.blocks blocks.old) }

    // The new content, how many blocks change at most, and sizes that the format allows.
    ensures truncated { OnOk result (Rewrites inodes name.now
        (λ content. take size content ++ replicate (size - length content) 0) (B.blocks blocks.old) (B.blocks blocks.new)) }
    ensures touches { OnOk result ((k : ℕ) (content : List ℕ) → IsFileAt (table inodes (B.blocks blocks.old)) k name.now content
        → Touches (touched_by_truncation (length content) size) (B.blocks blocks.old) (B.blocks blocks.new)) }
    ensures format { OnOk result (AreWithin (most_octets format) inodes (B.blocks blocks.old)
        → AreWithin (most_octets format) inodes (B.blocks blocks.new)) }

    // The cause of each refusal, and what it leaves.
    ensures not_found { IfErr result (λ e. e ≡ FsError.NotFound
        → (¬ (IsThere (table inodes (B.blocks blocks.old)) name.now)) × (blocks.new ≡ blocks.old)) }
    ensures full { IfErr result (λ e. e ≡ FsError.Full
        → (k : ℕ) × (content : List ℕ) × IsFileAt (table inodes (B.blocks blocks.old)) k name.now content
        × HasNoRoomFor format (B.blocks blocks.old) (length content) size × (blocks.new ≡ blocks.old)) }
    ensures no_other { IfErr result (λ e. (e ≢ FsError.Damaged) × (e ≢ FsError.Exists)) }

    // Only the stage changes.
    ensures kept { B.applied blocks.new ≡ B.applied blocks.old }
{
    let Some(at) = find(blocks, inodes, &slot_for(name)) else {
        return Err(FsError::NotFound);
    };
    let was = size_of(blocks, inodes, at);
    if size <= was {
        shrink_to(blocks, inodes, at, size)?;
        return Ok(());
    }
    if !has_room_for(blocks, inodes, format, was, size) {
        return Err(FsError::Full);
    }
    extend_zeros(blocks, inodes, at, size - was)?;
    Ok(())
}
