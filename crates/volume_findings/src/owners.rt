//! Checks the owners of the blocks, the bitmap and the names, once each inode is known to have its proper form.

ghost use Rattle.std.specs.Prelude.{◌<◌};

use crate::shapes::look_at_pointer;
use disk::Disk;
use fs_layout::bitmap::BLOCK_BITS;
use fs_layout::bits::is_set;
use std::collections::BTreeMap;
use volume_reading::{
    DirectoryEntry, Grouped, Pointers, ReadStop, ReadVolume, Record, wrong, wrong_unless,
};

/// The slots of all files, with the numbers of their inodes.
pub(crate) type Names = BTreeMap<Record, u32>;

/// No inode has this number.
const NOBODY: u32 = u32::MAX;

/// Checks the owners, the bitmap and the names, and answers the names.
pub(crate) fn look<D: Disk>(volume: &mut ReadVolume<D>) -> Result<Names, ReadStop> {
    let owners = owners_of(volume)?;
    for table in 0..volume.inodes_at() {
        look_at_bitmap(volume, owners.as_slice(), table)?;
    }
    look_at_names(volume)
}

/// The owner of each block, of which there may be one at most.
fn owners_of<D: Disk>(volume: &mut ReadVolume<D>) -> Result<Vec<u32>, ReadStop> {
    let mut owners = vec![in volume.alloc; NOBODY; volume.sizes.blocks as usize]?;
    for number in 0..volume.sizes.inodes {
        let entry = volume.entry(number)?;
        if entry.is_file() {
            claim_all(volume, owners.as_mut_slice(), &entry)?;
        }
    }
    Ok(owners)
}

/// Checks the marks in a block of the bitmap.
fn look_at_bitmap<D: Disk>(
    volume: &mut ReadVolume<D>,
    owners: &[u32],
    table: u32,
) -> Result<(), ReadStop> {
    let bitmap = volume.block(table)?;
    let first = table.saturating_mul(BLOCK_BITS as u32);
    for bit in 0..BLOCK_BITS {
        let block = first.saturating_add(bit as u32);
        look_at_mark(volume, owners, block, is_set(&bitmap, bit))?;
    }
    Ok(())
}

/// Notes the owner of a file's blocks: its double-indirect block, its blocks of pointers, and those of its content.
fn claim_all<D: Disk>(
    volume: &mut ReadVolume<D>,
    owners: &mut [u32],
    entry: &DirectoryEntry,
) -> Result<(), ReadStop> {
    if entry.double() != 0 {
        claim(volume, owners, entry, entry.double())?;
    }
    let mut pointers = Pointers::of(volume, entry)?;
    for index in 0..entry.table_count() {
        claim(volume, owners, entry, pointers.table(index))?;
    }
    claim_content(volume, owners, entry, &mut pointers)
}

/// Notes the owner of the blocks of a file's content, for each of which it has a pointer into the data.
fn claim_content<D: Disk>(
    volume: &mut ReadVolume<D>,
    owners: &mut [u32],
    entry: &DirectoryEntry,
    pointers: &mut Pointers,
) -> Result<(), ReadStop> {
    let size = Grouped(entry.size());
    for index in 0..entry.block_count() {
        let block = pointers.get(volume, index)?;
        wrong_unless!(volume.alloc; block != 0, "{entry} of {size} octets has no pointer {index}");
        look_at_pointer(volume, entry, block)?;
        claim(volume, owners, entry, block)?;
    }
    Ok(())
}

/// Notes the owner of a block, which may have none yet.
fn claim<D: Disk>(
    volume: &mut ReadVolume<D>,
    owners: &mut [u32],
    entry: &DirectoryEntry,
    block: u32,
) -> Result<(), ReadStop> {
    let alloc = volume.alloc;
    let at = block as usize;
    if at >= owners.len() {
        return Err(ReadStop::Unseen);
    }
    let owner = owners[at];
    if owner == NOBODY {
        owners[at] = entry.number;
        return Ok(());
    }
    wrong_unless!(alloc; owner != entry.number, "block {block} is owned twice by {entry}");
    let earlier = volume.entry(owner)?;
    wrong!(alloc; "block {block} is owned by {earlier} and by {entry}")
}

/// Checks that a block is marked as it must be.
fn look_at_mark<D: Disk>(
    volume: &mut ReadVolume<D>,
    owners: &[u32],
    block: u32,
    is_marked: bool,
) -> Result<(), ReadStop> {
    let alloc = volume.alloc;
    let blocks = Grouped(u64::from(volume.sizes.blocks));
    let is_front = block < volume.data_start();
    let Some(owner) = owners.get(block as usize).copied() else {
        wrong_unless!(alloc; !is_marked, "the bitmap marks block {block}, where there are {blocks} blocks");
        return Ok(());
    };
    let is_owned = owner != NOBODY;
    wrong_unless!(alloc; !is_marked || is_front || is_owned, "the bitmap marks block {block}, which no file owns");
    wrong_unless!(alloc; is_marked || !is_front, "the bitmap doesn't mark block {block}, which is before the data");
    if is_marked || !is_owned {
        return Ok(());
    }
    let entry = volume.entry(owner)?;
    wrong!(alloc; "the bitmap doesn't mark block {block}, which {entry} owns")
}

/// Looks for two files with the same name, and answers the names.
fn look_at_names<D: Disk>(volume: &mut ReadVolume<D>) -> Result<Names, ReadStop> {
    let mut names = BTreeMap::new(volume.alloc);
    for number in 0..volume.sizes.inodes {
        let entry = volume.entry(number)?;
        if entry.is_file() {
            let Ok(before) = names.insert(entry.slot, number) else {
                return Err(ReadStop::Unseen);
            };
            if let Some(other) = before {
                wrong!(volume.alloc; "inodes {other} and {number} both have the name of {entry}");
            }
        }
    }
    Ok(names)
}
