//! Checks the forms that the rule of blocks asks for: those of each inode, its slot, and its blocks of pointers.

use disk::Disk;
use fs_layout::inodes::{FREE_KIND, SPARE_AT, most_octets};
use fs_layout::slots::NAME_MAX;
use std::alloc::Global;
use volume_reading::{
    DirectoryEntry, Grouped, Pointers, ReadStop, ReadVolume, wrong, wrong_unless,
};

/// Checks all inodes.
pub(crate) fn look<D: Disk>(volume: &mut ReadVolume<D>) -> Result<(), ReadStop> {
    for number in 0..volume.sizes.inodes {
        let entry = volume.entry(number)?;
        if entry.kind() == u32::from(FREE_KIND) {
            look_at_free(volume.alloc, &entry)?;
        } else {
            look_at_slot(volume.alloc, &entry)?;
            look_at_inode(volume, &entry)?;
            look_at_pointers(volume, &entry)?;
        }
    }
    Ok(())
}

/// Checks the octets of a free inode and its slot.
fn look_at_free(alloc: Global, entry: &DirectoryEntry) -> Result<(), ReadStop> {
    let number = entry.number;
    if let Some(at) = first_set(&entry.inode, 0) {
        wrong!(alloc; "inode {number} is free, and octet {at} of it isn't zero");
    }
    if let Some(at) = first_set(&entry.slot, 0) {
        wrong!(alloc; "inode {number} is free, and octet {at} of its slot isn't zero");
    }
    Ok(())
}

/// Checks the kind of an inode that isn't free, and its name.
fn look_at_slot(alloc: Global, entry: &DirectoryEntry) -> Result<(), ReadStop> {
    let number = entry.number;
    wrong_unless!(alloc; entry.is_file(), "inode {number} is of kind {}, where 0 is free and 1 is a file", entry.kind());
    let size = entry.slot[0] as usize;
    wrong_unless!(alloc; size > 0, "inode {number} is a file, and its slot is free");
    wrong_unless!(alloc; size <= NAME_MAX, "the slot of inode {number} has a name of {size} octets, where names have 1 to {NAME_MAX}");
    if let Some(at) = first_set(&entry.slot, 1 + size) {
        wrong!(alloc; "octet {at} of the slot of inode {number}, after the name, isn't zero");
    }
    Ok(())
}

/// Checks the size of a file, which the format limits, and the spare octets of its inode.
fn look_at_inode<D: Disk>(volume: &ReadVolume<D>, entry: &DirectoryEntry) -> Result<(), ReadStop> {
    let alloc = volume.alloc;
    let format = volume.sizes.format;
    let size = entry.size();
    let most = most_octets(format);
    wrong_unless!(alloc; size <= most,
        "{entry} has {} octets, where a file has at most {} in format {format}", Grouped(size), Grouped(most));
    if let Some(at) = first_set(&entry.inode, SPARE_AT) {
        wrong!(alloc; "octet {at} of the inode of {entry} isn't zero");
    }
    Ok(())
}

/// Checks that a file has the blocks of pointers that it needs, and no pointer after those that it needs.
fn look_at_pointers<D: Disk>(
    volume: &mut ReadVolume<D>,
    entry: &DirectoryEntry,
) -> Result<(), ReadStop> {
    look_at_double(volume, entry)?;
    let mut pointers = Pointers::of(volume, entry)?;
    look_at_tables(volume, entry, &pointers)?;
    look_at_rest(volume, entry, &mut pointers)
}

/// Checks that a file has a double-indirect block exactly if it needs one.
fn look_at_double<D: Disk>(volume: &ReadVolume<D>, entry: &DirectoryEntry) -> Result<(), ReadStop> {
    let alloc = volume.alloc;
    let size = Grouped(entry.size());
    let double = entry.double();
    let needs_double = entry.table_count() > 1;
    wrong_unless!(alloc; !needs_double || double != 0, "{entry} of {size} octets has no double-indirect block");
    wrong_unless!(alloc; needs_double || double == 0, "{entry} of {size} octets has a double-indirect block");
    if needs_double {
        look_at_pointer(volume, entry, double)?;
    }
    Ok(())
}

/// Checks that a file has exactly the blocks of pointers that it needs.
fn look_at_tables<D: Disk>(
    volume: &ReadVolume<D>,
    entry: &DirectoryEntry,
    pointers: &Pointers,
) -> Result<(), ReadStop> {
    let alloc = volume.alloc;
    let size = Grouped(entry.size());
    for place in 0..entry.table_places() {
        let table = pointers.table(place);
        if place < entry.table_count() {
            wrong_unless!(alloc; table != 0, "{entry} of {size} octets has no block of pointers {place}");
            look_at_pointer(volume, entry, table)?;
        } else {
            wrong_unless!(alloc; table == 0, "{entry} of {size} octets has a block of pointers {place}");
        }
    }
    Ok(())
}

/// Looks for pointers after those that a file needs.
fn look_at_rest<D: Disk>(
    volume: &mut ReadVolume<D>,
    entry: &DirectoryEntry,
    pointers: &mut Pointers,
) -> Result<(), ReadStop> {
    let size = Grouped(entry.size());
    for index in entry.block_count()..entry.pointer_places() {
        let block = pointers.get(volume, index)?;
        wrong_unless!(volume.alloc; block == 0, "{entry} of {size} octets has a pointer {index}");
    }
    Ok(())
}

/// Checks a pointer of a file, which must point into the data.
pub(crate) fn look_at_pointer<D: Disk>(
    volume: &ReadVolume<D>,
    entry: &DirectoryEntry,
    block: u32,
) -> Result<(), ReadStop> {
    wrong_unless!(volume.alloc; volume.data_start() <= block && block < volume.sizes.blocks,
        "{entry} points to block {block}, which is none of the data");
    Ok(())
}

/// The first octet that isn't zero, from a place on.
fn first_set(octets: &[u8], from: usize) -> Option<usize> {
    for at in from..octets.len() {
        if octets[at] != 0 {
            return Some(at);
        }
    }
    None
}
