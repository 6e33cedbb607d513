//! Checks the rule of files, as far as a file's name, its size and its first octets show. No article is read.

use crate::change_findings::{look_at_group, look_at_numbered};
use crate::owners::Names;
use crate::packs::{Pack, is_pack};
use crate::seen::{Home, Seen};
use crate::serials::Serials;
use disk::Disk;
use spool_records::{FileKind, kind_of, serial_of};
use std::alloc::Global;
use text_names::is_group_name;
use volume_reading::{DirectoryEntry, Grouped, ReadStop, ReadVolume, wrong, wrong_unless};

/// The octets of an article in the numbers of a group.
const NUMBER_SIZE: u64 = 16;

/// Checks the rule of files, in a volume that follows the rule of blocks.
pub(crate) fn look<D: Disk>(volume: &mut ReadVolume<D>, names: &Names) -> Result<(), ReadStop> {
    let mut pack = Pack::of(volume, names)?;
    let packed = match &mut pack {
        Some(pack) => pack.count(volume)?,
        None => 0,
    };
    let most = (volume.sizes.inodes as usize).saturating_add(packed);
    let mut serials = Serials::new(volume.alloc, most)?;
    for number in 0..volume.sizes.inodes {
        let entry = volume.entry(number)?;
        if entry.is_file() {
            look_at_file(volume, names, &entry, &mut serials)?;
        }
    }
    if let Some(pack) = &mut pack {
        look_at_pack(volume, pack, &mut serials)?;
    }
    serials.look_for_gaps(volume.alloc)
}

/// Checks the files in the pack.
fn look_at_pack<D: Disk>(
    volume: &mut ReadVolume<D>,
    pack: &mut Pack,
    serials: &mut Serials,
) -> Result<(), ReadStop> {
    let size = pack.size();
    let mut from = 0;
    // each file takes an octet at least
    for _ in 0..size {
        if from >= size {
            break;
        }
        let member = pack.member(volume, from)?;
        look_at_numbered(volume, &member.seen(), member.kind, member.serial, serials)?;
        from = member.end(from);
    }
    Ok(())
}

/// Checks a file of the kind that its name states.
fn look_at_file<D: Disk>(
    volume: &mut ReadVolume<D>,
    names: &Names,
    entry: &DirectoryEntry,
    serials: &mut Serials,
) -> Result<(), ReadStop> {
    match kind_of(entry.name()) {
        Some((kind @ (FileKind::Article | FileKind::Expiry), digits)) => match serial_of(digits) {
            Some(serial) => {
                let head = volume.head(entry)?;
                look_at_numbered(volume, &seen(entry, &head), kind, serial, serials)
            }
            None => no_known_name(volume.alloc, entry),
        },
        Some((kind, group)) if is_group_name(group) => {
            look_for_others(volume.alloc, names, entry)?;
            match kind {
                FileKind::Group => {
                    let head = volume.head(entry)?;
                    look_at_group(volume, &seen(entry, &head), serials)
                }
                FileKind::Numbers => look_at_numbers(volume.alloc, entry),
                _ => Ok(()),
            }
        }
        _ if is_pack(volume.sizes.format, entry) => Ok(()),
        _ => no_known_name(volume.alloc, entry),
    }
}

/// The file of an inode, with the octets of its first block.
fn seen<'a>(entry: &'a DirectoryEntry, head: &'a [u8]) -> Seen<'a> {
    Seen {
        name: entry.name(),
        size: entry.size(),
        head,
        home: Home::Inode(entry.number),
    }
}

fn no_known_name(alloc: Global, entry: &DirectoryEntry) -> Result<(), ReadStop> {
    wrong!(alloc; "{entry} has a name of no known form")
}

/// Checks that a group has all of its three files, of which this is one.
fn look_for_others(alloc: Global, names: &Names, entry: &DirectoryEntry) -> Result<(), ReadStop> {
    for letter in *b"gno" {
        let mut other = *entry;
        other.slot[1] = letter;
        wrong_unless!(alloc; names.get(&other.slot).is_some(), "{entry} is there, and {other} isn't");
    }
    Ok(())
}

/// Checks the numbers of a group.
fn look_at_numbers(alloc: Global, entry: &DirectoryEntry) -> Result<(), ReadStop> {
    let size = entry.size();
    wrong_unless!(alloc; size % NUMBER_SIZE == 0, "{entry} has {} octets, which is no multiple of {NUMBER_SIZE}", Grouped(size));
    Ok(())
}
