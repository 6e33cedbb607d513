//! Devices whose octets are written over or whose calls fail, and what is then found on them.

use crate::formatting::{BLOCKS, format_on, found_on};
use crate::said::{DONE, NO_MEMORY, NOT_ASKED, Said, UNREADABLE};
use disk::{Disk, DiskCall, Faults};
use disk_memory::MemDisk;
use std::alloc::Global;
use std::mem::replace;
use volume_new::{FORMAT_1, FORMAT_2, FORMAT_3, device_octets};

/// Octets of a block.
const BLOCK: u64 = 4096;

/// The most blocks of a device.
const MOST_BLOCKS: u64 = 65_536;

/// The most octets or pointers that one call writes.
const MOST_WRITTEN: u64 = 4096;

/// A device. It is gone once something was found on it.
#[derive(Drop)]
pub struct Device {
    disk: Option<MemDisk>,
}

/// A device of this many blocks of zeros; `None` if memory is refused.
pub fn new_device(alloc: Global, blocks: u64) -> Option<Device> {
    if MOST_BLOCKS < blocks {
        return None;
    }
    let disk = MemDisk::new(alloc, BLOCK * blocks).ok()?;
    Some(Device { disk: Some(disk) })
}

/// A device with an empty volume of format 3; `None` if memory is refused.
pub fn new_volume(alloc: Global) -> Option<Device> {
    let disk = MemDisk::new(alloc, device_octets(BLOCKS)).ok()?;
    match format_on(alloc, disk, FORMAT_3) {
        (disk, Said::Word("done")) => Some(Device { disk: Some(disk) }),
        _ => None,
    }
}

/// What is asked of a device.
///
/// - `put BLOCK PLACE OCTET..`: writes octets from a place in a block on
/// - `fill BLOCK PLACE OCTET COUNT`: writes so many octets of one value
/// - `pointers BLOCK PLACE FIRST LAST`: writes pointers to blocks
/// - `fail-read N`, `fail-write N`, `fail-sync N`: call N of this kind fails
/// - `damage` and `no-volume`: what is said of the device where its opening finds it damaged, or no volume
/// - `open`: what an opening finds: the first octet of the first logical block
/// - `format FORMAT`: makes an empty volume
/// - `at PLACE`: the octet there
/// - `octets-of BLOCKS`: the octets of the device of a volume with so many blocks
pub fn answer_device(alloc: Global, device: &mut Device, word: &str, numbers: &[u64]) -> Said {
    match replace(&mut device.disk, None) {
        Some(disk) => {
            let (disk, said) = answer_disk(alloc, disk, word, numbers);
            device.disk = disk;
            said
        }
        None => NOT_ASKED,
    }
}

fn answer_disk(
    alloc: Global,
    mut disk: MemDisk,
    word: &str,
    numbers: &[u64],
) -> (Option<MemDisk>, Said) {
    match (word, numbers) {
        ("damage", []) => (None, found(volume_findings::damage(alloc, disk))),
        ("no-volume", []) => (None, found(volume_findings::no_volume(alloc, disk))),
        ("open", []) => (None, found_on(alloc, disk)),
        ("format", [1]) => with(format_on(alloc, disk, FORMAT_1)),
        ("format", [2]) => with(format_on(alloc, disk, FORMAT_2)),
        ("format", [3]) => with(format_on(alloc, disk, FORMAT_3)),
        _ => {
            let said = asked(alloc, &mut disk, word, numbers);
            (Some(disk), said)
        }
    }
}

fn with(given: (MemDisk, Said)) -> (Option<MemDisk>, Said) {
    (Some(given.0), given.1)
}

fn found(words: Option<String>) -> Said {
    match words {
        Some(words) => Said::Text(words),
        None => Said::Word("nothing"),
    }
}

fn asked(alloc: Global, disk: &mut MemDisk, word: &str, numbers: &[u64]) -> Said {
    match (word, numbers) {
        ("fail-read", [n]) => disk.fail_kind(DiskCall::Read, *n),
        ("fail-write", [n]) => disk.fail_kind(DiskCall::Write, *n),
        ("fail-sync", [n]) => disk.fail_kind(DiskCall::Sync, *n),
        ("at", [at]) => return octet_at(disk, *at),
        ("octets-of", [blocks]) if *blocks <= MOST_BLOCKS => {
            return Said::Number(device_octets(*blocks));
        }
        _ => return written(alloc, disk, word, numbers),
    }
    DONE
}

fn octet_at(disk: &mut MemDisk, at: u64) -> Said {
    let mut room = [0];
    if at < disk.len() && disk.read(at, &mut room) == Ok(()) {
        return Said::Number(u64::from(room[0]));
    }
    NOT_ASKED
}

fn written(alloc: Global, disk: &mut MemDisk, word: &str, numbers: &[u64]) -> Said {
    match (word, numbers) {
        ("put", [block, place, octets @ ..]) => {
            write(disk, (*block, *place), octets_of(alloc, octets))
        }
        ("fill", [block, place, value, count]) => {
            write(disk, (*block, *place), filled(alloc, *value, *count))
        }
        ("pointers", [block, place, first, last]) => {
            write(disk, (*block, *place), pointers(alloc, *first, *last))
        }
        _ => UNREADABLE,
    }
}

fn octets_of(alloc: Global, numbers: &[u64]) -> Option<Vec<u8>> {
    let mut octets = Vec::new(alloc);
    for number in numbers {
        octets.push((*number % 256) as u8).ok()?;
    }
    Some(octets)
}

fn filled(alloc: Global, value: u64, count: u64) -> Option<Vec<u8>> {
    if MOST_WRITTEN < count {
        return None;
    }
    vec![in alloc; (value % 256) as u8; count as usize].ok()
}

fn pointers(alloc: Global, first: u64, last: u64) -> Option<Vec<u8>> {
    let mut octets = Vec::new(alloc);
    for block in first..=last {
        let block = u32::try_from(block).ok()?;
        octets.extend_from_slice(&block.to_le_bytes()).ok()?;
    }
    Some(octets)
}

/// Writes octets from a place in a block on, if they lie within the device.
fn write(disk: &mut MemDisk, place: (u64, u64), octets: Option<Vec<u8>>) -> Said {
    let Some(octets) = octets else {
        return NO_MEMORY;
    };
    let at = place.0.saturating_mul(BLOCK).saturating_add(place.1);
    match at.checked_add(octets.len() as u64) {
        Some(end) if end <= disk.len() => match disk.write(at, octets.as_slice()) {
            Ok(()) => DONE,
            Err(_) => Said::Word("fault"),
        },
        _ => NOT_ASKED,
    }
}
