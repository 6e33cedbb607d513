//! What a device answers.

use crate::said::{DONE, NO_MEMORY, NOT_ASKED, Said, UNREADABLE, of_device};
use crate::words::{octet, picks};
use disk::{Disk, DiskCall, Faults};
use disk_memory::MemDisk;
use disk_numbers::zeros;
use journal_gates::write_gates_back;
use std::alloc::Global;

/// Octets of a block.
const BLOCK: usize = 4096;

/// The most octets that `read` reads.
const MOST_READ: u64 = 4096;

/// What only a device in memory is asked:
///
/// - `crash PICK..`: each touched octet in turn becomes what a pick says: `old`, `new` or an octet
/// - `counts`: how many writes and syncs there were since the last `counts` or `put`, or since a journal was opened
/// - `put PLACE OCTET ..`: writes octets, each to its place, and syncs
/// - `at PLACE..`: the octets at these places
/// - `count OCTET`: how many octets have this value
/// - `back`: the gates are written back
/// - `ends N`: writes at both ends with a sync after every two, N times
pub fn call_device(
    alloc: Global,
    disk: &mut MemDisk,
    since: &mut (u64, u64),
    word: &str,
    numbers: &[u64],
) -> Said {
    match word {
        "crash" => crash(alloc, disk, numbers),
        "counts" => count_calls(disk, since),
        "put" => {
            let said = put(disk, numbers);
            *since = disk.counts();
            said
        }
        _ => call_memory(alloc, disk, word, numbers),
    }
}

fn call_memory(alloc: Global, disk: &mut MemDisk, word: &str, numbers: &[u64]) -> Said {
    match (word, numbers) {
        ("at", places) => octets_at(alloc, disk, places),
        ("count", [value]) => count(alloc, disk, octet(*value)),
        ("back", []) => of_device(write_gates_back(alloc, disk)),
        ("ends", [rounds]) => write_both_ends(disk, *rounds),
        _ => call_faults(alloc, disk, word, numbers),
    }
}

/// What a device is asked, whether a cache is over it or not:
///
/// - `len`: the number of octets
/// - `read PLACE COUNT`: so many octets from that place on
/// - `sync`
/// - `fail N`, `fail-read N`, `fail-write N`, `fail-sync N`: call N from now on fails, counted among all or those of a
///   kind; 0 for none
pub fn call_faults<D: Faults>(alloc: Global, disk: &mut D, word: &str, numbers: &[u64]) -> Said {
    match (word, numbers) {
        ("len", []) => Said::Number(disk.len()),
        ("read", [at, count]) => read(alloc, disk, *at, *count),
        ("sync", []) => of_device(disk.sync()),
        _ => plan_fault(disk, word, numbers),
    }
}

fn plan_fault<D: Faults>(disk: &mut D, word: &str, numbers: &[u64]) -> Said {
    match (word, numbers) {
        ("fail", [n]) => disk.fail_at(*n),
        ("fail-read", [n]) => disk.fail_kind(DiskCall::Read, *n),
        ("fail-write", [n]) => disk.fail_kind(DiskCall::Write, *n),
        ("fail-sync", [n]) => disk.fail_kind(DiskCall::Sync, *n),
        _ => return UNREADABLE,
    }
    DONE
}

/// The gates are written back, and then the device is synced.
pub fn back_and_sync<D: Disk>(alloc: Global, disk: &mut D) -> Said {
    match write_gates_back(alloc, disk) {
        Ok(()) => of_device(disk.sync()),
        Err(error) => of_device(Err(error)),
    }
}

pub fn write<D: Disk>(disk: &mut D, at: u64, from: &[u8]) -> Said {
    match at.checked_add(from.len() as u64) {
        Some(end) if end <= disk.len() => of_device(disk.write(at, from)),
        _ => NOT_ASKED,
    }
}

fn read<D: Disk>(alloc: Global, disk: &mut D, at: u64, count: u64) -> Said {
    if MOST_READ < count {
        return NOT_ASKED;
    }
    let Ok(mut room) = zeros(alloc, count as usize) else {
        return NO_MEMORY;
    };
    match at.checked_add(room.len() as u64) {
        Some(end) if end <= disk.len() => match disk.read(at, room.as_mut_slice()) {
            Ok(()) => Said::Octets(room),
            Err(error) => of_device(Err(error)),
        },
        _ => NOT_ASKED,
    }
}

fn crash(alloc: Global, disk: &mut MemDisk, numbers: &[u64]) -> Said {
    match picks(alloc, numbers) {
        Some(picks) => {
            disk.crash(picks.as_slice());
            DONE
        }
        None => NO_MEMORY,
    }
}

fn count_calls(disk: &MemDisk, since: &mut (u64, u64)) -> Said {
    let before = *since;
    let now = disk.counts();
    *since = now;
    Said::Counts(now.0.wrapping_sub(before.0), now.1.wrapping_sub(before.1))
}

fn put(disk: &mut MemDisk, numbers: &[u64]) -> Said {
    for pair in numbers.chunks(2) {
        match pair {
            [at, value] if *at < disk.len() && disk.write(*at, &[octet(*value)]).is_ok() => (),
            _ => return NOT_ASKED,
        }
    }
    of_device(disk.sync())
}

fn octets_at(alloc: Global, disk: &mut MemDisk, places: &[u64]) -> Said {
    let mut found = Vec::new(alloc);
    for at in places {
        let Some(value) = octet_at(disk, *at) else {
            return NOT_ASKED;
        };
        if found.push(value).is_err() {
            return NO_MEMORY;
        }
    }
    Said::Octets(found)
}

fn octet_at(disk: &mut MemDisk, at: u64) -> Option<u8> {
    let mut room = [0];
    if at < disk.len() && disk.read(at, &mut room) == Ok(()) {
        return Some(room[0]);
    }
    None
}

// Counts block by block.
fn count(alloc: Global, disk: &mut MemDisk, octet: u8) -> Said {
    let Ok(mut room) = zeros(alloc, BLOCK) else {
        return NO_MEMORY;
    };
    let mut found = 0u64;
    for k in 0..disk.len() / BLOCK as u64 {
        if !read_block(disk, k, room.as_mut_slice()) {
            return NOT_ASKED;
        }
        found = found.wrapping_add(count_in(&room, octet));
    }
    Said::Number(found)
}

fn read_block(disk: &mut MemDisk, block: u64, into: &mut [u8]) -> bool {
    let at = block.wrapping_mul(BLOCK as u64);
    match at.checked_add(into.len() as u64) {
        Some(end) if end <= disk.len() => disk.read(at, into).is_ok(),
        _ => false,
    }
}

fn count_in(octets: &[u8], octet: u8) -> u64 {
    let mut found = 0u64;
    for each in octets {
        if *each == octet {
            found = found.wrapping_add(1);
        }
    }
    found
}

fn write_both_ends(disk: &mut MemDisk, rounds: u64) -> Said {
    let end = disk.len().saturating_sub(4);
    for _ in 0..rounds {
        write(disk, 0, b"abcd");
        write(disk, end, b"wxyz");
        if disk.sync().is_err() {
            return NOT_ASKED;
        }
    }
    DONE
}
