//! What the numbers of a line stand for.

use disk_memory::Pick;
use std::alloc::Global;

/// What a crash leaves of an octet is a number, too: the octet itself, or one of two greater numbers.
const OLD: u64 = 256;

const NEW: u64 = 257;

/// Their words.
pub const PICKS: &[(&str, u64)] = &[("old", OLD), ("new", NEW)];

/// What a crash makes of a touched octet.
pub fn pick(number: u64) -> Pick {
    match number {
        OLD => Pick::Old,
        NEW => Pick::New,
        _ => Pick::Fill(octet(number)),
    }
}

/// What a crash makes of touched octets, one after another; `None` if memory is refused.
pub fn picks(alloc: Global, numbers: &[u64]) -> Option<Vec<Pick>> {
    let mut found = Vec::new(alloc);
    for each in numbers {
        found.push(pick(*each)).ok()?;
    }
    Some(found)
}

/// The numbers of blocks; `None` if memory is refused.
pub fn block_numbers(alloc: Global, numbers: &[u64]) -> Option<Vec<u32>> {
    let mut found = Vec::new(alloc);
    for each in numbers {
        found.push(block_number(*each)).ok()?;
    }
    Some(found)
}

/// The number of a block. A number that is none becomes the greatest, which no device has.
pub fn block_number(number: u64) -> u32 {
    u32::try_from(number).unwrap_or(u32::MAX)
}

/// The last octet of a number.
pub fn octet(number: u64) -> u8 {
    (number % 256) as u8
}

/// The last octets of numbers; `None` if memory is refused.
pub fn octets(alloc: Global, numbers: &[u64]) -> Option<Vec<u8>> {
    let mut found = Vec::new(alloc);
    for each in numbers {
        found.push(octet(*each)).ok()?;
    }
    Some(found)
}
