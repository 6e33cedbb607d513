//! What cached blocks answer.

use crate::said::{DONE, MIXED, NO_MEMORY, NOT_ASKED, Said, UNREADABLE, fill_of, of_octets};
use crate::words::{block_number, octet, octets};
use fs_blocks::{BLOCK_SIZE, Blocks};
use journal_volume::{BATCH_BLOCKS, BatchBuf, Volume};
use std::alloc::{AllocError, Global};

/// The most blocks that a script makes.
const MOST_BLOCKS: u64 = 65_536;

/// Blocks of zeros, or `None` if memory is refused.
pub fn zeros(alloc: Global, count: u64) -> Option<Volume> {
    if MOST_BLOCKS < count {
        return None;
    }
    let octets = vec![in alloc; 0; count as usize * BLOCK_SIZE].ok()?;
    Volume::of(alloc, octets, count as u32).ok()
}

/// What cached blocks are asked:
///
/// - `stage`, `drop`, `apply`: begins, discards or applies what is staged
/// - `fill BLOCK OCTET`: fills a block with an octet
/// - `put BLOCK PLACE OCTET..`: puts octets into a block from a place on
/// - `len` and `dirty`: the number of blocks, and of dirty ones
/// - `block BLOCK`: the octet that fills a block
/// - `octets BLOCK PLACE COUNT`: so many octets of a block from a place on
/// - `batch`: copies the dirty blocks, and answers their numbers, each with the octet that fills it
pub fn call_blocks(alloc: Global, volume: &mut Volume, word: &str, numbers: &[u64]) -> Said {
    match (word, numbers) {
        ("fill", [block, value]) => fill(volume, block_number(*block), octet(*value)),
        ("put", [block, place, values @ ..]) => match octets(alloc, values) {
            Some(values) => put(volume, block_number(*block), *place, values.as_slice()),
            None => NO_MEMORY,
        },
        ("block", [block]) => filled(volume, block_number(*block)),
        ("octets", [block, place, count]) => {
            part(alloc, volume, block_number(*block), *place, *count)
        }
        ("batch", []) => batch(alloc, volume),
        _ => call_stage(volume, word),
    }
}

fn call_stage(volume: &mut Volume, word: &str) -> Said {
    match word {
        "stage" => volume.stage(),
        "drop" => volume.drop_stage(),
        "apply" => volume.apply(),
        "len" => return Said::Number(u64::from(volume.len())),
        "dirty" => return Said::Number(volume.dirty_len() as u64),
        _ => return UNREADABLE,
    }
    DONE
}

fn done(answer: Result<(), AllocError>) -> Said {
    match answer {
        Ok(()) => DONE,
        Err(_) => NO_MEMORY,
    }
}

fn fill(volume: &mut Volume, number: u32, octet: u8) -> Said {
    if number >= volume.len() {
        return NOT_ASKED;
    }
    done(volume.put(number, &[octet; BLOCK_SIZE]))
}

fn put(volume: &mut Volume, number: u32, place: u64, octets: &[u8]) -> Said {
    if number >= volume.len() || octets.len() > BLOCK_SIZE {
        return NOT_ASKED;
    }
    if place > (BLOCK_SIZE - octets.len()) as u64 {
        return NOT_ASKED;
    }
    done(volume.put_at(number, place as usize, octets))
}

fn filled(volume: &Volume, number: u32) -> Said {
    if number >= volume.len() {
        return NOT_ASKED;
    }
    match fill_of(volume.block(number)) {
        Some(octet) => Said::Of("filled", u64::from(octet)),
        None => MIXED,
    }
}

fn part(alloc: Global, volume: &Volume, number: u32, place: u64, count: u64) -> Said {
    if number >= volume.len() {
        return NOT_ASKED;
    }
    match part_of(volume.block(number), place, count) {
        Some(part) => of_octets(Vec::from_slice(alloc, part).ok()),
        None => NOT_ASKED,
    }
}

fn part_of(octets: &[u8], place: u64, count: u64) -> Option<&[u8]> {
    let start = usize::try_from(place).ok()?;
    let end = start.checked_add(usize::try_from(count).ok()?)?;
    octets.get(start..end)
}

fn batch(alloc: Global, volume: &mut Volume) -> Said {
    if volume.dirty_len() > BATCH_BLOCKS {
        return NOT_ASKED;
    }
    let Ok(mut batch) = BatchBuf::new(alloc) else {
        return NO_MEMORY;
    };
    volume.copy_dirty(&mut batch);
    fills(alloc, &batch)
}

fn fills(alloc: Global, batch: &BatchBuf) -> Said {
    let mut found = Vec::new(alloc);
    let images = batch.images().chunks(BLOCK_SIZE);
    for (number, image) in batch.numbers().iter().zip(images) {
        let Some(octet) = fill_of(image) else {
            return MIXED;
        };
        if found.push((*number, octet)).is_err() {
            return NO_MEMORY;
        }
    }
    Said::Filled(found)
}
