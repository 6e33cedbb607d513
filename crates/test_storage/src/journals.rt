//! What an open journal answers.

ghost use Rattle.std.specs.Prelude.{◌≡◌, ◌*◌, IfOk, length};

use crate::said::{
    DONE, MIXED, NO_MEMORY, NOT_ASKED, Said, UNREADABLE, fill_of, of_journal, refused,
};
use crate::words::{block_numbers, octet};
use disk::DiskCall;
use disk_memory::MemDisk;
use journal::{Journal, Progress};
use journal_layout::{are_below, are_distinct};
use std::alloc::{AllocError, Global};

/// Octets of a block.
const BLOCK: usize = 4096;

/// The blocks of the batches of `batches`.
const SIX: &[u32] = &[5, 700, 21, 0, 23, 24];

/// What an open journal is asked:
///
/// - `begin LAST OCTET BLOCK..`: begins a batch with this last serial, of these blocks, each filled with the octet
/// - `step`: one step
/// - `work N`: N steps, each of which answers `working`
/// - `steps N`: N steps, each of which answers `working` or `committed`
/// - `batches N OCTET`: N whole batches that fill six blocks with an octet, each committed at its step 10
/// - `block N..`: the octets that fill these blocks
/// - `first N`: the first octet of a block
/// - `format`: the number of the format
/// - `upgrade`: makes a volume of format 1 or 2 one of format 3
/// - `fail N` and its like, as of a device
pub fn call_journal(
    alloc: Global,
    journal: &mut Journal<MemDisk>,
    word: &str,
    numbers: &[u64],
) -> Said {
    match (word, numbers) {
        ("begin", [last, value, blocks @ ..]) => {
            begin_numbers(alloc, journal, *last, octet(*value), blocks)
        }
        ("block", blocks) => fills(alloc, journal, blocks),
        ("first", [block]) => first(alloc, journal, *block),
        ("batches", [count, value]) => batches(alloc, journal, *count, octet(*value)),
        _ => call_steps(journal, word, numbers),
    }
}

fn call_steps(journal: &mut Journal<MemDisk>, word: &str, numbers: &[u64]) -> Said {
    match (word, numbers) {
        ("step", []) => step(journal),
        ("work", [count]) => work(journal, *count),
        ("steps", [count]) => steps(journal, *count),
        ("format", []) => Said::Of("format", u64::from(journal.format_number())),
        ("upgrade", []) => upgrade(journal),
        _ => plan_fault(journal, word, numbers),
    }
}

fn plan_fault(journal: &mut Journal<MemDisk>, word: &str, numbers: &[u64]) -> Said {
    match (word, numbers) {
        ("fail", [n]) => journal.fail_at(*n),
        ("fail-read", [n]) => journal.fail_kind(DiskCall::Read, *n),
        ("fail-write", [n]) => journal.fail_kind(DiskCall::Write, *n),
        ("fail-sync", [n]) => journal.fail_kind(DiskCall::Sync, *n),
        _ => return UNREADABLE,
    }
    DONE
}

fn step(journal: &mut Journal<MemDisk>) -> Said {
    match journal.step() {
        Ok(Progress::Working) => Said::Word("working"),
        Ok(Progress::Committed(last)) => Said::Of("committed", last),
        Ok(Progress::Idle) => Said::Word("idle"),
        Err(error) => refused(error),
    }
}

fn work(journal: &mut Journal<MemDisk>, count: u64) -> Said {
    for _ in 0..count {
        match journal.step() {
            Ok(Progress::Working) => (),
            _ => return Said::Word("not working"),
        }
    }
    Said::Of("working", count)
}

fn steps(journal: &mut Journal<MemDisk>, count: u64) -> Said {
    for _ in 0..count {
        match journal.step() {
            Ok(Progress::Working | Progress::Committed(_)) => (),
            _ => return Said::Word("not stepping"),
        }
    }
    Said::Of("steps", count)
}

fn upgrade(journal: &mut Journal<MemDisk>) -> Said {
    if !journal.is_idle() || journal.format_number() == 3 {
        return NOT_ASKED;
    }
    of_journal(journal.upgrade())
}

fn begin_numbers(
    alloc: Global,
    journal: &mut Journal<MemDisk>,
    last: u64,
    fill: u8,
    blocks: &[u64],
) -> Said {
    match block_numbers(alloc, blocks) {
        Some(numbers) => begin(alloc, journal, last, fill, numbers.as_slice()),
        None => NO_MEMORY,
    }
}

fn begin(
    alloc: Global,
    journal: &mut Journal<MemDisk>,
    last: u64,
    fill: u8,
    numbers: &[u32],
) -> Said {
    if !journal.is_idle() || numbers.is_empty() || 512 < numbers.len() {
        return NOT_ASKED;
    }
    if !are_below(numbers, journal.blocks()) || !are_distinct(numbers) {
        return NOT_ASKED;
    }
    match filled(alloc, fill, BLOCK * numbers.len()) {
        Ok(images) => {
            journal.begin(last, numbers, images.as_slice());
            DONE
        }
        Err(_) => NO_MEMORY,
    }
}

fn filled(alloc: Global, octet: u8, size: usize) -> Result<Vec<u8>, AllocError>
    ensures { IfOk result (λ octets. length octets.items ≡ size) }
{
    vec![in alloc; octet; size]
}

fn batches(alloc: Global, journal: &mut Journal<MemDisk>, count: u64, fill: u8) -> Said {
    for _ in 0..count {
        if !is_committed(alloc, journal, fill) {
            return Said::Word("not committed");
        }
    }
    Said::Of("batches", count)
}

/// Whether a batch of six blocks works for nine steps and is committed by the tenth.
fn is_committed(alloc: Global, journal: &mut Journal<MemDisk>, fill: u8) -> bool {
    matches!(begin(alloc, journal, 1, fill, SIX), Said::Word("done"))
        && matches!(work(journal, 9), Said::Of("working", 9))
        && matches!(step(journal), Said::Of("committed", 1))
}

/// A block of the journal.
fn block(alloc: Global, journal: &mut Journal<MemDisk>, number: u64) -> Result<Vec<u8>, Said> {
    if !journal.is_idle() || journal.blocks() <= number {
        return Err(NOT_ASKED);
    }
    match filled(alloc, 0, BLOCK) {
        Ok(mut room) => match journal.load(number, room.as_mut_slice()) {
            Ok(()) => Ok(room),
            Err(error) => Err(refused(error)),
        },
        Err(_) => Err(NO_MEMORY),
    }
}

fn first(alloc: Global, journal: &mut Journal<MemDisk>, number: u64) -> Said {
    match block(alloc, journal, number) {
        Ok(octets) => match octets.first() {
            Some(octet) => Said::Number(u64::from(*octet)),
            None => MIXED,
        },
        Err(said) => said,
    }
}

fn fills(alloc: Global, journal: &mut Journal<MemDisk>, numbers: &[u64]) -> Said {
    let mut fills = Vec::new(alloc);
    for number in numbers {
        let octets = match block(alloc, journal, *number) {
            Ok(octets) => octets,
            Err(said) => return said,
        };
        let Some(fill) = fill_of(octets.as_slice()) else {
            return MIXED;
        };
        if fills.push(fill).is_err() {
            return NO_MEMORY;
        }
    }
    Said::Octets(fills)
}
