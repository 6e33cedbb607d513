//! A device in memory that keeps only the blocks that were written and have an octet other than zero. As with a file,
//! nothing is claimed of its octets.

ghost use Rattle.std.specs.Prelude.{◌≡◌, ◌↔◌, false, IsErr, IfErr, OnOk};
ghost use Rattle.disk.specs.Device.{one_more};
ghost use Rattle.test_largest.specs.Sparse.{sparse_device};

use disk::{Disk, DiskError};
use std::alloc::Global;
use std::collections::BTreeMap;
use std::mem::replace;

const BLOCK: u64 = 4096;

/// Blocks by their numbers.
type Numbered = BTreeMap<u64, Vec<u8>>;

/// The blocks that are kept. All others are zeros.
#[derive(Drop)]
struct Kept {
    alloc: Global,
    synced: Numbered,
    /// those that were written since the last good sync
    written: Numbered,
}

/// A device. A call that finds no memory fails.
#[derive(Drop)]
pub(crate) struct Sparse {
    kept: Kept,
    len: u64,
    reads: u64,
    writes: u64,
    syncs: u64,
    failures: u64,
}

/// The part of a piece of octets that lies in a block: where it begins and ends in the piece, and its place in the
/// block.
#[derive(Clone, Copy)]
struct Part {
    start: usize,
    end: usize,
    place: usize,
}

/// The part in this block of so many octets from a place on.
fn part_in(block: u64, at: u64, count: usize) -> Part {
    let first = block.saturating_mul(BLOCK);
    let start = first.saturating_sub(at) as usize;
    let past = first.saturating_add(BLOCK).saturating_sub(at);
    Part {
        start,
        end: (past as usize).min(count),
        place: at.saturating_sub(first) as usize,
    }
}

/// The numbers of the first block that so many octets touch, and of the one behind the last.
fn touched(at: u64, count: usize) -> (u64, u64) {
    (at / BLOCK, at.saturating_add(count as u64).div_ceil(BLOCK))
}

/// Copies octets of a piece into a block.
fn put(octets: &mut [u8], part: Part, from: &[u8]) {
    let mut place = part.place;
    for at in part.start..part.end {
        if at < from.len() && place < octets.len() {
            octets[place] = from[at];
            place += 1;
        }
    }
}

/// Copies octets of a block into a piece.
fn take(octets: &[u8], part: Part, into: &mut [u8]) {
    let mut place = part.place;
    for at in part.start..part.end {
        if at < into.len() && place < octets.len() {
            into[at] = octets[place];
            place += 1;
        }
    }
}

/// Whether at most a block of octets is zeros. A comparison of slices is several times as fast as one octet by octet.
fn are_zeros(octets: &[u8]) -> bool {
    let zeros = [0; BLOCK as usize];
    octets.len() <= zeros.len() && octets == &zeros[..octets.len()]
}

impl Kept {
    fn new(alloc: Global, synced: Numbered) -> Kept {
        Kept {
            alloc,
            synced,
            written: BTreeMap::new(alloc),
        }
    }

    /// The block as it was written last, if it is kept.
    fn block(&self, number: u64) -> Option<&Vec<u8>> {
        match self.written.get(&number) {
            Some(octets) => Some(octets),
            None => self.synced.get(&number),
        }
    }

    /// Writes the part of a piece that lies in a block. False if there is no memory.
    fn put_in(&mut self, number: u64, part: Part, from: &[u8]) -> bool {
        let octets = match self.block(number) {
            Some(octets) => Vec::from_slice(self.alloc, octets),
            None if are_zeros(from) => return true,
            None => vec![in self.alloc; 0; BLOCK as usize],
        };
        let Ok(mut octets) = octets else {
            return false;
        };
        put(octets.as_mut_slice(), part, from);
        self.written.insert(number, octets).is_ok()
    }

    fn put_all(&mut self, at: u64, from: &[u8]) -> bool {
        let (first, past) = touched(at, from.len());
        for number in first..past {
            if !self.put_in(number, part_in(number, at, from.len()), from) {
                return false;
            }
        }
        true
    }

    fn take_all(&self, at: u64, into: &mut [u8]) {
        into.fill(0);
        let (first, past) = touched(at, into.len());
        for number in first..past {
            if let Some(octets) = self.block(number) {
                take(octets, part_in(number, at, into.len()), into);
            }
        }
    }

    fn sync_all(&mut self) -> bool {
        let alloc = self.alloc;
        for (number, octets) in replace(&mut self.written, BTreeMap::new(alloc)) {
            if self.synced.insert(number, octets).is_err() {
                return false;
            }
        }
        true
    }
}

impl Sparse {
    /// A device of this many zeros.
    pub(crate) fn new(alloc: Global, len: u64) -> Sparse
        ensures { (sparse_device result).size ≡ len }
    {
        Sparse::over(Kept::new(alloc, BTreeMap::new(alloc)), len)
    }

    fn over(kept: Kept, len: u64) -> Sparse
        ensures { (sparse_device result).size ≡ len }
    {
        Sparse {
            kept,
            len,
            reads: 0,
            writes: 0,
            syncs: 0,
            failures: 0,
        }
    }

    /// How many blocks it keeps.
    pub(crate) fn kept(&self) -> usize {
        self.kept
            .synced
            .len()
            .saturating_add(self.kept.written.len())
    }

    /// Crashes the device: what was written since the last good sync is lost.
    pub(crate) fn crash(self) -> Sparse {
        let Sparse { kept, len, .. } = self;
        let Kept { alloc, synced, .. } = kept;
        Sparse::over(Kept::new(alloc, synced), len)
    }
}

/// The answer to a call. A failure is counted.
fn answer(is_done: bool, failures: &mut u64) -> Result<(), DiskError>
    ensures fails { IsErr result ↔ (is_done ≡ false) }
    ensures counted { IfErr result (λ e. failures.new ≡ one_more failures.old) }
    ensures uncounted { OnOk result (failures.new ≡ failures.old) }
    ensures refused { IfErr result (λ e. e ≡ DiskError.Fault) }
{
    if is_done {
        return Ok(());
    }
    *failures = failures.wrapping_add(1);
    Err(DiskError::Fault)
}

impl Disk for Sparse {
    ghost use Rattle.std.proofs.lemmas.Bool.{false≢true};

    ghost device = { sparse_device };

    ghost write_grows = { false };

    ghost sync_grows = { false };

    fn len(&self) -> u64 {
        self.len
    }

    fn read(&mut self, at: u64, into: &mut [u8]) -> Result<(), DiskError> {
        self.reads = self.reads.wrapping_add(1);
        self.kept.take_all(at, into);
        Ok(())
    }

    fn write(&mut self, at: u64, from: &[u8]) -> Result<(), DiskError> {
        self.writes = self.writes.wrapping_add(1);
        let is_done = self.kept.put_all(at, from);
        answer(is_done, &mut self.failures)
    }

    fn sync(&mut self) -> Result<(), DiskError> {
        self.syncs = self.syncs.wrapping_add(1);
        let is_done = self.kept.sync_all();
        answer(is_done, &mut self.failures)
    }

    ghost image_size = { λ f c tells left. absurd (false≢true tells) };

    ghost counts_content = { λ f tells. absurd (false≢true tells) };

    ghost counts_now = { λ f t c tells le now. now };

    ghost only_now = { λ f c tells left. left };
}
