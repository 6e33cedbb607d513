//! The reads of a load.

ghost use Rattle.std.specs.Prelude.{◌≡◌, ◌≢◌, ◌+◌, ◌*◌, ◌^◌, ◌<◌, ◌≤◌, [], length, slice_index_or, IfOk, IfErr, OnOk};
ghost use Rattle.std.specs.Prelude.{IsTrue, true, false};
ghost use Rattle.journal.specs.Journal.{HasWholeBlocks, IsReady, LeavesAdmitted};
ghost use Rattle.journal_loading.specs.Opening.{ArePut, Loads};
ghost use Rattle.model.specs.Volume.{block};

use crate::errors::LoadError;
use disk::Disk;
use disk_numbers::zeros;
use fs_blocks::{BLOCK_SIZE, block_of};
use journal::Journal;
use journal_volume::{Chunks, NumberSet, Volume};
use std::alloc::{AllocError, Global};

/// The most blocks that one read of the device loads: a mebibyte.
const PIECE_BLOCKS: u32 = 256;

/// Loads all logical blocks of a journal after its opening and before its first batch. Nothing is staged, and
/// nothing is dirty. `Fault` halts the journal. `Memory` may come after some reads, and leaves the journal ready.
pub fn open<D: Disk>(alloc: Global, journal: &mut Journal<D>) -> Result<Volume, LoadError>
    // No batch is in flight, and the journal isn't halted.
    requires { IsReady journal.old }

    // The volume has the blocks of the journal.
    ensures blocks { IsTrue (D.device journal.old.disk).tells → IfOk result (λ v. v.cache ≡ journal.old.blocks) }
    ensures count { IfOk result (λ v. length v.cache ≡ journal.old.size) }
    ensures seen { IfOk result (λ v. v.seen ≡ v.cache) }
    ensures dirty { IfOk result (λ v. v.dirty ≡ []) }

    // The device is only read, and after `Ok` the journal is ready.
    ensures loads { Loads D.device journal.old journal.new }
    ensures ok { OnOk result (IsReady journal.new) }
    ensures ok_failures { OnOk result ((D.device journal.new.disk).failures ≡ (D.device journal.old.disk).failures) }

    // What each refusal leaves of the journal.
    ensures memory { IfErr result (λ e. e ≡ LoadError.Memory
        → IsReady journal.new × ((D.device journal.new.disk).failures ≡ (D.device journal.old.disk).failures)) }
    ensures fault { IfErr result (λ e. e ≡ LoadError.Fault
        → (journal.new.halted ≡ true) × ((D.device journal.new.disk).failures ≢ (D.device journal.old.disk).failures)) }
{
    // for the proof: what the journal keeps
    let _ready = journal.is_idle();
    let count = journal.blocks() as u32;
    let mut cache = Chunks::new(alloc, count)?;
    let staged = NumberSet::new(alloc, count)?;
    let dirty = NumberSet::new(alloc, count)?;
    let mut piece = zeros(alloc, PIECE_BLOCKS as usize * BLOCK_SIZE)?;
    load_all(journal, &mut cache, &mut piece)?;
    Ok(Volume::with_sets(alloc, cache, staged, dirty))
}

// Loads all blocks into their places, a piece after the other.
fn load_all<D: Disk>(
    journal: &mut Journal<D>,
    cache: &mut Chunks,
    piece: &mut [u8],
) -> Result<(), LoadError>
    // A ready journal, a place for each of its blocks, and room for a piece.
    requires ready { IsReady journal.old }
    requires now { LeavesAdmitted D.device journal.old }
    requires whole { HasWholeBlocks D.device journal.old }
    requires count { length cache.old.blocks ≡ journal.old.size }
    requires room { length piece.old ≡ 1048576 }

    // The blocks in their places.
    ensures loaded { IsTrue (D.device journal.old.disk).tells → OnOk result (cache.new.blocks ≡ journal.old.blocks) }
    ensures count { length cache.new.blocks ≡ length cache.old.blocks }

    // The device is only read, and after `Ok` no read has failed.
    ensures loads { Loads D.device journal.old journal.new }
    ensures ok { OnOk result ((journal.new.halted ≡ false)
        × ((D.device journal.new.disk).failures ≡ (D.device journal.old.disk).failures)) }

    // What each refusal leaves of the journal.
    ensures memory { IfErr result (λ e. e ≡ LoadError.Memory → (journal.new.halted ≡ false)
        × ((D.device journal.new.disk).failures ≡ (D.device journal.old.disk).failures)) }
    ensures fault { IfErr result (λ e. e ≡ LoadError.Fault → (journal.new.halted ≡ true)
        × ((D.device journal.new.disk).failures ≢ (D.device journal.old.disk).failures)) }
{
    let count = cache.len();
    for number in 0..count.div_ceil(PIECE_BLOCKS) {
        let start = number * PIECE_BLOCKS;
        let some = PIECE_BLOCKS.min(count - start);
        load_piece(
            journal,
            cache,
            start,
            &mut piece[..some as usize * BLOCK_SIZE],
        )?;
    }
    Ok(())
}

// Loads blocks from `start` on into their places, as many as the piece has room for, with one read.
fn load_piece<D: Disk>(
    journal: &mut Journal<D>,
    cache: &mut Chunks,
    start: u32,
    piece: &mut [u8],
) -> Result<(), LoadError>
    // A ready journal, which has these blocks, and places for them.
    requires ready { IsReady journal.old }
    requires below { 4096 * start + length piece.old ≤ 4096 * journal.old.size }
    requires there { 4096 * start + length piece.old ≤ 4096 * length cache.old.blocks }
    requires few { length cache.old.blocks < 2 ^ 32 }

    // The blocks in their places, and the same sizes.
    ensures cache { IsTrue (D.device journal.old.disk).tells
        → OnOk result (ArePut start (length piece.old) (λ k. slice_index_or journal.old.blocks (start + k) [])
        cache.old.blocks cache.new.blocks) }
    ensures count { length cache.new.blocks ≡ length cache.old.blocks }
    ensures room { length piece.new ≡ length piece.old }

    // The device is only read, and after `Ok` no read has failed.
    ensures loads { Loads D.device journal.old journal.new }
    ensures ok { OnOk result ((journal.new.halted ≡ false)
        × ((D.device journal.new.disk).failures ≡ (D.device journal.old.disk).failures)) }

    // What each refusal leaves of the journal.
    ensures memory { IfErr result (λ e. e ≡ LoadError.Memory → (journal.new.halted ≡ false)
        × ((D.device journal.new.disk).failures ≡ (D.device journal.old.disk).failures)) }
    ensures fault { IfErr result (λ e. e ≡ LoadError.Fault → (journal.new.halted ≡ true)
        × ((D.device journal.new.disk).failures ≢ (D.device journal.old.disk).failures)) }
{
    match journal.load(u64::from(start), piece) {
        Ok(()) => {
            put_all(cache, start, piece)?;
            Ok(())
        }
        Err(_) => Err(LoadError::Fault),
    }
}

// Puts the blocks of a piece into their places from `start` on.
fn put_all(cache: &mut Chunks, start: u32, piece: &[u8]) -> Result<(), AllocError>
    requires there { 4096 * start + length piece.now ≤ 4096 * length cache.old.blocks }
    requires few { length cache.old.blocks < 2 ^ 32 }
    ensures put { OnOk result (ArePut start (length piece.now) (λ k. block k piece.now) cache.old.blocks cache.new.blocks) }
    ensures count { length cache.new.blocks ≡ length cache.old.blocks }
{
    for k in 0..(piece.len() / BLOCK_SIZE) as u32 {
        cache.replace(start + k, block_of(piece, k as usize))?;
    }
    Ok(())
}
