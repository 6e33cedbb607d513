//! The time of a write to a cache that collects writes until a sync: in a new cache, which takes memory for them, and
//! in one that has kept that memory over a sync. In the second the time for the most writes must be at most twice that
//! for the fewest.

use anyhow::{Result, ensure};
use disk::Disk;
use disk_cache::WCache;
use disk_memory::MemDisk;
use std::alloc::Global;
use std::rt::Clock;
use std::time::Instant;

/// Octets of a write to the cache.
const PIECE: u64 = 64;

/// Prints both times, for 1,000, 10,000 and 100,000 writes before a sync.
pub(crate) fn measure(rt: &(impl Clock + Print), alloc: Global) -> Result<()> {
    for writes in [1_000, 10_000, 100_000] {
        show_time(rt, alloc, writes)?;
    }
    Ok(())
}

/// Prints the time of one of this many writes in a new cache, and in one that has had as many writes and a sync.
fn show_time(rt: &(impl Clock + Print), alloc: Global, writes: u64) -> Result<()> {
    ensure!(writes <= 1_000_000, "too many writes");
    let mut cache = WCache::new(alloc, MemDisk::new(alloc, PIECE * writes)?);
    let new = time_of_writes(rt, &mut cache, writes)?;
    let kept = time_of_writes(rt, &mut cache, writes)?;
    rt.println(format_args!(
        "{writes} writes: {new} ns each in a new cache, {kept} ns in one that has the room"
    ))?;
    Ok(())
}

/// The nanoseconds of one of this many adjacent writes before a sync.
fn time_of_writes(rt: &impl Clock, cache: &mut WCache<MemDisk>, writes: u64) -> Result<u128> {
    ensure!(0 < writes && writes <= 1_000_000, "too many writes");
    let start = Instant::now(rt)?;
    for piece in 0..writes {
        let at = PIECE * piece;
        ensure!(at + PIECE <= cache.len(), "past the end");
        ensure!(cache.write(at, &[7; 64]).is_ok(), "a write was refused");
    }
    let spent = start.elapsed(rt)?.as_nanos();
    ensure!(cache.sync().is_ok(), "a sync was refused");
    Ok(spent / u128::from(writes))
}
