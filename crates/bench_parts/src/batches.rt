//! The device calls of a batch on a small volume and on a larger one, and its time, which must depend on the images and
//! not on the volume.

ghost use Rattle.std.specs.Prelude.{◌≤◌};

use crate::carrying::{FORMAT, IMAGES, carry};
use anyhow::{Result, bail, ensure};
use disk_memory::MemDisk;
use journal::{Journal, format_with};
use std::alloc::Global;
use std::rt::Clock;
use std::time::Instant;

/// Batches at each size.
const BATCHES: u64 = 200;

/// The device calls of a batch of six images: 7 writes, sync, gate, sync, 6 writes, sync, epoch, sync.
const CALLS: u64 = 19;

/// Prints the calls of all batches on volumes of 1,024 and of 16,384 blocks and, if asked, the time of a batch.
pub(crate) fn measure(rt: &(impl Print + Clock + AllocGlobal), is_timed: bool) -> Result<()> {
    measure_volume(rt, 1024, is_timed)?;
    measure_volume(rt, 16_384, is_timed)
}

/// The journal of a new volume of this many blocks.
fn formatted(alloc: Global, blocks: u64) -> Result<Journal<MemDisk>>
    requires low { 1024 ≤ blocks }
    requires high { blocks ≤ 65536 }
{
    let mut disk = MemDisk::new(alloc, 4096 * (515 + blocks))?;
    format_with(alloc, &mut disk, 1, blocks, &[0; 128], FORMAT)?;
    match Journal::open(alloc, disk) {
        Ok(journal) => Ok(journal),
        Err(_) => bail!("not opened"),
    }
}

/// Carries all batches over a volume of this many blocks.
fn measure_volume(
    rt: &(impl Print + Clock + AllocGlobal),
    blocks: u64,
    is_timed: bool,
) -> Result<()>
    requires low { 1024 ≤ blocks }
    requires high { blocks ≤ 65536 }
{
    let mut journal = formatted(rt.alloc(), blocks)?;
    let spent = carry_all(rt, rt.alloc(), &mut journal)?;
    let calls = BATCHES * CALLS;
    let (writes, syncs) = journal.into_disk().counts();
    rt.println(format_args!(
        "{blocks} blocks: {BATCHES} batches, {calls} device calls, {writes} writes and {syncs} syncs with those of the format"
    ))?;
    if is_timed {
        rt.println(format_args!("{blocks} blocks: {spent} ns a batch"))?;
    }
    Ok(())
}

/// Carries all batches, and returns the nanoseconds that one took.
fn carry_all(rt: &impl Clock, alloc: Global, journal: &mut Journal<MemDisk>) -> Result<u128> {
    let images = vec![in alloc; 7; IMAGES]?;
    let start = Instant::now(rt)?;
    for last in 1..=BATCHES {
        ensure!(
            carry(journal, last, &images)? == CALLS,
            "a batch took other calls"
        );
    }
    Ok(start.elapsed(rt)?.as_nanos() / u128::from(BATCHES))
}
