//! What an opening and batches ask of a device, with one segment and with eight, with and without a cache over it.

use crate::carrying::{FORMAT, IMAGES, carry};
use anyhow::{Result, bail, ensure};
use disk::Disk;
use disk_cache::WCache;
use disk_memory::MemDisk;
use journal::{Journal, format_with};
use journal_layout::layout::{BLOCK, SEGMENT_BLOCKS};
use std::alloc::Global;

/// Batches on each volume.
const BATCHES: u64 = 64;

/// Logical blocks of the volume.
const BLOCKS: u64 = 1024;

/// Prints the writes and syncs of each of the four.
pub(crate) fn measure(rt: &impl Print, alloc: Global) -> Result<()> {
    count(rt, alloc, 1)?;
    count(rt, alloc, 8)
}

/// Counts the calls of all batches on a volume with this many segments, without a cache and with one.
fn count(rt: &impl Print, alloc: Global, segments: u32) -> Result<()> {
    let (disk, before) = formatted(alloc, segments)?;
    let after = carry_all(alloc, disk)?.counts();
    show_counts(rt, segments, "without", before, after)?;
    let (disk, before) = formatted(alloc, segments)?;
    let after = carry_all(alloc, WCache::new(alloc, disk))?
        .into_inner()
        .counts();
    show_counts(rt, segments, "with", before, after)
}

/// A device with an empty volume of 1 or 8 segments, and the numbers of writes and syncs that it took.
fn formatted(alloc: Global, segments: u32) -> Result<(MemDisk, (u64, u64))> {
    ensure!(segments == 1 || segments == 8, "another number of segments");
    let octets = BLOCK as u64 * (1 + SEGMENT_BLOCKS * u64::from(segments) + BLOCKS);
    let mut disk = MemDisk::new(alloc, octets)?;
    format_with(alloc, &mut disk, segments, BLOCKS, &[0; 128], FORMAT)?;
    let counts = disk.counts();
    Ok((disk, counts))
}

/// Carries all batches, and returns the device.
fn carry_all<D: Disk + Drop>(alloc: Global, disk: D) -> Result<D> {
    let Ok(mut journal) = Journal::open(alloc, disk) else {
        bail!("not opened");
    };
    let images = vec![in alloc; 7; IMAGES]?;
    for last in 1..=BATCHES {
        carry(&mut journal, last, &images)?;
    }
    Ok(journal.into_disk())
}

/// Prints what an opening and all batches asked of a device.
fn show_counts(
    rt: &impl Print,
    segments: u32,
    with: &str,
    before: (u64, u64),
    after: (u64, u64),
) -> Result<()> {
    let writes = after.0.wrapping_sub(before.0);
    let syncs = after.1.wrapping_sub(before.1);
    rt.println(format_args!(
        "segments {segments}, {with} a cache: {writes} writes and {syncs} syncs for an opening and {BATCHES} batches"
    ))?;
    Ok(())
}
