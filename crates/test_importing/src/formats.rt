//! Volumes of each format: a store makes its volume one of format 3.

use crate::volumes::{formatted, opened};
use disk::Disk;
use disk_memory::MemDisk;
use std::alloc::Global;
use std::rt::HostRuntime;
use std::test::Fail;
use volume_new::{FORMAT_1, FORMAT_2, FORMAT_3};

/// The place of the gate of format 3.
const GATE: u64 = 149;

/// The gate of a device.
fn gate(disk: &mut MemDisk) -> Result<u8, Fail> {
    let mut octet = [0];
    if disk.len() <= GATE || disk.read(GATE, &mut octet).is_err() {
        return Err("no gate")?;
    }
    Ok(octet[0])
}

/// The writes and syncs that open a store on a new volume of this format. Afterwards it is one of format 3.
fn calls_to_open(alloc: Global, format: u32) -> Result<(u64, u64), Fail> {
    let mut disk = formatted(alloc, 1024, 64, format).ok_or("no volume")?;
    let is_third = gate(&mut disk)? == 3;
    let (writes, syncs) = disk.counts();
    let mut disk = opened(alloc, disk)?.into_disk();
    let (all_writes, all_syncs) = disk.counts();
    if is_third != (format == FORMAT_3) || gate(&mut disk)? != 3 {
        return Err("another format")?;
    }
    Ok((
        all_writes.wrapping_sub(writes),
        all_syncs.wrapping_sub(syncs),
    ))
}

#[test]
fn an_upgrade_takes_a_write_and_a_sync(rt: HostRuntime) -> Result<(), Fail> {
    let (writes, syncs) = calls_to_open(rt.alloc(), FORMAT_3)?;
    let upgraded = (writes.wrapping_add(1), syncs.wrapping_add(1));
    assert_eq!(rt; calls_to_open(rt.alloc(), FORMAT_1)?, upgraded);
    assert_eq!(rt; calls_to_open(rt.alloc(), FORMAT_2)?, upgraded);
    Ok(())
}
