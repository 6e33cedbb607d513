//! New volumes on devices in memory.

use crate::errors::RowError;
use disk::{DiskCall, Faults};
use disk_memory::MemDisk;
use std::alloc::Global;
use text_names::is_host;
use volume_new::{FORMAT_3, VolumePlan, are_sizes, device_octets, format};
use volume_store::Store;

/// A volume that a row asks for.
#[derive(Clone, Copy)]
pub(crate) struct NewVolume<'a> {
    pub(crate) blocks: u64,
    pub(crate) inodes: u64,
    pub(crate) host: &'a str,
    /// The call that fails, counted from the opening; none if it is 0.
    pub(crate) kind: DiskCall,
    pub(crate) call: u64,
}

fn plan<'a>(wanted: &NewVolume<'a>) -> Option<VolumePlan<'a>> {
    let host = wanted.host.as_bytes();
    if !is_host(host) || !are_sizes(wanted.blocks, wanted.inodes) {
        return None;
    }
    Some(VolumePlan {
        host,
        blocks: wanted.blocks,
        inodes: wanted.inodes,
        format: FORMAT_3,
    })
}

/// A device with the volume, whose segments are closed.
fn formatted(alloc: Global, wanted: &NewVolume<'_>) -> Result<MemDisk, RowError> {
    let plan = plan(wanted).ok_or(RowError::Unreadable)?;
    let disk = MemDisk::new(alloc, device_octets(plan.blocks))?;
    let disk = format(alloc, disk, &plan).ok().ok_or(RowError::NoVolume)?;
    let store = opened(alloc, disk)?;
    Ok(store.into_disk())
}

/// Opens the volume on a device.
pub(crate) fn opened(alloc: Global, disk: MemDisk) -> Result<Store<MemDisk>, RowError> {
    Store::open(alloc, disk).ok().ok_or(RowError::NoVolume)
}

/// The volume that a row asks for.
pub(crate) fn made(alloc: Global, wanted: &NewVolume<'_>) -> Result<Store<MemDisk>, RowError> {
    let mut disk = formatted(alloc, wanted)?;
    disk.fail_kind(wanted.kind, wanted.call);
    opened(alloc, disk)
}
