//! The new device of a simulation.

use disk_memory::MemDisk;
use program_printing::{CommandError, Failure};
use std::alloc::Global;
use volume_new::{VolumePlan, device_octets, format};

/// A new device in memory with an empty volume.
pub(crate) fn formatted(alloc: Global, plan: &VolumePlan<'_>) -> Result<MemDisk, Failure> {
    let disk = MemDisk::new(alloc, device_octets(plan.blocks))?;
    match format(alloc, disk, plan) {
        Ok(disk) => Ok(disk),
        Err(refused) => Err(Failure::Command(CommandError::from(refused.error))),
    }
}
