//! A volume in memory.

ghost use Rattle.std.specs.Prelude.{IfSome};
ghost use Rattle.journal.specs.Journal.{IsReady};

use disk::Disk;
use disk_memory::MemDisk;
use journal::Journal;
use kernel::{Kernel, Opened};
use kernel_shared::{Kern, SESSIONS};
use model::{Moment, Status};
use std::alloc::Global;
use std::sync::Wait;
use text_names::{Description, GroupName, GroupRequest, is_host};
use volume_new::{FORMAT_3, VolumePlan, are_sizes, device_octets, format};

/// The host of the volumes, their logical blocks and their inodes.
pub(crate) const HOST: &[u8] = b"news.example";

pub const BLOCKS: u64 = 1024;

pub(crate) const INODES: u64 = 64;

/// When the groups are made, in seconds since 1970.
const MOMENT: u64 = 1_000_000_000;

/// The plan of the volumes.
fn plan() -> Option<VolumePlan<'static>> {
    if !is_host(HOST) || !are_sizes(BLOCKS, INODES) {
        return None;
    }
    Some(VolumePlan {
        host: HOST,
        blocks: BLOCKS,
        inodes: INODES,
        format: FORMAT_3,
    })
}

/// A device with a new volume.
pub fn new_device(alloc: Global) -> Option<MemDisk> {
    let plan = plan()?;
    let Ok(disk) = MemDisk::new(alloc, device_octets(plan.blocks)) else {
        return None;
    };
    let Ok(disk) = format(alloc, disk, &plan) else {
        return None;
    };
    Some(disk)
}

/// The volume on a device, opened.
pub fn open<D: Disk + Drop>(alloc: Global, disk: D) -> Option<(Journal<D>, Kernel)>
    ensures { IfSome result (λ opened. IsReady opened.0) }
{
    match kernel::open(alloc, disk, SESSIONS) {
        Ok(Opened { journal, kernel }) => Some((journal, kernel)),
        Err(_) => None,
    }
}

/// A new volume, opened.
pub fn open_new(alloc: Global) -> Option<(Journal<MemDisk>, Kernel)>
    ensures { IfSome result (λ opened. IsReady opened.0) }
{
    open(alloc, new_device(alloc)?)
}

/// Makes a group that takes posts.
pub fn add_group<K: Kern, R: Wait>(rt: &R, alloc: Global, kern: &K, name: &[u8]) -> Option<()> {
    let group = GroupRequest {
        name: GroupName::read(name).ok()?,
        status: Status::Open,
        description: Description::read(alloc, b"test").ok()?,
        moment: Moment::at(MOMENT)?,
    };
    kern.admin(rt, alloc, &group).ok()?;
    Some(())
}
