//! Devices with a volume that has two groups, and batches for them.

use crate::octets::Octets;
use disk_memory::MemDisk;
use model::{Moment, Status};
use std::alloc::{AllocError, Global};
use std::test::Fail;
use text_names::{Description, GroupName, GroupRequest, is_host};
use text_rnews::entry;
use volume_new::{FORMAT_1, FORMAT_3, VolumePlan, are_sizes, device_octets};
use volume_store::Store;

const HOST: &[u8] = b"news.example";

/// A group that takes posts, and one that takes none.
const OPEN: &[u8] = b"x.a";

const CLOSED: &[u8] = b"x.closed";

/// When they are made, in seconds since 1970.
const MOMENT: u64 = 1_000_000_000;

/// The plan of the volume. The sizes are not constants here, because a proof would count with them.
fn plan(blocks: u64, inodes: u64, format: u32) -> Option<VolumePlan<'static>> {
    if !is_host(HOST) || !are_sizes(blocks, inodes) || format < FORMAT_1 || FORMAT_3 < format {
        return None;
    }
    Some(VolumePlan {
        host: HOST,
        blocks,
        inodes,
        format,
    })
}

/// A device with a new volume of this format.
pub(crate) fn formatted(alloc: Global, blocks: u64, inodes: u64, format: u32) -> Option<MemDisk> {
    let plan = plan(blocks, inodes, format)?;
    let Ok(disk) = MemDisk::new(alloc, device_octets(plan.blocks)) else {
        return None;
    };
    volume_new::format(alloc, disk, &plan).ok()
}

/// A device whose volume has the groups, in closed segments: an opening writes nothing.
pub(crate) fn device(alloc: Global, blocks: u64, inodes: u64) -> Result<MemDisk, Fail> {
    let disk = formatted(alloc, blocks, inodes, FORMAT_3).ok_or("no volume")?;
    let disk = with_groups(alloc, opened(alloc, disk)?).ok_or("no groups")?;
    Ok(opened(alloc, disk)?.into_disk())
}

/// Makes the groups in a volume, and answers its device.
fn with_groups(alloc: Global, store: Store<MemDisk>) -> Option<MemDisk> {
    let mut store = store;
    add_group(alloc, &mut store, OPEN, Status::Open)?;
    add_group(alloc, &mut store, CLOSED, Status::Closed)?;
    store.commit().ok()?;
    Some(store.into_disk())
}

/// Makes a group with this name and status.
fn add_group(alloc: Global, store: &mut Store<MemDisk>, name: &[u8], status: Status) -> Option<()> {
    let group = GroupRequest {
        name: GroupName::read(name).ok()?,
        status,
        description: Description::read(alloc, b"test").ok()?,
        moment: Moment::at(MOMENT)?,
    };
    store.make_room().ok()?;
    store.add_group(&group).ok()?;
    Some(())
}

/// A store in a volume with room for a few texts.
pub(crate) fn store(alloc: Global) -> Result<Store<MemDisk>, Fail> {
    opened(alloc, device(alloc, 1024, 64)?)
}

/// Opens the volume on a device.
pub(crate) fn opened(alloc: Global, disk: MemDisk) -> Result<Store<MemDisk>, Fail> {
    match Store::open(alloc, disk) {
        Ok(store) => Ok(store),
        Err(refused) => Err(refused.error)?,
    }
}

/// The batch of these texts, and octets after them.
pub(crate) fn batch(
    alloc: Global,
    texts: &[Octets<'_>],
    rest: &[u8],
) -> Result<Vec<u8>, AllocError> {
    let mut octets = Vec::new(alloc);
    for text in texts {
        let text = text.in_memory(alloc)?;
        octets.extend_from_slice(&entry(alloc, &text)?)?;
    }
    octets.extend_from_slice(rest)?;
    Ok(octets)
}

/// A batch of articles with the message-ids of these numbers.
pub(crate) fn articles(alloc: Global, from: u64, to: u64) -> Result<Vec<u8>, AllocError> {
    let mut octets = Vec::new(alloc);
    for number in from..to {
        let text = format!(in alloc;
            "Path: p\nFrom: a@example.org\nNewsgroups: x.a\nSubject: s\n\
             Date: Sun, 09 Sep 2001 01:46:40 +0000\nMessage-ID: <{number}@far.example>\n\nhi\n"
        )?;
        octets.extend_from_slice(&entry(alloc, text.as_bytes())?)?;
    }
    Ok(octets)
}
