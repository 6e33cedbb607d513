//! A kernel under a lock, and two threads that post.

use crate::posters::{ARTICLES, Poster, post_moment};
use crate::tally::{has_each_id, has_each_number};
use disk_memory::MemDisk;
use kernel::{BatchBuf, Kernel, Opened, open};
use kernel_shared::SESSIONS;
use model::Status;
use session_lookups::LookUps;
use std::alloc::Global;
use std::sync::{Mutex, Wait};
use std::thread::{Threads, join};
use text_names::{Description, GroupName, GroupRequest, is_host};
use volume_new::{FORMAT_3, VolumePlan, are_sizes, device_octets, format};

const HOST: &[u8] = b"news.example";

const BLOCKS: u64 = 4096;

const INODES: u64 = 256;

/// The outcome for two posters.
#[derive(Clone, Copy, Debug, PartialEq, Eq)]
pub(crate) struct Outcome {
    /// The number of changes: the group, and the articles.
    pub(crate) changes: u64,
    /// Each message-id names one of the changes, and no two name the same one.
    pub(crate) has_each_id: bool,
    /// The same holds for the numbers of the group.
    pub(crate) has_each_number: bool,
    /// A post had to be offered again, and was accepted after a batch was taken.
    pub(crate) was_put_off: bool,
}

/// The plan of the volume. The sizes are not constants here, because a proof would count with them.
fn plan(blocks: u64, inodes: u64) -> Option<VolumePlan<'static>> {
    if !is_host(HOST) || !are_sizes(blocks, inodes) {
        return None;
    }
    Some(VolumePlan {
        host: HOST,
        blocks,
        inodes,
        format: FORMAT_3,
    })
}

/// The kernel of a new volume.
fn new_kernel(alloc: Global) -> Option<Kernel> {
    let plan = plan(BLOCKS, INODES)?;
    let Ok(disk) = MemDisk::new(alloc, device_octets(plan.blocks)) else {
        return None;
    };
    let Ok(disk) = format(alloc, disk, &plan) else {
        return None;
    };
    match open(alloc, disk, SESSIONS) {
        Ok(Opened { kernel, .. }) => Some(kernel),
        Err(_) => None,
    }
}

/// The group `x.a`.
fn group(alloc: Global) -> Option<GroupRequest> {
    Some(GroupRequest {
        name: GroupName::read(b"x.a").ok()?,
        status: Status::Open,
        description: Description::read(alloc, b"test").ok()?,
        moment: post_moment()?,
    })
}

/// Whether the group `x.a` was made, and its change is durable.
fn makes_group<R: Wait>(rt: &R, alloc: Global, kernel: &Mutex<Kernel>) -> Option<()> {
    let group = group(alloc)?;
    let mut batch = BatchBuf::new(alloc).ok()?;
    let mut kernel = kernel.lock(rt);
    kernel.admin(alloc, &group).ok()?;
    let ticket = kernel.take_batch(&mut batch)?;
    kernel.committed(ticket).ok()
}

/// Two posters share a new kernel, each in a thread of its own.
pub(crate) fn share<R: Threads + Wait + Sync>(rt: &R, alloc: Global) -> Option<Outcome> {
    let kernel = Mutex::new(new_kernel(alloc)?);
    makes_group(rt, alloc, &kernel)?;
    let one = Poster::join(rt, alloc, &kernel)?;
    let two = Poster::join(rt, alloc, &kernel)?;
    let (one, two) = join(
        rt,
        || one.post_all(rt, alloc, 1),
        || two.post_all(rt, alloc, 1 + ARTICLES),
    );
    let taken = one?.saturating_add(two?);
    let kernel = kernel.lock(rt);
    let spool = kernel.spool();
    Some(Outcome {
        changes: spool.len(),
        has_each_id: has_each_id(alloc, spool),
        has_each_number: has_each_number(alloc, spool),
        was_put_off: taken != 0,
    })
}
