//! A server that is stopped, its callers and its operator, in one process.

use crate::callers::{LEAST, Visit};
use crate::disks::Lent;
use crate::hooks::Holding;
use crate::props::{Callers, Props};
use disk::DiskCall;
use disk_memory::{MemDisk, Pick};
use kernel_locked::Locked;
use server::Limits;
use server_mark::Mark;
use std::alloc::Global;
use std::fs::File;
use std::net::{Net, TcpListener, TcpStream};
use std::rt::Files;
use std::slice::from_ref;
use std::sync::atomic::Ordering;
use std::sync::{Arc, Mutex, Wait};
use std::thread::{Threads, join};
use std::time::Clock;
use test_support_server::{
    BLOCKS, Operator, Served, Setting, Stage, listen, new_device, open, silent_log,
};

/// The changes that every play begins with: two groups.
const GROUPS: u64 = 2;

/// How the operator stops the server.
#[derive(Clone, Copy)]
pub(crate) struct Play {
    /// The operator's lines: the first at once, and the last as the callers say.
    pub(crate) first: &'static [u8],
    pub(crate) last: &'static [u8],
    pub(crate) callers: Callers,
    /// The device fails at this sync, counted from 1; it does not fail if this is 0.
    pub(crate) failing_sync: u64,
    /// The operator's last answer.
    pub(crate) told: &'static str,
}

/// What a play came to.
#[derive(Clone, Copy, Debug, PartialEq, Eq)]
pub(crate) struct Left {
    /// The server ended without a refusal.
    pub(crate) is_good: bool,
    /// The operator's last answer was that of the play.
    pub(crate) is_told: bool,
    /// The callers read nothing but what they may read, and no change was accepted besides their acknowledged articles.
    pub(crate) is_acknowledged: bool,
    /// Every accepted change is on the device, and known to be.
    pub(crate) is_durable: bool,
    /// Enough articles were acknowledged before the stop.
    pub(crate) is_busy: bool,
}

/// Serves callers and the operator's lines to the end.
fn serve<
    R: Files<File = File>
        + Net<Listener = TcpListener, Stream = TcpStream>
        + Threads
        + Wait
        + Clock
        + Copy
        + Send
        + Sync
        + Drop
        + 'static,
>(rt: &R, alloc: Global, listener: &TcpListener, props: &Props, play: Play) -> Option<Served> {
    let operator = Operator {
        rt: *rt,
        is_due: Arc::try_clone(&props.is_due).ok()?,
        first: play.first,
        last: play.last,
    };
    let answers = props.answers.writer(rt).ok()?;
    let disk = Lent::new(new_device(alloc)?, &props.place);
    let (journal, kernel) = open(alloc, disk)?;
    let Ok((mark, flush_seat, seat)) = Mark::new(alloc) else {
        return None;
    };
    let stage = Stage::new(journal, Locked::new(kernel), &mark, flush_seat, seat);
    let mut stage = stage.with_groups(rt, alloc)?;
    stage.fail(DiskCall::Sync, play.failing_sync);
    let log = silent_log(rt, alloc).ok()?;
    let hooks = Holding {
        rt,
        props,
        callers: play.callers,
    };
    let setting = Setting {
        listeners: from_ref(listener),
        log: &log,
        hooks: &hooks,
        blocks: BLOCKS,
        limits: Limits::standard(),
    };
    let served = stage.serve(rt, alloc, setting, (operator, answers));
    log.end(rt);
    Some(served)
}

/// The changes that a device holds after a crash that leaves only what is durable.
fn changes_on(alloc: Global, disk: MemDisk) -> Option<u64> {
    let mut disk = disk;
    disk.crash(&[Pick::Old]);
    let place = Mutex::new(None);
    let (_, kernel) = open(alloc, Lent::new(disk, &place))?;
    Some(kernel.len())
}

/// Runs a server, its callers and its operator to their end.
pub(crate) fn stop<
    R: Files<File = File>
        + Net<Listener = TcpListener, Stream = TcpStream>
        + Threads
        + Wait
        + Clock
        + Copy
        + Send
        + Sync
        + Drop
        + 'static,
>(rt: &R, alloc: Global, play: Play) -> Option<Left> {
    let props = Props::new(alloc).ok()?;
    let listener = listen(rt)?;
    let visit = Visit {
        rt,
        alloc,
        address: listener.local_addr().ok()?,
        props: &props,
    };
    // the calling thread alone may make files, as a server does
    let (are_good, served) = join(
        rt,
        || visit.call(play.callers),
        || serve(rt, alloc, &listener, &props, play),
    );
    look(&visit, play, served?, are_good)
}

/// What the server left.
fn look<R: Wait>(visit: &Visit<'_, R>, play: Play, served: Served, are_good: bool) -> Option<Left> {
    let Props {
        posted,
        answers,
        place,
        ..
    } = visit.props;
    let disk = place.try_lock()?.take()?;
    let on_disk = changes_on(visit.alloc, disk)?;
    let counts = served.counts;
    let posted = posted.load(Ordering::SeqCst);
    Some(Left {
        is_good: served.ended.is_ok(),
        is_told: answers.end_with(visit.rt, play.told),
        is_acknowledged: are_good && counts.accepted == posted.wrapping_add(GROUPS),
        is_durable: counts.durable == counts.accepted && on_disk == counts.accepted,
        is_busy: play.callers != Callers::Post || posted >= LEAST,
    })
}
