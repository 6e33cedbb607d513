//! A server and its callers, in one process.

ghost use Rattle.std.specs.Prelude.{◌≡◌, IfSome};
ghost use Rattle.journal.specs.Journal.{IsIdle};

use crate::callers::call;
use crate::hooks::{Flags, Holds, TestHooks};
use crate::kernels::{Watch, Watching};
use disk::DiskCall;
use disk_memory::MemDisk;
use journal::Journal;
use journal_volume::BatchBuf;
use kernel_locked::Locked;
use kernel_shared::{Kern, Receipt, Stale, Ticket};
use server::{Limits, ServeError};
use server_flusher::commit_batch;
use server_mark::{FlushSeat, Mark, Seat};
use std::alloc::Global;
use std::fs::File;
use std::io::{self, Write};
use std::net::{Net, TcpListener, TcpStream};
use std::rt::Files;
use std::slice::from_ref;
use std::sync::atomic::{AtomicU64, Ordering};
use std::sync::{Arc, Wait};
use std::thread::{Parker, Threads, join};
use std::time::Clock;
use test_support_server::{
    BLOCKS, Hooked, Setting, Stage, add_group, listen, open_new, silent_log,
};

/// The outcome of a play.
#[derive(Clone, Copy, Debug, PartialEq, Eq)]
pub(crate) struct Outcome {
    /// The callers read what they had to.
    pub(crate) is_read: bool,
    /// A hook reached its limit, or the mark was raised too early.
    pub(crate) has_failed: bool,
    /// How the server ended.
    pub(crate) ended: ServeError,
    /// The answer to the operator.
    pub(crate) answered: u64,
}

/// The destination of the operator's answers. If the operator does not read them, a write never ends.
#[derive(Drop)]
struct Answers<R> {
    rt: R,
    answered: Arc<AtomicU64>,
    is_read: bool,
}

impl<R: Wait> Write for Answers<R> {
    fn write(&mut self, octets: &[u8]) -> io::Result<usize> {
        let never = Parker::new();
        for _ in self.rt.forever() {
            if self.is_read {
                break;
            }
            never.park(&self.rt);
        }
        for octet in octets {
            let before = self.answered.load(Ordering::SeqCst);
            let after = before.wrapping_mul(256).wrapping_add(u64::from(*octet));
            self.answered.store(after, Ordering::SeqCst);
        }
        Ok(octets.len())
    }

    fn flush(&mut self) -> io::Result<()> {
        Ok(())
    }
}

/// A server whose kernel watches the mark.
type Watched<'a> = Stage<'a, MemDisk, Hooked<Watching<'a>>>;

/// A server that is about to serve a volume with the groups `x.a` and `x.b`, which are durable.
fn make_stage<'a, R: Wait>(
    rt: &R,
    alloc: Global,
    mark: &'a Mark,
    seats: (FlushSeat, Seat),
    flags: &'a Flags,
) -> Option<Watched<'a>>
    requires flushes { seats.0.mark ≡ mark.now }
    requires looks { seats.1.mark ≡ mark.now }
{
    let (flush_seat, mut seat) = seats;
    let (journal, kernel) = open_new(alloc)?;
    let watch = Watch::new(mark, mark.another(&mut seat));
    let kern = Hooked::new(kernel, Watching::new(watch, flags));
    Stage::new(journal, kern, mark, flush_seat, seat).with_groups(rt, alloc)
}

/// A server that is about to serve, and what its hooks see. They are made where the server runs.
#[derive(Drop)]
struct Scene<'a> {
    stage: Watched<'a>,
    watch: Watch<'a>,
    flags: &'a Flags,
}

/// A server that is about to serve, with a seat for its hooks.
fn make_scene<'a, R: Wait>(
    rt: &R,
    alloc: Global,
    mark: &'a Mark,
    seats: (FlushSeat, Seat),
    flags: &'a Flags,
) -> Option<Scene<'a>>
    requires flushes { seats.0.mark ≡ mark.now }
    requires looks { seats.1.mark ≡ mark.now }
{
    let (flush_seat, mut seat) = seats;
    let watch = Watch::new(mark, mark.another(&mut seat));
    let stage = make_stage(rt, alloc, mark, (flush_seat, seat), flags)?;
    Some(Scene {
        stage,
        watch,
        flags,
    })
}

/// Makes the device fail at its next sync or its next write, if the play is about a fault.
fn plan_fault(stage: &mut Watched<'_>, holds: Holds) {
    match holds {
        Holds::Fault => stage.fail(DiskCall::Sync, 1),
        Holds::Unread => stage.fail(DiskCall::Write, 1),
        _ => {}
    }
}

/// The lines of a play's operator.
fn lines(holds: Holds) -> &'static [u8] {
    match holds {
        Holds::Answer => b"group x.c y 1000000000 test\n",
        Holds::Unread => b"spool\ngroup x.c y 1000000000 test\n",
        _ => b"",
    }
}

/// Serves callers until a commit or the device fails.
fn serve<
    R: Files<File = File>
        + Net<Listener = TcpListener, Stream = TcpStream>
        + Threads
        + Wait
        + Clock
        + Copy
        + Send
        + Sync
        + 'static,
>(
    rt: &R,
    alloc: Global,
    scene: Scene<'_>,
    listener: &TcpListener,
    holds: Holds,
) -> Result<(), ServeError> {
    let Scene {
        stage,
        watch,
        flags,
    } = scene;
    let hooks = TestHooks::new(flags, holds, watch);
    let log = silent_log(rt, alloc)?;
    let answers = Answers {
        rt: *rt,
        answered: Arc::try_clone(&flags.answered)?,
        is_read: holds != Holds::Unread,
    };
    let setting = Setting {
        listeners: from_ref(listener),
        log: &log,
        hooks: &hooks,
        blocks: BLOCKS,
        limits: Limits::standard(),
    };
    let served = stage.serve(rt, alloc, setting, (lines(holds), answers));
    log.end(rt);
    served.ended
}

/// Whether a turn of the flusher raises the mark, and not before its batch is reported as committed.
pub(crate) fn raises_after_commit<R: Wait>(rt: &R, alloc: Global) -> bool {
    let Ok(flags) = Flags::new(alloc) else {
        return false;
    };
    let Ok((mark, flush_seat, mut seat)) = Mark::new(alloc) else {
        return false;
    };
    let own = mark.another(&mut seat);
    if make_stage(rt, alloc, &mark, (flush_seat, own), &flags).is_none() {
        return false;
    }
    mark.durable(&mut seat) == 2 && !flags.failed.load(Ordering::SeqCst)
}

/// The receipt of a batch that was made durable.
fn receipt_of<R: Wait>(
    rt: &R,
    journal: &mut Journal<MemDisk>,
    batch: &BatchBuf,
    ticket: Ticket,
) -> Option<Receipt>
    requires { IsIdle journal.old }
    ensures { IfSome result (λ receipt. receipt.last ≡ ticket.last) }
{
    match commit_batch(rt, journal, batch, ticket.last()) {
        Ok(receipt) => Some(receipt),
        Err(_) => None,
    }
}

/// Makes a group, and writes its batch to a journal. Answers the batch's ticket, and the receipt.
fn write_group<R: Wait>(
    rt: &R,
    alloc: Global,
    kern: &Locked,
    journal: &mut Journal<MemDisk>,
    name: &[u8],
) -> Option<(Ticket, Receipt)>
    requires { IsIdle journal.old }
    ensures { IfSome result (λ written. written.1.last ≡ written.0.last) }
{
    let Ok(mut batch) = BatchBuf::new(alloc) else {
        return None;
    };
    add_group(rt, alloc, kern, name)?;
    let ticket = kern.take_batch(rt, &mut batch)?;
    let receipt = receipt_of(rt, journal, &batch, ticket)?;
    Some((ticket, receipt))
}

/// The answers of a kernel to a ticket in time, to the same ticket again, and to that of a batch that a halt left in
/// flight.
pub(crate) fn tell<R: Wait>(rt: &R, alloc: Global) -> Option<[Result<(), Stale>; 3]> {
    let (mut journal, kernel) = open_new(alloc)?;
    let kern = Locked::new(kernel);
    let (ticket, receipt) = write_group(rt, alloc, &kern, &mut journal, b"x.a")?;
    let in_time = kern.committed(rt, ticket, receipt);
    let again = kern.committed(rt, ticket, receipt);
    // a receipt of a journal of another device
    let (mut journal, _) = open_new(alloc)?;
    let (ticket, receipt) = write_group(rt, alloc, &kern, &mut journal, b"x.b")?;
    kern.halt(rt);
    Some([in_time, again, kern.committed(rt, ticket, receipt)])
}

/// Runs a server and its callers to their end.
pub(crate) fn play<
    R: Files<File = File>
        + Net<Listener = TcpListener, Stream = TcpStream>
        + Threads
        + Wait
        + Clock
        + Copy
        + Send
        + Sync
        + 'static,
>(rt: &R, alloc: Global, holds: Holds) -> Option<Outcome> {
    let flags = Flags::new(alloc).ok()?;
    let Ok((mark, flush_seat, seat)) = Mark::new(alloc) else {
        return None;
    };
    let mut scene = make_scene(rt, alloc, &mark, (flush_seat, seat), &flags)?;
    plan_fault(&mut scene.stage, holds);
    let listener = listen(rt)?;
    let address = listener.local_addr().ok()?;
    // the calling thread alone may make files, as a server does
    let (is_read, ended) = join(
        rt,
        || call(rt, alloc, address, &flags, holds),
        || serve(rt, alloc, scene, &listener, holds),
    );
    Some(Outcome {
        is_read,
        has_failed: flags.failed.load(Ordering::SeqCst),
        ended: ended.err().unwrap_or(ServeError::Memory),
        answered: flags.answered.load(Ordering::SeqCst),
    })
}
