//! Callers that take none, or few, of their replies' octets.

use kernel_outbox::ReadyBuf;
use kernel_shared::{Hooks, Kern, NoHooks};
use model::{Message, Text};
use server_releasing::{Hand, Limits, Shared};
use session_received::Received;
use std::alloc::Global;
use std::net::{Net, TcpListener, TcpStream};
use std::sync::Wait;
use std::sync::atomic::Ordering;
use std::thread::{Threads, join};
use std::time::{Clock, Duration, Instant};
use test_support_releasing::{
    Caller, GREETING, Point, Session, Stage, Stop, fill, make_store, moment, pause, wait_for,
};

/// The limit for a caller that takes nothing, and by how much it may be exceeded on a busy machine, in milliseconds.
const STALL_MILLIS: u64 = 50;

const LATE_MILLIS: u64 = 5_000;

/// The limit for a caller that takes a little again and again: about half of what must be free before the system wakes
/// a write.
const SLOW_MILLIS: u64 = 500;

const LITTLE: usize = 8_192;

const LITTLE_MILLIS: u64 = 5;

/// The most times that it takes a little.
const TAKES: u32 = 100_000;

/// What it asks for, and how often.
const ASKED: &[u8] = b"HELP";

const ASKS: u64 = 12_000;

const BYE: &[u8] = b"205 Bye\r\n";

/// Limits with this one for a socket that takes nothing.
fn limits(stall: u64) -> Limits {
    Limits {
        stall: Duration::from_millis(stall),
        ..Limits::standard()
    }
}

/// Whether a caller that takes nothing is disconnected, and not before its limit.
pub(crate) fn lets_go<R: Net<Listener = TcpListener, Stream = TcpStream> + Wait + Clock>(
    rt: &R,
    alloc: Global,
) -> Option<bool> {
    let store = make_store(rt, alloc)?;
    let (stage, caller) = Stage::new(rt, alloc, &store.kernel, limits(STALL_MILLIS))?;
    let shared = stage.shared(rt, &store.kernel, &NoHooks);
    let session = Session {
        shared: &shared,
        stage: &stage,
        writer: stage.writer()?,
        journal: &store.journal,
        batch: &store.batch,
    };
    session.writer().release(&shared, &mut Hand::new());
    let waited = waits_for_a_full_socket(&session)?;
    let is_gone = shared.kern.mode(rt, stage.sid).is_none();
    let mut caller = caller;
    let is_cut = !caller.reads(BYE) && !caller.reads(BYE);
    Some(is_gone && is_cut && is_between(waited, STALL_MILLIS, LATE_MILLIS))
}

/// How long a reply waits for a socket that takes nothing.
fn waits_for_a_full_socket<R: Wait + Clock, K: Kern, H: Hooks>(
    session: &Session<'_, R, K, H>,
) -> Option<Duration> {
    fill(&session.stage.near)?;
    session.asks(b"DATE")?;
    let since = Instant::now(session.rt()).ok()?;
    session.writer().send(session.shared, &mut Hand::new());
    since.elapsed(session.rt()).ok()
}

fn is_between(waited: Duration, least: u64, most: u64) -> bool {
    Duration::from_millis(least) <= waited && waited < Duration::from_millis(most)
}

/// Whether a caller that takes a little again and again gets all replies, and stays to the end.
pub(crate) fn keeps<
    R: Net<Listener = TcpListener, Stream = TcpStream> + Threads + Wait + Clock + Sync,
>(rt: &R, alloc: Global) -> Option<bool> {
    let stop = Stop::new(Point::Nowhere);
    let store = make_store(rt, alloc)?;
    let (stage, caller) = Stage::new(rt, alloc, &store.kernel, limits(SLOW_MILLIS))?;
    let shared = stage.shared(rt, &store.kernel, &NoHooks);
    let session = Session {
        shared: &shared,
        stage: &stage,
        writer: stage.writer()?,
        journal: &store.journal,
        batch: &store.batch,
    };
    run(&session, caller, &stop)
}

/// The two threads of such a play.
fn run<'a, R: Threads + Wait + Clock + Sync, K: Kern + Sync, H: Hooks + Sync>(
    session: &'a Session<'a, R, K, H>,
    caller: Caller,
    stop: &'a Stop,
) -> Option<bool> {
    let rt = session.rt();
    let (sent, taken) = join(
        rt,
        || send_much(session, stop),
        || take_slowly(rt, caller, stop),
    );
    Some(sent.is_some() && sent == taken)
}

/// Asks for the same again and again once the socket is full, and answers how many octets the caller has to take.
fn send_much<R: Wait + Clock, K: Kern, H: Hooks>(
    session: &Session<'_, R, K, H>,
    stop: &Stop,
) -> Option<u64> {
    session.writer().release(session.shared, &mut Hand::new());
    let filled = fill(&session.stage.near)?;
    stop.is_let_go.store(true, Ordering::SeqCst);
    let reply = reply_octets(session)?;
    for _ in 0..ASKS {
        session.asks(ASKED)?;
    }
    session.asks(b"QUIT")?;
    session.writer().send(session.shared, &mut Hand::new());
    stop.has_ended.store(true, Ordering::SeqCst);
    let others = (GREETING.len() + BYE.len()) as u64;
    reply
        .checked_mul(ASKS)?
        .checked_add(filled)?
        .checked_add(others)
}

/// The number of octets in the reply to that.
fn reply_octets<R: Wait + Clock, K: Kern, H: Hooks>(session: &Session<'_, R, K, H>) -> Option<u64> {
    let Shared {
        rt,
        alloc,
        kern,
        ..
    } = session.shared;
    let message = Message::Line(Text::new(ASKED.to_vec(*alloc).ok()?));
    let mut ready = ReadyBuf::new(*alloc).ok()?;
    let sid = session.stage.sid;
    let moment = moment()?;
    let received = Received::of(*alloc, &message);
    kern.answer(*rt, *alloc, sid, received, moment, &mut ready)
        .ok()?;
    Some(ready.octets().len() as u64)
}

/// Once the socket is full, takes a little again and again until the socket ends, and then the rest. It answers how
/// many octets that was.
fn take_slowly<R: Wait>(rt: &R, caller: Caller, stop: &Stop) -> Option<u64> {
    wait_for(rt, &stop.is_let_go)?;
    let mut caller = caller;
    let mut piece = [0; LITTLE];
    let mut taken = 0u64;
    for _ in 0..TAKES {
        let count = caller.takes(&mut piece)?;
        if count == 0 {
            return Some(taken);
        }
        taken = taken.checked_add(count)?;
        if !stop.has_ended.load(Ordering::SeqCst) {
            pause(rt, LITTLE_MILLIS);
        }
    }
    None
}
