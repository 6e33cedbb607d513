//! Plays of two threads, the session's and the one that commits and releases, in chosen orders and in any order.

use journal_volume::BatchBuf;
use kernel_shared::{Hooks, Kern};
use server_releasing::{Hand, Limits};
use std::alloc::Global;
use std::net::{Net, TcpListener, TcpStream};
use std::sync::Wait;
use std::sync::atomic::Ordering;
use std::thread::{Threads, join};
use std::time::Clock;
use test_support_releasing::{
    Caller, GREETING, PAUSE_MILLIS, Point, REPLIES, Session, Side, Stage, Stop, StopHooks, Store,
    fill, pause, wait_for,
};

/// The most times that a session waits for a release.
const WAITS: u32 = 100;

const DATED: &[u8] = b"111 20010909014640\r\n";

/// What the session's thread does after its caller's article.
#[derive(Clone, Copy, Debug, PartialEq, Eq)]
pub(crate) enum Then {
    Send,
    Release,
    /// It waits until nothing is held, as for a caller that sends nothing more.
    Finish,
    /// It sends, and has `DATE` answered while the other thread releases.
    Date,
    /// It sends, and then its socket is full.
    Fill,
    /// It finishes, as for a caller that sends nothing more, and the server ends meanwhile.
    End,
}

/// Where a thread stops, and what the session's does.
#[derive(Clone, Copy, Debug)]
pub(crate) struct Order {
    pub(crate) point: Point,
    pub(crate) then: Then,
    /// The number of its article.
    pub(crate) number: u64,
}

/// The session's thread.
fn serve<R: Wait + Clock, K: Kern, H: Hooks>(
    session: &Session<'_, R, K, H>,
    stop: &Stop,
    order: Order,
) -> Option<()> {
    let Order { then, .. } = order;
    session.writer().release(session.shared, &mut Hand::new());
    session.asks(b"POST")?;
    if then != Then::Date {
        stop.arm();
    }
    session.posts(order.number)?;
    stop.pass(session.rt(), Point::BeforeThen);
    match then {
        Then::Finish => finish(session, stop)?,
        Then::End => session.writer().finish(session.shared, &mut Hand::new()),
        Then::Release => {
            session.writer().release(session.shared, &mut Hand::new());
        }
        _ => session.writer().send(session.shared, &mut Hand::new()),
    }
    match then {
        Then::Date => ask_for_date(session, stop)?,
        Then::Fill => {
            fill(&session.stage.near)?;
        }
        _ => {}
    }
    stop.is_let_go.store(true, Ordering::SeqCst);
    stop.has_ended.store(true, Ordering::SeqCst);
    Some(())
}

/// Waits until nothing is held.
fn finish<R: Wait + Clock, K: Kern, H: Hooks>(
    session: &Session<'_, R, K, H>,
    stop: &Stop,
) -> Option<()> {
    for _ in 0..WAITS {
        if !session
            .writer()
            .release(session.shared, &mut Hand::new())
            .is_held
        {
            return Some(());
        }
        stop.pass(session.rt(), Point::BeforeWait);
        stop.is_let_go.store(true, Ordering::SeqCst);
        session
            .writer()
            .wait_for_release(session.rt(), &mut Hand::new());
    }
    None
}

/// Has the next message answered, while the other thread is stopped in a release.
fn ask_for_date<R: Wait + Clock, K: Kern, H: Hooks>(
    session: &Session<'_, R, K, H>,
    stop: &Stop,
) -> Option<()> {
    stop.arm();
    stop.is_let_go.store(true, Ordering::SeqCst);
    wait_for(session.rt(), &stop.is_reached)?;
    stop.is_done.store(true, Ordering::SeqCst);
    session.asks(b"DATE")?;
    session.writer().send(session.shared, &mut Hand::new());
    Some(())
}

/// The steps of the other thread: it commits and releases, or ends the server.
fn commit<R: Wait + Clock, K: Kern, H: Hooks>(
    session: &Session<'_, R, K, H>,
    stop: &Stop,
    order: Order,
) -> Option<()> {
    if order.point == Point::Nowhere || order.then == Then::Date {
        wait_for(session.rt(), &stop.is_let_go)?;
        pause(session.rt(), PAUSE_MILLIS);
    } else {
        wait_for(session.rt(), &stop.is_reached)?;
    }
    let mut batch = BatchBuf::new(session.shared.alloc).ok()?;
    let ticket = session.takes(&mut batch)?;
    session.commits(ticket, &batch)?;
    if order.then == Then::End {
        // the releaser comes too late
        session.shared.close();
    } else {
        session.writer().release_waiting(session.shared);
    }
    stop.is_done.store(true, Ordering::SeqCst);
    Some(())
}

/// Then it reads the caller's replies, and the caller sends nothing more. The session's thread must end before the server.
fn commit_and_read<R: Wait + Clock, K: Kern, H: Hooks>(
    session: &Session<'_, R, K, H>,
    caller: Caller,
    stop: &Stop,
    order: Order,
) -> bool {
    let mut caller = caller;
    let is_read = commit(session, stop, order).is_some()
        && caller.reads(GREETING)
        && caller.reads_all(&REPLIES)
        && (order.then != Then::Date || caller.reads(DATED));
    let has_ended = wait_for(session.rt(), &stop.has_ended).is_some();
    session.shared.close();
    is_read && has_ended
}

/// Plays an order, and answers whether the caller read its replies.
pub(crate) fn play<
    'a,
    R: Net<Listener = TcpListener, Stream = TcpStream> + Threads + Wait + Clock + Sync,
>(rt: &'a R, alloc: Global, store: &'a Store, order: Order) -> bool {
    let stop = Stop::new(order.point);
    let kern = Side {
        inner: &store.kernel,
        stop: &stop,
    };
    let hooks = StopHooks { rt, stop: &stop };
    let Some((stage, caller)) = Stage::new(rt, alloc, &store.kernel, Limits::standard()) else {
        return false;
    };
    let Some(writer) = stage.writer() else {
        return false;
    };
    let shared = stage.shared(rt, &kern, &hooks);
    let session = Session {
        shared: &shared,
        stage: &stage,
        writer,
        journal: &store.journal,
        batch: &store.batch,
    };
    run(&session, caller, &stop, order)
}

/// The threads of a play. The third one finishes what the releaser could not write.
fn run<'a, R: Threads + Wait + Clock + Sync, K: Kern + Sync, H: Hooks + Sync>(
    session: &'a Session<'a, R, K, H>,
    caller: Caller,
    stop: &'a Stop,
    order: Order,
) -> bool {
    let rt = session.rt();
    let (is_served, (is_read, ())) = join(
        rt,
        || serve(session, stop, order),
        || {
            join(
                rt,
                || commit_and_read(session, caller, stop, order),
                || session.writer().write_rests(session.shared),
            )
        },
    );
    session.writer().end(session.shared, &mut Hand::new());
    is_served.is_some() && is_read
}
