//! Many articles, each of which is committed and released while its session's thread continues without a stop.

use journal_volume::BatchBuf;
use kernel_shared::{Hooks, Kern, NoHooks, Ticket};
use server_releasing::{Hand, Limits};
use std::alloc::Global;
use std::net::{Net, TcpListener, TcpStream};
use std::sync::Wait;
use std::thread::{self, Threads, join};
use std::time::Clock;
use test_support_releasing::{Caller, GREETING, REPLIES, Session, Stage, make_store};

/// The number of articles.
const ROUNDS: u64 = 200;

/// The wait for a change ends after this many turns of one look and one yield.
const TURNS: u32 = 10_000_000;

/// A commit is late by a number of turns that differs from round to round, up to this many.
const DELAYS: u64 = 40;

/// Whether the caller gets the reply to each of its articles before it sends the next.
pub(crate) fn race<
    R: Net<Listener = TcpListener, Stream = TcpStream> + Threads + Wait + Clock + Sync,
>(rt: &R, alloc: Global) -> Option<()> {
    let store = make_store(rt, alloc)?;
    let (stage, caller) = Stage::new(rt, alloc, &store.kernel, Limits::standard())?;
    let shared = stage.shared(rt, &store.kernel, &NoHooks);
    let session = Session {
        shared: &shared,
        stage: &stage,
        writer: stage.writer()?,
        journal: &store.journal,
        batch: &store.batch,
    };
    run(&session, caller)
}

/// The two threads of the race.
fn run<'a, R: Threads + Wait + Clock + Sync, K: Kern + Sync, H: Hooks + Sync>(
    session: &'a Session<'a, R, K, H>,
    caller: Caller,
) -> Option<()> {
    let (posted, committed) = join(
        session.rt(),
        || post_all(session, caller),
        || commit_all(session),
    );
    posted?;
    committed
}

/// The session's thread. It reads its caller's replies before the caller sends the next article.
fn post_all<R: Wait + Clock, K: Kern, H: Hooks>(
    session: &Session<'_, R, K, H>,
    caller: Caller,
) -> Option<()> {
    let mut caller = caller;
    session.writer().release(session.shared, &mut Hand::new());
    if !caller.reads(GREETING) {
        return None;
    }
    for round in 0..ROUNDS {
        session.asks(b"POST")?;
        session.writer().send(session.shared, &mut Hand::new());
        if round % 3 == 0 {
            session.posts(round)?;
        } else if !session.leaves(round)? {
            return None;
        } else if round % 3 == 1 {
            session.takes_back()?;
        }
        if round % 2 == 0 {
            session.writer().send(session.shared, &mut Hand::new());
        } else {
            session.writer().release(session.shared, &mut Hand::new());
        }
        if !caller.reads_all(&REPLIES) {
            return None;
        }
        if round % 3 == 2 && session.takes_back()? {
            return None;
        }
    }
    Some(())
}

/// The other thread.
fn commit_all<R: Wait + Clock, K: Kern, H: Hooks>(session: &Session<'_, R, K, H>) -> Option<()> {
    let mut batch = BatchBuf::new(session.shared.alloc).ok()?;
    for round in 0..ROUNDS {
        let ticket = next_ticket(session, &mut batch)?;
        for _ in 0..round % DELAYS {
            thread::yield_now();
        }
        session.commits(ticket, &batch)?;
        session.writer().release_waiting(session.shared);
    }
    Some(())
}

/// Takes the changed blocks as soon as there are any.
fn next_ticket<R: Wait + Clock, K: Kern, H: Hooks>(
    session: &Session<'_, R, K, H>,
    batch: &mut BatchBuf,
) -> Option<Ticket> {
    for _ in 0..TURNS {
        session.files();
        if let Some(ticket) = session.takes(batch) {
            return Some(ticket);
        }
        thread::yield_now();
    }
    None
}
