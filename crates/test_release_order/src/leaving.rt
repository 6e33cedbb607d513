//! What becomes of a block that a session's thread leaves. The steps of that thread and of the one that flushes are taken
//! in chosen orders, by one thread.

use kernel_shared::{Hooks, Kern, NoHooks};
use server_releasing::{Hand, Limits};
use std::alloc::Global;
use std::io::Read;
use std::net::{Net, TcpListener, TcpStream};
use std::sync::Wait;
use std::time::Clock;
use test_support_releasing::{
    Caller, GREETING, Point, REPLIES, Session, Side, Stage, Stop, Store, fill,
};

const REFUSED: &[u8] = b"441 Article not accepted\r\n";

const ENDED: &[u8] = b"400 Service ends\r\n";

const DATED: &[u8] = b"111 20010909014640\r\n";

/// What happens to a block.
#[derive(Clone, Copy, Debug, PartialEq, Eq)]
pub(crate) enum Fate {
    /// It is filed and accepted, and its caller sends nothing more.
    Accepted,
    /// It is filed and refused, and its caller sends nothing more.
    Refused,
    /// The flusher comes before it is told.
    Untold,
    /// It is filed, and then the next line comes.
    Filed,
    /// The next line comes first: the session's thread takes the block back.
    TakenBack,
    /// It is refused because too many blocks are dirty, and filed later.
    Dirty,
    /// It is refused for that, and then taken back.
    DirtyTakenBack,
    /// Another reply is not sent yet, so it is not left.
    Unsent,
    /// Another reply is held, so it is not left.
    Held,
    /// Its caller once took less than was written, so it is not left.
    Slow,
    /// The kernel is halted.
    Halted,
}

/// Plays what happens to a block, whose id has this number. Whether all went as it must.
pub(crate) fn leave<R: Net<Listener = TcpListener, Stream = TcpStream> + Wait + Clock>(
    rt: &R,
    alloc: Global,
    store: &Store,
    fate: Fate,
    number: u64,
) -> Option<bool> {
    let stop = Stop::new(Point::Nowhere);
    let kern = Side {
        inner: &store.kernel,
        stop: &stop,
    };
    let (stage, mut caller) = Stage::new(rt, alloc, &store.kernel, Limits::standard())?;
    let shared = stage.shared(rt, &kern, &NoHooks);
    let session = Session {
        shared: &shared,
        stage: &stage,
        writer: stage.writer()?,
        journal: &store.journal,
        batch: &store.batch,
    };
    session.writer().release(&shared, &mut Hand::new());
    session.asks(b"POST")?;
    session.writer().send(&shared, &mut Hand::new());
    let is_begun = caller.reads(GREETING) && caller.reads(REPLIES[0]);
    let is_good = match fate {
        Fate::Accepted | Fate::Untold | Fate::Filed => is_filed(
            &session,
            &mut caller,
            fate,
            number,
        )?,
        Fate::TakenBack => is_taken_back(&session, &mut caller, number)?,
        Fate::Dirty | Fate::DirtyTakenBack => is_put_off(
            &session,
            &mut caller,
            &stop,
            fate,
            number,
        )?,
        Fate::Unsent | Fate::Held | Fate::Slow => is_kept(&session, fate, number)?,
        Fate::Refused => is_refused(&session, &mut caller, number)?,
        Fate::Halted => is_ended(&session, &mut caller, number)?,
    };
    session.writer().end(&shared, &mut Hand::new());
    Some(is_begun && is_good)
}

/// The flusher's next turn: it files what is left, and commits what changed. Whether something was filed, and something
/// committed.
fn turn<R: Wait + Clock, K: Kern, H: Hooks>(
    session: &Session<'_, R, K, H>,
) -> Option<(bool, bool)> {
    let is_filed = session.files();
    let mut batch = session.batch.lock(session.rt());
    let Some(ticket) = session.takes(&mut *batch) else {
        return Some((is_filed, false));
    };
    session.commits(ticket, &*batch)?;
    session.writer().release_waiting(session.shared);
    Some((is_filed, true))
}

fn is_filed<R: Wait + Clock, K: Kern, H: Hooks>(
    session: &Session<'_, R, K, H>,
    caller: &mut Caller,
    fate: Fate,
    number: u64,
) -> Option<bool> {
    let is_left = if fate == Fate::Untold {
        let untold = session.leaves_untold(number)?;
        let turned = turn(session);
        untold.tell(session.shared.bells);
        turned? == (true, true)
    } else {
        session.leaves(number)? && turn(session)? == (true, true)
    };
    let is_read = caller.reads(REPLIES[1]);
    if fate != Fate::Filed {
        return Some(is_left && is_read);
    }
    let was_filed = !session.takes_back()?;
    session.asks(b"DATE")?;
    session.writer().send(session.shared, &mut Hand::new());
    Some(is_left && is_read && was_filed && caller.reads(DATED))
}

fn is_taken_back<R: Wait + Clock, K: Kern, H: Hooks>(
    session: &Session<'_, R, K, H>,
    caller: &mut Caller,
    number: u64,
) -> Option<bool> {
    let is_left = session.leaves(number)? && session.takes_back()?;
    session.asks(b"DATE")?;
    session.writer().send(session.shared, &mut Hand::new());
    let is_once = turn(session)? == (false, true) && turn(session)? == (false, false);
    Some(is_left && is_once && caller.reads(REPLIES[1]) && caller.reads(DATED))
}

fn is_put_off<R: Wait + Clock, K: Kern, H: Hooks>(
    session: &Session<'_, R, K, H>,
    caller: &mut Caller,
    stop: &Stop,
    fate: Fate,
    number: u64,
) -> Option<bool> {
    let is_left = session.leaves(number)?;
    stop.refuse();
    let is_refused = turn(session)? == (false, false);
    let is_good = if fate == Fate::Dirty {
        turn(session)? == (true, true)
    } else {
        session.takes_back()? && turn(session)? == (false, true)
    };
    session.writer().send(session.shared, &mut Hand::new());
    Some(is_left && is_refused && is_good && caller.reads(REPLIES[1]))
}

/// Whether a block is not left, with nothing changed.
fn is_kept<R: Wait + Clock, K: Kern, H: Hooks>(
    session: &Session<'_, R, K, H>,
    fate: Fate,
    number: u64,
) -> Option<bool> {
    match fate {
        Fate::Slow => {
            // the reply to the article is cut short by the one that flushes
            let is_left = session.leaves(number)?;
            fill(&session.stage.near)?;
            let is_filed = is_left && turn(session)? == (true, true);
            session.takes_back()?;
            Some(is_filed && !session.leaves(number)?)
        }
        Fate::Held => {
            session.posts(number)?;
            session.writer().send(session.shared, &mut Hand::new());
            Some(!session.leaves(number)? && turn(session)? == (false, true))
        }
        _ => {
            session.posts_refused()?;
            Some(!session.leaves(number)? && turn(session)? == (false, false))
        }
    }
}

/// Whether the caller learns at once that its article is not taken. The one before it has the same id.
fn is_refused<R: Wait + Clock, K: Kern, H: Hooks>(
    session: &Session<'_, R, K, H>,
    caller: &mut Caller,
    number: u64,
) -> Option<bool> {
    let before = number.checked_sub(1)?;
    let is_left = session.leaves(before)? && turn(session)? == (true, false);
    Some(is_left && caller.reads(REFUSED) && !session.takes_back()?)
}

/// Whether the caller learns at once that the server ends.
fn is_ended<R: Wait + Clock, K: Kern, H: Hooks>(
    session: &Session<'_, R, K, H>,
    caller: &mut Caller,
    number: u64,
) -> Option<bool> {
    session.shared.kern.halt(session.rt());
    let is_left = session.leaves(number)? && turn(session)? == (true, false);
    let mut octets = [0; 1];
    let mut near: &TcpStream = &session.stage.near;
    let is_woken = matches!(near.read(&mut octets), Ok(0));
    Some(is_left && is_woken && caller.reads(ENDED) && !session.takes_back()?)
}
