//! What the callers of a play do.

use crate::hooks::{Flags, Holds};
use std::alloc::Global;
use std::net::{Net, SocketAddr, TcpListener, TcpStream};
use std::sync::atomic::Ordering;
use std::thread;
use std::time::{Clock, Duration};
use test_support_server::{Caller, GREETING, POST, SERVICE_ENDS, sleep_until};

/// How often a caller connects again until the server replies that the service ends, and the milliseconds in between.
const TRIES: u32 = 500;

const PAUSE_MILLIS: u64 = 20;

const SECOND: &str =
    "POST\r\nPath: p!not-for-mail\r\nDate: Sun, 09 Sep 2001 01:46:40 +0000\r\nMessage-ID: <2@a.example>\r\n\
    From: a@example.org\r\nNewsgroups: x.a\r\nSubject: two\r\n\r\nhi\r\n.\r\n";

/// Does what the callers of a test do, and answers whether they read what they had to.
pub(crate) fn call<R: Net<Listener = TcpListener, Stream = TcpStream> + Clock>(
    rt: &R,
    alloc: Global,
    address: SocketAddr,
    flags: &Flags,
    holds: Holds,
) -> bool {
    if holds == Holds::Unread {
        return comes_until_told(rt, alloc, address);
    }
    let Some(mut caller) = Caller::connect(rt, alloc, address) else {
        return false;
    };
    let is_good = match holds {
        Holds::Nothing => posts_and_reads(&mut caller) && sends_no_more(rt, alloc, address),
        Holds::Taken => posts_while_its_line_is_taken(&mut caller),
        Holds::Fault | Holds::Unread => {
            caller.sends(POST) && caller.reads_all(&[GREETING, "340 Send article"])
        }
        Holds::Flush => reads_while_a_flush_is_held(rt, alloc, address, flags, &mut caller),
        Holds::Release => posts_while_a_release_is_held(rt, alloc, address, &mut caller),
        Holds::Answer => {
            caller.reads(GREETING)
                && sleep_until(rt, &flags.flushed)
                && posts_and_reads_replies(&mut caller)
        }
    };
    flags.has_read.store(true, Ordering::SeqCst);
    let is_told = end(rt, alloc, address, flags, &caller);
    // what the device refused is never acknowledged
    is_good && is_told && (holds != Holds::Fault || caller.reads_end())
}

/// A caller posts, reads the article back and gets all replies in order.
fn posts_and_reads(caller: &mut Caller) -> bool {
    caller.reads(GREETING) && posts_and_reads_replies(caller)
}

fn posts_and_reads_replies(caller: &mut Caller) -> bool {
    caller.sends("POST\r\n")
        && caller.reads("340 Send article")
        && caller.sends(&POST[6..])
        && caller.reads("240 Article received")
        && caller.sends("STAT <1@a.example>\r\nSTAT <9@a.example>\r\n")
        && caller.reads_all(&["223 0 <1@a.example>", "430 No such article"])
        && caller.sends("GROUP x.a\r\n")
        && caller.reads("211 1 1 1 x.a")
}

/// A caller sends everything at once and then nothing more; it gets all replies, and then the socket ends. The same
/// holds after `QUIT`, when the caller has sent more than is served.
fn sends_no_more<R: Net<Listener = TcpListener, Stream = TcpStream>>(
    rt: &R,
    alloc: Global,
    address: SocketAddr,
) -> bool {
    let Some(mut caller) = Caller::connect(rt, alloc, address) else {
        return false;
    };
    let Some(mut other) = Caller::connect(rt, alloc, address) else {
        return false;
    };
    caller.sends("POST\r\n")
        && caller.sends(&POST[6..])
        && caller.sends("STAT <1@a.example>\r\nSTAT")
        && caller.ends()
        && caller.reads_all(&[GREETING, "340 Send article", "441 Article not accepted"])
        && caller.reads("223 0 <1@a.example>")
        && caller.reads_end()
        && other.sends("QUIT\r\nSTAT <1@a.example>\r\n")
        && other.reads_all(&[GREETING, "205 Bye"])
        && other.reads_end()
}

/// While the flush of one caller's article is held, another caller gets a reply about a group that the article is not
/// in.
fn reads_while_a_flush_is_held<R: Net<Listener = TcpListener, Stream = TcpStream> + Clock>(
    rt: &R,
    alloc: Global,
    address: SocketAddr,
    flags: &Flags,
    caller: &mut Caller,
) -> bool {
    if !caller.sends(POST) || !sleep_until(rt, &flags.flushing) {
        return false;
    }
    let Some(mut other) = Caller::connect(rt, alloc, address) else {
        return false;
    };
    let is_read = other.reads(GREETING)
        && other.sends("GROUP x.b\r\n")
        && other.reads("211 0 1 0 x.b");
    flags.has_read.store(true, Ordering::SeqCst);
    is_read && caller.reads_all(&[GREETING, "340 Send article", "240 Article received"])
}

/// While the release to the first session is held, the post of a second one commits.
fn posts_while_a_release_is_held<R: Net<Listener = TcpListener, Stream = TcpStream>>(
    rt: &R,
    alloc: Global,
    address: SocketAddr,
    caller: &mut Caller,
) -> bool {
    let Some(mut other) = Caller::connect(rt, alloc, address) else {
        return false;
    };
    other.sends(POST)
        && caller.reads(GREETING)
        && other.reads_all(&[GREETING, "340 Send article", "240 Article received"])
}

/// The caller's article commits while the reply to its `POST` is on its way. It gets all replies without sending more.
fn posts_while_its_line_is_taken(caller: &mut Caller) -> bool {
    caller.reads(GREETING)
        && caller.sends(POST)
        && caller.reads_all(&["340 Send article", "240 Article received"])
}

/// Has the next commit refused, and waits until a caller gets the reply that the service ends.
fn end<R: Net<Listener = TcpListener, Stream = TcpStream> + Clock>(
    rt: &R,
    alloc: Global,
    address: SocketAddr,
    flags: &Flags,
    caller: &Caller,
) -> bool {
    flags.over.store(true, Ordering::SeqCst);
    caller.sends(SECOND) && comes_until_told(rt, alloc, address)
}

/// Connects again and again until a caller gets the reply that the service ends.
fn comes_until_told<R: Net<Listener = TcpListener, Stream = TcpStream> + Clock>(
    rt: &R,
    alloc: Global,
    address: SocketAddr,
) -> bool {
    for _ in 0..TRIES {
        let Some(mut last) = Caller::connect(rt, alloc, address) else {
            return false;
        };
        if last.reads(SERVICE_ENDS) {
            return last.reads_end();
        }
        thread::sleep(rt, Duration::from_millis(PAUSE_MILLIS));
    }
    false
}
