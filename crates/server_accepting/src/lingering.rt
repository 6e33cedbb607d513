//! The callers whose sessions are closed and whose sockets may still hold unread octets: a close before these are read
//! could discard the last reply. One thread reads them for a while, so that no session's thread waits for them. At the
//! server's end each session's thread does that itself.

use crossbeam_channel::{Receiver, Sender, TrySendError};
use std::alloc::Global;
use std::io::Read;
use std::net::{Shutdown, TcpStream};
use std::sync::{Arc, Wait};
use std::time::{Clock, Duration, Instant};

/// The most callers that may be leaving. The socket of a further one is read without a wait, and closed.
pub const FAREWELLS: usize = 256;

/// The most reads of a caller's socket that is not waited for.
const READS_AT_ONCE: u32 = 16;

/// The most octets that one read of it takes.
const PIECE: usize = 4_096;

/// A caller that is leaving.
#[derive(Drop)]
pub struct Farewell {
    stream: Arc<TcpStream, Global>,
    /// When its session was closed.
    since: Instant,
}

/// What the lingering thread waits for.
#[derive(Drop)]
pub enum Parting {
    Caller(Farewell),
    /// The server ends.
    End,
}

/// Hands a caller's socket to the thread that lingers. If that thread has too many, or the clock cannot be read, the
/// socket is read without a wait, and closed.
pub fn part<R: Wait + Clock>(rt: &R, partings: &Sender<Parting>, stream: Arc<TcpStream, Global>) {
    let Ok(since) = Instant::now(rt) else {
        read_at_once(&stream);
        return;
    };
    let parting = Parting::Caller(Farewell { stream, since });
    if let Err(TrySendError::Full(Parting::Caller(farewell))) = partings.try_send(rt, parting) {
        read_at_once(&farewell.stream);
    }
}

/// Reads from these callers until their sockets end, each for this long after its session was closed, until the server
/// ends.
pub fn linger_all<R: Wait + Clock>(rt: &R, linger: Duration, partings: &Receiver<Parting>) {
    for _ in rt.forever() {
        let Ok(Parting::Caller(farewell)) = partings.recv(rt) else {
            return;
        };
        read_out(rt, &farewell, linger);
    }
}

/// Ends the sending side of a caller's socket, and reads until the caller ends its own, for this long at most. It is
/// for a thread that gets no more callers. If the clock cannot be read, it waits for nothing.
pub fn see_off<R: Clock>(rt: &R, stream: Arc<TcpStream, Global>, linger: Duration) {
    let _ = stream.shutdown(Shutdown::Write);
    match Instant::now(rt) {
        Ok(since) => read_out(rt, &Farewell { stream, since }, linger),
        Err(_) => read_at_once(&stream),
    }
}

/// Reads until the socket ends, for this long after the session was closed. What has arrived by then is read anyway.
fn read_out<R: Clock>(rt: &R, farewell: &Farewell, linger: Duration) {
    if !read_within(rt, farewell, linger) {
        read_at_once(&farewell.stream);
    }
}

/// Reads until the socket ends, for this long after the session was closed. Answers false if that time was over first.
fn read_within<R: Clock>(rt: &R, farewell: &Farewell, linger: Duration) -> bool {
    let mut piece = [0; PIECE];
    let mut stream = &*farewell.stream;
    for reads in 0..u64::MAX {
        let Ok(since) = farewell.since.elapsed(rt) else {
            return reads > 0;
        };
        let Some(left) = linger.checked_sub(since) else {
            return reads > 0;
        };
        if left.is_zero() || stream.set_read_timeout(Some(left)).is_err() {
            return reads > 0;
        }
        match stream.read(&mut piece) {
            Ok(count) if count > 0 => {}
            _ => return true,
        }
    }
    true
}

/// Reads what has arrived, and waits for nothing.
pub(crate) fn read_at_once(stream: &TcpStream) {
    if stream.set_nonblocking(true).is_err() {
        return;
    }
    let mut piece = [0; PIECE];
    let mut stream = stream;
    for _ in 0..READS_AT_ONCE {
        match stream.read(&mut piece) {
            Ok(count) if count > 0 => {}
            _ => return,
        }
    }
}
