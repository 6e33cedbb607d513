//! Octets that are written to a socket in as many pieces as it takes.

ghost use Rattle.std.specs.Prelude.{◌≡◌, ◌≢◌, ◌≤◌, length, take};
ghost use Rattle.std.specs.Io.KnownBytes.{Appends};
ghost use Rattle.server_delivering.specs.Delivery.{Wrote};

use crate::Taking;
use std::io::{self, ErrorKind, Write};
use std::net::TcpStream;
use std::sync::Wait;
use std::time::{Clock, Duration};

/// A write that may not wait gets this many milliseconds, the fewest that the system allows. A socket that does not
/// block at all would not block its reads either.
const SHORT_MILLIS: u64 = 1;

/// The time for which a socket may take nothing is split into this many writes. Linux wakes a waiting write only once a
/// third of the socket's buffer is free, which may take longer with a slow caller; the next write finds whatever is
/// free.
const WAITS: u32 = 12;

/// How far a write went.
#[derive(Clone, Copy, PartialEq, Eq)]
pub enum Written {
    All,
    /// The socket takes no more now.
    Part,
    /// The socket took nothing for the time that it had.
    Stalled,
    /// In this time it took too little, of a caller that has to keep a pace.
    Slow,
    /// The socket failed.
    Failed,
}

/// Sets up a socket so that a write hardly waits.
pub fn give_short_writes(stream: &TcpStream) -> io::Result<()> {
    stream.set_write_timeout(Some(Duration::from_millis(SHORT_MILLIS)))
}

/// Writes the octets from the place `written` on to a socket whose writes hardly wait, and advances that place. What the socket
/// does not take in one call is left, so that a caller who takes an octet at a time holds nobody.
pub fn deliver_at_once<R: Wait>(
    rt: &R,
    stream: &TcpStream,
    octets: &[u8],
    written: &mut usize,
) -> Written {
    let mut socket = stream;
    write_piece(rt, &mut socket, octets, written)
}

/// Writes the octets from the place `written` on to a socket whose writes hardly wait, and advances that place, until the socket has
/// taken nothing for the time of `taking`, or in such a time fewer octets than its caller has to take.
pub fn deliver<R: Wait + Clock>(
    rt: &R,
    stream: &TcpStream,
    octets: &[u8],
    written: &mut usize,
    taking: &mut Taking,
) -> Written {
    let mut socket = stream;
    let before = *written;
    let at_once = write_on(rt, &mut socket, octets, written);
    if at_once != Written::Part {
        taking.end();
        return at_once;
    }
    if stream
        .set_write_timeout(Some(taking.wait() / WAITS))
        .is_err()
    {
        return Written::Failed;
    }
    taking.took(written.saturating_sub(before));
    taking.begin(rt);
    match write_patiently(rt, &mut socket, octets, written, taking) {
        Written::All if give_short_writes(stream).is_err() => Written::Failed,
        written => written,
    }
}

/// Writes the octets from the place `written` on, and advances that place, until the writer took none in all waits of a
/// limit, or fewer in this time than its caller has to take. It never answers `Part`.
fn write_patiently<R: Wait + Clock, W: Write>(
    rt: &R,
    stream: &mut W,
    octets: &[u8],
    written: &mut usize,
    taking: &mut Taking,
) -> Written
    ensures wrote { Wrote octets.now written.old written.new (W.contents stream.old) (W.contents stream.new) }
    ensures ends { result ≢ Written.Part }
{
    let mut idle: u32 = 0;
    'waits: for _ in rt.forever() {
        let before = *written;
        let step = write_on(rt, stream, octets, written);
        taking.took(written.saturating_sub(before));
        if step != Written::Part {
            return step;
        }
        idle = if *written == before {
            idle.saturating_add(1)
        } else {
            1
        };
        if idle >= WAITS {
            return Written::Stalled;
        }
        if taking.is_too_slow(rt) {
            return Written::Slow;
        }
    }
    unreachable!()
}

/// Writes the octets from the place `written` on, and advances that place, until the writer takes none within its limit.
fn write_on<R: Wait, W: Write>(
    rt: &R,
    stream: &mut W,
    octets: &[u8],
    written: &mut usize,
) -> Written
    ensures { Wrote octets.now written.old written.new (W.contents stream.old) (W.contents stream.new) }
{
    'pieces: for _ in rt.forever() {
        let before = *written;
        let step = write_piece(rt, stream, octets, written);
        if step != Written::Part || *written == before {
            return step;
        }
    }
    unreachable!()
}

/// Writes of the octets from the place `written` on what the writer takes in one call, and advances that place.
fn write_piece<R: Wait, W: Write>(
    rt: &R,
    stream: &mut W,
    octets: &[u8],
    written: &mut usize,
) -> Written
    ensures { Wrote octets.now written.old written.new (W.contents stream.old) (W.contents stream.new) }
{
    if *written > octets.len() {
        return Written::Failed;
    }
    let (step, count) = write_once(rt, stream, &octets[*written..]);
    *written += count;
    step
}

/// Writes what a writer takes in one call, and answers how many octets that was: all of them with `All`, none with
/// `Failed`.
fn write_once<R: Wait, W: Write>(rt: &R, stream: &mut W, octets: &[u8]) -> (Written, usize)
    ensures within { result.1 ≤ length octets.now }
    ensures whole { result.0 ≡ Written.All → result.1 ≡ length octets.now }
    ensures none { result.0 ≡ Written.Failed → result.1 ≡ 0 }
    ensures bytes { Appends (W.contents stream.old) (W.contents stream.new) (take result.1 octets.now) }
{
    'tries: for _ in rt.forever() {
        match stream.write(octets) {
            Ok(count) if count == octets.len() => return (Written::All, count),
            Ok(count) => return (Written::Part, count),
            Err(error) => match error.kind() {
                ErrorKind::Interrupted => {}
                ErrorKind::WouldBlock | ErrorKind::TimedOut => return (Written::Part, 0),
                _ => return (Written::Failed, 0),
            },
        }
    }
    unreachable!()
}
