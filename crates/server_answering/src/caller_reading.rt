//! The octets of a caller as they are read: they are counted, and a message that comes too slowly ends its session.

ghost use Rattle.std.specs.Prelude.{◌≡◌, ◌≢◌, ◌<◌, ◌≤◌, IfErr, IfOk, IfSome, OnErr, length, take};
ghost use Rattle.std.specs.Io.KnownBytes.{Consumes, IsAtEnd, Keeps};
ghost use Rattle.server_log_lines.specs.declared.log_events.Ending.TheVariants as ending;

use model::Mode;
use server_logging::Ending;
use server_releasing::Limits;
use std::io::{self, ErrorKind, Read};
use std::net::TcpStream;
use std::sync::Wait;
use std::time::{Clock, Duration, Instant};

/// A stream of octets whose reads wait for a limited time.
pub(crate) trait Socket: Read {
    /// Has each read wait for so long at most. No octet is lost.
    fn set_wait(&mut self, wait: Duration) -> io::Result<()>
        ensures { Keeps (Self.remaining self.old) (Self.remaining self.new) };
}

impl<'a> Socket for &'a TcpStream {
    fn set_wait(&mut self, wait: Duration) -> io::Result<()> {
        self.set_read_timeout(Some(wait))
    }
}

/// A caller's socket, and what is known of the message that is awaited.
#[derive(Drop)]
pub(crate) struct Incoming<S> {
    stream: S,
    limits: Limits,
    /// The octets that were read so far.
    octets: u64,
    /// Those of them that belong to earlier messages: 0 as long as the first one is awaited.
    earlier: u64,
    /// When the message began: the first one with the session, any other with its first octet. `None` before that, and
    /// where the clock cannot be read.
    since: Option<Instant>,
    /// How long a read waits.
    wait: Duration,
}

impl<S: Socket> Incoming<S> {
    /// The socket of a session that begins. A read of it waits as long as the first message may take.
    pub(crate) fn new<R: Clock>(rt: &R, stream: S, limits: Limits) -> Incoming<S> {
        Incoming {
            stream,
            limits,
            octets: 0,
            earlier: 0,
            since: Instant::now(rt).ok(),
            wait: limits.first,
        }
    }

    /// The octets that were read so far.
    pub(crate) fn octets(&self) -> u64 {
        self.octets
    }

    /// Begins to wait for a message, of which so many octets were read with the one before.
    pub(crate) fn await_message(&mut self, held: usize)
        ensures { self.new.stream ≡ self.old.stream }
    {
        self.earlier = self.octets.saturating_sub(held as u64);
        if self.earlier > 0 {
            self.since = None;
        }
    }

    /// Reads a piece of the message that is awaited, and answers how many octets it has: none at the end of the stream. If
    /// the message has taken too long, or the caller was silent for too long, the session ends. A refusal loses no octet.
    pub(crate) fn read<R: Wait + Clock>(
        &mut self,
        rt: &R,
        mode: Mode,
        piece: &mut [u8],
    ) -> Result<usize, Ending>
        ensures within { IfOk result (λ count. count ≤ length piece.old) }
        ensures same { length piece.new ≡ length piece.old }
        ensures octets { IfOk result
            (λ count. Consumes (S.remaining self.old.stream) (S.remaining self.new.stream) (take count piece.new)) }
        ensures end { IfOk result (λ count. count ≡ 0 → 0 < length piece.old → IsAtEnd (S.remaining self.new.stream)) }
        ensures kept { OnErr result (Keeps (S.remaining self.old.stream) (S.remaining self.new.stream)) }
        ensures open { IfErr result (λ why. why ≢ ending.Closed) }
    {
        'reads: for _ in rt.forever() {
            let wait = self.time_left(rt, mode).ok_or(Ending::Silent)?;
            self.set_wait(wait)?;
            match self.stream.read(piece) {
                Ok(count) => {
                    self.octets = self.octets.saturating_add(count as u64);
                    return Ok(count);
                }
                Err(error) => {
                    if let Some(why) = broken(error.kind()) {
                        return Err(why);
                    }
                }
            }
        }
        unreachable!()
    }

    /// Has a read wait for so long.
    fn set_wait(&mut self, wait: Duration) -> Result<(), Ending>
        ensures kept { Keeps (S.remaining self.old.stream) (S.remaining self.new.stream) }
        ensures open { IfErr result (λ why. why ≢ ending.Closed) }
    {
        if wait == self.wait {
            return Ok(());
        }
        if self.stream.set_wait(wait).is_err() {
            return Err(Ending::Failed);
        }
        self.wait = wait;
        Ok(())
    }

    /// How long a read may wait now. `None` if the message has taken too long.
    fn time_left<R: Clock>(&mut self, rt: &R, mode: Mode) -> Option<Duration>
        ensures { self.new.stream ≡ self.old.stream }
    {
        let Limits { first, silence, .. } = self.limits;
        let came = self.octets.saturating_sub(self.earlier);
        if came == 0 {
            return Some(if self.earlier == 0 { first } else { silence });
        }
        let Ok(now) = Instant::now(rt) else {
            return Some(silence);
        };
        let since = self.since.unwrap_or(now);
        self.since = Some(since);
        let spent = now.duration_since(since);
        let left = if self.earlier == 0 {
            first.checked_sub(spent)?
        } else {
            self.limits.left(mode, came, spent)?
        };
        if left.is_zero() {
            None
        } else {
            Some(left.min(silence))
        }
    }
}

/// Why a read that failed ends a session. `None` if it is tried again.
fn broken(kind: ErrorKind) -> Option<Ending>
    ensures { IfSome result (λ why. why ≢ ending.Closed) }
{
    match kind {
        ErrorKind::Interrupted => None,
        ErrorKind::WouldBlock | ErrorKind::TimedOut => Some(Ending::Silent),
        _ => Some(Ending::Failed),
    }
}
