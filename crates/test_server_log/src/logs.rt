//! Logs that are read late, or never.

use server_logging::{
    Cause, EndedSession, Ending, Log, LogEvent, OpeningStep, SessionCounts, TakenPost, UsedPart,
    Verbosity,
};
use std::alloc::Global;
use std::io::{self, Write};
use std::net::{Ipv4Addr, SocketAddr};
use std::sync::atomic::{AtomicBool, AtomicU64, Ordering};
use std::sync::{Arc, Mutex, Wait};
use std::thread::{self, Threads};
use std::time::{Clock, Duration, Instant};

/// The most lines that are noted but not yet written.
const LINES: u32 = 1024;

/// The number of lines that are noted beyond these.
const MORE: u32 = 10;

/// The number of octets that are taken of a line that is written in part.
const FEW: usize = 10;

/// A wait of a test takes at most this many milliseconds.
const WAIT_MILLIS: u32 = 20_000;

/// An event that may come often.
pub(crate) const OFTEN: LogEvent = LogEvent::Opening(OpeningStep::Checking);

/// What a log is written to: nothing is taken before the reader comes.
#[derive(Drop)]
struct Reader<R> {
    rt: R,
    shared: Arc<Shared, Global>,
}

#[derive(Drop)]
struct Shared {
    text: Mutex<Vec<u8>>,
    /// A line is to be written.
    is_awaited: AtomicBool,
    /// The reader takes lines.
    is_reading: AtomicBool,
    /// The number of writes.
    writes: AtomicU64,
}

impl<R: Wait + Clock> Write for Reader<R> {
    fn write(&mut self, octets: &[u8]) -> io::Result<usize> {
        self.shared.is_awaited.store(true, Ordering::SeqCst);
        for _ in self.rt.forever() {
            if self.shared.is_reading.load(Ordering::SeqCst) {
                break;
            }
            thread::sleep(&self.rt, Duration::from_millis(1));
        }
        self.shared.writes.fetch_add(1, Ordering::SeqCst);
        self.shared.text.lock(&self.rt).extend_from_slice(octets)?;
        Ok(octets.len())
    }

    fn flush(&mut self) -> io::Result<()> {
        Ok(())
    }
}

/// A log, and what it is written to.
#[derive(Drop)]
struct Play {
    log: Log,
    shared: Arc<Shared, Global>,
}

fn start<R: Threads + Wait + Clock + Copy + Send + 'static>(
    rt: &R,
    alloc: Global,
    verbosity: Verbosity,
    is_reading: bool,
) -> Option<Play> {
    let shared = Shared {
        text: Mutex::new(Vec::new(alloc)),
        is_awaited: AtomicBool::new(false),
        is_reading: AtomicBool::new(is_reading),
        writes: AtomicU64::new(0),
    };
    let shared = Arc::new(alloc, shared).ok()?;
    let reader = Reader {
        rt: *rt,
        shared: Arc::try_clone(&shared).ok()?,
    };
    let log = Log::start(rt, alloc, reader, verbosity).ok()?;
    Some(Play { log, shared })
}

/// Waits until a flag is set. Answers false at the limit.
fn wait_for<R: Clock>(rt: &R, flag: &AtomicBool) -> bool {
    for _ in 0..WAIT_MILLIS {
        if flag.load(Ordering::SeqCst) {
            return true;
        }
        thread::sleep(rt, Duration::from_millis(1));
    }
    false
}

/// Whether a log has all lines that found room, and reports the others before its second line, for a reader that comes
/// once ten lines have found no room.
pub(crate) fn read_late<R: Threads + Wait + Clock + Copy + Send + 'static>(
    rt: &R,
    alloc: Global,
) -> Option<bool> {
    let Play { log, shared } = start_full(rt, alloc)?;
    shared.is_reading.store(true, Ordering::SeqCst);
    log.end(rt);
    let has_all = has_lines(rt, &shared, 1026);
    let text = shared.text.lock(rt);
    let mut lines = text.split(|octet| *octet == b'\n');
    let is_first = ends(lines.next(), b" event=fault error=io");
    let is_second = ends(lines.next(), b" event=lost lines=10");
    let is_third = ends(lines.next(), b" event=opening step=checking");
    Some(has_all && is_first && is_second && is_third)
}

/// A log whose reader has not come yet, and in which ten lines have found no room.
fn start_full<R: Threads + Wait + Clock + Copy + Send + 'static>(
    rt: &R,
    alloc: Global,
) -> Option<Play> {
    let play = start(rt, alloc, Verbosity::All, false)?;
    play.log.note(rt, LogEvent::Fault(Cause::Io));
    if !wait_for(rt, &play.shared.is_awaited) {
        return None;
    }
    for _ in 0..LINES + MORE {
        play.log.note(rt, OFTEN);
    }
    Some(play)
}

/// Whether a log that is full still has the lines of all events that come once, ahead of those that wait, and counts
/// none of them as lost.
pub(crate) fn once_of_a_full_log<R: Threads + Wait + Clock + Copy + Send + 'static>(
    rt: &R,
    alloc: Global,
) -> Option<bool> {
    let Play { log, shared } = start_full(rt, alloc)?;
    let (blocks, inodes) = (UsedPart { used: 9, all: 10 }, UsedPart { used: 1, all: 10 });
    log.note(rt, LogEvent::Full { blocks, inodes });
    log.note(rt, LogEvent::Clock);
    log.note(rt, LogEvent::Halted);
    shared.is_reading.store(true, Ordering::SeqCst);
    log.end(rt);
    let has_all = has_lines(rt, &shared, 1029);
    let text = shared.text.lock(rt);
    let mut lines = text.split(|octet| *octet == b'\n');
    let is_first = ends(lines.next(), b" event=fault error=io");
    let is_second = ends(lines.next(), b" event=lost lines=10");
    let is_third = ends(lines.next(), b" event=full blocks=9/10 inodes=1/10");
    let is_fourth = ends(lines.next(), b" event=clock");
    let is_fifth = ends(lines.next(), b" event=halted");
    let is_sixth = ends(lines.next(), b" event=opening step=checking");
    Some(has_all && is_first && is_second && is_third && is_fourth && is_fifth && is_sixth)
}

/// Whether a log that nothing else was noted in has the line of an event that comes once while it goes on.
pub(crate) fn once_of_an_idle_log<R: Threads + Wait + Clock + Copy + Send + 'static>(
    rt: &R,
    alloc: Global,
) -> Option<bool> {
    let Play { log, shared } = start(rt, alloc, Verbosity::All, true)?;
    log.note(rt, LogEvent::Clock);
    let has_first = has_lines(rt, &shared, 1);
    log.note(rt, LogEvent::Fault(Cause::Io));
    let has_second = has_lines(rt, &shared, 2);
    log.end(rt);
    Some(has_first && has_second)
}

/// Waits until this many lines are written, and no more. Answers false at the limit.
fn has_lines<R: Wait + Clock>(rt: &R, shared: &Shared, lines: usize) -> bool {
    for _ in 0..WAIT_MILLIS {
        let text = shared.text.lock(rt);
        let count = text.iter().filter(|octet| **octet == b'\n').count();
        drop(text);
        if count >= lines {
            return count == lines;
        }
        thread::sleep(rt, Duration::from_millis(1));
    }
    false
}

/// What a log is written to: its first write takes nothing, its second one a few octets, and its third one nothing.
#[derive(Drop)]
struct Failing<R> {
    rt: R,
    taken: Arc<Taken, Global>,
}

#[derive(Drop)]
struct Taken {
    text: Mutex<Vec<u8>>,
    /// The number of writes.
    writes: AtomicU64,
}

impl<R: Wait> Write for Failing<R> {
    fn write(&mut self, octets: &[u8]) -> io::Result<usize> {
        let taken = match self.taken.writes.load(Ordering::SeqCst) {
            0 | 2 => Err(io::Error::from(io::ErrorKind::WouldBlock)),
            1 => Ok(octets.len().min(FEW)),
            _ => Ok(octets.len()),
        };
        if let Ok(taken) = taken {
            self.taken
                .text
                .lock(&self.rt)
                .extend_from_slice(&octets[..taken])?;
        }
        self.taken.writes.fetch_add(1, Ordering::SeqCst);
        taken
    }

    fn flush(&mut self) -> io::Result<()> {
        Ok(())
    }
}

/// Whether a log whose first line finds three writes that fail has lines with these ends after the part that was taken. Two more lines
/// are noted, each once the writes for those before it were made.
pub(crate) fn written_in_part<R: Threads + Wait + Clock + Copy + Drop + Send + 'static>(
    rt: &R,
    alloc: Global,
    first: LogEvent,
    expected: &[&str],
) -> Option<bool> {
    let taken = Taken {
        text: Mutex::new(Vec::new(alloc)),
        writes: AtomicU64::new(0),
    };
    let taken = Arc::new(alloc, taken).ok()?;
    let failing = Failing {
        rt: *rt,
        taken: Arc::try_clone(&taken).ok()?,
    };
    let log = Log::start(rt, alloc, failing, Verbosity::All).ok()?;
    log.note(rt, first);
    let has_failed = has_writes(rt, &taken, 1);
    log.note(rt, OFTEN);
    let is_ended = has_writes(rt, &taken, 5);
    log.note(rt, OFTEN);
    let is_written = has_writes(rt, &taken, 7);
    log.end(rt);
    let text = taken.text.lock(rt);
    let mut lines = text.split(|octet| *octet == b'\n');
    let is_part = lines.next().map(<[u8]>::len) == Some(FEW);
    let mut are_expected = true;
    for end in expected {
        are_expected = ends(lines.next(), end.as_bytes()) && are_expected;
    }
    Some(has_failed && is_ended && is_written && is_part && are_expected)
}

/// Waits until so many writes were made. Answers false at the limit.
fn has_writes<R: Clock>(rt: &R, taken: &Taken, writes: u64) -> bool {
    for _ in 0..WAIT_MILLIS {
        if taken.writes.load(Ordering::SeqCst) >= writes {
            return true;
        }
        thread::sleep(rt, Duration::from_millis(1));
    }
    false
}

/// How many writes a log makes of as many lines as find room while its reader has not come, once it comes.
pub(crate) fn writes_of_a_full_log<R: Threads + Wait + Clock + Copy + Send + 'static>(
    rt: &R,
    alloc: Global,
) -> Option<u64> {
    let Play { log, shared } = start_full(rt, alloc)?;
    shared.is_reading.store(true, Ordering::SeqCst);
    log.end(rt);
    if !has_lines(rt, &shared, 1026) {
        return None;
    }
    Some(shared.writes.load(Ordering::SeqCst))
}

fn ends(line: Option<&[u8]>, end: &[u8]) -> bool {
    match line {
        Some(line) => line.ends_with(end),
        None => false,
    }
}

/// Whether a log that is never read ends within ten seconds.
pub(crate) fn never_read<R: Threads + Wait + Clock + Copy + Send + 'static>(
    rt: &R,
    alloc: Global,
) -> Option<bool> {
    let Play { log, .. } = start(rt, alloc, Verbosity::All, false)?;
    log.note(rt, LogEvent::Fault(Cause::Io));
    log.note(rt, LogEvent::Fault(Cause::Io));
    let since = Instant::now(rt).ok()?;
    log.end(rt);
    Some(since.elapsed(rt).ok()? < Duration::from_secs(10))
}

/// How many lines a log has of an end and a fault.
pub(crate) fn lines_of<R: Threads + Wait + Clock + Copy + Send + 'static>(
    rt: &R,
    alloc: Global,
    verbosity: Verbosity,
) -> Option<usize> {
    let Play { log, shared } = start(rt, alloc, verbosity, true)?;
    let ended = EndedSession {
        peer: SocketAddr::from((Ipv4Addr::LOCALHOST, 1)),
        session: 1,
        counts: SessionCounts::new(),
        why: Ending::Quit,
    };
    log.note(rt, LogEvent::End(ended));
    log.note(rt, LogEvent::Fault(Cause::Io));
    log.end(rt);
    let text = shared.text.lock(rt);
    Some(text.iter().filter(|octet| **octet == b'\n').count())
}

/// How many lines a log has of posts with these serials, where so many changes are durable when it ends.
pub(crate) fn posts_told<R: Threads + Wait + Clock + Copy + Send + 'static>(
    rt: &R,
    alloc: Global,
    serials: &[u64],
    durable: u64,
) -> Option<usize> {
    let Play { log, shared } = start(rt, alloc, Verbosity::All, true)?;
    for serial in serials {
        let id = String::from_str(alloc, "<1@a.example>").ok()?;
        log.note_taken(
            rt,
            TakenPost {
                session: 1,
                id,
                serial: *serial,
            },
        );
    }
    log.note_durable(rt, durable);
    log.end(rt);
    let text = shared.text.lock(rt);
    Some(text.iter().filter(|octet| **octet == b'\n').count())
}
