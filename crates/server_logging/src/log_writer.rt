//! The log, and the thread that writes it.
//!
//! That thread may wait forever for the reader of the log, so it is not joined. No other thread waits for it: a line
//! that finds no room is counted, as is one that cannot be written, and the count is written before the next line.
//!
//! Lines that are there are written in one write. Refused callers are summed up by address and cause, for a second. Posts that were
//! taken wait until they are durable, and the thread is woken for all that a batch makes so.
//!
//! Events that come once have a channel of their own, so that no caller can take the room of their lines. One whose line cannot be
//! written is kept until it can. The thread waits for the other channel alone, and is woken through it.

use crate::output::{Lines, Output};
use crate::waiting::{Durable, Waiting, WaitingPost};
use crate::{LogEntry, LogEvent, SessionRefusal, TakenPost, beginning_of_1970, moment};
use crossbeam_channel::{Receiver, RecvTimeoutError, Sender, bounded};
use model::Moment;
use server_log_lines::Refusals;
use server_metrics::EventCounts;
use std::alloc::{AllocError, Global};
use std::io::Write;
use std::mem;
use std::net::SocketAddr;
use std::sync::atomic::{AtomicU64, Ordering};
use std::sync::{Arc, Mutex, Wait};
use std::thread::{self, Threads};
use std::time::{Clock, Duration, Instant};

/// The most lines that are noted but not yet written.
const LINES: usize = 1024;

/// The most lines beside these of events that come once. A server notes fewer in all: `full` twice, `clock`, and `fault`
/// or `halted`.
const LINES_ONCE: usize = 8;

/// The most lines that are written at once.
const LINES_TOGETHER: u32 = 256;

/// Refused callers are counted for so many seconds before the log tells of them.
const COUNTING_SECS: u64 = 1;

/// After so many seconds an event that comes once is tried again, where its line could not be written and no other came.
const TRYING_SECS: u64 = 10;

/// At the end the reader of the log has this many seconds to take the lines that are due.
const ENDING_SECS: u64 = 1;

/// Which events are logged.
#[derive(Clone, Copy, Debug, PartialEq, Eq)]
pub enum Verbosity {
    All,
    /// All but what sessions do: their beginnings, their posts and transfers, and their ends.
    Quiet,
}

/// The log of a running server.
#[derive(Drop)]
pub struct Log {
    verbosity: Verbosity,
    due: Sender<Due>,
    /// The events that come once.
    once: Sender<LogEntry>,
    untold: Untold,
    /// What it was told of, whether a line was written or not. Its lock is held for a few instructions, and no other is taken
    /// under it.
    events: Mutex<EventCounts>,
    /// It is disconnected once the last line is written.
    written: Receiver<()>,
}

/// What the log has not yet told.
#[derive(Drop)]
struct Untold {
    refused: Arc<Mutex<Refusals>, Global>,
    /// The lines that found no room or could not be written.
    lost: Arc<AtomicU64, Global>,
    durable: Arc<Durable, Global>,
    /// Posts that were taken, until the thread that writes keeps them.
    taken: Arc<Mutex<Waiting>, Global>,
}

impl Untold {
    fn new(alloc: Global) -> Result<Untold, AllocError> {
        Ok(Untold {
            refused: Arc::new(alloc, Mutex::new(Refusals::new(alloc)?))?,
            lost: Arc::new(alloc, AtomicU64::new(0))?,
            durable: Arc::new(alloc, Durable::new())?,
            taken: Arc::new(alloc, Mutex::new(Waiting::new(alloc)))?,
        })
    }

    /// The same for another thread.
    fn try_clone(&self) -> Result<Untold, AllocError> {
        Ok(Untold {
            refused: Arc::try_clone(&self.refused)?,
            lost: Arc::try_clone(&self.lost)?,
            durable: Arc::try_clone(&self.durable)?,
            taken: Arc::try_clone(&self.taken)?,
        })
    }
}

/// What the thread that writes waits for.
#[derive(Drop)]
enum Due {
    /// A line to be written.
    Line(LogEntry),
    /// An event that comes once, in the channel of those.
    Once,
    /// The first of the refused callers that are counted.
    Refused,
    /// More changes are durable.
    Durable,
}

/// The thread that writes the lines.
#[derive(Drop)]
struct Writing {
    alloc: Global,
    due: Receiver<Due>,
    once: Receiver<LogEntry>,
    untold: Untold,
    /// It sends no message. It is dropped with the thread.
    _written: Sender<()>,
}

impl Log {
    /// Starts the thread that writes the lines.
    pub fn start<
        R: Threads + Wait + Clock + Copy + Send + 'static,
        F: Write + Send + Drop + 'static,
    >(rt: &R, alloc: Global, faults: F, verbosity: Verbosity) -> Result<Log, AllocError> {
        let (log, writing) = Log::make(alloc, verbosity)?;
        let telling = Telling {
            refused: Refusals::new(alloc)?,
            due_at: None,
            posts: Waiting::new(alloc),
            once: Vec::with_capacity(alloc, LINES_ONCE)?,
        };
        let own = *rt;
        let _writer = thread::spawn(rt, move || writing.write_all(&own, faults, telling))?;
        Ok(log)
    }

    /// The log, and what its thread has of it.
    fn make(alloc: Global, verbosity: Verbosity) -> Result<(Log, Writing), AllocError> {
        let (due, to_write) = bounded(alloc, LINES)?;
        let (once, to_write_once) = bounded(alloc, LINES_ONCE)?;
        let (_written, written) = bounded(alloc, 1)?;
        let untold = Untold::new(alloc)?;
        let writing = Writing {
            alloc,
            due: to_write,
            once: to_write_once,
            untold: untold.try_clone()?,
            _written,
        };
        let log = Log {
            verbosity,
            due,
            once,
            untold,
            events: Mutex::new(EventCounts::new()),
            written,
        };
        Ok((log, writing))
    }

    /// Whether the log leaves out what sessions do.
    pub fn is_quiet(&self) -> bool {
        self.verbosity == Verbosity::Quiet
    }

    /// Notes an event, now. It does not wait for the thread that writes: if the reader of the log has left no room for
    /// another line, the line is counted as lost. That does not happen to an event that comes once.
    pub fn note<R: Wait + Clock>(&self, rt: &R, event: LogEvent) {
        self.count(rt, &event);
        if self.is_quiet() && is_of_session(&event) {
            return;
        }
        let comes_once = event.comes_once();
        let entry = entry(moment(rt), event);
        let has_room = if comes_once {
            self.note_once(rt, entry)
        } else {
            self.due.try_send(rt, Due::Line(entry)).is_ok()
        };
        if !has_room {
            self.note_lost();
        }
    }

    /// Counts an event, also one of which no line is written.
    fn count<R: Wait>(&self, rt: &R, event: &LogEvent) {
        match event {
            LogEvent::Begin(_) => self.events.lock(rt).count_begun(),
            LogEvent::End(ended) => self.events.lock(rt).count_end(&ended.counts),
            LogEvent::NotPosted(refused) => self.events.lock(rt).posts.count(refused.cause),
            _ => {}
        }
    }

    /// Counts a post or a transfer that was taken. `note_taken` doesn't count it.
    pub fn count_taken<R: Wait>(&self, rt: &R) {
        self.events.lock(rt).count_taken();
    }

    /// What the log was told of since its start.
    pub fn events<R: Wait>(&self, rt: &R) -> EventCounts {
        *self.events.lock(rt)
    }

    /// Notes a post or a transfer that was taken, now. Its line is written once its change is durable, and never if that does not
    /// come. It does not wait for the thread that writes: if there is no room for it, its line is counted as lost.
    pub fn note_taken<R: Wait + Clock>(&self, rt: &R, post: TakenPost) {
        if self.is_quiet() {
            return;
        }
        let moment = moment(rt).unwrap_or(beginning_of_1970());
        let serial = post.serial;
        let is_kept = self
            .untold
            .taken
            .lock(rt)
            .push(WaitingPost { moment, post });
        if !is_kept {
            self.note_lost();
            return;
        }
        // one that is durable already waits for no commit
        if self.untold.durable.await_more(serial) {
            self.wake(rt);
        }
    }

    /// Counts a line that could not be made as lost.
    pub fn note_lost(&self) {
        self.untold.lost.fetch_add(1, Ordering::SeqCst);
    }

    /// Notes that so many changes are durable. Where there is no room to wake the thread that writes, it is awake, and looks
    /// for posts that wait after each line.
    pub fn note_durable<R: Wait>(&self, rt: &R, changes: u64) {
        if self.untold.durable.note(changes) {
            self.wake(rt);
        }
    }

    /// Has the thread that writes look for posts that are durable, unless it was woken for that and has not looked since.
    fn wake<R: Wait>(&self, rt: &R) {
        if self.untold.durable.is_woken_already() {
            return;
        }
        // where there is no room, it is awake, and looks once it has written what is there
        let _ = self.due.try_send(rt, Due::Durable);
    }

    /// Notes a caller that got no session, now. A second after the first one there is a line for each address and cause.
    /// It does not wait for the thread that writes. A caller of an address and a cause for which there is no room is counted
    /// as a lost line.
    pub fn note_refused<R: Wait + Clock>(&self, rt: &R, peer: SocketAddr, why: SessionRefusal) {
        self.events.lock(rt).callers.count(why);
        let now = moment(rt).unwrap_or(beginning_of_1970());
        let mut refused = self.untold.refused.lock(rt);
        let is_first = refused.is_empty();
        let is_counted = refused.count(now, peer, why);
        drop(refused);
        if !is_counted {
            self.note_lost();
        }
        if is_first {
            // Where there is no room to wake the thread, it is awake, and looks for refused callers after each line.
            let _ = self.due.try_send(rt, Due::Refused);
        }
    }

    /// Notes an event that comes once, and wakes the thread that writes. Where there is no room to wake it, it is awake:
    /// it has lines to write, and looks for such events after each.
    fn note_once<R: Wait>(&self, rt: &R, entry: LogEntry) -> bool {
        if self.once.try_send(rt, entry).is_err() {
            return false;
        }
        let _ = self.due.try_send(rt, Due::Once);
        true
    }

    /// Ends the log. The lines that were noted are still written, and their reader has a second to take them. Then it
    /// returns, whether they are taken or not.
    pub fn end<R: Wait + Clock>(self, rt: &R) {
        let Log { due, written, .. } = self;
        drop(due);
        let _ = written.recv_timeout(rt, Duration::from_secs(ENDING_SECS));
    }
}

/// Whether an event is of a session.
fn is_of_session(event: &LogEvent) -> bool {
    matches!(
        event,
        LogEvent::Begin(_) | LogEvent::Post(_) | LogEvent::NotPosted(_) | LogEvent::End(_)
    )
}

/// An event and the time. Without a time it is the beginning of 1970.
fn entry(moment: Option<Moment>, event: LogEvent) -> LogEntry {
    LogEntry {
        moment: moment.unwrap_or(beginning_of_1970()),
        event,
    }
}

/// The refused callers that the log tells of next, and the posts.
#[derive(Drop)]
struct Telling {
    /// They are put here while their lines are written. It is empty between.
    refused: Refusals,
    /// When they are due. `None` if none are counted.
    due_at: Option<Instant>,
    posts: Waiting,
    /// Events that come once, whose lines are not written yet.
    once: Vec<LogEntry>,
}

impl Writing {
    /// Writes the lines until there are no more. A line that cannot be written is lost, unless its event comes once.
    fn write_all<R: Wait + Clock, F: Write + Drop>(self, rt: &R, faults: F, telling: Telling) {
        let mut telling = telling;
        let mut output = Output::new(faults);
        for _ in rt.forever() {
            match self.next_due(rt, &telling) {
                Ok(due) => {
                    self.write_once(rt, &mut output, &mut telling.once);
                    self.write_due(rt, &mut output, due);
                }
                Err(RecvTimeoutError::Timeout) => {
                    self.write_once(rt, &mut output, &mut telling.once);
                }
                Err(RecvTimeoutError::Disconnected) => break,
            }
            self.tell_of_posts(rt, &mut output, &mut telling.posts);
            self.tell_if_due(rt, &mut output, &mut telling);
        }
        self.write_once(rt, &mut output, &mut telling.once);
        self.note_lost(telling.once.len() as u64);
        self.tell_of_last_posts(rt, &mut output, &mut telling.posts);
        self.tell_of_refused(rt, &mut output, &mut telling.refused);
        self.write_lost(&mut output, moment(rt).unwrap_or(beginning_of_1970()));
    }

    /// What is due next. `Timeout` once the refused callers are due, or an event that comes once is to be tried again.
    fn next_due<R: Wait + Clock>(
        &self,
        rt: &R,
        telling: &Telling,
    ) -> Result<Due, RecvTimeoutError> {
        match telling.due_at {
            Some(due_at) => self.due.recv_deadline(rt, due_at),
            None if !telling.once.is_empty() => self
                .due
                .recv_timeout(rt, Duration::from_secs(TRYING_SECS)),
            None => self
                .due
                .recv(rt)
                .map_err(|_| RecvTimeoutError::Disconnected),
        }
    }

    /// Writes the line that is due, and those that have come since.
    fn write_due<R: Wait, F: Write + Drop>(&self, rt: &R, output: &mut Output<F>, first: Due) {
        let mut lines = Lines::new(self.alloc);
        self.add_due(&mut lines, first);
        for _ in 1..LINES_TOGETHER {
            let Ok(due) = self.due.try_recv(rt) else {
                break;
            };
            self.add_due(&mut lines, due);
        }
        self.write(output, &lines);
    }

    /// Adds what is due to the lines that are written next. What has no line of its own has only woken this thread.
    fn add_due(&self, lines: &mut Lines, due: Due) {
        match due {
            Due::Line(entry) => self.add(lines, &entry),
            Due::Once | Due::Refused | Due::Durable => {}
        }
    }

    /// Tells of the refused callers if they are due. If they are not yet, they will be: a second after they are first found here,
    /// or at once if the clock cannot be read.
    fn tell_if_due<R: Wait + Clock, F: Write + Drop>(
        &self,
        rt: &R,
        output: &mut Output<F>,
        telling: &mut Telling,
    ) {
        if self.untold.refused.lock(rt).is_empty() {
            return;
        }
        let due_at = match (Instant::now(rt), telling.due_at) {
            (Ok(now), Some(due_at)) if now < due_at => Some(due_at),
            (Ok(now), None) => now.checked_add(Duration::from_secs(COUNTING_SECS)),
            _ => None,
        };
        telling.due_at = due_at;
        if due_at.is_none() {
            self.tell_of_refused(rt, output, &mut telling.refused);
        }
    }

    /// Writes a line for each address and cause of the refused callers that were counted. This takes none, and leaves none.
    fn tell_of_refused<R: Wait, F: Write + Drop>(
        &self,
        rt: &R,
        output: &mut Output<F>,
        refused: &mut Refusals,
    ) {
        mem::swap(&mut *self.untold.refused.lock(rt), refused);
        let mut lines = Lines::new(self.alloc);
        for at in 0..refused.len() {
            if let Some(entry) = refused.entry(at) {
                self.add(&mut lines, &entry);
            }
        }
        refused.clear();
        self.write(output, &lines);
    }

    /// Writes the lines of the posts that are durable. Where others wait, this thread is woken once more changes are durable.
    fn tell_of_posts<R: Wait, F: Write + Drop>(
        &self,
        rt: &R,
        output: &mut Output<F>,
        posts: &mut Waiting,
    ) {
        let durable = &self.untold.durable;
        durable.note_looking();
        for _ in rt.forever() {
            if !self.has_posts(rt, posts) {
                return;
            }
            let mut lines = Lines::new(self.alloc);
            let changes = durable.changes();
            if self.add_posts(&mut lines, posts, changes) {
                self.write(output, &lines);
            } else if durable.is_awaited_already() {
                return;
            }
        }
    }

    /// Writes the lines of the posts that are durable at the end. The others were not kept.
    fn tell_of_last_posts<R: Wait, F: Write + Drop>(
        &self,
        rt: &R,
        output: &mut Output<F>,
        posts: &mut Waiting,
    ) {
        for _ in rt.forever() {
            if !self.has_posts(rt, posts) {
                return;
            }
            let mut lines = Lines::new(self.alloc);
            let changes = self.untold.durable.changes();
            if self.add_last_posts(&mut lines, posts, changes) {
                self.write(output, &lines);
            }
        }
    }

    /// Whether there are posts that wait. Those that came since are fetched once the others are told of.
    fn has_posts<R: Wait>(&self, rt: &R, posts: &mut Waiting) -> bool {
        if posts.is_empty() {
            mem::swap(&mut *self.untold.taken.lock(rt), posts);
        }
        !posts.is_empty()
    }

    /// Adds the lines of the next posts, if so many changes are durable that they are. Answers whether there was one.
    fn add_posts(&self, lines: &mut Lines, posts: &mut Waiting, changes: u64) -> bool {
        let mut has_one = false;
        for _ in 0..LINES_TOGETHER {
            let Some(post) = posts.take(changes) else {
                break;
            };
            has_one = true;
            self.add(lines, &post.into_entry());
        }
        has_one
    }

    /// Adds the lines of the next posts that are among so many durable changes, and forgets those before them. Answers whether there
    /// was one.
    fn add_last_posts(&self, lines: &mut Lines, posts: &mut Waiting, changes: u64) -> bool {
        let mut has_one = false;
        for _ in 0..LINES_TOGETHER {
            let Some(post) = posts.take_any(changes) else {
                break;
            };
            has_one = true;
            self.add(lines, &post.into_entry());
        }
        has_one
    }

    /// Writes the lines of the events that come once, also of those that are noted meanwhile. One that cannot be written stays, with
    /// those behind it, and is tried again with each later line, or after some seconds.
    fn write_once<R: Wait, F: Write + Drop>(
        &self,
        rt: &R,
        output: &mut Output<F>,
        kept: &mut Vec<LogEntry>,
    ) {
        for _ in rt.forever() {
            self.keep_once(rt, kept);
            let Some(entry) = kept.first() else {
                return;
            };
            self.write_lost(output, entry.moment);
            if !self.is_written(output, entry) {
                return;
            }
            kept.remove(0);
        }
    }

    /// Keeps the events that come once and were noted.
    fn keep_once<R: Wait>(&self, rt: &R, kept: &mut Vec<LogEntry>) {
        for _ in rt.forever() {
            let Ok(entry) = self.once.try_recv(rt) else {
                return;
            };
            // there is room for as many as come
            if kept.push(entry).is_err() {
                self.note_lost(1);
            }
        }
    }

    /// Adds the line of an entry. One for which memory is refused is lost.
    fn add(&self, lines: &mut Lines, entry: &LogEntry) {
        if !lines.add(entry) {
            self.note_lost(1);
        }
    }

    /// Writes these lines, and before them how many were lost. Those that are not written whole are lost.
    fn write<F: Write + Drop>(&self, output: &mut Output<F>, lines: &Lines) {
        if let Some(moment) = lines.since() {
            self.write_lost(output, moment);
            self.note_lost(output.write_lines(lines.text()));
        }
    }

    /// Says how many lines were lost, if any were. The line has this time.
    fn write_lost<F: Write + Drop>(&self, output: &mut Output<F>, moment: Moment) {
        let lost = self.untold.lost.swap(0, Ordering::SeqCst);
        if lost == 0 {
            return;
        }
        let told = LogEntry {
            moment,
            event: LogEvent::Lost(lost),
        };
        if !self.is_written(output, &told) {
            self.note_lost(lost);
        }
    }

    /// Writes the line of an entry. Answers false if it is not written whole, or memory for it is refused.
    fn is_written<F: Write + Drop>(&self, output: &mut Output<F>, entry: &LogEntry) -> bool {
        let mut lines = Lines::new(self.alloc);
        lines.add(entry) && output.write_lines(lines.text()) == 0
    }

    fn note_lost(&self, lines: u64) {
        self.untold.lost.fetch_add(lines, Ordering::SeqCst);
    }
}
