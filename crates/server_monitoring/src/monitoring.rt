//! What a monitor is told of a running server, in a file that is written again and again.

use crossbeam_channel::Receiver;
use disk_file::{are_one, make_anew};
use kernel_shared::{Kern, halt};
use server_backup::{FileWork, Parts};
use server_logging::{Cause, EventCounts, Log, LogEvent};
use server_metrics::{CommitTimes, Metrics, SessionStates, VolumeCounts, text};
use server_releasing::{Shared, Writers};
use server_roster::SessionState;
use std::alloc::{AllocError, Global};
use std::fs::{self, File, Metadata};
use std::io::{self, ErrorKind, Read, Write};
use std::os::unix::fs::MetadataExt;
use std::rt::Files;
use std::sync::Wait;
use std::sync::atomic::{AtomicBool, Ordering};
use std::time::{Clock, Duration};
use volume_usage::{Tally, VolumeFacts};

/// The seconds from one look to the next one.
const LOOK_SECS: u64 = 15;

/// The mode of the file for a monitor, less what the process leaves out of modes.
const MODE: u32 = 0o666;

/// How a text for a monitor begins.
const BEGIN: &[u8] = b"# HELP newsd_";

/// The octets of `BEGIN`.
const BEGIN_OCTETS: usize = 13;

/// Why a file isn't written for a monitor.
#[derive(Clone, Copy, Debug, Drop, PartialEq, Eq)]
pub enum NoMetrics {
    /// It, or the one beside it, is the volume.
    Volume,
    /// It is no regular file.
    Irregular,
    /// It, or the one beside it, has octets that no server has written there.
    Foreign,
}

/// The file that a monitor reads. Another one beside it is written, and renamed, so that the monitor reads a whole text.
#[derive(Drop)]
pub struct MetricsFile {
    path: String,
    part: String,
}

impl MetricsFile {
    /// The file with this path.
    pub fn at(alloc: Global, path: &str) -> Result<MetricsFile, AllocError> {
        Ok(MetricsFile {
            path: String::from_str(alloc, path)?,
            part: format!(in alloc; "{path}.part")?,
        })
    }

    /// Whether the file may be written in place of what stands there, and another one beside it, while a volume at this path is served.
    /// `Volume` if one of the two is the volume, however it is named. `Irregular` if the file is a directory, a device, a pipe or
    /// something else that isn't a regular file. `Foreign` if one of the two has octets and doesn't begin as a text for a monitor does.
    /// What else stands beside the file may go: a link there isn't followed. Each refusal leaves all files as they were.
    pub fn may_be_put<R: Files<File = File>>(&self, rt: &R, volume: &str) -> Result<(), NoMetrics> {
        let (path, part) = (self.path.as_str(), self.part.as_str());
        if are_one(rt, path, volume) || are_one(rt, part, volume) {
            return Err(NoMetrics::Volume);
        }
        if matches!(fs::metadata(rt, path), Ok(metadata) if !metadata.is_file()) {
            return Err(NoMetrics::Irregular);
        }
        if is_foreign(rt, path, fs::metadata(rt, path))
            || is_foreign(rt, part, fs::symlink_metadata(rt, part))
        {
            return Err(NoMetrics::Foreign);
        }
        Ok(())
    }

    /// Puts this text in place of any file there. It is written beside that first, into a file that is made anew. A refusal leaves the file
    /// as it was, and nothing beside it.
    pub fn put<R: Files<File = File>>(&self, rt: &R, text: &[u8]) -> io::Result<()> {
        let put = self.put_anew(rt, text);
        if put.is_err() {
            let _ = fs::remove_file(rt, self.part.as_str());
        }
        put
    }

    fn put_anew<R: Files<File = File>>(&self, rt: &R, text: &[u8]) -> io::Result<()> {
        let mut part = make_anew(rt, self.part.as_str(), MODE)?;
        part.write_all(text)?;
        fs::rename(rt, self.part.as_str(), self.path.as_str())
    }
}

/// Whether a regular file stands at this path that isn't empty and doesn't begin as a text for a monitor does.
fn is_foreign<R: Files<File = File>>(rt: &R, path: &str, seen: io::Result<Metadata>) -> bool {
    matches!(seen, Ok(metadata) if metadata.is_file() && metadata.len() > 0) && !is_ours(rt, path)
}

/// Whether a regular file begins as a text for a monitor does.
fn is_ours<R: Files<File = File>>(rt: &R, path: &str) -> bool {
    let mut begin = [0; BEGIN_OCTETS];
    match File::open(rt, path) {
        Ok(mut file) => file.read_exact(&mut begin).is_ok() && begin.as_slice() == BEGIN,
        Err(_) => false,
    }
}

/// What is written for a monitor, and from what.
#[derive(Clone, Copy)]
pub struct Monitor<'a> {
    pub file: &'a MetricsFile,
    pub log: &'a Log,
    pub tally: &'a Tally,
    pub facts: VolumeFacts<'a>,
}

/// What was written last.
#[derive(Clone, Copy)]
struct Written {
    octets_in: u64,
    octets_out: u64,
    /// The last writing failed, and the log has said so.
    is_failing: bool,
}

impl Written {
    /// Nothing was written yet.
    fn nothing() -> Written {
        Written {
            octets_in: 0,
            octets_out: 0,
            is_failing: false,
        }
    }
}

/// The file of a volume, as it was just before it was opened.
#[derive(Drop)]
pub struct ServedFile {
    path: String,
    device: u64,
    inode: u64,
    octets: u64,
}

impl ServedFile {
    /// The file at this path. Refused where the system doesn't look there, or memory is refused.
    pub fn at<R: Files<File = File>>(rt: &R, alloc: Global, path: &str) -> io::Result<ServedFile> {
        let metadata = fs::metadata(rt, path)?;
        Ok(ServedFile {
            path: String::from_str(alloc, path)?,
            device: metadata.dev(),
            inode: metadata.ino(),
            octets: metadata.len(),
        })
    }

    /// Whether its path still names it, and it has as many octets as it had. Where the system doesn't tell, nothing is known against it.
    fn stands<R: Files<File = File>>(&self, rt: &R) -> bool {
        match fs::metadata(rt, self.path.as_str()) {
            Ok(there) => {
                there.dev() == self.device
                    && there.ino() == self.inode
                    && there.len() == self.octets
            }
            Err(error) => {
                !matches!(error.kind(), ErrorKind::NotFound | ErrorKind::NotADirectory)
            }
        }
    }
}

/// What the watching thread looks at, and when it ends.
pub struct Watch<'a> {
    pub file: Option<&'a ServedFile>,
    pub monitor: Option<Monitor<'a>>,
    log: &'a Log,
    /// What is to be done about the files of backups.
    works: &'a Receiver<FileWork>,
    /// The path of the volume's file named another one before anything else went wrong.
    pub is_replaced: AtomicBool,
    /// The log has said why the server fails.
    has_told: AtomicBool,
    /// All other threads have ended.
    has_ended: AtomicBool,
}

impl<'a> Drop for Watch<'a> {
    fn drop(self) {
        let Watch {
            file: _,
            monitor: _,
            log: _,
            works: _,
            is_replaced: _,
            has_told: _,
            has_ended: _,
        } = self;
    }
}

impl<'a> Watch<'a> {
    /// Nothing was looked at yet, and the log was told of nothing. Each of the two files may be missing: then it is not looked at.
    pub fn new(
        file: Option<&'a ServedFile>,
        monitor: Option<Monitor<'a>>,
        log: &'a Log,
        works: &'a Receiver<FileWork>,
    ) -> Watch<'a> {
        Watch {
            file,
            monitor,
            log,
            works,
            is_replaced: AtomicBool::new(false),
            has_told: AtomicBool::new(false),
            has_ended: AtomicBool::new(false),
        }
    }

    /// Has the log say why the server fails, unless it has done so.
    pub fn tell<R: Wait + Clock>(&self, rt: &R, why: LogEvent) {
        if !self.has_told.swap(true, Ordering::SeqCst) {
            self.log.note(rt, why);
        }
    }

    /// Has the watching thread look for the last time.
    pub fn end<R, K, G>(&self, shared: &Shared<'_, R, K, G>) {
        self.has_ended.store(true, Ordering::SeqCst);
        shared.bells.watcher.unpark();
    }

    /// Looks at once, then every fifteen seconds and when the operator asks how the server is, and for the last time after `end` was
    /// called. Each time it looks at the volume's file, writes the file for a monitor, and does what backups ask for. The last time it
    /// removes the files of backups that are under way. Once the path of
    /// the volume's file names another one or none, or the file has another length, it halts the kernel and sets `is_replaced`, unless
    /// the log was told before why the server fails.
    pub fn look_all<R: Files<File = File> + Wait + Clock, K: Kern, G>(
        &self,
        shared: &Shared<'_, R, K, G>,
    ) {
        let mut written = Written::nothing();
        let mut parts = Parts::new(shared.alloc);
        for _ in shared.rt.forever() {
            let is_last = self.has_ended.load(Ordering::SeqCst);
            self.look_at_file(shared);
            if let Some(monitor) = self.monitor {
                write(shared, monitor, &mut written);
            }
            self.carry_out_all(shared, &mut parts);
            if is_last {
                parts.remove_all(shared.rt);
                return;
            }
            shared
                .bells
                .watcher
                .park_timeout(shared.rt, Duration::from_secs(LOOK_SECS));
        }
    }

    /// Does what backups ask for about their files.
    fn carry_out_all<R: Files<File = File> + Wait, K, G>(
        &self,
        shared: &Shared<'_, R, K, G>,
        parts: &mut Parts,
    ) {
        for _ in shared.rt.forever() {
            let Ok(work) = self.works.try_recv(shared.rt) else {
                return;
            };
            work.carry_out(shared.rt, shared.alloc, parts);
        }
    }

    /// Halts the kernel once the path names another file: the next start doesn't find what is written to this one.
    fn look_at_file<R: Files<File = File> + Wait + Clock, K: Kern, G>(
        &self,
        shared: &Shared<'_, R, K, G>,
    ) {
        let Some(file) = self.file else {
            return;
        };
        if file.stands(shared.rt) || self.has_told.swap(true, Ordering::SeqCst) {
            return;
        }
        self.is_replaced.store(true, Ordering::SeqCst);
        self.log.note(shared.rt, LogEvent::Fault(Cause::Replaced));
        let _ = halt(shared.rt, shared.kern);
        shared.bells.flush_now();
    }
}

/// Writes the file. Of writings that fail one after the other the log tells once.
fn write<R: Files<File = File> + Wait + Clock, K: Kern, G>(
    shared: &Shared<'_, R, K, G>,
    monitor: Monitor<'_>,
    written: &mut Written,
) {
    let metrics = look(shared, monitor, written);
    match put(shared.rt, shared.alloc, monitor.file, &metrics) {
        Ok(()) => written.is_failing = false,
        Err(error) => {
            if !written.is_failing {
                let cause = Cause::of(&error);
                monitor.log.note(shared.rt, LogEvent::Metrics(cause));
            }
            written.is_failing = true;
        }
    }
}

fn put<R: Files<File = File>>(
    rt: &R,
    alloc: Global,
    file: &MetricsFile,
    metrics: &Metrics,
) -> io::Result<()> {
    let text = text(alloc, metrics)?;
    file.put(rt, text.as_slice())
}

/// Looks at the server. The kernel is asked once, as the operator's line `status` asks it, and then for the articles that are
/// gone.
fn look<R: Wait + Clock, K: Kern, G>(
    shared: &Shared<'_, R, K, G>,
    monitor: Monitor<'_>,
    written: &mut Written,
) -> Metrics {
    let Shared {
        rt,
        kern,
        writers,
        longest,
        ..
    } = shared;
    // first, since it takes longest
    let gone = gone_articles(shared);
    // before the sessions: one that ends meanwhile is missed, and none counts twice
    let events = monitor.log.events(*rt);
    let seen = Seen::of(*rt, writers, &events);
    // so neither number falls
    written.octets_in = written.octets_in.max(seen.octets_in);
    written.octets_out = written.octets_out.max(seen.octets_out);
    let tallied = monitor.tally.read();
    let counts = kern.counts(*rt);
    Metrics {
        sessions: seen.states,
        events,
        volume: VolumeCounts {
            accepted: counts.accepted,
            durable: counts.durable,
            gone,
            used_blocks: tallied.used_blocks,
            blocks: monitor.facts.blocks,
            used_inodes: counts.inodes,
            inodes: monitor.facts.inodes,
        },
        commits: CommitTimes {
            batches: tallied.batches,
            syncs: tallied.syncs,
            commits: tallied.commits,
            micros: tallied.commit_micros,
        },
        octets_in: written.octets_in,
        octets_out: written.octets_out,
        longest_micros: longest.take(),
    }
}

/// How many articles are in none of their groups any more. The kernel's lock is let go after each part of the changes, and the
/// sessions' threads that wait for it come first.
fn gone_articles<R: Wait, K: Kern, G>(shared: &Shared<'_, R, K, G>) -> u64 {
    let mut gone = 0u64;
    let mut first = 1;
    for _ in shared.rt.forever() {
        let part = shared.kern.gone_part(shared.rt, first);
        gone = gone.saturating_add(part.articles);
        let Some(next) = part.next else {
            break;
        };
        first = next;
        shared.asking.make_room();
    }
    gone
}

/// What is seen of the sessions.
#[derive(Clone, Copy)]
struct Seen {
    states: SessionStates,
    octets_in: u64,
    octets_out: u64,
}

impl Seen {
    /// Looks at each session, and adds its octets to those of the sessions that ended.
    fn of<R: Wait + Clock>(rt: &R, writers: &Writers, events: &EventCounts) -> Seen {
        let mut seen = Seen {
            states: SessionStates {
                idle: 0,
                sending: 0,
                held: 0,
            },
            octets_in: events.octets_in,
            octets_out: events.octets_out,
        };
        for place in 0..writers.len() {
            let session = match writers.get(place) {
                Some(writer) => writer.look(rt),
                None => None,
            };
            if let Some(session) = session {
                seen.count(session.state);
                seen.octets_in = seen.octets_in.saturating_add(session.counts.octets_in);
                seen.octets_out = seen.octets_out.saturating_add(session.counts.octets_out);
            }
        }
        seen
    }

    fn count(&mut self, state: SessionState) {
        let counted = match state {
            SessionState::Idle => &mut self.states.idle,
            SessionState::Sending => &mut self.states.sending,
            SessionState::Held => &mut self.states.held,
        };
        *counted = counted.saturating_add(1);
    }
}
