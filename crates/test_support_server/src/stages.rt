//! A server over a volume in memory, from its start to its end.

ghost use Rattle.std.specs.Prelude.{◌≡◌};
ghost use Rattle.journal.specs.Journal.{IsIdle};

use crate::volumes::{HOST, INODES, add_group};
use disk::{Disk, DiskCall, Faults};
use disk_file::Counts;
use journal::Journal;
use journal_volume::BatchBuf;
use kernel_shared::{Hooks, Kern, KernelCounts, NoHooks, SESSIONS};
use server::{Limits, Manager, MetricsFile, Pace, ServeError, ServedFile, Server, serve};
use server_flusher::{TurnSeat, flush_turn};
use server_logging::{Log, Verbosity, beginning_of_1970};
use server_mark::{FlushSeat, Mark, Seat};
use std::alloc::{AllocError, Global};
use std::fs::File;
use std::io::{self, BufRead, Write};
use std::net::{Net, TcpListener, TcpStream};
use std::os::unix::net::UnixListener;
use std::rt::Files;
use std::sync::{Arc, Wait};
use std::thread::Threads;
use std::time::Clock;
use volume_new::FORMAT_3;
use volume_usage::{BitmapMarks, Tally, VolumeFacts};

/// A server that is about to serve a volume.
pub struct Stage<'a, D: Disk, K> {
    journal: Journal<D>,
    kern: K,
    mark: &'a Mark,
    flush_seat: TurnSeat,
    seat: Seat,
    ghost idle: { IsIdle journal },
    ghost flushes: { flush_seat.mark ≡ mark.now },
    ghost looks: { seat.mark ≡ mark.now },
}

// By hand: a crate of tests that drops one would otherwise prove the derived one again, field by field.
impl<'a, D: Disk + Drop, K: Drop> Drop for Stage<'a, D, K> {
    fn drop(self) {
        let Stage {
            journal: _,
            kern: _,
            mark: _,
            flush_seat: _,
            seat: _,
        } = self;
    }
}

/// How a volume is served.
pub struct Setting<'a, H> {
    pub listeners: &'a [TcpListener],
    pub log: &'a Log,
    pub hooks: &'a H,
    /// The logical blocks that the server takes the volume to have.
    pub blocks: u64,
    pub limits: Limits,
}

impl<'a, H> Drop for Setting<'a, H> {
    fn drop(self) {
        let Setting {
            listeners: _,
            log: _,
            hooks: _,
            blocks: _,
            limits: _,
        } = self;
    }
}

/// How a server ended, and what its kernel held then.
#[derive(Clone, Copy)]
pub struct Served {
    pub ended: Result<(), ServeError>,
    pub counts: KernelCounts,
}

/// A log that nobody reads.
pub fn silent_log<R: Threads + Wait + Clock + Copy + Send + 'static>(
    rt: &R,
    alloc: Global,
) -> Result<Log, AllocError> {
    Log::start(rt, alloc, io::sink(), Verbosity::All)
}

impl<'a, D: Faults, K> Stage<'a, D, K> {
    /// Makes the device fail at its n-th call of this kind from now on, if n is not 0.
    pub fn fail(&mut self, kind: DiskCall, n: u64) {
        self.journal.fail_kind(kind, n);
    }
}

impl<'a, D: Disk + Drop + Send, K: Kern + Sync + Drop> Stage<'a, D, K> {
    pub fn new(
        journal: Journal<D>,
        kern: K,
        mark: &'a Mark,
        flush_seat: FlushSeat,
        seat: Seat,
    ) -> Stage<'a, D, K>
        requires idle { IsIdle journal }
        requires flushes { flush_seat.mark ≡ mark.now }
        requires looks { seat.mark ≡ mark.now }
    {
        Stage {
            journal,
            kern,
            mark,
            flush_seat: TurnSeat::new(flush_seat),
            seat,
        }
    }

    /// Makes the groups `x.a` and `x.b`, and makes them durable.
    pub fn with_groups<R: Wait>(self, rt: &R, alloc: Global) -> Option<Stage<'a, D, K>> {
        let Stage {
            mut journal,
            kern,
            mark,
            mut flush_seat,
            seat,
        } = self;
        let Ok(mut batch) = BatchBuf::new(alloc) else {
            return None;
        };
        add_group(rt, alloc, &kern, b"x.a")?;
        add_group(rt, alloc, &kern, b"x.b")?;
        let Ok(_) = flush_turn(
            rt,
            &mut journal,
            &kern,
            mark,
            &mut flush_seat,
            &mut batch,
            &NoHooks,
        ) else {
            return None;
        };
        Some(Stage {
            journal,
            kern,
            mark,
            flush_seat,
            seat,
        })
    }

    /// Serves callers and the operator's lines to the end.
    pub fn serve<
        R: Files<File = File>
            + Net<Listener = TcpListener, Stream = TcpStream>
            + Threads
            + Wait
            + Clock
            + Copy
            + Send
            + Sync
            + 'static,
        H: Hooks + Sync,
        L: BufRead + Send + Drop + 'static,
        A: Write + Send + Drop + 'static,
    >(self, rt: &R, alloc: Global, setting: Setting<'_, H>, (lines, answers): (L, A)) -> Served {
        let Stage {
            journal,
            kern,
            mark,
            flush_seat,
            seat,
        } = self;
        let Ok(device) = Arc::new(alloc, Counts::new()) else {
            return Served {
                ended: Err(ServeError::Memory),
                counts: kern.counts(rt),
            };
        };
        let tally = Tally::new(0, device);
        let parts = Parts {
            listeners: setting.listeners,
            log: setting.log,
            journal,
            kern: &kern,
            mark,
            flush_seat,
            seat,
            host: HOST,
            blocks: setting.blocks,
            tally: &tally,
            hooks: setting.hooks,
            limits: setting.limits,
        };
        let ended = serve_parts(rt, alloc, parts, lines, answers);
        Served {
            ended,
            counts: kern.counts(rt),
        }
    }
}

/// The parts of a server.
#[derive(Drop)]
struct Parts<'a, D: Disk, K, H> {
    listeners: &'a [TcpListener],
    log: &'a Log,
    journal: Journal<D>,
    kern: &'a K,
    mark: &'a Mark,
    flush_seat: TurnSeat,
    seat: Seat,
    host: &'a [u8],
    blocks: u64,
    tally: &'a Tally,
    hooks: &'a H,
    limits: Limits,
    ghost idle: { IsIdle journal },
    ghost flushes: { flush_seat.mark ≡ mark.now },
    ghost looks: { seat.mark ≡ mark.now },
}

/// Serves these parts.
fn serve_parts<
    R: Files<File = File>
        + Net<Listener = TcpListener, Stream = TcpStream>
        + Threads
        + Wait
        + Clock
        + Copy
        + Send
        + Sync
        + 'static,
    D: Disk + Drop + Send,
    K: Kern + Sync,
    H: Hooks + Sync,
    L: BufRead + Send + Drop + 'static,
    A: Write + Send + Drop + 'static,
>(
    rt: &R,
    alloc: Global,
    parts: Parts<'_, D, K, H>,
    lines: L,
    answers: A,
) -> Result<(), ServeError> {
    let Parts {
        listeners,
        log,
        journal,
        kern,
        mark,
        flush_seat,
        seat,
        host,
        blocks,
        tally,
        hooks,
        limits,
    } = parts;
    let facts = VolumeFacts {
        host,
        format: FORMAT_3,
        blocks,
        inodes: INODES,
    };
    let server = Server {
        listeners,
        proxied: &[],
        networks: &[],
        sessions: SESSIONS,
        // all callers of a test are of one address
        most_from: Some(SESSIONS),
        log,
        journal,
        kern,
        mark,
        flush_seat,
        seat,
        facts,
        marks: BitmapMarks::none(),
        tally,
        newest: beginning_of_1970(),
        hooks,
        limits,
        metrics: for_nobody(),
        file: unwatched(),
        control: unattended(),
        manager: unmanaged(),
        pace: unpaced(),
    };
    serve(rt, alloc, server, lines, answers)
}

/// No file that is watched.
fn unwatched<'a>() -> Option<&'a ServedFile> {
    None
}

/// No limit of articles.
fn unpaced<'a>() -> Option<&'a Pace> {
    None
}

/// No listener for consoles.
fn unattended<'a>() -> Option<&'a UnixListener> {
    None
}

/// No service manager.
fn unmanaged<'a>() -> Option<&'a Manager> {
    None
}

/// No file for a monitor.
fn for_nobody<'a>() -> Option<&'a MetricsFile> {
    None
}
