//! Serves a volume.
#![tactic(auto)]

ghost use Rattle.std.specs.Prelude.{◌≡◌};
ghost use Rattle.journal.specs.Journal.{IsIdle, IsReady};

mod progress;

use crate::progress::open_told;
use disk_causes::Cause;
use disk_file::{Counts, FileError};
use journal::Journal;
use kernel::{Kernel, Opened};
use kernel_locked::Locked;
use kernel_shared::NoHooks;
use model::Moment;
use program_files::{VolumeDisk, VolumeFile, new_counts};
use program_printing::CommandError;
use server::{Limits, Manager, MetricsFile, NoMetrics, Pace, ServeError, ServedFile, Server};
use server_control::{ControlSocket, NoControl, may_be_put};
use server_flusher::TurnSeat;
use server_logging::{Log, Verbosity, beginning_of_1970};
use server_mark::{Mark, Seat};
use server_notify::Notice;
use session_lookups::LookUps;
use std::alloc::{AllocError, Global};
use std::fs::File;
use std::io::{BufRead, ErrorKind, Write};
use std::net::{Net, SocketAddr, TcpListener, TcpStream};
use std::os::fd::AsRawFd;
use std::os::unix::net::UnixListener;
use std::rt::Files;
use std::sync::{Arc, Wait};
use std::thread::Threads;
use std::time::{Clock, Instant};
use text_networks::Network;
use volume_usage::{BitmapMarks, Tally, VolumeFacts};

/// So many callers can wait to be accepted at least.
const LEAST_WAITING: i32 = 128;

/// What is asked of a server.
#[derive(Clone, Copy)]
pub struct Offer<'a> {
    /// The file with the volume.
    pub path: &'a str,
    /// The endpoints to listen on. One at least is given, here or for proxies.
    pub endpoints: &'a [SocketAddr],
    /// The endpoints to listen on for proxies, which say for whom they connect.
    pub proxied: &'a [SocketAddr],
    /// The networks from which callers are let in, besides the loopback networks.
    pub networks: &'a [Network],
    /// The most sessions at a time.
    pub sessions: usize,
    /// The most sessions of callers of one address. Where it is not given, an address may have as many as are free.
    pub most_from: Option<usize>,
    /// The most articles that are read from one address in a minute, if that is given.
    pub posts_from: Option<u32>,
    /// The file that is written for a monitor, if there is one.
    pub metrics: Option<&'a str>,
    /// The socket at which the operator is answered, too, if there is one.
    pub control: Option<&'a str>,
    /// The name of the socket where the service manager listens, if there is one.
    pub manager: Option<&'a str>,
    pub verbosity: Verbosity,
}

/// The streams of a server: the operator's lines, their answers, and the log.
#[derive(Drop)]
pub struct Streams<L: Drop, A: Drop, F: Drop> {
    pub lines: L,
    pub answers: A,
    pub faults: F,
}

/// Opens a volume and serves it on some endpoints, and answers the operator's lines, until the operator stops the server
/// or its device fails. If it cannot listen on one of the endpoints, nothing is served. The log begins before the opening,
/// and its last line is written before this returns, if its reader takes it. The service manager is told once the endpoints are printed,
/// and when the server begins to end. What stands where the control socket is to be is looked at before the volume is opened.
pub fn serve<
    R: Files<File = File>
        + Net<Listener = TcpListener, Stream = TcpStream>
        + Threads
        + Wait
        + Clock
        + Copy
        + Send
        + Sync
        + 'static,
    L: BufRead + Send + Drop + 'static,
    A: Write + Send + Drop + 'static,
    F: Write + Send + Drop + 'static,
>(rt: &R, alloc: Global, offer: &Offer<'_>, streams: Streams<L, A, F>) -> Result<(), CommandError> {
    let Streams {
        lines,
        answers,
        faults,
    } = streams;
    let log = Log::start(rt, alloc, faults, offer.verbosity)?;
    let outcome = open_and_serve(rt, alloc, offer, &log, lines, answers);
    log.end(rt);
    outcome
}

/// Opens a volume, listens on all endpoints, prints them, and serves.
fn open_and_serve<
    'x,
    R: Files<File = File>
        + Net<Listener = TcpListener, Stream = TcpStream>
        + Threads
        + Wait
        + Clock
        + Copy
        + Send
        + Sync
        + 'static,
    L: BufRead + Send + Drop + 'static,
    A: Write + Send + Drop + 'static,
>(
    rt: &R,
    alloc: Global,
    offer: &'x Offer<'x>,
    log: &'x Log,
    lines: L,
    answers: A,
) -> Result<(), CommandError> {
    let volume = OwnVolume::new(alloc, offer)?;
    let files = OwnFiles::at(rt, alloc, offer)?;
    let opened = open_told(rt, alloc, volume.file(), log)?;
    files.begin_metrics(rt)?;
    let control = Control::at(rt, alloc, offer)?;
    let (listener, own) = (control.listener(), &files);
    let ground = Ground {
        offer: &*offer,
        log: &*log,
        files: own,
        control: listener,
    };
    let outcome = listen_and_run(rt, alloc, ground, opened, &volume.counts, lines, answers);
    control.take_away(rt);
    volume.file().outcome(outcome)
}

/// What is there before the server listens.
#[derive(Clone, Copy)]
struct Ground<'a> {
    offer: &'a Offer<'a>,
    log: &'a Log,
    files: &'a OwnFiles,
    control: Option<&'a UnixListener>,
}

/// Listens on all endpoints, prints them, tells the service manager so, and serves an opened volume.
fn listen_and_run<
    R: Files<File = File>
        + Net<Listener = TcpListener, Stream = TcpStream>
        + Threads
        + Wait
        + Clock
        + Copy
        + Send
        + Sync
        + 'static,
    L: BufRead + Send + Drop + 'static,
    A: Write + Send + Drop + 'static,
>(
    rt: &R,
    alloc: Global,
    ground: Ground<'_>,
    opened: Opened<VolumeDisk>,
    counts: &Arc<Counts, Global>,
    lines: L,
    mut answers: A,
) -> Result<(), CommandError>
    requires { IsReady opened.journal }
{
    let offer = ground.offer;
    let listening = Listening::at(rt, alloc, offer, &mut answers)?;
    let manager = offer.manager.and_then(manager_at);
    if let Some(manager) = &manager {
        let _ = manager.tell(Notice::Ready);
    }
    let pace = pace(rt, alloc, offer.posts_from)?;
    let entrance = Entrance {
        listeners: listening.direct.as_slice(),
        proxied: listening.proxied.as_slice(),
        networks: offer.networks,
        sessions: offer.sessions,
        most_from: offer.most_from,
        log: ground.log,
        files: ground.files,
        control: ground.control,
        manager: manager.as_ref(),
        pace: pace.as_ref(),
    };
    run(rt, alloc, entrance, opened, counts, lines, answers)
}

/// How many articles are read from one address in a minute, if that is limited. Where the clock can't be read it isn't.
fn pace<R: Clock>(
    rt: &R,
    alloc: Global,
    posts_from: Option<u32>,
) -> Result<Option<Pace>, AllocError> {
    match (posts_from, Instant::now(rt)) {
        (Some(most), Ok(now)) => Ok(Some(Pace::new(alloc, most, now)?)),
        _ => Ok(None),
    }
}

/// The service manager that listens at a socket of this name. A name that no socket can have is passed over.
fn manager_at(name: &str) -> Option<Manager> {
    Manager::at(name.as_bytes())
}

/// The control socket, if one is asked for.
#[derive(Drop)]
struct Control {
    socket: Option<ControlSocket>,
}

impl Control {
    /// Makes the socket. Refused where something else stands there, and where the system refuses it.
    fn at<R: Files + Net>(
        rt: &R,
        alloc: Global,
        offer: &Offer<'_>,
    ) -> Result<Control, CommandError> {
        let Some(path) = offer.control else {
            return Ok(Control { socket: None });
        };
        match ControlSocket::at(rt, alloc, path) {
            Ok(socket) => Ok(Control {
                socket: Some(socket),
            }),
            Err(refused) => Err(control_refusal(refused)),
        }
    }

    fn listener(&self) -> Option<&UnixListener> {
        match &self.socket {
            Some(socket) => Some(&socket.listener),
            None => None,
        }
    }

    /// Removes the socket, if there is one.
    fn take_away<R: Files>(&self, rt: &R) {
        if let Some(socket) = &self.socket {
            socket.take_away(rt);
        }
    }
}

/// Why there is no control socket, as the command says it.
fn control_refusal(refused: NoControl) -> CommandError {
    match refused {
        NoControl::Foreign => CommandError::ControlForeign,
        NoControl::Answered => CommandError::ControlAnswered,
        NoControl::Failed(error) if error.kind() == ErrorKind::OutOfMemory => CommandError::Memory,
        NoControl::Failed(error) => CommandError::NoControl(error),
    }
}

/// The volume that is served.
#[derive(Drop)]
struct OwnVolume {
    path: String,
    counts: Arc<Counts, Global>,
    sessions: usize,
}

impl OwnVolume {
    /// Refused only for want of memory.
    fn new(alloc: Global, offer: &Offer<'_>) -> Result<OwnVolume, AllocError> {
        Ok(OwnVolume {
            path: String::from_str(alloc, offer.path)?,
            counts: new_counts(alloc)?,
            sessions: offer.sessions,
        })
    }

    fn file(&self) -> VolumeFile<'_> {
        VolumeFile {
            path: self.path.as_str(),
            counts: &self.counts,
            sessions: self.sessions,
        }
    }
}

/// Where callers come in.
#[derive(Clone, Copy)]
struct Entrance<'a> {
    listeners: &'a [TcpListener],
    proxied: &'a [TcpListener],
    networks: &'a [Network],
    sessions: usize,
    most_from: Option<usize>,
    log: &'a Log,
    files: &'a OwnFiles,
    control: Option<&'a UnixListener>,
    manager: Option<&'a Manager>,
    pace: Option<&'a Pace>,
}

/// The files that a server looks at or writes beside the device of its volume.
#[derive(Drop)]
struct OwnFiles {
    /// The file of the volume.
    served: ServedFile,
    /// The file for a monitor, if one is asked for.
    metrics: Option<MetricsFile>,
}

impl OwnFiles {
    /// Looks at the file of the volume, before it is opened, and at what stands where the file for a monitor and the control socket are to
    /// be. Refused where there is no volume, and where one of those may be something else. Nothing is written.
    fn at<R: Files<File = File> + Net>(
        rt: &R,
        alloc: Global,
        offer: &Offer<'_>,
    ) -> Result<OwnFiles, CommandError> {
        let served = match ServedFile::at(rt, alloc, offer.path) {
            Ok(served) => served,
            Err(error) if error.kind() == ErrorKind::OutOfMemory => {
                return Err(CommandError::Memory);
            }
            Err(error) => return Err(CommandError::NoDevice(FileError::of(error.kind()))),
        };
        let metrics = match offer.metrics {
            Some(path) => Some(metrics_file(rt, alloc, path, offer.path)?),
            None => None,
        };
        if let Some(Err(refused)) = offer.control.map(|path| may_be_put(rt, path)) {
            return Err(control_refusal(refused));
        }
        Ok(OwnFiles { served, metrics })
    }

    /// Makes the file for a monitor empty, so that one that can't be written is refused before anybody is served.
    fn begin_metrics<R: Files<File = File>>(&self, rt: &R) -> Result<(), CommandError> {
        let Some(file) = &self.metrics else {
            return Ok(());
        };
        match file.put(rt, b"") {
            Ok(()) => Ok(()),
            Err(error) => Err(CommandError::NoMetrics(error)),
        }
    }
}

/// The file for a monitor. It is refused if it may be something else.
fn metrics_file<R: Files<File = File>>(
    rt: &R,
    alloc: Global,
    path: &str,
    volume: &str,
) -> Result<MetricsFile, CommandError> {
    let file = MetricsFile::at(alloc, path)?;
    match file.may_be_put(rt, volume) {
        Ok(()) => Ok(file),
        Err(NoMetrics::Volume) => Err(CommandError::MetricsOverVolume),
        Err(NoMetrics::Irregular) => Err(CommandError::MetricsIrregular),
        Err(NoMetrics::Foreign) => Err(CommandError::MetricsForeign),
    }
}

/// The listeners of a server.
#[derive(Drop)]
struct Listening {
    direct: Vec<TcpListener>,
    proxied: Vec<TcpListener>,
}

impl Listening {
    /// Listens on all endpoints of an offer, and prints them.
    fn at<R: Net<Listener = TcpListener, Stream = TcpStream>, A: Write>(
        rt: &R,
        alloc: Global,
        offer: &Offer<'_>,
        answers: &mut A,
    ) -> Result<Listening, CommandError> {
        let direct = listen(rt, alloc, offer.endpoints, offer.sessions)?;
        let proxied = listen(rt, alloc, offer.proxied, offer.sessions)?;
        announce(offer, answers)?;
        Ok(Listening { direct, proxied })
    }
}

/// Listens on all endpoints. As many callers as may have sessions can wait to be accepted, where the system allows it. The refusal
/// names the first endpoint on which that fails.
fn listen<R: Net<Listener = TcpListener, Stream = TcpStream>>(
    rt: &R,
    alloc: Global,
    endpoints: &[SocketAddr],
    sessions: usize,
) -> Result<Vec<TcpListener>, CommandError> {
    let mut listeners = Vec::with_capacity(alloc, endpoints.len())?;
    for endpoint in endpoints {
        let listener = match TcpListener::bind(rt, *endpoint) {
            Ok(listener) => listener,
            Err(error) => return Err(CommandError::NotBound(*endpoint, error)),
        };
        // `bind` has made room for 128
        let waiting = i32::try_from(sessions)
            .unwrap_or(i32::MAX)
            .max(LEAST_WAITING);
        let _ = libc::net::listen(listener.as_raw_fd(), waiting);
        if listeners.push(listener).is_err() {
            return Err(CommandError::Memory);
        }
    }
    Ok(listeners)
}

/// Prints a line for each endpoint, in order, those for proxies last.
fn announce<A: Write>(offer: &Offer<'_>, answers: &mut A) -> Result<(), CommandError> {
    for endpoint in offer.endpoints {
        writeln!(answers, "listening {endpoint}")?;
    }
    for endpoint in offer.proxied {
        writeln!(answers, "listening {endpoint}")?;
    }
    answers.flush()?;
    Ok(())
}

/// The parts of a server over a volume.
#[derive(Drop)]
struct Parts<'a> {
    entrance: Entrance<'a>,
    journal: Journal<VolumeDisk>,
    kern: &'a Locked,
    mark: &'a Mark,
    flush_seat: TurnSeat,
    seat: Seat,
    host: &'a [u8],
    blocks: u64,
    inodes: u64,
    marks: BitmapMarks,
    tally: &'a Tally,
    newest: Moment,
    ghost idle: { IsIdle journal },
    ghost flushes: { flush_seat.mark ≡ mark.now },
    ghost looks: { seat.mark ≡ mark.now },
}

/// Serves an opened volume.
fn run<
    R: Files<File = File>
        + Net<Listener = TcpListener, Stream = TcpStream>
        + Threads
        + Wait
        + Clock
        + Copy
        + Send
        + Sync
        + 'static,
    L: BufRead + Send + Drop + 'static,
    A: Write + Send + Drop + 'static,
>(
    rt: &R,
    alloc: Global,
    entrance: Entrance<'_>,
    opened: Opened<VolumeDisk>,
    counts: &Arc<Counts, Global>,
    lines: L,
    answers: A,
) -> Result<(), CommandError>
    requires { IsReady opened.journal }
{
    let Opened {
        mut journal,
        kernel,
    } = opened;
    let (mark, mut flush_seat, seat) = Mark::new(alloc)?;
    mark.raise(&mut flush_seat, kernel.durable());
    let host = host_of(alloc, &kernel)?;
    let (blocks, inodes) = (journal.blocks(), u64::from(kernel.spool().inodes()));
    let Ok(marks) = BitmapMarks::read(&mut journal) else {
        return Err(CommandError::Fault);
    };
    let tally = Tally::new(marks.all(), Arc::try_clone(counts)?);
    let newest = newest_moment(kernel.spool());
    let kern = Locked::new(kernel);
    let parts = Parts {
        entrance,
        journal,
        kern: &kern,
        mark: &mark,
        flush_seat: TurnSeat::new(flush_seat),
        seat,
        host: host.as_slice(),
        blocks,
        inodes,
        marks,
        tally: &tally,
        newest,
    };
    serve_parts(rt, alloc, parts, lines, answers)
}

/// Serves these parts.
fn serve_parts<
    R: Files<File = File>
        + Net<Listener = TcpListener, Stream = TcpStream>
        + Threads
        + Wait
        + Clock
        + Copy
        + Send
        + Sync
        + 'static,
    L: BufRead + Send + Drop + 'static,
    A: Write + Send + Drop + 'static,
>(rt: &R, alloc: Global, parts: Parts<'_>, lines: L, answers: A) -> Result<(), CommandError> {
    let Parts {
        entrance,
        journal,
        kern,
        mark,
        flush_seat,
        seat,
        host,
        blocks,
        inodes,
        marks,
        tally,
        newest,
    } = parts;
    let facts = VolumeFacts {
        host,
        format: journal.format_number(),
        blocks,
        inodes,
    };
    let server = Server {
        listeners: entrance.listeners,
        proxied: entrance.proxied,
        networks: entrance.networks,
        sessions: entrance.sessions,
        most_from: entrance.most_from,
        log: entrance.log,
        journal,
        kern,
        mark,
        flush_seat,
        seat,
        facts,
        marks,
        tally,
        newest,
        hooks: &NoHooks,
        limits: Limits::standard(),
        metrics: entrance.files.metrics.as_ref(),
        file: Some(&entrance.files.served),
        control: entrance.control,
        manager: entrance.manager,
        pace: entrance.pace,
    };
    match server::serve(rt, alloc, server, lines, answers) {
        Ok(()) => Ok(()),
        Err(ServeError::Fault) => Err(CommandError::Fault),
        Err(ServeError::Replaced) => Err(CommandError::Failed(Cause::Replaced)),
        Err(ServeError::Memory) => Err(CommandError::Memory),
        Err(ServeError::Halted) => Err(CommandError::Halted),
    }
}

/// A copy of the host of a kernel's spool.
fn host_of(alloc: Global, kernel: &Kernel) -> Result<Vec<u8>, AllocError> {
    Ok(Vec::from_slice(alloc, kernel.spool().host())?)
}

/// The moment of the newest article of a spool, or the beginning of 1970 where it has none.
fn newest_moment<L: LookUps>(spool: &L) -> Moment {
    let mut serial = spool.len();
    while 0 < serial {
        if let Some(seconds) = spool.moment(serial) {
            return Moment::at(seconds).unwrap_or(beginning_of_1970());
        }
        serial -= 1;
    }
    beginning_of_1970()
}
