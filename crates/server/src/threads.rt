//! All threads of the server, from their start to their end.

ghost use Rattle.std.specs.Prelude.{◌≡◌};
ghost use Rattle.journal.specs.Journal.{IsIdle};

use crate::staff::{Recruiter, Staff, Started, Wanted};
use crate::{ServeError, Server};
use crossbeam_channel::{Receiver, Sender, bounded, unbounded};
use disk::Disk;
use journal_volume::BatchBuf;
use kernel_shared::{Asking, Bells, Closing, Hooks, Kern, halt};
use server_accepting::{Acceptor, Caller, Doors, FAREWELLS, Parting, Way, linger_all};
use server_attending::{Attending, Verdicts, Watching, file_left};
use server_backup::{BackupPlan, FileWork};
use server_consoles::Operator;
use server_copying::{Copies, CopyJob};
use server_flusher::{FlushError, Flusher, FlusherEnd, flush_all};
use server_logging::{Cause, Log, LogEvent, Moments};
use server_mark::{Mark, Seat};
use server_metrics::LongestTime;
use server_monitoring::{Monitor, Watch};
use server_notify::{Manager, Notice};
use server_pace::Pace;
use server_releasing::{Shared, Writers, release_all};
use std::alloc::{AllocError, Global};
use std::fs::File;
use std::io::{BufRead, Write};
use std::net::{Net, TcpListener, TcpStream};
use std::os::unix::net::UnixListener;
use std::rt::Files;
use std::sync::atomic::Ordering;
use std::sync::{Mutex, Wait};
use std::thread::{self, JoinHandle, Scope, Threads};
use std::time::{Clock, Duration, Instant};
use text_networks::Guests;
use volume_usage::{Tally, VolumeFacts};

/// The most callers who are on the way to their sessions' threads. There is a thread for each, so none of them waits.
const CALLS: usize = 64;

/// After a refused turn of the flusher the server waits so many seconds for one more caller.
const LAST_CALL_SECS: u64 = 5;

/// Serves the callers of some listeners and the operator's lines, until the operator stops the server or a turn of the
/// flusher is refused. Then callers get the reply that the service ends, what is durable is released, all threads end,
/// and the result says why: `Ok` after a stop. After a refusal the server ends with the next caller that is let in, once
/// the operator asks for it, or after some seconds; a stop that the operator asked for before waits for no caller either.
/// `Replaced` if the path of the volume's file names another one or none, or the file has another length, which is looked for at the
/// start, every fifteen seconds, at each line `status` and at the end; nothing is acknowledged from then on.
pub fn serve<
    R: Files<File = File>
        + Net<Listener = TcpListener, Stream = TcpStream>
        + Threads
        + Wait
        + Clock
        + Copy
        + Send
        + Sync
        + 'static,
    D: Disk + Drop + Send,
    K: Kern + Sync,
    H: Hooks + Sync,
    L: BufRead + Send + Drop + 'static,
    A: Write + Send + Drop + 'static,
>(
    rt: &R,
    alloc: Global,
    server: Server<'_, D, K, H>,
    lines: L,
    answers: A,
) -> Result<(), ServeError> {
    let (bells, closing, asking) = (Bells::new(), Closing::new(), Asking::new());
    let Server {
        listeners,
        proxied,
        networks,
        sessions,
        most_from,
        log,
        journal,
        kern,
        mark,
        flush_seat,
        seat,
        facts,
        marks,
        tally,
        newest,
        hooks,
        limits,
        metrics,
        file,
        control,
        manager,
        pace,
    } = server;
    let guests = Guests::new(alloc, sessions, most_from)?;
    let doors = Doors::new(alloc, listeners, proxied, networks, guests).ok_or(ServeError::Memory)?;
    let Parts {
        batch,
        writers,
        channels,
        caller,
    } = Parts::make(rt, alloc, sessions, lines, answers)?;
    let plan = BackupPlan::of(alloc, &journal)?;
    attend(rt, alloc, control, &channels, plan)?;
    let moments = Moments::new(newest);
    let longest = LongestTime::new();
    let shared = Shared {
        rt,
        alloc,
        kern,
        hooks,
        bells: &bells,
        writers: &writers,
        closing: &closing,
        asking: &asking,
        limits,
        longest: &longest,
    };
    let flusher = Flusher {
        journal,
        mark,
        seat: flush_seat,
        batch,
        marks,
        tally,
    };
    let looker = Looker {
        mark,
        seat,
        tally,
        facts,
    };
    let verdicts = Verdicts {
        log,
        host: facts.host,
    };
    let monitor = match metrics {
        Some(file) => Some(Monitor {
            file,
            log,
            tally,
            facts,
        }),
        None => None,
    };
    let watch = Watch::new(file, monitor, log, &channels.works);
    let started = Mutex::new(Started::none());
    let recruiting = Mutex::new(());
    let hall = Hall {
        shared: &shared,
        started: &started,
        asking: &recruiting,
        channels: &channels,
        moments: &moments,
        doors: &doors,
        verdicts,
        log,
        watch: &watch,
        manager,
        pace,
    };
    let outcome = run_and_watch(&hall, flusher, looker, caller);
    if watch.is_replaced.load(Ordering::SeqCst) {
        return Err(ServeError::Replaced);
    }
    outcome
}

/// The parts that take memory before the threads start.
#[derive(Drop)]
struct Parts {
    batch: BatchBuf,
    writers: Writers,
    channels: Channels,
    caller: Sender<Caller>,
}

/// The channels between the threads.
#[derive(Drop)]
pub(crate) struct Channels {
    pub(crate) calls: Receiver<Caller>,
    pub(crate) parting: Sender<Parting>,
    partings: Receiver<Parting>,
    operator: Operator,
    /// Where copies of the volume's blocks are asked for, and where they are made.
    copy: Sender<CopyJob>,
    copies: Copies,
    /// What the watcher is asked to do about the files of backups.
    file_work: Sender<FileWork>,
    works: Receiver<FileWork>,
    /// How many sessions are to have threads, and whether they have.
    pub(crate) wanted: Sender<Wanted>,
    pub(crate) asked: Receiver<Wanted>,
    pub(crate) staffed: Sender<bool>,
    pub(crate) told: Receiver<bool>,
}

impl Channels {
    /// Refused only for want of memory.
    fn new(
        alloc: Global,
        calls: Receiver<Caller>,
        operator: Operator,
    ) -> Result<Channels, AllocError> {
        let (parting, partings) = bounded(alloc, FAREWELLS)?;
        let (copy, to_copy) = unbounded(alloc)?;
        let (file_work, works) = unbounded(alloc)?;
        let (wanted, asked) = bounded(alloc, 1)?;
        let (staffed, told) = bounded(alloc, 1)?;
        Ok(Channels {
            calls,
            parting,
            partings,
            operator,
            copy,
            copies: Copies::new(to_copy),
            file_work,
            works,
            wanted,
            asked,
            staffed,
            told,
        })
    }
}

/// What the threads of a server share.
pub(crate) struct Hall<'a, R, K, H> {
    pub(crate) shared: &'a Shared<'a, R, K, H>,
    /// The threads of sessions that were started.
    pub(crate) started: &'a Mutex<Started>,
    /// Held by the acceptor that asks for threads.
    pub(crate) asking: &'a Mutex<()>,
    pub(crate) channels: &'a Channels,
    pub(crate) moments: &'a Moments,
    pub(crate) doors: &'a Doors<'a>,
    pub(crate) verdicts: Verdicts<'a>,
    pub(crate) log: &'a Log,
    pub(crate) watch: &'a Watch<'a>,
    pub(crate) manager: Option<&'a Manager>,
    pub(crate) pace: Option<&'a Pace>,
}

impl<'a, R, K, H> Drop for Hall<'a, R, K, H> {
    fn drop(self) {
        let Hall {
            shared: _,
            started: _,
            asking: _,
            channels: _,
            moments: _,
            doors: _,
            verdicts: _,
            log: _,
            watch: _,
            manager: _,
            pace: _,
        } = self;
    }
}

/// What the operator's thread looks at.
#[derive(Drop)]
struct Looker<'a> {
    mark: &'a Mark,
    seat: Seat,
    tally: &'a Tally,
    facts: VolumeFacts<'a>,
    ghost looks: { seat.mark ≡ mark.now },
}

impl Parts {
    /// Makes the parts, and starts the threads that read the operator's lines and write the answers.
    fn make<
        R: Threads + Wait + Copy + Send + 'static,
        L: BufRead + Send + Drop + 'static,
        A: Write + Send + Drop + 'static,
    >(rt: &R, alloc: Global, sessions: usize, lines: L, answers: A) -> Result<Parts, ServeError> {
        let batch = BatchBuf::new(alloc)?;
        let writers = Writers::new(alloc, sessions)?;
        let (caller, calls) = bounded(alloc, CALLS)?;
        let operator = Operator::start(rt, alloc, lines, answers)?;
        let channels = Channels::new(alloc, calls, operator)?;
        Ok(Parts {
            batch,
            writers,
            channels,
            caller,
        })
    }
}

/// Starts the threads of a control socket, if there is one. `Memory` if one can't be started.
fn attend<R: Threads + Wait + Clock + Copy + Send + 'static>(
    rt: &R,
    alloc: Global,
    control: Option<&UnixListener>,
    channels: &Channels,
    plan: BackupPlan,
) -> Result<(), ServeError> {
    let Some(listener) = control else {
        return Ok(());
    };
    let console = channels.operator.console()?;
    let files = channels.file_work.clone()?;
    match server_control::start(rt, alloc, listener, console, plan, files) {
        Ok(()) => Ok(()),
        Err(_) => Err(ServeError::Memory),
    }
}

/// Runs all threads except the two that wait for the operator. If there is something to watch, the calling thread does that
/// meanwhile: of all threads it alone may look at files and make them.
fn run_and_watch<
    'a,
    R: Files<File = File>
        + Net<Listener = TcpListener, Stream = TcpStream>
        + Threads
        + Wait
        + Clock
        + Sync,
    D: Disk + Drop + Send,
    K: Kern + Sync,
    H: Hooks + Sync,
>(
    hall: &'a Hall<'a, R, K, H>,
    flusher: Flusher<'a, D>,
    looker: Looker<'a>,
    caller: Sender<Caller>,
) -> Result<(), ServeError> {
    let watch = hall.watch;
    if watch.file.is_none() && watch.monitor.is_none() {
        return run(hall, flusher, looker, caller);
    }
    let rt = hall.shared.rt;
    let (outcome, ()) = thread::join(
        rt,
        move || {
            let outcome = run(hall, flusher, looker, caller);
            watch.end(hall.shared);
            outcome
        },
        || watch.look_all(hall.shared),
    );
    outcome
}

/// Runs all threads except the two that wait for the operator. The calling thread flushes.
fn run<
    'a,
    R: Net<Listener = TcpListener, Stream = TcpStream> + Threads + Wait + Clock + Sync,
    D: Disk + Drop,
    K: Kern + Sync,
    H: Hooks + Sync,
>(
    hall: &'a Hall<'a, R, K, H>,
    flusher: Flusher<'a, D>,
    looker: Looker<'a>,
    caller: Sender<Caller>,
) -> Result<(), ServeError> {
    let Shared { rt, .. } = hall.shared;
    thread::scope(
        thread::scope_env(),
        *rt,
        move |scope| -> Result<(), ServeError> {
            let facts = looker.facts;
            // so a server that can't start a thread ends at once
            let has_sessions = Staff { scope, hall }.start_up_to(1);
            let has_others = start_others(scope, hall, looker);
            let mut acceptors = Vec::new(hall.shared.alloc);
            let has_acceptors = has_sessions
                && has_others
                && start_accepting(scope, hall, &caller, Way::Direct, &mut acceptors)
                && start_accepting(scope, hall, &caller, Way::Proxied, &mut acceptors);
            drop(caller);
            let outcome = if has_acceptors {
                flush(hall, flusher, facts)
            } else {
                give_up(hall.shared, flusher);
                Err(ServeError::Memory)
            };
            if let Some(manager) = hall.manager {
                let _ = manager.tell(Notice::Stopping);
            }
            wake(hall.shared);
            if matches!(outcome, Err(ServeError::Fault | ServeError::Halted)) {
                wait_for_caller_or_stop(hall);
            }
            hall.doors.shut();
            for acceptor in acceptors {
                acceptor.join(*rt);
            }
            end(hall);
            outcome
        },
    )
}

/// Starts the releaser, the thread that lingers, the operator's, and the one that starts the threads of sessions. Answers
/// false if the system cannot start all.
fn start_others<'s, E, R: Wait + Clock + Sync, K: Kern + Sync, H: Hooks + Sync>(
    scope: &'s Scope<'s, E>,
    hall: &'s Hall<'s, R, K, H>,
    looker: Looker<'s>,
) -> bool {
    let staff = Staff { scope, hall };
    let releaser = scope.spawn(move || release_all(hall.shared));
    let lingerer = scope.spawn(move || linger(hall));
    let operator = scope.spawn(move || answer_lines(hall, looker));
    let starter = scope.spawn(move || staff.start_as_asked());
    releaser.is_ok() && lingerer.is_ok() && operator.is_ok() && starter.is_ok()
}

/// Starts an acceptor for each listener to which callers come in this way. Answers false if the system cannot start all.
fn start_accepting<
    's,
    E,
    R: Net<Listener = TcpListener, Stream = TcpStream> + Wait + Clock + Sync,
    K: Kern + Sync,
    H: Hooks + Sync,
>(
    scope: &'s Scope<'s, E>,
    hall: &'s Hall<'s, R, K, H>,
    caller: &Sender<Caller>,
    way: Way,
    acceptors: &mut Vec<JoinHandle<()>>,
) -> bool {
    for listener in hall.doors.listeners(way) {
        let Ok(calls) = caller.clone() else {
            return false;
        };
        let acceptor = Acceptor {
            shared: hall.shared,
            doors: hall.doors,
            log: hall.log,
            way,
            calls,
            crew: Recruiter { hall },
        };
        let Ok(thread) = scope.spawn(move || acceptor.accept_all(listener)) else {
            return false;
        };
        if acceptors.push(thread).is_err() {
            return false;
        }
    }
    true
}

/// Reads from the callers whose sessions are closed.
fn linger<R: Wait + Clock, K, H>(hall: &Hall<'_, R, K, H>) {
    let Shared { rt, limits, .. } = hall.shared;
    linger_all(*rt, limits.linger, &hall.channels.partings)
}

/// Makes the changes that the operator's lines ask for, and has them answered.
fn answer_lines<R: Wait + Clock, K: Kern, H>(hall: &Hall<'_, R, K, H>, looker: Looker<'_>) {
    let Shared {
        rt,
        alloc,
        kern,
        bells,
        writers,
        asking,
        ..
    } = hall.shared;
    let Looker {
        mark,
        seat,
        tally,
        facts,
    } = looker;
    let service = server_operator::OperatorService {
        rt: *rt,
        alloc: *alloc,
        kern: *kern,
        mark,
        bells: *bells,
        tally,
        facts,
        writers: *writers,
        asking: *asking,
        copies: &hall.channels.copy,
    };
    hall.channels.operator.answer_all(&service, seat)
}

/// Flushes until a turn is refused or a stop is done. The log reports a refusal.
fn flush<R: Wait + Clock, D: Disk + Drop, K: Kern, H: Hooks>(
    hall: &Hall<'_, R, K, H>,
    flusher: Flusher<'_, D>,
    facts: VolumeFacts<'_>,
) -> Result<(), ServeError> {
    let Shared {
        rt,
        kern,
        bells,
        ..
    } = hall.shared;
    let watching = Watching::new(hall.shared, hall.log, flusher.tally, facts);
    watching.look();
    let copies = &hall.channels.copies;
    let attending = Attending::new(hall.shared, &watching, hall.verdicts, flusher.tally, copies);
    let tally = flusher.tally;
    let end = flush_all(*rt, flusher, *kern, &attending, *bells);
    copies.end(*rt);
    // a batch may be durable, and fail before it was looked at
    hall.log.note_durable(*rt, kern.counts(*rt).durable);
    match end {
        FlusherEnd::Stopped => Ok(()),
        FlusherEnd::Failed(error) => {
            hall.watch.tell(*rt, event_of(error, tally));
            Err(ServeError::from(error))
        }
    }
}

/// What the log reports of a refused turn.
fn event_of(error: FlushError, tally: &Tally) -> LogEvent {
    match error {
        FlushError::Fault => LogEvent::Fault(tally.cause().unwrap_or(Cause::Other)),
        FlushError::Halted => LogEvent::Halted,
    }
}

/// Gives up because there are no threads for callers: nothing more is flushed.
fn give_up<R: Wait, D: Disk + Drop, K: Kern, H>(
    shared: &Shared<'_, R, K, H>,
    flusher: Flusher<'_, D>,
) {
    let Flusher { mark, seat, .. } = flusher;
    let mut seat = seat;
    seat.stop(mark, halt(shared.rt, shared.kern));
}

/// Wakes the threads that wait for the flusher. The acceptors and the operator's thread go on: they refuse what comes.
fn wake<R: Wait, K, H>(shared: &Shared<'_, R, K, H>) {
    let Shared {
        rt,
        bells,
        writers,
        ..
    } = shared;
    bells.operator.unpark();
    bells.releaser.unpark();
    bells.later.ring();
    writers.open_places(*rt);
}

/// Waits until a caller was told that the service ends, or the operator has asked for the server's end, for
/// `LAST_CALL_SECS` at most. Meanwhile it files what sessions leave: the kernel is halted, so their callers are told too.
/// Where the clock cannot be read, it waits for nobody.
fn wait_for_caller_or_stop<R: Wait + Clock, K: Kern, H: Hooks>(hall: &Hall<'_, R, K, H>) {
    let Shared { rt, bells, .. } = hall.shared;
    let Ok(since) = Instant::now(*rt) else {
        return;
    };
    for _ in rt.forever() {
        file_left(hall.shared, hall.verdicts);
        if hall.doors.are_shut() || bells.is_stopping() {
            return;
        }
        let Ok(waited) = since.elapsed(*rt) else {
            return;
        };
        let left = Duration::from_secs(LAST_CALL_SECS).saturating_sub(waited);
        if left.is_zero() {
            return;
        }
        bells.flusher.park_timeout(*rt, left);
    }
}

/// Disconnects the callers and ends all threads, after the last caller was accepted.
fn end<R: Wait, K, H>(hall: &Hall<'_, R, K, H>) {
    let Shared { rt, .. } = hall.shared;
    hall.channels.operator.end(*rt);
    hall.shared.close();
    let _ = hall.channels.wanted.send(*rt, Wanted::Nobody);
    let _ = hall.channels.parting.send(*rt, Parting::End);
}
