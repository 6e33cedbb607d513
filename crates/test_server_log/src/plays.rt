//! A server with two listeners and its callers, in one process.

use crate::scenes::{Scene, Visit};
use disk::DiskCall;
use kernel_shared::{ExecError, NoHooks};
use model::Message;
use server::{Limits, ServeError};
use server_logging::{Log, Verbosity};
use server_mark::Mark;
use std::alloc::{AllocError, Global};
use std::fs::File;
use std::net::{Net, TcpListener, TcpStream};
use std::rt::Files;
use std::sync::atomic::{AtomicBool, Ordering};
use std::sync::{Arc, Wait};
use std::thread::{Threads, join};
use std::time::{Clock, Duration};
use test_support_server::{Hooked, Hooks, Lines, Operator, Setting, Stage, listen, open_new};

/// The number of blocks that the server takes the volume to have: so few that the volume is nearly full at once.
const FEW_BLOCKS: u64 = 1;

/// The limits in a play that is about them, in milliseconds.
const SHORT_MILLIS: u64 = 500;

/// The hooks of a kernel that finds no memory for the line `DATE`.
#[derive(Drop)]
struct Forgetful;

impl Hooks for Forgetful {
    fn refusal_of(&self, message: &Message) -> Option<ExecError> {
        match message {
            Message::Line(line) if line.as_slice() == b"DATE".as_slice() => Some(ExecError::Memory),
            _ => None,
        }
    }
}

/// What a play came to.
#[derive(Clone, Copy, Debug, PartialEq, Eq)]
pub(crate) struct Outcome {
    /// The callers read, and the log reported, what they had to.
    pub(crate) is_good: bool,
    /// How the server ended.
    pub(crate) ended: Result<(), ServeError>,
    /// How often the log reported that the volume is nearly full.
    pub(crate) full: usize,
    /// How many sessions ended because the server did.
    pub(crate) stopped: usize,
}

/// The limits of a play. They are short if the play is about a caller that waits too long.
fn limits(scene: Scene) -> Limits {
    let short = Duration::from_millis(SHORT_MILLIS);
    let standard = Limits::standard();
    match scene {
        Scene::Nothing => Limits {
            first: short,
            ..standard
        },
        Scene::Silence => Limits {
            silence: short,
            ..standard
        },
        Scene::Slow => Limits {
            message: short,
            ..standard
        },
        Scene::Stall => Limits {
            stall: short,
            ..standard
        },
        _ => standard,
    }
}

/// What a play shares with its server.
#[derive(Drop)]
struct Props {
    answers: Lines,
    logged: Lines,
    have_left: Arc<AtomicBool, Global>,
}

impl Props {
    fn new(alloc: Global) -> Result<Props, AllocError> {
        Ok(Props {
            answers: Lines::new(alloc)?,
            logged: Lines::new(alloc)?,
            have_left: Arc::new(alloc, AtomicBool::new(false))?,
        })
    }
}

/// Serves until the operator stops the server, or its device fails.
fn run<
    R: Files<File = File>
        + Net<Listener = TcpListener, Stream = TcpStream>
        + Threads
        + Wait
        + Clock
        + Copy
        + Drop
        + Send
        + Sync
        + 'static,
>(
    rt: &R,
    alloc: Global,
    listeners: &[TcpListener],
    props: &Props,
    scene: Scene,
) -> Option<Result<(), ServeError>> {
    let operator = Operator {
        rt: *rt,
        is_due: Arc::try_clone(&props.have_left).ok()?,
        first: b"group x.a y 1000000000 test\n",
        last: b"stop\n",
    };
    let answers = props.answers.writer(rt).ok()?;
    let (journal, kernel) = open_new(alloc)?;
    let Ok((mark, flush_seat, seat)) = Mark::new(alloc) else {
        return None;
    };
    let kern = Hooked::new(kernel, Forgetful);
    let mut stage = Stage::new(journal, kern, &mark, flush_seat, seat);
    if scene == Scene::Fault {
        stage.fail(DiskCall::Sync, 1);
    }
    let log = Log::start(rt, alloc, props.logged.writer(rt).ok()?, Verbosity::All).ok()?;
    let setting = Setting {
        listeners,
        log: &log,
        hooks: &NoHooks,
        blocks: FEW_BLOCKS,
        limits: limits(scene),
    };
    let served = stage.serve(rt, alloc, setting, (operator, answers));
    log.end(rt);
    Some(served.ended)
}

/// Runs a server and its callers to their end.
pub(crate) fn play<
    R: Files<File = File>
        + Net<Listener = TcpListener, Stream = TcpStream>
        + Threads
        + Wait
        + Clock
        + Copy
        + Drop
        + Send
        + Sync
        + 'static,
>(rt: &R, alloc: Global, scene: Scene) -> Option<Outcome> {
    let listeners = [listen(rt)?, listen(rt)?];
    let addresses = [
        listeners[0].local_addr().ok()?,
        listeners[1].local_addr().ok()?,
    ];
    let props = Props::new(alloc).ok()?;
    let visit = Visit {
        rt,
        alloc,
        addresses,
        answers: &props.answers,
        logged: &props.logged,
    };
    // the calling thread alone may make files, as a server does
    let (is_good, ended) = join(
        rt,
        || leave_after(&visit, &props, scene),
        || run(rt, alloc, &listeners, &props, scene),
    );
    Some(Outcome {
        is_good,
        ended: ended?,
        full: props.logged.count(rt, "event=full"),
        stopped: props.logged.count(rt, "why=stopped"),
    })
}

/// Has the callers of a scene come. Then the operator stops the server.
fn leave_after<R: Net<Listener = TcpListener, Stream = TcpStream> + Wait + Clock>(
    visit: &Visit<'_, R>,
    props: &Props,
    scene: Scene,
) -> bool {
    let is_good = visit.is_as_it_must(scene);
    props.have_left.store(true, Ordering::SeqCst);
    is_good
}
