//! An operator, and a flusher that reports changes as durable, or that it has stopped.

ghost use Rattle.std.specs.Prelude.{◌≡◌};

use crate::kernels::Counting;
use crate::streams::{Answers, Lines};
use crossbeam_channel::unbounded;
use disk_file::Counts;
use kernel_shared::{Asking, Bells, Kern};
use server_consoles::Operator;
use server_mark::{FlushSeat, Mark, Seat};
use server_operator::OperatorService;
use server_releasing::Writers;
use std::alloc::Global;
use std::sync::atomic::{AtomicU64, Ordering};
use std::sync::{Arc, Mutex, Wait};
use std::thread::{self, Threads, join};
use std::time::{Clock, Duration};
use volume_usage::{Tally, VolumeFacts};

/// A play waits for this many milliseconds, and then fails.
const WAIT_MILLIS: u64 = 20_000;

/// A thread that reads ahead gets this many milliseconds to do so.
const PAUSE_MILLIS: u64 = 100;

/// What the operator is told of the volume: its host, its format, its logical blocks, its inodes, the marks of
/// its used blocks, and the syncs of its device.
const HOST: &[u8] = b"news.example";

const FORMAT: u32 = 1;

const BLOCKS: u64 = 16_384;

const INODES: u64 = 8_192;

const USED_BLOCKS: u64 = 1_200;

const SYNCS: u64 = 63;

/// What an operator sends, and how the play ends.
#[derive(Drop)]
pub(crate) struct Play {
    pub(crate) lines: Vec<u8>,
    /// The lines are repeated without end.
    pub(crate) is_endless: bool,
    /// The operator reads the answers.
    pub(crate) is_read: bool,
    /// The flusher reports this many changes as durable, and no more.
    pub(crate) durable: u64,
    /// The number of changes that sessions made.
    pub(crate) posts: u64,
    pub(crate) stop: Stop,
}

/// When the flusher stops.
#[derive(Clone, Copy, Drop)]
pub(crate) enum Stop {
    /// Once this many groups and expiries were asked for. The operator has not asked for that.
    Groups(u64),
    /// Once the operator has asked for that. It says so.
    Asked,
    /// Once the operator has asked for that, but then the device fails.
    Fails,
}

/// The outcome of a play.
#[derive(Drop)]
pub(crate) struct Outcome {
    /// The groups were asked for, and all lines were read, in time.
    pub(crate) is_in_time: bool,
    /// The number of groups asked for, and of octets read, when the flusher stopped.
    pub(crate) groups: u64,
    pub(crate) octets: u64,
    /// What the operator has read at the end.
    pub(crate) text: Vec<u8>,
}

/// Looks at a count every millisecond until it is reached. Answers false if the time ends first.
fn reaches<R: Clock>(rt: &R, count: &AtomicU64, least: u64) -> bool {
    for _ in 0..WAIT_MILLIS {
        if count.load(Ordering::SeqCst) >= least {
            return true;
        }
        thread::sleep(rt, Duration::from_millis(1));
    }
    false
}

/// Looks every millisecond until the operator has asked for the end. Answers false if the time ends first.
fn is_asked<R: Clock>(rt: &R, bells: &Bells) -> bool {
    for _ in 0..WAIT_MILLIS {
        if bells.is_stopping() {
            return true;
        }
        thread::sleep(rt, Duration::from_millis(1));
    }
    false
}

/// What the flusher and the operator share.
#[derive(Drop)]
struct Stage {
    kern: Counting,
    mark: Mark,
    bells: Bells,
    tally: Tally,
    asking: Asking,
    operator: Operator,
    /// The number of octets of the lines that were read.
    read: Arc<AtomicU64>,
}

/// What the operator's lines are carried out with.
#[derive(Drop)]
struct Means<'a, R> {
    rt: &'a R,
    kern: &'a Counting,
    mark: &'a Mark,
    bells: &'a Bells,
    tally: &'a Tally,
    asking: &'a Asking,
    host: &'a [u8],
}

/// Answers the operator's lines.
fn answer_all<R: Wait + Clock>(operator: &Operator, alloc: Global, means: Means<'_, R>, seat: Seat)
    requires { seat.mark ≡ means.mark.now }
{
    let Means {
        rt,
        kern,
        mark,
        bells,
        tally,
        asking,
        host,
    } = means;
    let facts = VolumeFacts {
        host,
        format: FORMAT,
        blocks: BLOCKS,
        inodes: INODES,
    };
    let Ok(writers) = Writers::new(alloc, 0) else {
        return;
    };
    // nobody takes copies here
    let Ok((copies, _asked)) = unbounded(alloc) else {
        return;
    };
    let service = OperatorService {
        rt,
        alloc,
        kern,
        mark,
        bells,
        tally,
        facts,
        writers: &writers,
        asking,
        copies: &copies,
    };
    operator.answer_all(&service, seat)
}

impl Stage {
    /// Answers the operator's lines, as a thread of the server does.
    fn answer_lines<R: Wait + Clock>(&self, rt: &R, alloc: Global, seat: Seat)
        requires { seat.mark ≡ self.now.mark }
    {
        let means = Means {
            rt,
            kern: &self.kern,
            mark: &self.mark,
            bells: &self.bells,
            tally: &self.tally,
            asking: &self.asking,
            host: HOST,
        };
        answer_all(&self.operator, alloc, means, seat)
    }

    /// Whether the time to stop comes, and this many octets are read.
    fn is_due<R: Clock>(&self, rt: &R, stop: Stop, octets: u64) -> bool {
        let is_due = match stop {
            Stop::Groups(groups) => reaches(rt, &self.kern.groups, groups),
            Stop::Asked | Stop::Fails => is_asked(rt, &self.bells),
        };
        is_due && reaches(rt, &self.read, octets)
    }

    /// Stops, as the flusher does, when it is due and this many octets were read. Answers whether that was in time, and
    /// what was asked for and read a while later.
    fn stop<R: Wait + Clock>(
        &self,
        rt: &R,
        flush_seat: FlushSeat,
        stop: Stop,
        octets: u64,
    ) -> (bool, u64, u64)
        requires { flush_seat.mark ≡ self.now.mark }
    {
        let mut flush_seat = flush_seat;
        let is_in_time = self.is_due(rt, stop, octets);
        thread::sleep(rt, Duration::from_millis(PAUSE_MILLIS));
        let asked = self.kern.groups.load(Ordering::SeqCst);
        let read = self.read.load(Ordering::SeqCst);
        self.kern.halt(rt);
        if matches!(stop, Stop::Asked) {
            self.bells.note_stop();
        }
        self.mark.stop(&mut flush_seat);
        self.bells.operator.unpark();
        self.bells.later.ring();
        self.operator.end(rt);
        (is_in_time, asked, read)
    }
}

/// The operator of a play, the count of octets read from its lines, and where its answers are written.
#[derive(Drop)]
struct Begun {
    operator: Operator,
    read: Arc<AtomicU64>,
    text: Arc<Mutex<Vec<u8>>>,
}

/// Starts the operator's threads.
fn begin<R: Threads + Wait + Copy + Send + 'static>(
    rt: &R,
    alloc: Global,
    lines: Vec<u8>,
    is_endless: bool,
    is_read: bool,
) -> Option<Begun> {
    let read = Arc::new(alloc, AtomicU64::new(0)).ok()?;
    let text = Arc::new(alloc, Mutex::new(Vec::new(alloc))).ok()?;
    let lines = Lines {
        octets: lines,
        is_endless,
        read: Arc::try_clone(&read).ok()?,
    };
    let answers = Answers {
        rt: *rt,
        text: Arc::try_clone(&text).ok()?,
        is_read,
    };
    match Operator::start(rt, alloc, lines, answers) {
        Ok(operator) => Some(Begun {
            operator,
            read,
            text,
        }),
        Err(_) => None,
    }
}

/// Runs a play to its end.
pub(crate) fn run<R: Threads + Wait + Clock + Copy + Send + Sync + 'static>(
    rt: &R,
    alloc: Global,
    play: Play,
) -> Option<Outcome> {
    let Play {
        lines,
        is_endless,
        is_read,
        durable,
        posts,
        stop,
    } = play;
    let Ok((mark, flush_seat, seat)) = Mark::new(alloc) else {
        return None;
    };
    let mut flush_seat = flush_seat;
    mark.raise(&mut flush_seat, durable);
    let octets = if is_endless {
        0
    } else {
        (lines.len() as u64).saturating_add(1)
    };
    let Begun {
        operator,
        read,
        text,
    } = begin(rt, alloc, lines, is_endless, is_read)?;
    let mut device = Counts::new();
    device.syncs = AtomicU64::new(SYNCS);
    let stage = Stage {
        kern: Counting::new(posts),
        mark,
        bells: Bells::new(),
        tally: Tally::new(USED_BLOCKS, Arc::new(alloc, device).ok()?),
        asking: Asking::new(),
        operator,
        read,
    };
    let ((), (is_in_time, groups, octets)) = join(
        rt,
        || stage.answer_lines(rt, alloc, seat),
        || stage.stop(rt, flush_seat, stop, octets),
    );
    let text = Vec::from_slice(alloc, text.lock(rt).as_slice()).ok()?;
    Some(Outcome {
        is_in_time,
        groups,
        octets,
        text,
    })
}
