//! What the log reports.

ghost use Rattle.std.specs.Prelude.{◌≡◌, ◌≤◌, ◌*◌, ◌↔◌, IsTrue, Some};
ghost use Rattle.server_log_lines.specs.Counting.{counted, no_counts, step_after};
ghost use Rattle.server_log_lines.specs.Events.{comes_once};
ghost use Rattle.server_log_lines.specs.Line.{begun_text, counts_text, ended_text, ending_text, event_text, part_text, refusal_text, refused_text, step_text};

use crate::posts::{RefusedPost, TakenPost};
use disk_causes::{Cause, CauseName};
use std::fmt::{self, Display};
use std::net::SocketAddr;

/// Why a session ended.
#[derive(Clone, Copy, Debug, PartialEq, Eq)]
pub enum Ending {
    /// The caller sent `QUIT`, or its last message was answered by a reply that ends the session.
    Quit,
    /// The caller closed its socket, or sends nothing more.
    Closed,
    /// The caller sent nothing for too long, or a message too slowly.
    Silent,
    /// The caller took none of its replies for too long.
    Stalled,
    /// The caller took too few octets of its replies, while its session had a place for a large reply, or asked for one.
    Slow,
    /// The socket failed.
    Failed,
    /// The caller speaks HTTP.
    Http,
    /// Memory was refused.
    Memory,
    /// The operator ended it.
    Dropped,
    /// The server ends.
    Stopped,
}

impl Display for Ending {
    ghost output = { λ ending. Some (ending_text ending) };

    fn fmt<W: fmt::Write>(&self, f: &mut fmt::Formatter<W>) -> fmt::Result {
        f.write_str(match self {
            Ending::Quit => "quit",
            Ending::Closed => "closed",
            Ending::Silent => "silent",
            Ending::Stalled => "stalled",
            Ending::Slow => "slow",
            Ending::Failed => "failed",
            Ending::Http => "http",
            Ending::Memory => "memory",
            Ending::Dropped => "dropped",
            Ending::Stopped => "stopped",
        })
    }
}

/// Why a caller got no session.
#[derive(Clone, Copy, PartialEq, Eq)]
pub enum SessionRefusal {
    /// Its address is not one from which callers are let in.
    Access,
    /// There are as many sessions as the server can have.
    Sessions,
    /// Its address has as many sessions as one may have.
    Address,
    /// The system has no descriptor left for a further caller.
    Descriptors,
    /// Memory was refused.
    Memory,
    /// Its socket failed.
    Failed,
    /// It came by a proxy, and its first line doesn't say for whom.
    Proxy,
    /// The server ends.
    Halted,
}

impl Display for SessionRefusal {
    ghost output = { λ refusal. Some (refusal_text refusal) };

    fn fmt<W: fmt::Write>(&self, f: &mut fmt::Formatter<W>) -> fmt::Result {
        f.write_str(match self {
            SessionRefusal::Access => "access",
            SessionRefusal::Sessions => "sessions",
            SessionRefusal::Address => "address",
            SessionRefusal::Descriptors => "descriptors",
            SessionRefusal::Memory => "memory",
            SessionRefusal::Failed => "failed",
            SessionRefusal::Proxy => "proxy",
            SessionRefusal::Halted => "halted",
        })
    }
}

/// Callers of one address that got no session for one cause, as a line of the log counts them.
#[derive(Clone, Copy)]
pub struct RefusedCallers {
    /// The address and the port of the first of them.
    pub peer: SocketAddr,
    pub why: SessionRefusal,
    /// How many there were.
    pub times: u64,
}

impl Display for RefusedCallers {
    ghost output = { λ refused. Some (refused_text refused) };

    fn fmt<W: fmt::Write>(&self, f: &mut fmt::Formatter<W>) -> fmt::Result {
        let RefusedCallers { peer, why, times } = *self;
        write!(f, "peer={peer} why={why} times={times}")
    }
}

/// What a session was served.
#[derive(Clone, Copy)]
pub struct SessionCounts {
    /// The messages that were answered: lines, and the blocks of posts and transfers.
    pub messages: u64,
    /// The blocks that were accepted.
    pub taken: u64,
    /// The blocks that were not.
    pub refused: u64,
    /// The octets that were read from the socket.
    pub octets_in: u64,
    /// The octets that were written to it.
    pub octets_out: u64,
}

/// What was answered, as a session counts it.
#[derive(Clone, Copy)]
pub enum CountedMessage {
    Line,
    /// A block that was accepted.
    Taken,
    /// A block that was not.
    Refused,
}

impl SessionCounts {
    /// Nothing was served yet.
    pub fn new() -> SessionCounts
        ensures { result ≡ no_counts }
    {
        SessionCounts {
            messages: 0,
            taken: 0,
            refused: 0,
            octets_in: 0,
            octets_out: 0,
        }
    }

    /// Counts a message that was answered. A count stops at the greatest `u64`.
    pub fn note(&mut self, served: CountedMessage)
        ensures { self.new ≡ counted self.old served }
    {
        self.messages = self.messages.saturating_add(1);
        match served {
            CountedMessage::Line => {}
            CountedMessage::Taken => self.taken = self.taken.saturating_add(1),
            CountedMessage::Refused => self.refused = self.refused.saturating_add(1),
        }
    }
}

impl Display for SessionCounts {
    ghost output = { λ counts. Some (counts_text counts) };

    fn fmt<W: fmt::Write>(&self, f: &mut fmt::Formatter<W>) -> fmt::Result {
        let SessionCounts {
            messages,
            taken,
            refused,
            octets_in,
            octets_out,
        } = *self;
        write!(f, "messages={messages} taken={taken} refused={refused}")?;
        write!(f, " in={octets_in} out={octets_out}")
    }
}

/// A session that has begun.
#[derive(Clone, Copy)]
pub struct BegunSession {
    /// The caller's address.
    pub peer: SocketAddr,
    /// The number of the session.
    pub session: u64,
}

impl Display for BegunSession {
    ghost output = { λ begun. Some (begun_text begun) };

    fn fmt<W: fmt::Write>(&self, f: &mut fmt::Formatter<W>) -> fmt::Result {
        let BegunSession { peer, session } = *self;
        write!(f, "peer={peer} session={session}")
    }
}

/// A session that has ended.
#[derive(Clone, Copy)]
pub struct EndedSession {
    /// The caller's address.
    pub peer: SocketAddr,
    /// The number of the session.
    pub session: u64,
    pub counts: SessionCounts,
    pub why: Ending,
}

impl Display for EndedSession {
    ghost output = { λ ended. Some (ended_text ended) };

    fn fmt<W: fmt::Write>(&self, f: &mut fmt::Formatter<W>) -> fmt::Result {
        let EndedSession {
            peer,
            session,
            counts,
            why,
        } = *self;
        write!(f, "peer={peer} session={session} {counts} why={why}")
    }
}

/// How many of some things are used.
#[derive(Clone, Copy)]
pub struct UsedPart {
    pub used: u64,
    pub all: u64,
}

impl UsedPart {
    /// Whether at least nine tenths are used.
    pub fn is_nearly_full(&self) -> bool
        ensures { IsTrue result ↔ (9 * self.now.all ≤ 10 * self.now.used) }
    {
        u128::from(self.all) * 9 <= u128::from(self.used) * 10
    }
}

impl Display for UsedPart {
    ghost output = { λ part. Some (part_text part) };

    fn fmt<W: fmt::Write>(&self, f: &mut fmt::Formatter<W>) -> fmt::Result {
        let UsedPart { used, all } = *self;
        write!(f, "{used}/{all}")
    }
}

/// The octets of a MiB.
const MIB: u64 = 1 << 20;

/// How far the opening of a volume is.
#[derive(Clone, Copy)]
pub enum OpeningStep {
    /// So many MiB were read, of all that are read.
    Reading { read: u64, all: u64 },
    /// All was read, and the files are checked.
    Checking,
}

impl OpeningStep {
    /// How far an opening is that has read this many octets, of all the octets that it reads. Both are given in whole
    /// MiB, rounded down.
    pub fn after(read: u64, all: u64) -> OpeningStep
        ensures { result ≡ step_after read all }
    {
        if read < all {
            OpeningStep::Reading {
                read: read / MIB,
                all: all / MIB,
            }
        } else {
            OpeningStep::Checking
        }
    }
}

impl Display for OpeningStep {
    ghost output = { λ step. Some (step_text step) };

    fn fmt<W: fmt::Write>(&self, f: &mut fmt::Formatter<W>) -> fmt::Result {
        match *self {
            OpeningStep::Reading { read, all } => write!(f, "read={read} of={all} unit=MiB"),
            OpeningStep::Checking => write!(f, "step=checking"),
        }
    }
}

/// What a line of the log reports.
#[derive(Drop)]
pub enum LogEvent {
    /// A session has begun.
    Begin(BegunSession),
    /// A session has ended.
    End(EndedSession),
    /// A post or a transfer was taken, and is durable.
    Post(TakenPost),
    /// A post or a transfer was refused.
    NotPosted(RefusedPost),
    /// Callers of an address got no session.
    Refused(RefusedCallers),
    /// The device failed, first for this cause: nothing is written any more, and the server ends.
    Fault(Cause),
    /// The kernel or the journal was halted, though the device didn't fail, and the server ends.
    Halted,
    /// The clock gives no time from 1970 to 9999. The time of this line, and of all that is dated meanwhile, is the
    /// beginning of 1970.
    Clock,
    /// Nine tenths of the blocks or of the inodes are used.
    Full { blocks: UsedPart, inodes: UsedPart },
    /// This many lines found no room, because the log was not read, or could not be written.
    Lost(u64),
    /// The volume is being opened, which has come so far.
    Opening(OpeningStep),
    /// The file for a monitor could not be written, for this cause.
    Metrics(Cause),
}

impl LogEvent {
    /// Whether a server notes such an event once, or, as `Full`, once for each of two causes. Callers have no part in how
    /// often it comes.
    pub fn comes_once(&self) -> bool
        ensures { result ≡ comes_once self.now }
    {
        match self {
            LogEvent::Fault(_) | LogEvent::Halted | LogEvent::Clock | LogEvent::Full { .. } => true,
            LogEvent::Begin(_)
            | LogEvent::End(_)
            | LogEvent::Post(_)
            | LogEvent::NotPosted(_)
            | LogEvent::Refused(_)
            | LogEvent::Lost(_)
            | LogEvent::Opening(_)
            | LogEvent::Metrics(_) => false,
        }
    }
}

impl Display for LogEvent {
    ghost output = { λ event. Some (event_text event) };

    fn fmt<W: fmt::Write>(&self, f: &mut fmt::Formatter<W>) -> fmt::Result {
        match self {
            LogEvent::Begin(begun) => write!(f, "event=begin {begun}"),
            LogEvent::End(ended) => write!(f, "event=end {ended}"),
            LogEvent::Post(taken) => write!(f, "event=post {taken}"),
            LogEvent::NotPosted(refused) => write!(f, "event=refused {refused}"),
            LogEvent::Refused(refused) => write!(f, "event=refused {refused}"),
            LogEvent::Fault(cause) => write!(f, "event=fault error={}", CauseName(*cause)),
            LogEvent::Halted => write!(f, "event=halted"),
            LogEvent::Clock => write!(f, "event=clock"),
            LogEvent::Full { blocks, inodes } => {
                write!(f, "event=full blocks={blocks} inodes={inodes}")
            }
            LogEvent::Lost(lines) => write!(f, "event=lost lines={lines}"),
            LogEvent::Opening(step) => write!(f, "event=opening {step}"),
            LogEvent::Metrics(cause) => write!(f, "event=metrics error={}", CauseName(*cause)),
        }
    }
}
