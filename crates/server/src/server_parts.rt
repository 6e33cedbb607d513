//! The parts of a server, and why it ends.

ghost use Rattle.std.specs.Prelude.{◌≡◌};
ghost use Rattle.journal.specs.Journal.{IsIdle};

use disk::Disk;
use journal::Journal;
use model::Moment;
use server_flusher::{FlushError, TurnSeat};
use server_logging::Log;
use server_mark::{Mark, Seat};
use server_monitoring::{MetricsFile, ServedFile};
use server_notify::Manager;
use server_pace::Pace;
use server_releasing::Limits;
use std::alloc::AllocError;
use std::net::TcpListener;
use std::os::unix::net::UnixListener;
use text_networks::Network;
use thiserror::Error;
use volume_usage::{BitmapMarks, Tally, VolumeFacts};

/// An opened volume and its kernel, the mark of what is durable with two of its seats, what is known and counted about
/// the volume, the listeners for the callers and the log. `hooks` are called before and after each flush and each write
/// of replies.
#[derive(Drop)]
pub struct Server<'a, D: Disk, K, H> {
    /// One at least, here or behind. All callers have the same sessions.
    pub listeners: &'a [TcpListener],
    /// Listeners to which proxies connect. Each connection begins with a line that says for whom.
    pub proxied: &'a [TcpListener],
    /// The networks from which callers are let in, besides the loopback networks.
    pub networks: &'a [Network],
    /// The most sessions at a time, as the kernel was told.
    pub sessions: usize,
    /// The most sessions of callers of one address. Where it is not given, an address may have as many as are free.
    pub most_from: Option<usize>,
    pub log: &'a Log,
    pub journal: Journal<D>,
    pub kern: &'a K,
    pub mark: &'a Mark,
    pub flush_seat: TurnSeat,
    pub seat: Seat,
    pub facts: VolumeFacts<'a>,
    /// The marks of used blocks on the device.
    pub marks: BitmapMarks,
    pub tally: &'a Tally,
    /// The moment of the newest article. No earlier one is given to a message, unless the clock is a day behind it.
    pub newest: Moment,
    pub hooks: &'a H,
    pub limits: Limits,
    /// The file that is written for a monitor, if there is one.
    pub metrics: Option<&'a MetricsFile>,
    /// The file of the volume, if the volume is in one that others may replace.
    pub file: Option<&'a ServedFile>,
    /// The listener at which the operator is answered, too, if there is one.
    pub control: Option<&'a UnixListener>,
    /// The service manager that is told when the server begins to end, if there is one.
    pub manager: Option<&'a Manager>,
    /// How many articles are read from one address in a minute, if that is limited.
    pub pace: Option<&'a Pace>,
    ghost idle: { IsIdle journal },
    ghost flushes: { flush_seat.mark ≡ mark.now },
    ghost looks: { seat.mark ≡ mark.now },
}

/// Why the server fails.
#[derive(Clone, Copy, Debug, Drop, PartialEq, Eq, Error)]
pub enum ServeError {
    /// The device failed.
    #[error("E1 Fault")]
    Fault,
    /// Memory, a thread or a descriptor was refused before the start.
    #[error("E2 Memory")]
    Memory,
    /// The path of the volume's file names another one or none, or the file has another length.
    #[error("E1 Fault")]
    Replaced,
    /// The journal or the kernel was halted before.
    #[error("E4 Halted")]
    Halted,
}

impl From<AllocError> for ServeError {
    fn from(_error: AllocError) -> ServeError {
        ServeError::Memory
    }
}

impl From<FlushError> for ServeError {
    fn from(error: FlushError) -> ServeError {
        match error {
            FlushError::Fault => ServeError::Fault,
            FlushError::Halted => ServeError::Halted,
        }
    }
}
