//! The events of the whole system, and the answers to them.

use journal::Progress;
use kernel::Outcome;
use model::Moment;
use text_names::{GroupName, GroupRequest};
use thiserror::Error;

/// An event. Sessions are named by their numbers.
#[derive(Drop)]
pub enum Event {
    /// A session begins.
    Join,
    /// A session leaves.
    Leave(u64),
    /// Octets arrive for a session.
    Arrive(u64, Vec<u8>),
    /// A session's next whole message is served, if there is one, at a moment.
    Exec(u64, Moment),
    /// The operator makes a group.
    Admin(GroupRequest),
    /// The operator removes the articles of a group up to a number.
    Expire { name: GroupName, number: u32 },
    /// The journal begins a batch of the dirty blocks, if it is idle and there are any.
    Take,
    /// The journal makes its next device call.
    Dev,
    /// The kernel learns what a device call answered.
    Told,
    /// What is ready is handed out.
    Release,
    /// What is ready of one session is handed out, as far as there is room for so many octets. A room of more than
    /// 65,536 counts as 65,536.
    ReleaseOf { number: u64, room: u64 },
    /// The service is stopped, if every accepted change is durable: each message is then answered that it has ended.
    Stop,
}

/// The answer to an event.
#[derive(Clone, Copy)]
pub enum StepAnswer {
    Done,
    /// the session's number
    Joined(u64),
    /// what the session sends next, and the mark of the message; `None` if no message has arrived whole
    Served(Option<Outcome>),
    /// the serial of the operator's change
    Made(u64),
    /// the last serial of the batch that begins, if any
    Took(Option<u64>),
    Progressed(Progress),
    /// whether the service is stopped: exactly if every accepted change is durable
    Stopped(bool),
}

/// Why an event was refused.
#[derive(Clone, Copy, Debug, Drop, PartialEq, Eq, Error)]
pub enum StepError {
    /// The device failed in this call. This halts the journal for good.
    #[error("E1 Fault")]
    Fault,
    /// An allocation was refused in this call, and nothing changed.
    #[error("E2 Memory")]
    Memory,
    /// The journal or the kernel is halted, by an earlier device fault or by a stop.
    #[error("E4 Halted")]
    Halted,
    /// There is no room for the change.
    #[error("E6 Full")]
    Full,
    /// As many sessions exist as may, or the greatest u64 was used as a session's number.
    #[error("E7 TooManySessions")]
    TooManySessions,
    /// Too many blocks are dirty: ask again after a batch is taken.
    #[error("E8 LaterDirty")]
    LaterDirty,
    /// The session has 1,048,576 or more buffered octets: ask again after a release.
    #[error("E9 LaterOut")]
    LaterOut,
    /// No session of this number exists, or it was closed.
    #[error("E10 NoSession")]
    NoSession,
    /// A group with this name exists already.
    #[error("E11 Exists")]
    Exists,
    /// The group does not exist, or the number is below its lowest or above its highest.
    #[error("E12 NotFound")]
    NotFound,
}
