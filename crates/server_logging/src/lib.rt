//! The log of a server, and a thread that writes its lines, which `server_log_lines` defines. Noting an event never waits
//! for the reader of the log.
#![tactic(auto)]

mod clock;
mod log_writer;
mod output;
mod waiting;

pub use clock::{Moments, beginning_of_1970, moment};
pub use log_writer::{Log, Verbosity};
pub use server_log_lines::{
    BegunSession, Cause, CountedMessage, EndedSession, Ending, LogEntry, LogEvent, OpeningStep,
    PostRefusal, RefusedCallers, RefusedPost, SessionCounts, SessionRefusal, TakenPost, UsedPart,
    line,
};
pub use server_metrics::EventCounts;
