//! The events of the log, and the line of each. The lines are described in docs/newsd.1, their definition is
//! `specs/Line.antt`.
#![tactic(auto)]

mod event_line;
mod log_events;
mod posts;
mod refused_callers;

pub use disk_causes::{Cause, CauseName};
pub use event_line::{LogEntry, line};
pub use log_events::{
    BegunSession, CountedMessage, EndedSession, Ending, LogEvent, OpeningStep, RefusedCallers,
    SessionCounts, SessionRefusal, UsedPart,
};
pub use posts::{PostRefusal, RefusedPost, TakenPost};
pub use refused_callers::Refusals;
