//! What a monitor wants to know of a server, and the text in which it reads it: that of Prometheus, version 0.0.4. The text is
//! defined in `specs/Text.antt`, and docs/FORMATS.md lists the metrics.
#![tactic(auto)]

mod counted_events;
mod counted_refusals;
mod longest;
mod metrics_text;

pub use counted_events::EventCounts;
pub use counted_refusals::{CallerRefusals, PostRefusals};
pub use longest::LongestTime;
pub use metrics_text::{CommitTimes, Metrics, SessionStates, VolumeCounts, text};
