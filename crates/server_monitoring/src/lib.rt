//! What is watched beside a running server: the volume's file, which others may replace, move or remove, and the file that is
//! written again and again for a monitor. One thread looks at both.
#![tactic(auto)]

mod monitoring;

pub use monitoring::{MetricsFile, Monitor, NoMetrics, ServedFile, Watch};
