//! What the thread that flushes does for a backup: between two batches it copies blocks that are alike in memory and on the device.
//! Whoever asked for the backup writes them. So callers wait for neither.
#![tactic(auto)]

mod copies;
mod copy_job;

pub use copies::Copies;
pub use copy_job::{CopyJob, Filled};
