//! What the thread that flushes does beside its batches: it files the blocks that sessions have left, releases replies after
//! each commit, judges whether a batch should wait for more posts, and looks how full the volume is.
#![tactic(auto)]

mod attending;
mod durable;
mod pace;
mod verdicts;
mod watching;

pub use attending::{Attending, file_left};
pub use durable::await_durable;
pub use verdicts::{Offered, Verdicts};
pub use watching::Watching;
