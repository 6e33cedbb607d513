//! The flusher of a server, over any kernel that threads share and any hooks. It takes the dirty blocks, writes them to
//! the device without the lock, reports the commit to the kernel, and raises the mark. `specs/Flush.antt` says what a
//! turn of it does.
#![tactic(auto)]

mod flushing;
mod turn_seat;

pub use flushing::{Filing, FlushError, Flusher, FlusherEnd, commit_batch, flush_all, flush_turn};
pub use turn_seat::TurnSeat;
