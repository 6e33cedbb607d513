//! What a session has outside of the kernel: the octets on their way into its socket, and a block that it has left to the thread
//! that flushes. One lock is on both. A thread that waits for other sessions can't hold it.
#![tactic(auto)]

mod outgoing;
mod turns;

pub use kernel_shared::Hand;
pub use outgoing::{Cut, Delivery, LeftBlock, Outgoing, Patience};
pub use turns::{Desk, Turn};
