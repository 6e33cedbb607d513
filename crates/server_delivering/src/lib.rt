//! How octets get into a caller's socket, and how long the server waits for its callers.
#![tactic(auto)]

mod limits;
mod socket_writing;
mod taking;

pub use limits::Limits;
pub use socket_writing::{Written, deliver, deliver_at_once, give_short_writes};
pub use taking::Taking;
