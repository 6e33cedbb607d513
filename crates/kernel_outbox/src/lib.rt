//! The outputs of a session, held until what they depend on is durable, and the buffer that a release fills.
#![tactic(auto)]

mod appending;
mod made_lines;
mod number_lines;
mod outgoing;
mod queue;
mod ready;

pub use appending::append;
pub use made_lines::{Lines, NoLines, Source};
pub use outgoing::Outgoing;
pub use queue::Queue;
pub use ready::ReadyBuf;

/// The most octets that one release hands out (this project's rule).
pub const RELEASE_OCTETS: usize = 65_536;

/// The most sessions that one release serves (this project's rule).
pub const RELEASE_ENTRIES: usize = 4_096;

/// The most octets of a line that a source makes, with its CRLF (this project's rule).
pub const LONGEST_LINE: usize = 8_193;
