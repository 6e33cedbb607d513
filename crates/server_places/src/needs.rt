//! Which messages need a place.

use model::Command;
use session_received::Received;

/// Whether a session needs a place to have this message answered: its answer grows with the spool, and is made whole
/// (RFC 3977, section 7.4).
pub fn needs_place(received: &Received<'_>) -> bool {
    matches!(received.command(), Some(Command::NewNews { .. }))
}
