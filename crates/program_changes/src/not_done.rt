//! Why a change isn't made.

use journal::JournalError;

/// Why a change isn't made, or isn't known to be durable.
#[derive(Drop)]
pub enum NotDone<E> {
    /// It is refused, and nothing changed.
    Refused(E),
    /// The device failed, or an allocation was refused to it. The change may be durable, or not.
    Device(JournalError),
}
