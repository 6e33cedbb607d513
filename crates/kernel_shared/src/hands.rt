//! What a thread needs to wait for other sessions or for the flusher, or to take what it must not hold meanwhile.

/// A thread's hand. Who takes what other threads wait for, as a session's desk, lends it, and has it back when that is let go. Who
/// waits for other sessions or for the flusher asks for it. So no thread waits for them while it holds a desk: that doesn't
/// compile.
///
/// A thread has one: it makes it where it begins. It has no `Clone`.
#[derive(Drop)]
pub struct Hand(());

impl Hand {
    /// The hand of a thread that begins, and holds nothing.
    pub fn new() -> Hand {
        Hand(())
    }
}
