//! Hooks: calls before and after each flush and each release, so that a test can hold a thread there.

/// A release is one entry of what is ready.
pub trait Hooks {
    /// A batch was taken, and no device call was made for it yet.
    fn before_flush(&self);

    /// The batch is on the device and the mark is raised; the device calls that end the batch are still to come.
    fn after_flush(&self);

    /// The device calls that end the batch were made, and the batch is counted.
    fn after_batch(&self) {}

    /// Octets of this session are about to be written to its socket.
    fn before_release(&self, sid: u64);

    /// The write of octets of this session has ended, whether or not its socket took all of them.
    fn after_release(&self, sid: u64);
}

/// Hooks that do nothing.
#[derive(Clone, Copy)]
pub struct NoHooks;

impl Hooks for NoHooks {
    fn before_flush(&self) {}

    fn after_flush(&self) {}

    fn before_release(&self, _sid: u64) {}

    fn after_release(&self, _sid: u64) {}
}
