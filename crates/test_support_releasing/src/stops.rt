//! Where a thread stops to wait for another.

use kernel_shared::Hooks;
use std::sync::Wait;
use std::sync::atomic::{AtomicBool, Ordering};
use std::thread::Parker;
use std::time::Duration;

/// A wait of a test ends after this many looks, a millisecond apart.
const LOOKS: u32 = 10_000;

/// A thread that may continue gets this many milliseconds to reach the lock.
pub const PAUSE_MILLIS: u64 = 20;

/// Waits until a flag is set. `None` at the limit.
pub fn wait_for<R: Wait>(rt: &R, flag: &AtomicBool) -> Option<()> {
    for _ in 0..LOOKS {
        if flag.load(Ordering::SeqCst) {
            return Some(());
        }
        pause(rt, 1);
    }
    None
}

/// Waits this many milliseconds.
pub fn pause<R: Wait>(rt: &R, millis: u64) {
    Parker::new().park_timeout(rt, Duration::from_millis(millis));
}

/// Where a thread stops.
#[derive(Clone, Copy, Debug, PartialEq, Eq)]
pub enum Point {
    /// Nowhere.
    Nowhere,
    /// Before and after a write.
    BeforeWrite,
    AfterWrite,
    /// The kernel has answered a message.
    AfterAnswer,
    /// Before and after the kernel gives what is ready.
    BeforeGive,
    AfterGive,
    /// No thread has the lock: the session's thread is about to send, or to wait.
    BeforeThen,
    BeforeWait,
}

/// The stop of a play: the first thread that reaches its point waits there until the other one has done its steps.
#[derive(Drop)]
pub struct Stop {
    point: Point,
    is_armed: AtomicBool,
    /// The next message is refused because too many blocks are dirty.
    refuses: AtomicBool,
    /// A thread has reached the point.
    pub is_reached: AtomicBool,
    /// The other one has done its steps.
    pub is_done: AtomicBool,
    /// The session's thread has released the lock, or waits.
    pub is_let_go: AtomicBool,
    /// The session's thread has ended.
    pub has_ended: AtomicBool,
}

impl Stop {
    pub fn new(point: Point) -> Stop {
        Stop {
            point,
            is_armed: AtomicBool::new(false),
            refuses: AtomicBool::new(false),
            is_reached: AtomicBool::new(false),
            is_done: AtomicBool::new(false),
            is_let_go: AtomicBool::new(false),
            has_ended: AtomicBool::new(false),
        }
    }

    /// From here on a thread stops at the point.
    pub fn arm(&self) {
        self.is_armed.store(true, Ordering::SeqCst);
    }

    /// Has the next message refused because too many blocks are dirty.
    pub fn refuse(&self) {
        self.refuses.store(true, Ordering::SeqCst);
    }

    /// Whether a message is refused for that. It is answered once.
    pub fn is_refused(&self) -> bool {
        self.refuses.swap(false, Ordering::SeqCst)
    }

    /// Notes that a thread is at a point, and holds it there if this is the point to stop at.
    pub fn pass<R: Wait>(&self, rt: &R, point: Point) {
        if point != self.point || !self.is_armed.swap(false, Ordering::SeqCst) {
            return;
        }
        self.is_reached.store(true, Ordering::SeqCst);
        let _ = wait_for(rt, &self.is_done);
        pause(rt, PAUSE_MILLIS);
    }
}

/// Hooks with that stop.
pub struct StopHooks<'a, R> {
    pub rt: &'a R,
    pub stop: &'a Stop,
}

impl<'a, R> Drop for StopHooks<'a, R> {
    fn drop(self) {
        let StopHooks { rt: _, stop: _ } = self;
    }
}

impl<'a, R: Wait> Hooks for StopHooks<'a, R> {
    fn before_flush(&self) {}

    fn after_flush(&self) {}

    fn before_release(&self, _sid: u64) {
        self.stop.pass(self.rt, Point::BeforeWrite);
    }

    fn after_release(&self, _sid: u64) {
        self.stop.pass(self.rt, Point::AfterWrite);
    }
}
