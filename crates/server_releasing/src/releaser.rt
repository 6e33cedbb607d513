//! After each commit the replies that waited for it are released: by the thread that flushes, and where many wait, or a
//! caller is slow, by the releaser too. At the server's end the releaser disconnects the callers.

use crate::{Shared, Writers};
use kernel_shared::{Hooks, Kern};
use std::net::Shutdown;
use std::sync::Wait;
use std::time::{Clock, Duration};

/// The number of pauses that callers get at the server's end to take what is ready of their sessions, and the length of
/// a pause in milliseconds.
const PAUSES: u32 = 200;

const PAUSE_MILLIS: u64 = 10;

/// The thread that flushes rings the releaser where more sessions wait for a commit than this.
const FEW: usize = 12;

/// Releases the replies that waited for a commit. The thread that flushes calls this after each commit. It leaves callers
/// that once took less than was written to the releaser, since each write to them may cost it a tick, and has the releaser
/// help where many wait.
pub fn release_committed<R: Wait + Clock, K: Kern, H: Hooks>(shared: &Shared<'_, R, K, H>) {
    if count_waiting(shared.writers) > FEW {
        shared.bells.releaser.unpark();
    }
    for place in 0..shared.writers.len() {
        let Some(writer) = shared.writers.get(place) else {
            return;
        };
        if writer.is_waiting() && writer.is_slow() {
            shared.bells.releaser.unpark();
        } else {
            writer.release_waiting(shared);
        }
    }
}

/// The number of sessions that may wait for a commit.
fn count_waiting(writers: &Writers) -> usize {
    let mut waiting = 0usize;
    for place in 0..writers.len() {
        if writers.get(place).is_some_and(|writer| writer.is_waiting()) {
            waiting = waiting.saturating_add(1);
        }
    }
    waiting
}

/// Each time that it is woken, releases the replies that waited for a commit, until the server's end begins. Then it
/// disconnects the callers. It begins with the last session, since the thread that flushes begins with the first.
pub fn release_all<R: Wait + Clock, K: Kern, H: Hooks>(shared: &Shared<'_, R, K, H>) {
    for _ in shared.rt.forever() {
        let is_last = shared.closing.has_begun();
        release_from_last(shared);
        if is_last {
            break;
        }
        shared.bells.releaser.park(shared.rt);
    }
    end_callers(shared);
}

/// Releases the replies that waited for a commit, those of the last session first.
fn release_from_last<R: Wait + Clock, K: Kern, H: Hooks>(shared: &Shared<'_, R, K, H>) {
    for place in (0..shared.writers.len()).rev() {
        if let Some(writer) = shared.writers.get(place) {
            writer.release_waiting(shared);
        }
    }
}

/// Stops reading from the callers, so that their threads release what is ready and leave. A caller that takes nothing
/// meanwhile is cut off.
fn end_callers<R: Wait, K: Kern, H: Hooks>(shared: &Shared<'_, R, K, H>) {
    shut_down_all(shared, Shutdown::Read);
    for _ in 0..PAUSES {
        if are_free(shared) {
            return;
        }
        shared
            .bells
            .releaser
            .park_timeout(shared.rt, Duration::from_millis(PAUSE_MILLIS));
    }
    shut_down_all(shared, Shutdown::Both);
}

/// Shuts down the sockets of all callers.
fn shut_down_all<R: Wait, K, H>(shared: &Shared<'_, R, K, H>, how: Shutdown) {
    for place in 0..shared.writers.len() {
        if let Some(writer) = shared.writers.get(place) {
            writer.shut_down(shared.rt, how);
        }
    }
}

/// Whether no writer has a caller.
fn are_free<R: Wait, K, H>(shared: &Shared<'_, R, K, H>) -> bool {
    for place in 0..shared.writers.len() {
        if let Some(writer) = shared.writers.get(place)
            && !writer.is_free(shared.rt)
        {
            return false;
        }
    }
    true
}
