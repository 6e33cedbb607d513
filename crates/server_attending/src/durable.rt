//! Waits for the thread that flushes.

use kernel_shared::{Hand, Kern};
use server_releasing::Shared;
use std::sync::Wait;
use std::thread;
use std::time::{Clock, Duration};

/// How long a thread waits before it looks whether all is durable, in milliseconds.
const LOOK_MILLIS: u64 = 1;

/// Waits until all changes that were accepted before this call are durable. Answers false if the server ends before that. The hand
/// shows that the thread holds no session's desk.
pub fn await_durable<R: Wait + Clock, K: Kern, G>(
    shared: &Shared<'_, R, K, G>,
    _hand: &mut Hand,
) -> bool {
    let Shared { rt, kern, .. } = shared;
    let accepted = kern.counts(*rt).accepted;
    for _ in rt.forever() {
        if kern.counts(*rt).durable >= accepted {
            return true;
        }
        if shared.closing.has_begun() {
            return false;
        }
        shared.bells.flush_now();
        thread::sleep(*rt, Duration::from_millis(LOOK_MILLIS));
    }
    unreachable!()
}
