//! The turn of the thread that flushes, as the sessions see it.

use crate::pace::Pace;
use crate::verdicts::{Offered, Verdicts};
use journal_volume::BatchBuf;
use kernel_shared::{ExecError, Hooks, Kern};
use server_copying::Copies;
use server_flusher::Filing;
use server_logging::PostRefusal;
use server_releasing::{FiledBlock, Shared, release_committed};
use std::sync::Wait;
use std::time::Clock;
use volume_usage::Tally;

/// Hooks that ring the bells of a flush, measure it and release what waited for it, and then call the other ones.
pub struct Attending<'a, R, K, H, W> {
    shared: &'a Shared<'a, R, K, H>,
    hooks: &'a W,
    verdicts: Verdicts<'a>,
    tally: &'a Tally,
    pace: Pace,
    copies: &'a Copies,
}

impl<'a, R, K, H, W> Drop for Attending<'a, R, K, H, W> {
    fn drop(self) {
        let Attending {
            shared: _,
            hooks: _,
            verdicts: _,
            tally: _,
            pace: _,
            copies: _,
        } = self;
    }
}

impl<'a, R, K, H, W> Attending<'a, R, K, H, W> {
    /// No commit was made yet: the first ones are taken to be slow, and the callers to come at once.
    pub fn new(
        shared: &'a Shared<'a, R, K, H>,
        hooks: &'a W,
        verdicts: Verdicts<'a>,
        tally: &'a Tally,
        copies: &'a Copies,
    ) -> Attending<'a, R, K, H, W> {
        Attending {
            shared,
            hooks,
            verdicts,
            tally,
            pace: Pace::new(),
            copies,
        }
    }
}

impl<'a, R: Wait + Clock, K: Kern, H: Hooks, W: Hooks> Hooks for Attending<'a, R, K, H, W> {
    fn before_flush(&self) {
        self.shared.bells.later.ring();
        self.pace.begin(self.shared.rt);
        self.hooks.before_flush();
    }

    fn after_flush(&self) {
        if let Some(took) = self.pace.end(self.shared.rt) {
            self.tally.note_commit(took);
        }
        self.shared.bells.arrivals.note_commit();
        release_committed(self.shared);
        self.shared.bells.operator.unpark();
        self.hooks.after_flush();
    }

    fn after_batch(&self) {
        self.hooks.after_batch();
    }

    fn before_release(&self, sid: u64) {
        self.hooks.before_release(sid);
    }

    fn after_release(&self, sid: u64) {
        self.hooks.after_release(sid);
    }
}

impl<'a, R: Wait + Clock, K: Kern, H: Hooks, W> Filing for Attending<'a, R, K, H, W> {
    fn file_left(&self) -> u64 {
        file_left(self.shared, self.verdicts)
    }

    fn is_wait_worth(&self) -> bool {
        self.pace.is_wait_worth()
    }

    fn note_round(&self) {
        self.pace.note_round(self.shared.rt);
    }

    fn copy_batch(&self, batch: &BatchBuf) {
        self.copies
            .after_batch(self.shared.rt, self.shared.kern, batch);
    }

    fn copy_on(&self) {
        self.copies.between(self.shared.rt, self.shared.kern);
    }
}

/// Files the blocks that sessions have left, tells the log of them, and answers how many the kernel answered. Between two of
/// them the kernel is given away where others wait for it.
pub fn file_left<R: Wait + Clock, K: Kern, H: Hooks>(
    shared: &Shared<'_, R, K, H>,
    verdicts: Verdicts<'_>,
) -> u64 {
    let mut filed = 0u64;
    for place in 0..shared.writers.len() {
        let Some(left) = file_left_of(shared, place) else {
            continue;
        };
        let offered = Offered {
            session: left.session,
            message: &left.block,
        };
        match left.answer {
            Ok(answered) => {
                filed = filed.saturating_add(1);
                shared.asking.make_room();
                verdicts.tell(shared, offered, answered);
            }
            Err(ExecError::Memory) => {
                verdicts.tell_refused(shared, left.session, PostRefusal::Memory);
            }
            Err(_) => {}
        }
    }
    filed
}

/// Files the block that the session of the writer at this place has left, if it has left one.
fn file_left_of<R: Wait + Clock, K: Kern, H: Hooks>(
    shared: &Shared<'_, R, K, H>,
    place: usize,
) -> Option<FiledBlock> {
    shared.writers.get(place)?.file_left(shared)
}
