//! Tells the log when a volume is nearly full.

ghost use Rattle.std.specs.Prelude.{◌≤◌, ◌<◌, ◌*◌, ◌+◌, ◌⊎◌, ◌↔◌, IsTrue};
ghost use Rattle.model.specs.Room.{blocks_asked};

use kernel_shared::{Hooks, Kern};
use server_logging::{Log, LogEvent, UsedPart};
use server_releasing::Shared;
use spool_growing::BLOCKS_ASKED;
use std::sync::Wait;
use std::sync::atomic::{AtomicBool, Ordering};
use std::time::Clock;
use volume_usage::{Tally, VolumeFacts};

/// Hooks that look at a volume after each batch, and then call the other ones. They tell the log how many changes are
/// durable, once when the blocks are nearly used up, and once when nine tenths of the inodes are used.
pub struct Watching<'a, R, K, H> {
    shared: &'a Shared<'a, R, K, H>,
    log: &'a Log,
    tally: &'a Tally,
    facts: VolumeFacts<'a>,
    /// The log was told of the blocks.
    has_told_blocks: AtomicBool,
    /// The log was told of the inodes.
    has_told_inodes: AtomicBool,
}

impl<'a, R, K, H> Drop for Watching<'a, R, K, H> {
    fn drop(self) {
        let Watching {
            shared: _,
            log: _,
            tally: _,
            facts: _,
            has_told_blocks: _,
            has_told_inodes: _,
        } = self;
    }
}

impl<'a, R: Wait + Clock, K: Kern, H> Watching<'a, R, K, H> {
    pub fn new(
        shared: &'a Shared<'a, R, K, H>,
        log: &'a Log,
        tally: &'a Tally,
        facts: VolumeFacts<'a>,
    ) -> Watching<'a, R, K, H> {
        Watching {
            shared,
            log,
            tally,
            facts,
            has_told_blocks: AtomicBool::new(false),
            has_told_inodes: AtomicBool::new(false),
        }
    }

    /// Looks at what is used as of the last batch. It is also called before the first one, since a volume may be nearly
    /// full when it is opened.
    pub fn look(&self) {
        let Shared { rt, kern, .. } = self.shared;
        let counts = kern.counts(*rt);
        self.log.note_durable(*rt, counts.durable);
        let blocks = UsedPart {
            used: self.tally.read().used_blocks,
            all: self.facts.blocks,
        };
        let inodes = UsedPart {
            used: counts.inodes,
            all: self.facts.inodes,
        };
        let is_new = is_first(has_few_left(blocks), &self.has_told_blocks);
        if is_first(inodes.is_nearly_full(), &self.has_told_inodes) || is_new {
            self.log.note(*rt, LogEvent::Full { blocks, inodes });
        }
    }
}

/// Whether nine tenths of these blocks are used, or fewer are left than a change asks for.
fn has_few_left(blocks: UsedPart) -> bool
    ensures { IsTrue result ↔ ((9 * blocks.all ≤ 10 * blocks.used) ⊎ (blocks.all < blocks.used + blocks_asked)) }
{
    blocks.is_nearly_full() || blocks.all.saturating_sub(blocks.used) < u64::from(BLOCKS_ASKED)
}

/// True only the first time that the condition holds.
fn is_first(is_so: bool, has_told: &AtomicBool) -> bool {
    is_so && !has_told.swap(true, Ordering::SeqCst)
}

impl<'a, R: Wait + Clock, K: Kern, H: Hooks> Hooks for Watching<'a, R, K, H> {
    fn before_flush(&self) {
        self.shared.hooks.before_flush();
    }

    fn after_flush(&self) {
        self.shared.hooks.after_flush();
    }

    fn after_batch(&self) {
        self.look();
        self.shared.hooks.after_batch();
    }

    fn before_release(&self, sid: u64) {
        self.shared.hooks.before_release(sid);
    }

    fn after_release(&self, sid: u64) {
        self.shared.hooks.after_release(sid);
    }
}
