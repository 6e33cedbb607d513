//! What the log was told of, counted.

ghost use Rattle.std.specs.Prelude.{◌≡◌};
ghost use Rattle.server_metrics.specs.Counting.{begun_counted, end_counted, no_events, taken_counted};

use crate::{CallerRefusals, PostRefusals};
use server_log_lines::SessionCounts;

/// What the log of a server was told of since its start. Each count stops at the greatest `u64`.
#[derive(Clone, Copy)]
pub struct EventCounts {
    /// The sessions that began.
    pub begun: u64,
    /// The sessions that ended.
    pub ended: u64,
    /// The octets that were read in sessions that ended.
    pub octets_in: u64,
    /// The octets that were written in them.
    pub octets_out: u64,
    /// The posts and transfers that were accepted.
    pub taken: u64,
    pub callers: CallerRefusals,
    pub posts: PostRefusals,
}

impl EventCounts {
    /// Nothing was told yet.
    pub fn new() -> EventCounts
        ensures { result ≡ no_events }
    {
        EventCounts {
            begun: 0,
            ended: 0,
            octets_in: 0,
            octets_out: 0,
            taken: 0,
            callers: CallerRefusals::new(),
            posts: PostRefusals::new(),
        }
    }

    /// Counts a session that begins.
    pub fn count_begun(&mut self)
        ensures { self.new ≡ begun_counted self.old }
    {
        self.begun = self.begun.saturating_add(1);
    }

    /// Counts a session that ended, and was served so much.
    pub fn count_end(&mut self, counts: &SessionCounts)
        ensures { self.new ≡ end_counted self.old counts.now }
    {
        self.ended = self.ended.saturating_add(1);
        self.octets_in = self.octets_in.saturating_add(counts.octets_in);
        self.octets_out = self.octets_out.saturating_add(counts.octets_out);
    }

    /// Counts a post or a transfer that was accepted.
    pub fn count_taken(&mut self)
        ensures { self.new ≡ taken_counted self.old }
    {
        self.taken = self.taken.saturating_add(1);
    }
}
