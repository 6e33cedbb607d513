//! Refusals, counted by cause.

ghost use Rattle.std.specs.Prelude.{◌≡◌};
ghost use Rattle.server_metrics.specs.Counting.{caller_counted, no_callers, no_posts, post_counted};

use server_log_lines::{PostRefusal, SessionRefusal};

/// Callers that got no session, by the cause. Each count stops at the greatest `u64`.
#[derive(Clone, Copy)]
pub struct CallerRefusals {
    pub access: u64,
    pub sessions: u64,
    pub address: u64,
    pub descriptors: u64,
    pub memory: u64,
    pub failed: u64,
    pub proxy: u64,
    pub halted: u64,
}

impl CallerRefusals {
    /// No caller was refused yet.
    pub fn new() -> CallerRefusals
        ensures { result ≡ no_callers }
    {
        CallerRefusals {
            access: 0,
            sessions: 0,
            address: 0,
            descriptors: 0,
            memory: 0,
            failed: 0,
            proxy: 0,
            halted: 0,
        }
    }

    /// Counts a caller that was refused for this cause.
    pub fn count(&mut self, why: SessionRefusal)
        ensures { self.new ≡ caller_counted self.old why }
    {
        match why {
            SessionRefusal::Access => self.access = self.access.saturating_add(1),
            SessionRefusal::Sessions => self.sessions = self.sessions.saturating_add(1),
            SessionRefusal::Address => self.address = self.address.saturating_add(1),
            SessionRefusal::Descriptors => self.descriptors = self.descriptors.saturating_add(1),
            SessionRefusal::Memory => self.memory = self.memory.saturating_add(1),
            SessionRefusal::Failed => self.failed = self.failed.saturating_add(1),
            SessionRefusal::Proxy => self.proxy = self.proxy.saturating_add(1),
            SessionRefusal::Halted => self.halted = self.halted.saturating_add(1),
        }
    }
}

/// Posts and transfers that were refused, by the cause. Each count stops at the greatest `u64`.
#[derive(Clone, Copy)]
pub struct PostRefusals {
    pub octets: u64,
    pub no_end: u64,
    pub field: u64,
    pub twice: u64,
    pub missing: u64,
    pub id: u64,
    pub groups: u64,
    pub long: u64,
    pub repeat: u64,
    pub no_group: u64,
    pub closed: u64,
    pub other_id: u64,
    pub full: u64,
    pub memory: u64,
    pub stopped: u64,
}

impl PostRefusals {
    /// Nothing was refused yet.
    pub fn new() -> PostRefusals
        ensures { result ≡ no_posts }
    {
        PostRefusals {
            octets: 0,
            no_end: 0,
            field: 0,
            twice: 0,
            missing: 0,
            id: 0,
            groups: 0,
            long: 0,
            repeat: 0,
            no_group: 0,
            closed: 0,
            other_id: 0,
            full: 0,
            memory: 0,
            stopped: 0,
        }
    }

    /// Counts a post or a transfer that was refused for this cause.
    pub fn count(&mut self, cause: PostRefusal)
        ensures { self.new ≡ post_counted self.old cause }
    {
        match cause {
            PostRefusal::Octets => self.octets = self.octets.saturating_add(1),
            PostRefusal::NoEnd => self.no_end = self.no_end.saturating_add(1),
            PostRefusal::Field => self.field = self.field.saturating_add(1),
            PostRefusal::Twice => self.twice = self.twice.saturating_add(1),
            PostRefusal::Missing => self.missing = self.missing.saturating_add(1),
            PostRefusal::Id => self.id = self.id.saturating_add(1),
            PostRefusal::Groups => self.groups = self.groups.saturating_add(1),
            PostRefusal::Long => self.long = self.long.saturating_add(1),
            PostRefusal::Repeat => self.repeat = self.repeat.saturating_add(1),
            PostRefusal::NoGroup => self.no_group = self.no_group.saturating_add(1),
            PostRefusal::Closed => self.closed = self.closed.saturating_add(1),
            PostRefusal::OtherId => self.other_id = self.other_id.saturating_add(1),
            PostRefusal::Full => self.full = self.full.saturating_add(1),
            PostRefusal::Memory => self.memory = self.memory.saturating_add(1),
            PostRefusal::Stopped => self.stopped = self.stopped.saturating_add(1),
        }
    }
}
