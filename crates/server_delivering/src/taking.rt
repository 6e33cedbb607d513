//! How fast a caller takes its replies while the server waits for it.

ghost use Rattle.std.specs.Duration.{as_nanos};
ghost use Rattle.std.specs.Prelude.{◌≡◌, ◌<◌, ◌↔◌, IsTrue, false};
ghost use Rattle.server_delivering.specs.Patience.{least_octets};

use crate::limits::TAKING_PACE;
use std::time::{Clock, Duration, Instant};

/// What a caller has taken while the server waited for it, until that is judged.
#[derive(Clone, Copy, Drop)]
pub struct Taking {
    /// How long the caller may take nothing, and after how long it is judged.
    wait: Duration,
    /// The caller has to keep the pace.
    is_judged: bool,
    /// For how long the server has waited for the caller since it was judged last.
    waited: Duration,
    /// Up to when that is counted. `None` where the clock cannot be read.
    at: Option<Instant>,
    /// How many octets the caller has taken meanwhile.
    octets: u64,
}

impl Taking {
    /// The server has waited for nobody yet.
    pub fn new() -> Taking {
        Taking {
            wait: Duration::ZERO,
            is_judged: false,
            waited: Duration::ZERO,
            at: None,
            octets: 0,
        }
    }

    /// From now on the caller may take nothing for so long, and is judged each time that the server has waited for it for as long, or
    /// isn't judged.
    pub fn set(&mut self, wait: Duration, is_judged: bool)
        ensures wait { self.new.wait ≡ wait }
        ensures judged { self.new.is_judged ≡ is_judged }
        ensures waited { self.new.waited ≡ self.old.waited }
        ensures octets { self.new.octets ≡ self.old.octets }
    {
        self.wait = wait;
        self.is_judged = is_judged;
    }

    /// How long the caller may take nothing.
    pub(crate) fn wait(&self) -> Duration
        ensures { result ≡ self.now.wait }
    {
        self.wait
    }

    /// The caller takes all at once: the server doesn't wait for it.
    pub(crate) fn end(&mut self) {
        self.waited = Duration::ZERO;
        self.octets = 0;
    }

    /// The server begins to wait for the caller. What the system's buffers took before it ever waited doesn't count: the caller needn't
    /// have taken any of that.
    pub(crate) fn begin<R: Clock>(&mut self, rt: &R)
        ensures { as_nanos self.old.waited ≡ 0 → self.new.octets ≡ 0 }
    {
        if self.waited.is_zero() {
            self.octets = 0;
        }
        self.at = Instant::now(rt).ok();
    }

    /// The caller took so many octets.
    pub(crate) fn took(&mut self, count: usize)
        ensures judged { self.new.is_judged ≡ self.old.is_judged }
    {
        self.octets = self.octets.saturating_add(count as u64);
    }

    /// Whether the caller took too few: each time that the server has waited for it for `wait`, it is judged by what it took meanwhile.
    /// Where the clock cannot be read, nobody is judged.
    pub(crate) fn is_too_slow<R: Clock>(&mut self, rt: &R) -> bool
        ensures { self.old.is_judged ≡ false → result ≡ false }
    {
        let Ok(now) = Instant::now(rt) else {
            return false;
        };
        let more = now.duration_since(self.at.unwrap_or(now));
        self.at = Some(now);
        self.waited = self.waited.saturating_add(more);
        if self.waited < self.wait {
            return false;
        }
        let is_slow = self.is_judged && are_too_few(self.octets, self.wait.as_secs());
        self.end();
        is_slow
    }
}

/// Whether a caller that took so many octets in so many seconds took too few.
fn are_too_few(octets: u64, seconds: u64) -> bool
    ensures { IsTrue result ↔ (octets < least_octets seconds) }
{
    octets < TAKING_PACE.saturating_mul(seconds)
}
