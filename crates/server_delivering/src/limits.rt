//! How long the server waits for its callers.

ghost use Rattle.std.specs.Prelude.{◌≡◌, ◌<◌, ◌≤◌, ◌+◌, IfSome, IfNone};
ghost use Rattle.std.specs.Duration.{as_nanos};
ghost use Rattle.server_delivering.specs.Patience.{most_nanos};

use model::Mode;
use std::time::Duration;

/// A caller that has sent no whole command so many seconds after its session began is disconnected. RFC 3977, section 3.1,
/// lets this be less than three minutes.
const FIRST_SECS: u64 = 30;

/// A caller that sends nothing for this many seconds is disconnected. RFC 3977, section 3.1, asks for at least three
/// minutes.
const SILENCE_SECS: u64 = 600;

/// A message takes at most so many seconds from its first octet on, and a block a second more for each `PACE` octets of it
/// that have come.
const MESSAGE_SECS: u64 = 600;

/// After that time a block has to have come with as many octets a second.
const PACE: u64 = 100;

/// A caller that takes none of its replies for this many seconds is disconnected. RFC 3977, section 3.1, asks for at
/// least as much.
const STALL_SECS: u64 = 180;

/// A caller that has a place for a large reply, or asks for one, has to take as many octets a second while the server waits for it. It is
/// judged each time that the server has waited for it for `STALL_SECS`.
pub(crate) const TAKING_PACE: u64 = 100;

/// A caller whose session is closed is read from for this many seconds.
const LINGER_SECS: u64 = 1;

/// How long the server waits for a caller.
#[derive(Clone, Copy, Drop)]
pub struct Limits {
    /// For the first command, from the beginning of the session on.
    pub first: Duration,
    /// For the next octets that the caller sends.
    pub silence: Duration,
    /// For a whole message, from its first octet on. `left` gives a block more.
    pub message: Duration,
    /// For its socket to take any octet of what is written. A caller that has a place for a large reply is judged each time by what it
    /// took in so long.
    pub stall: Duration,
    /// For the end of its socket, after its session was closed.
    pub linger: Duration,
}

impl Limits {
    /// The program's limits. A test may have shorter ones.
    pub fn standard() -> Limits {
        Limits {
            first: Duration::from_secs(FIRST_SECS),
            silence: Duration::from_secs(SILENCE_SECS),
            message: Duration::from_secs(MESSAGE_SECS),
            stall: Duration::from_secs(STALL_SECS),
            linger: Duration::from_secs(LINGER_SECS),
        }
    }

    /// How much longer a message may take that began so long ago, and of which so many octets have come. `None` if it has
    /// taken too long.
    pub fn left(&self, mode: Mode, octets: u64, since: Duration) -> Option<Duration>
        ensures some { IfSome result (λ left. as_nanos left + as_nanos since ≡ most_nanos self.now mode octets) }
        ensures more { IfSome result (λ left. 0 < as_nanos left) }
        ensures none { IfNone result (most_nanos self.now mode octets ≤ as_nanos since) }
    {
        let most = match mode {
            Mode::Line => self.message,
            Mode::Block => self
                .message
                .saturating_add(Duration::from_secs(octets / PACE)),
        };
        match most.checked_sub(since) {
            Some(left) if !left.is_zero() => Some(left),
            _ => None,
        }
    }
}
