//! The first cause of several.

ghost use Rattle.std.specs.Prelude.{◌≡◌, IfNone, IfSome};
ghost use Rattle.disk_causes.specs.Codes.{HasNoCode, code_of};

use crate::Cause;
use std::sync::atomic::{AtomicU8, Ordering};

/// The code of no cause.
const NONE: u8 = 0;

/// The first cause that was noted. Several threads may note causes and read it, so no clause speaks of one.
#[derive(Drop)]
pub struct FirstCause {
    code: AtomicU8,
}

impl FirstCause {
    /// No cause was noted yet.
    pub fn new() -> FirstCause {
        FirstCause {
            code: AtomicU8::new(NONE),
        }
    }

    /// Notes a cause. All but the first one are forgotten.
    pub fn note(&self, cause: Cause) {
        let _ = self
            .code
            .compare_exchange(NONE, code_of(cause), Ordering::SeqCst, Ordering::SeqCst);
    }

    /// The first cause, if one was noted.
    pub fn read(&self) -> Option<Cause> {
        cause_at(self.code.load(Ordering::SeqCst))
    }
}

/// The code of a cause, by which it is found again.
fn code_of(cause: Cause) -> u8
    ensures { result ≡ code_of cause }
{
    match cause {
        Cause::NoSpace => 1,
        Cause::Quota => 2,
        Cause::ReadOnly => 3,
        Cause::TooLarge => 4,
        Cause::Io => 5,
        Cause::Denied => 6,
        Cause::Missing => 7,
        Cause::Stale => 8,
        Cause::Short => 9,
        Cause::Other => 10,
        Cause::Replaced => 11,
    }
}

/// The cause with this code. `None` if none has it, as `NONE`.
fn cause_at(code: u8) -> Option<Cause>
    ensures some { IfSome result (λ cause. code ≡ code_of cause) }
    ensures none { IfNone result (HasNoCode code) }
{
    match code {
        1 => Some(Cause::NoSpace),
        2 => Some(Cause::Quota),
        3 => Some(Cause::ReadOnly),
        4 => Some(Cause::TooLarge),
        5 => Some(Cause::Io),
        6 => Some(Cause::Denied),
        7 => Some(Cause::Missing),
        8 => Some(Cause::Stale),
        9 => Some(Cause::Short),
        10 => Some(Cause::Other),
        11 => Some(Cause::Replaced),
        _ => None,
    }
}
