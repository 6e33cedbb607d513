//! The time of day.

ghost use Rattle.std.specs.Prelude.{◌≡◌};
ghost use Rattle.server_logging.specs.Clock.{given_after};

use crate::LogEvent;
use crate::log_writer::Log;
use model::Moment;
use std::sync::Wait;
use std::sync::atomic::{AtomicBool, AtomicU64, Ordering};
use std::time::Clock;

/// The moment that the clock gives. `None` if it cannot be read, or is before 1970 or after 9999.
pub fn moment<R: Clock>(rt: &R) -> Option<Moment> {
    match rt.since_1970() {
        Ok(since) => Moment::at(since.as_secs()),
        Err(_) => None,
    }
}

/// The beginning of 1970: the moment of all that is dated while the clock gives none.
pub fn beginning_of_1970() -> Moment
    ensures { result ≡ 0 }
{
    match Moment::at(0) {
        Some(moment) => moment,
        None => unreachable!(),
    }
}

/// A clock that goes back by less than this many seconds is waited for.
const DAY_SECS: u64 = 86_400;

/// The moment that is given where the clock gives this one, after so many seconds since 1970 were given: no earlier one,
/// unless the clock went back by a day or more.
fn given_after(last: u64, read: Moment) -> Moment
    ensures { result ≡ given_after last read }
{
    let back = last.saturating_sub(read.seconds());
    match Moment::at(last) {
        Some(moment) if back < DAY_SECS && 0 < back => moment,
        _ => read,
    }
}

/// The clock that a server reads, and what the log says of it. Several threads may read it.
#[derive(Drop)]
pub struct Moments {
    /// The log has said that the clock gives no time.
    is_told: AtomicBool,
    /// The moment that was given last, in seconds since 1970.
    last: AtomicU64,
}

impl Moments {
    /// A clock of which the log has said nothing, and which gave this moment last.
    pub fn new(last: Moment) -> Moments {
        Moments {
            is_told: AtomicBool::new(false),
            last: AtomicU64::new(last.seconds()),
        }
    }

    /// The moment that the clock gives. It is the beginning of 1970 if the clock cannot be read, or is before 1970 or
    /// after 9999; the log says so once. After a clock that went back by less than a day, it is the moment that was given
    /// last, until the clock has come that far again.
    pub fn now<R: Wait + Clock>(&self, rt: &R, log: &Log) -> Moment {
        match moment(rt) {
            Some(read) => self.give(rt, read),
            None => {
                if !self.is_told.swap(true, Ordering::SeqCst) {
                    log.note(rt, LogEvent::Clock);
                }
                beginning_of_1970()
            }
        }
    }

    /// Gives a moment where the clock gives this one. Another thread may give one meanwhile: then it is asked again what
    /// may be given after that.
    fn give<R: Wait>(&self, rt: &R, read: Moment) -> Moment {
        let mut last = self.last.load(Ordering::SeqCst);
        for _ in rt.forever() {
            let given = given_after(last, read);
            let seconds = given.seconds();
            if seconds == last {
                return given;
            }
            match self
                .last
                .compare_exchange(last, seconds, Ordering::SeqCst, Ordering::SeqCst)
            {
                Ok(_) => return given,
                Err(newer) => last = newer,
            }
        }
        unreachable!()
    }
}
