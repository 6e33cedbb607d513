//! How long commits take, and how long the callers that a commit releases take to come again. Only where a commit is slow, and
//! slower than they are, is it worth that a batch waits for them.

ghost use Rattle.std.specs.Prelude.{◌↔◌, ◌<◌, IsTrue};
ghost use Rattle.server_attending.specs.Pace.{slow_micros};

use std::sync::Mutex;
use std::time::{Clock, Duration, Instant};

/// A commit that takes longer than this is slow. It has two syncs: where one takes a tenth of a millisecond, batches wait.
const SLOW_MICROS: u64 = 200;

/// So many of the last times count. The shortest of them is taken, since other threads may have had the processor in any.
const COUNTED: usize = 8;

/// After so many batches that waited for nobody, the callers' times are forgotten, and measured again.
const BATCHES_UNMEASURED: u32 = 64;

/// The times of the last commits, and those of the callers between a commit and their next blocks.
#[derive(Drop)]
pub(crate) struct Pace {
    times: Mutex<Times>,
}

#[derive(Drop)]
struct Times {
    /// When the commit that is not done yet began. `None` where the clock cannot be read.
    since: Option<Instant>,
    /// When the last commit was made.
    made: Option<Instant>,
    commits: LastTimes,
    rounds: LastTimes,
    /// The batches that did not wait since the callers' times were last known.
    unmeasured: u32,
}

/// The last times of something that is measured again and again.
#[derive(Drop)]
struct LastTimes {
    /// The oldest of them is at the place `next`.
    micros: [u64; COUNTED],
    next: usize,
}

impl LastTimes {
    /// Each of them is taken to have been so long.
    fn all(micros: u64) -> LastTimes {
        LastTimes {
            micros: [micros; COUNTED],
            next: 0,
        }
    }

    fn note(&mut self, took: Duration) {
        let next = self.next % COUNTED;
        self.micros[next] = u64::try_from(took.as_micros()).unwrap_or(u64::MAX);
        self.next = (next + 1) % COUNTED;
    }

    fn shortest(&self) -> u64 {
        let mut shortest = u64::MAX;
        for micros in &self.micros {
            shortest = shortest.min(*micros);
        }
        shortest
    }
}

impl Pace {
    /// Nothing was measured yet: commits are taken to be slow, and callers to come at once.
    pub(crate) fn new() -> Pace {
        Pace {
            times: Mutex::new(Times {
                since: None,
                made: None,
                commits: LastTimes::all(u64::MAX),
                rounds: LastTimes::all(0),
                unmeasured: 0,
            }),
        }
    }

    /// A commit begins.
    pub(crate) fn begin<R: Clock>(&self, rt: &R) {
        if let Some(mut times) = self.times.try_lock() {
            times.since = Instant::now(rt).ok();
        }
    }

    /// The commit is made. Answers how long it took, if the clock could be read.
    pub(crate) fn end<R: Clock>(&self, rt: &R) -> Option<Duration> {
        let mut times = self.times.try_lock()?;
        times.made = Instant::now(rt).ok();
        let took = times.since?.elapsed(rt).ok()?;
        times.commits.note(took);
        Some(took)
    }

    /// The callers that the last commit released have come again, or are no longer waited for.
    pub(crate) fn note_round<R: Clock>(&self, rt: &R) {
        let Some(mut times) = self.times.try_lock() else {
            return;
        };
        times.unmeasured = 0;
        let Some(made) = times.made else {
            return;
        };
        if let Ok(took) = made.elapsed(rt) {
            times.rounds.note(took);
        }
    }

    /// Whether the next batch should wait for the callers that the last commit released. Where none has waited for long, one
    /// does if commits are slow, so that the callers' times are measured again.
    pub(crate) fn is_wait_worth(&self) -> bool {
        let Some(mut times) = self.times.try_lock() else {
            return true;
        };
        if is_worth(times.commits.shortest(), times.rounds.shortest()) {
            return true;
        }
        times.unmeasured = times.unmeasured.saturating_add(1);
        if times.unmeasured >= BATCHES_UNMEASURED {
            times.unmeasured = 0;
            times.rounds = LastTimes::all(0);
        }
        false
    }
}

/// Whether a batch should wait for callers, where a commit and the callers' way to their next blocks take so many microseconds.
/// Callers that share each commit post once in a commit and such a way; callers in two groups that take turns, once in two
/// commits. So the wait gains where the way is the shorter one.
fn is_worth(commit: u64, round: u64) -> bool
    ensures { IsTrue result ↔ ((slow_micros < commit) × (round < commit)) }
{
    commit > SLOW_MICROS && round < commit
}
