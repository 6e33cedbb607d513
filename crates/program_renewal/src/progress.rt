//! Shows on a terminal how far a renewal is.

use std::io::{self, Write};
use std::time::{Clock, Duration, Instant};
use volume_renewing::{RenewalCounts, Watcher};

/// The seconds between two lines of progress.
const PAUSE_SECS: u64 = 1;

/// Erases a line of a terminal.
const ERASE: &str = "\r\x1b[K";

/// Shows how far a renewal is, on a terminal.
#[derive(Drop)]
pub(crate) struct Teller<'a, R, F> {
    pub(crate) rt: &'a R,
    faults: &'a mut F,
    is_terminal: bool,
    start: Instant,
    /// The time since the start at which the next line of progress is due.
    due: Duration,
}

impl<'a, R: Clock, F: Write> Teller<'a, R, F> {
    pub(crate) fn new(
        rt: &'a R,
        faults: &'a mut F,
        is_terminal: bool,
    ) -> io::Result<Teller<'a, R, F>> {
        Ok(Teller {
            start: Instant::now(rt)?,
            rt,
            faults,
            is_terminal,
            due: Duration::from_secs(PAUSE_SECS),
        })
    }

    /// Erases the line of progress. One that can't be erased is no reason to withhold the report.
    pub(crate) fn erase(&mut self) {
        if self.is_terminal {
            let _ = write!(self.faults, "{ERASE}");
            let _ = self.faults.flush();
        }
    }

    /// Writes the line of progress, once in each pause.
    fn show(&mut self, done: u64, all: u64) -> io::Result<()> {
        let elapsed = self.start.elapsed(self.rt)?;
        if elapsed < self.due {
            return Ok(());
        }
        self.due = elapsed.saturating_add(Duration::from_secs(PAUSE_SECS));
        let rate = done / elapsed.as_secs().max(1);
        write!(
            self.faults,
            "{ERASE}{done} of {all} changes, {rate} changes a second"
        )?;
        self.faults.flush()
    }
}

impl<'a, R: Clock, F: Write> Watcher for Teller<'a, R, F> {
    /// A line of progress that can't be written changes nothing of what is done.
    fn progress(&mut self, counts: &RenewalCounts, all: u64) {
        if self.is_terminal {
            let _ = self.show(counts.all(), all);
        }
    }
}
