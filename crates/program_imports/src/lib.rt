//! Files the articles of a batch.
#![tactic(auto)]

use model::Moment;
use program_files::{VolumeFile, new_counts, open_store};
use program_printing::CommandError;
use server_logging::{beginning_of_1970, moment};
use std::alloc::Global;
use std::fs::File;
use std::io::{self, Read, Write};
use std::rt::Files;
use std::time::{Clock, Duration, Instant};
use volume_importing::{ImportCounts, ImportError, Place, Report, Watcher};

/// The seconds between two lines of progress.
const PAUSE_SECS: u64 = 1;

/// The warning that the clock gives no time.
const CLOCK: &str = "newsd: the clock gives no time from 1970 to 9999: the articles are dated 1970";

/// Erases a line of a terminal.
const ERASE: &str = "\r\x1b[K";

/// Reports what is refused and, on a terminal, how far the import is.
#[derive(Drop)]
struct Teller<'a, R, F> {
    rt: &'a R,
    faults: &'a mut F,
    /// The reports go to a terminal.
    is_terminal: bool,
    /// The warning about the clock was given.
    is_clock_told: bool,
    start: Instant,
    /// The time since the start at which the next line of progress is due.
    due: Duration,
}

impl<'a, R: Clock, F: Write> Teller<'a, R, F> {
    fn new(rt: &'a R, faults: &'a mut F, is_terminal: bool) -> io::Result<Teller<'a, R, F>> {
        Ok(Teller {
            start: Instant::now(rt)?,
            rt,
            faults,
            is_terminal,
            is_clock_told: false,
            due: Duration::from_secs(PAUSE_SECS),
        })
    }

    /// Erases the line of progress.
    fn erase(&mut self) -> io::Result<()> {
        if self.is_terminal {
            write!(self.faults, "{ERASE}")?;
        }
        self.faults.flush()
    }

    /// Warns once that the clock gives no time. If the warning can't be written, the import continues: a later report
    /// is written, or its failure ends the import.
    fn tell_of_clock(&mut self) {
        if self.is_clock_told {
            return;
        }
        self.is_clock_told = true;
        let _ = self.erase();
        let _ = writeln!(self.faults, "{CLOCK}");
    }

    /// Writes the line of progress.
    fn show(&mut self, elapsed: Duration, octets: u64, counts: &ImportCounts) -> io::Result<()> {
        let articles = counts.all();
        let rate = articles / elapsed.as_secs().max(1);
        write!(
            self.faults,
            "{ERASE}{articles} articles, {octets} octets, {rate} articles a second"
        )?;
        self.faults.flush()
    }
}

impl<'a, R: Clock, F: Write> Watcher for Teller<'a, R, F> {
    /// 1970 if the clock gives no time from 1970 to 9999, which is reported once.
    fn moment(&mut self) -> Moment {
        match moment(self.rt) {
            Some(moment) => moment,
            None => {
                self.tell_of_clock();
                beginning_of_1970()
            }
        }
    }

    fn refused(&mut self, place: Place, cause: &'static str) -> io::Result<()> {
        self.erase()?;
        writeln!(self.faults, "newsd: {place}: {cause}")
    }

    fn progress(&mut self, octets: u64, counts: &ImportCounts) -> io::Result<()> {
        if !self.is_terminal {
            return Ok(());
        }
        let elapsed = self.start.elapsed(self.rt)?;
        if elapsed < self.due {
            return Ok(());
        }
        self.due = elapsed.saturating_add(Duration::from_secs(PAUSE_SECS));
        self.show(elapsed, octets, counts)
    }
}

/// Files the articles of a batch in a volume, as `volume_importing::import` does. Each refused article is reported on
/// `faults`; if that is a terminal, it also shows the progress.
pub fn import<R: Files<File = File> + Clock, I: Read, F: Write>(
    rt: &R,
    alloc: Global,
    path: &str,
    input: &mut I,
    faults: &mut F,
    is_terminal: bool,
) -> Result<Report, CommandError> {
    let counts = new_counts(alloc)?;
    let file = VolumeFile::new(path, &counts);
    let mut store = open_store(rt, alloc, file)?;
    let mut teller = Teller::new(rt, faults, is_terminal)?;
    let imported = volume_importing::import(alloc, &mut store, input, &mut teller);
    // a line of progress that can't be erased is no reason to withhold the report
    let _ = teller.erase();
    match imported {
        Ok(report) => Ok(report),
        Err(ImportError::Memory) => Err(CommandError::Memory),
        Err(ImportError::Device(error)) => file.outcome(Err(CommandError::from(error))),
    }
}
