//! A watcher that writes down what it is told.

use disk::Disk;
use model::Moment;
use std::alloc::Global;
use std::io::{self, ErrorKind, Read};
use std::test::Fail;
use volume_importing::{ImportCounts, ImportError, Place, Report, Watcher, import};
use volume_store::Store;

/// The moment of all texts.
fn moment() -> Moment {
    match Moment::at(1_000_000_000) {
        Some(moment) => moment,
        None => unreachable!(),
    }
}

/// What an import reported.
#[derive(Drop)]
pub(crate) struct Log {
    alloc: Global,
    text: String,
    /// It can't take the report of a refusal.
    is_deaf: bool,
}

impl Log {
    pub(crate) fn new(alloc: Global) -> Log {
        Log {
            alloc,
            text: String::new(alloc),
            is_deaf: false,
        }
    }

    /// A log that can't take the report of a refusal.
    pub(crate) fn deaf(alloc: Global) -> Log {
        Log {
            alloc,
            text: String::new(alloc),
            is_deaf: true,
        }
    }

    /// What was reported, and the final report.
    pub(crate) fn with_report(self, report: &Report) -> Result<String, Fail> {
        let Log {
            alloc,
            mut text,
            is_deaf: _,
        } = self;
        let counts = format!(in alloc; "{}\n", report.counts)?;
        text.push_str(&counts)?;
        if let Some(stop) = &report.stop {
            let said = format!(in alloc; "{stop}\n")?;
            text.push_str(&said)?;
        }
        Ok(text)
    }
}

impl Watcher for Log {
    fn moment(&mut self) -> Moment {
        moment()
    }

    fn refused(&mut self, place: Place, cause: &'static str) -> io::Result<()> {
        if self.is_deaf {
            return Err(io::Error::from(ErrorKind::BrokenPipe));
        }
        let said = format!(in self.alloc; "{place}: {cause}\n")?;
        self.text.push_str(&said)?;
        Ok(())
    }

    fn progress(&mut self, _octets: u64, _counts: &ImportCounts) -> io::Result<()> {
        Ok(())
    }
}

/// Imports a batch and answers all that the import reported.
pub(crate) fn said<D: Disk>(
    alloc: Global,
    store: &mut Store<D>,
    batch: &[u8],
) -> Result<String, Fail> {
    let mut input = batch;
    said_to(alloc, store, &mut input, Log::new(alloc))
}

/// Imports a batch from a reader and answers all that the import reported to the log.
pub(crate) fn said_to<D: Disk, I: Read>(
    alloc: Global,
    store: &mut Store<D>,
    input: &mut I,
    mut log: Log,
) -> Result<String, Fail> {
    match import(alloc, store, input, &mut log) {
        Ok(report) => log.with_report(&report),
        Err(ImportError::Memory) => Err("E2 Memory")?,
        Err(ImportError::Device(error)) => Err(error)?,
    }
}
