//! The new volume onto which a spool is renewed.

use crate::errors::RowError;
use crate::shown::shown;
use crate::volumes::{NewVolume, made, opened};
use crate::words::Words;
use disk_memory::MemDisk;
use model::{Change, Filing};
use session_lookups::LookUps;
use spool::Spool;
use std::alloc::{AllocError, Global};
use std::marker::Model;
use volume_renewing::{RenewalCounts, Watcher, renew, shortage_for};
use volume_store::Store;

/// The new volume, if there is one, sealed: the proof of a caller learns nothing about it.
pub(crate) struct Renewal {
    new: Option<Store<MemDisk>>,
}

impl Drop for Renewal {
    fn drop(self) {
        let Renewal { new: _ } = self;
    }
}

impl Model for Renewal {
    ghost Value = { Unit };

    ghost view = { λ s. tt };
}

/// Counts what it is told.
#[derive(Drop)]
struct Told {
    times: u64,
    last: u64,
    all: u64,
}

impl Watcher for Told {
    fn progress(&mut self, counts: &RenewalCounts, all: u64) {
        self.times = self.times.saturating_add(1);
        self.last = counts.all();
        self.all = all;
    }
}

impl Renewal {
    /// No new volume.
    pub(crate) fn none() -> Renewal {
        Renewal { new: None }
    }

    /// What a row about the renewal of this spool answers; `None` for any other row.
    pub(crate) fn answer(
        &mut self,
        alloc: Global,
        old: &Spool,
        row: &str,
    ) -> Result<Option<String>, RowError> {
        let mut words = Words::of(row);
        let answer = match words.next() {
            "volume" => self.make(alloc, &words.volume()?),
            "renew" => self.renew(alloc, old),
            "short" => self.short(alloc, old, words.number()?),
            "open" => self.open(alloc),
            "renewed" => self.text(alloc, words.number()?),
            _ => return Ok(None),
        };
        Ok(Some(answer?))
    }

    /// Makes a new volume.
    fn make(&mut self, alloc: Global, wanted: &NewVolume<'_>) -> Result<String, RowError> {
        self.new = Some(made(alloc, wanted)?);
        Ok(String::from_str(alloc, "made")?)
    }

    /// Renews the spool onto the new volume.
    fn renew(&mut self, alloc: Global, old: &Spool) -> Result<String, RowError> {
        match &mut self.new {
            Some(new) => Ok(renewed(alloc, old, new)?),
            None => Err(RowError::NoVolume),
        }
    }

    /// What the new volume has too little of for a change of the spool.
    fn short(&mut self, alloc: Global, old: &Spool, serial: u64) -> Result<String, RowError> {
        let Some(change) = change_of(old, serial)? else {
            return Err(RowError::NoChange);
        };
        match &mut self.new {
            Some(new) => Ok(shortage(alloc, new, &change)?),
            None => Err(RowError::NoVolume),
        }
    }

    /// Opens the new volume again, and counts its changes and those that are durable.
    fn open(&mut self, alloc: Global) -> Result<String, RowError> {
        let new = self.new.take().ok_or(RowError::NoVolume)?;
        let store = opened(alloc, new.into_disk())?;
        let (all, durable) = store.len();
        self.new = Some(store);
        Ok(format!(in alloc; "{all} changes, {durable} durable")?)
    }

    /// The text of an article on the new volume.
    fn text(&self, alloc: Global, serial: u64) -> Result<String, RowError> {
        let Some(new) = &self.new else {
            return Err(RowError::NoVolume);
        };
        match change_of(new.spool(), serial)? {
            Some(Change::Article(Filing { text, .. })) => shown(alloc, text.as_slice()),
            _ => Err(RowError::NoChange),
        }
    }
}

/// What a renewal answers, and what the watcher was told.
fn renewed(alloc: Global, old: &Spool, new: &mut Store<MemDisk>) -> Result<String, AllocError> {
    let mut told = Told {
        times: 0,
        last: 0,
        all: 0,
    };
    match renew(alloc, old, new, &mut told) {
        Ok(counts) => format!(in alloc;
            "{} {} {} {}, told {} times, {} of {}",
            counts.groups,
            counts.kept,
            counts.husks,
            counts.expiries,
            told.times,
            told.last,
            told.all
        ),
        Err(error) => format!(in alloc; "{error}, told {} times", told.times),
    }
}

fn shortage(alloc: Global, new: &Store<MemDisk>, change: &Change) -> Result<String, AllocError> {
    let shortage = shortage_for(new, change);
    format!(in alloc; "{shortage}")
}

/// The change with a serial, if there is one.
fn change_of(spool: &Spool, serial: u64) -> Result<Option<Change>, AllocError> {
    if serial == 0 || serial > spool.len() {
        return Ok(None);
    }
    Ok(Some(spool.change(serial)?))
}
