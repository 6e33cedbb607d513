//! A spool, and what the rows ask of it.

use crate::errors::RowError;
use crate::renewals::Renewal;
use crate::shown::{number_found, shown};
use crate::words::Words;
use spool::Spool;
use std::alloc::Global;
use std::marker::Model;
use test_support_spool::{Stored, find, make, text_of};

/// A spool over a volume in memory, and its renewal, sealed: the proof of a caller learns nothing about them.
pub(crate) struct Stage {
    stored: Stored,
    renewal: Renewal,
}

impl Drop for Stage {
    fn drop(self) {
        let Stage {
            stored: _,
            renewal: _,
        } = self;
    }
}

impl Model for Stage {
    ghost Value = { Unit };

    ghost view = { λ s. tt };
}

impl Stage {
    /// The spool without changes, and no new volume.
    pub(crate) fn new(alloc: Global) -> Result<Stage, RowError> {
        match Stored::new(alloc) {
            Ok(stored) => Ok(Stage {
                stored,
                renewal: Renewal::none(),
            }),
            Err(_) => Err(RowError::NoSpool),
        }
    }

    /// What a row answers.
    pub(crate) fn answer(&mut self, alloc: Global, row: &str) -> Result<String, RowError> {
        if row.starts_with("find ") || row.starts_with("text ") {
            return found(alloc, &self.stored.spool, row);
        }
        if let Some(answer) = self.renewal.answer(alloc, &self.stored.spool, row)? {
            return Ok(answer);
        }
        let call = Words::of(row).call()?;
        let answer = make(alloc, &mut self.stored, call);
        Ok(format!(in alloc; "{answer:?}")?)
    }
}

/// What `find QUESTION` or `text QUESTION` finds.
fn found(alloc: Global, spool: &Spool, row: &str) -> Result<String, RowError> {
    let mut words = Words::of(row);
    if words.next() == "find" {
        let found = find(spool, words.asked()?);
        return number_found(alloc, found);
    }
    match text_of(alloc, spool, words.sought()?)? {
        Some(text) => shown(alloc, text.as_slice()),
        None => Ok(String::from_str(alloc, "none")?),
    }
}
