//! The serials of changes, of which each has one file.

use crate::seen::{Home, Seen};
use disk::Disk;
use spool_records::{file_name, serial_digits};
use std::alloc::{AllocError, Global};
use volume_reading::{ReadStop, ReadVolume, wrong, wrong_unless};

/// The homes of the files of changes, by serial, as far as they are known.
#[derive(Drop)]
pub(crate) struct Serials {
    homes: Vec<Option<Home>>,
}

impl Serials {
    /// No file is known yet, where there are at most `count` changes.
    pub(crate) fn new(alloc: Global, count: usize) -> Result<Serials, AllocError> {
        Ok(Serials {
            homes: vec![in alloc; None; count]?,
        })
    }

    /// Notes the file of the change with this serial, which no other file may have.
    pub(crate) fn note<D: Disk>(
        &mut self,
        volume: &mut ReadVolume<D>,
        file: &Seen<'_>,
        serial: u64,
    ) -> Result<(), ReadStop> {
        let alloc = volume.alloc;
        let count = self.homes.len();
        wrong_unless!(alloc; 1 <= serial && serial <= count as u64, "{file} has serial {serial}, which is none of 1 to {count}");
        let at = (serial - 1) as usize;
        match self.homes[at] {
            None => {
                self.homes[at] = Some(file.home);
                Ok(())
            }
            Some(home) => both_have(volume, home, file, serial),
        }
    }

    /// Looks for a serial that no change has, though one has a greater serial.
    pub(crate) fn look_for_gaps(&self, alloc: Global) -> Result<(), ReadStop> {
        let mut missing = None;
        for at in 0..self.homes.len() {
            let serial = at.saturating_add(1);
            let is_free = self.homes[at].is_none();
            match missing {
                None if is_free => missing = Some(serial),
                Some(gap) if !is_free =>
                    wrong!(alloc; "no file has serial {gap}, and one has serial {serial}"),
                _ => {}
            }
        }
        Ok(())
    }
}

/// Ends the look, where the file that was found first has the same serial as another.
fn both_have<D: Disk>(
    volume: &mut ReadVolume<D>,
    first: Home,
    file: &Seen<'_>,
    serial: u64,
) -> Result<(), ReadStop> {
    let alloc = volume.alloc;
    match first {
        Home::Inode(number) => {
            let earlier = volume.entry(number)?;
            wrong!(alloc; "{earlier} and {file} both have serial {serial}")
        }
        Home::Pack(kind) => {
            let digits = serial_digits(serial);
            let name = file_name(alloc, kind, digits.as_slice())?;
            let earlier = Seen {
                name: &name,
                size: 0,
                head: &[],
                home: first,
            };
            wrong!(alloc; "{earlier} and {file} both have serial {serial}")
        }
    }
}
