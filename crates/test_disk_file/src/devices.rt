//! A device over a file, and what it is asked.

use crate::said::{NO_MEMORY, NOT_ASKED, Said, of_device};
use crate::words::Words;
use disk::Disk;
use disk_file::{Explains, FileDisk, FileError};
use std::alloc::Global;
use std::fs;
use std::marker::Model;
use std::rt::HostRuntime;

/// The most octets that a row reads.
const MOST_READ: u64 = 4096;

/// A device over a file, sealed: the proof of a caller learns nothing about it.
pub(crate) struct Device {
    disk: FileDisk,
}

impl Drop for Device {
    fn drop(self) {
        let Device { disk: _ } = self;
    }
}

impl Model for Device {
    ghost Value = { Unit };

    ghost view = { λ s. tt };
}

impl Device {
    /// Opens a device as a row says; `None` if the row can't be read.
    pub(crate) fn open(
        rt: &HostRuntime,
        word: &str,
        words: &mut Words<'_>,
    ) -> Option<Result<Device, FileError>> {
        let path = words.path();
        let opened = match word {
            "existing" => FileDisk::open_existing(rt, path),
            "reading" => FileDisk::open_to_read(rt, path),
            "open" => FileDisk::open(rt, path, words.number()?),
            "make" => made(rt, path, words.number()?, words.next()),
            _ => return None,
        };
        match opened {
            Ok(disk) => Some(Ok(Device { disk })),
            Err(error) => Some(Err(error)),
        }
    }

    /// What the device answers; `None` if the row can't be read.
    pub(crate) fn answer(
        &mut self,
        alloc: Global,
        word: &str,
        words: &mut Words<'_>,
    ) -> Option<Said> {
        match word {
            "write" => Some(self.write(words.number()?, words.next().as_bytes())),
            "read" => Some(self.read(alloc, words.number()?, words.number()?)),
            "sync" => Some(of_device(self.disk.sync())),
            "len" => Some(Said::Number(self.disk.len())),
            "cause" => Some(Said::Cause(self.disk.cause())),
            _ => None,
        }
    }

    fn write(&mut self, at: u64, octets: &[u8]) -> Said {
        match at.checked_add(octets.len() as u64) {
            Some(end) if end <= self.disk.len() => of_device(self.disk.write(at, octets)),
            _ => NOT_ASKED,
        }
    }

    /// Reads into octets that no file here has.
    fn read(&mut self, alloc: Global, at: u64, count: u64) -> Said {
        if MOST_READ < count {
            return NOT_ASKED;
        }
        let Ok(mut room) = vec![in alloc; 1u8; count as usize] else {
            return NO_MEMORY;
        };
        match at.checked_add(room.len() as u64) {
            Some(end) if end <= self.disk.len() => match self.disk.read(at, room.as_mut_slice()) {
                Ok(()) => Said::Octets(room),
                Err(error) => of_device(Err(error)),
            },
            _ => NOT_ASKED,
        }
    }
}

/// Makes a file anew, which takes after another one if that is named.
fn made(rt: &HostRuntime, path: &str, len: u64, other: &str) -> Result<FileDisk, FileError> {
    if other.is_empty() {
        return FileDisk::make(rt, path, len, None);
    }
    match fs::metadata(rt, other) {
        Ok(other) => FileDisk::make(rt, path, len, Some(&other)),
        Err(error) => Err(FileError::of(error.kind())),
    }
}
