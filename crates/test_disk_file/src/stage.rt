//! The devices of a script and its list of locks, and what the rows ask.

use crate::devices::Device;
use crate::files::ask_files;
use crate::said::{DONE, NO_DEVICE, NO_MEMORY, Said, UNREADABLE};
use crate::words::Words;
use disk_causes::Cause;
use disk_file::{FileError, Node, holder_in};
use std::alloc::Global;
use std::io::ErrorKind;
use std::rt::HostRuntime;

/// The devices of a script, by their names, and its list of locks.
#[derive(Drop)]
pub(crate) struct Stage {
    alloc: Global,
    a: Option<Device>,
    b: Option<Device>,
    c: Option<Device>,
    locks: String,
}

impl Stage {
    /// No device and no lock.
    pub(crate) fn new(alloc: Global) -> Stage {
        Stage {
            alloc,
            a: None,
            b: None,
            c: None,
            locks: String::new(alloc),
        }
    }

    /// What a row answers.
    pub(crate) fn answer(&mut self, rt: &HostRuntime, row: &str) -> Said {
        let mut words = Words::of(row);
        let answer = match words.next() {
            "a" => ask_device(rt, self.alloc, &mut self.a, &mut words),
            "b" => ask_device(rt, self.alloc, &mut self.b, &mut words),
            "c" => ask_device(rt, self.alloc, &mut self.c, &mut words),
            "lock" => Some(self.note_lock(words.all())),
            "holder" => self.holder(&mut words),
            "words" => refusal(words.next()),
            word => ask_files(rt, word, &mut words),
        };
        answer.unwrap_or(UNREADABLE)
    }

    fn note_lock(&mut self, line: &str) -> Said {
        if self.locks.push_str(line).is_err() || self.locks.push('\n').is_err() {
            return NO_MEMORY;
        }
        DONE
    }

    fn holder(&mut self, words: &mut Words<'_>) -> Option<Said> {
        let node = Node::new(words.hexadecimal()?, words.number()?);
        Some(match holder_in(self.locks.as_str(), node) {
            Some(process) => Said::Number(u64::from(process)),
            None => Said::Word("nobody"),
        })
    }
}

/// What a row asks of the device of a name, or to open one; `None` if the row can't be read.
fn ask_device(
    rt: &HostRuntime,
    alloc: Global,
    device: &mut Option<Device>,
    words: &mut Words<'_>,
) -> Option<Said> {
    match words.next() {
        word @ ("open" | "existing" | "reading" | "make") => {
            match Device::open(rt, word, words)? {
                Ok(opened) => {
                    *device = Some(opened);
                    Some(DONE)
                }
                Err(error) => Some(Said::Refused(error)),
            }
        }
        "drop" => {
            *device = None;
            Some(DONE)
        }
        word => match device {
            Some(device) => device.answer(alloc, word, words),
            None => Some(NO_DEVICE),
        },
    }
}

fn refusal(word: &str) -> Option<Said> {
    let error = match word {
        "missing" => FileError::of(ErrorKind::NotFound),
        "denied" => FileError::of(ErrorKind::PermissionDenied),
        "held" => FileError::Held,
        "irregular" => FileError::Irregular,
        "failed" => FileError::Failed(Cause::Io),
        _ => return None,
    };
    Some(Said::Words(error))
}
