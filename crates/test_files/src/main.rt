//! Plays scripts of calls to a file system, and of damage to volumes, and prints what each call answers.
//! `test_support_scripts` says what a script is.
//!
//! A script begins with `files BLOCKS FORMAT`, which makes an empty file system, or with `device BLOCKS` or `volume`,
//! which make a device of zeros or one with an empty volume. `files.rt` and `devices.rt` say what the other words do.
#![tactic(auto)]

mod devices;
mod files;
mod formatting;
mod said;

use anyhow::Result;
use devices::{Device, answer_device, new_device, new_volume};
use files::{Files, answer_named, answer_whole, new_files};
use said::{DONE, NO_MEMORY, NOT_ASKED, Said, UNREADABLE, print_said};
use std::alloc::Global;
use std::io::{BufRead, BufReader, BufWriter, Write};
use test_support_scripts::{Subject, first_word, numbers, play_all, take_line};

/// What calls are asked of.
#[derive(Drop)]
enum Tested {
    Nothing,
    Files(Files),
    Device(Device),
}

impl Tested {
    /// Makes something new, or asks a call with numbers alone.
    fn asked(&mut self, alloc: Global, word: &str, numbers: &[u64]) -> Said {
        match (word, numbers) {
            ("files", [blocks, format]) => match new_files(alloc, *blocks, *format) {
                Some(files) => self.begin(Tested::Files(files)),
                None => NO_MEMORY,
            },
            ("device", [blocks]) => self.begin_device(new_device(alloc, *blocks)),
            ("volume", []) => self.begin_device(new_volume(alloc)),
            _ => match self {
                Tested::Nothing => NOT_ASKED,
                Tested::Files(files) => answer_whole(alloc, files, word, numbers),
                Tested::Device(device) => answer_device(alloc, device, word, numbers),
            },
        }
    }

    fn begin(&mut self, new: Tested) -> Said {
        *self = new;
        DONE
    }

    fn begin_device(&mut self, device: Option<Device>) -> Said {
        match device {
            Some(device) => self.begin(Tested::Device(device)),
            None => NO_MEMORY,
        }
    }

    /// Asks a call of the file with a name: `NAME NUMBER..`.
    fn asked_named(&mut self, alloc: Global, word: &str, rest: &str) -> Said {
        let (name, rest) = first_word(rest);
        match (self, numbers(alloc, rest, 0, &[])) {
            (Tested::Files(files), Some(found)) => {
                answer_named(alloc, files, word, name.as_bytes(), found.as_slice())
            }
            _ => UNREADABLE,
        }
    }
}

impl Subject for Tested {
    fn new() -> Tested {
        Tested::Nothing
    }

    fn answer<W: Write>(
        &mut self,
        alloc: Global,
        line: &str,
        round: u64,
        output: &mut W,
    ) -> Result<()> {
        let (word, rest) = first_word(line);
        let said = match numbers(alloc, rest, round, &[]) {
            Some(found) => self.asked(alloc, word, found.as_slice()),
            None => self.asked_named(alloc, word, rest),
        };
        print_said(output, &said)
    }
}

fn main(rt: HostRuntime) -> Result<()> {
    let alloc = rt.alloc();
    let mut scripts = Vec::new(alloc);
    for line in BufReader::new(alloc, rt.reader())?.lines(alloc) {
        take_line(alloc, &mut scripts, line?.as_str())?;
    }
    let mut output = BufWriter::new(alloc, rt.stdout())?;
    play_all::<Tested, _>(alloc, scripts.as_slice(), &mut output)?;
    output.flush()?;
    Ok(())
}
