//! Plays scripts of calls to devices, gates, journals and cached blocks, and prints what each call answers.
//! `test_support_scripts` says what a script is.
//!
//! A call is a word and numbers. A script begins with the word that makes what the later calls are asked of: `device`,
//! `cache`, `formatted`, `journal` or `blocks`. `storage.rt`, `devices.rt`, `journals.rt` and `cached.rt` say what the
//! words do.
#![tactic(auto)]

mod cached;
mod devices;
mod journals;
mod said;
mod scarce;
mod storage;
mod words;

use anyhow::Result;
use said::{UNREADABLE, print_said};
use std::alloc::Global;
use std::io::{BufRead, BufReader, BufWriter, Write};
use storage::Storage;
use test_support_scripts::{Subject, first_word, numbers, play_all, take_line};
use words::PICKS;

impl Subject for Storage {
    fn new() -> Storage {
        Storage::empty()
    }

    fn answer<W: Write>(
        &mut self,
        alloc: Global,
        line: &str,
        round: u64,
        output: &mut W,
    ) -> Result<()> {
        let (word, rest) = first_word(line);
        let said = match numbers(alloc, rest, round, PICKS) {
            Some(found) => self.asked(alloc, word, found.as_slice()),
            None if word == "write" => self.write(rest),
            None => UNREADABLE,
        };
        print_said(output, &said)
    }
}

fn main(rt: HostRuntime) -> Result<()> {
    let alloc = rt.alloc();
    let mut scripts = Vec::new(alloc);
    for line in BufReader::new(alloc, rt.reader())?.lines(alloc) {
        take_line(alloc, &mut scripts, line?.as_str())?;
    }
    let mut output = BufWriter::new(alloc, rt.stdout())?;
    play_all::<Storage, _>(alloc, scripts.as_slice(), &mut output)?;
    output.flush()?;
    Ok(())
}
