//! Makes the calls of devices over files of the system, and prints what each answers.
//!
//! A line `== NAME` of standard input begins a script, whose rows are the lines up to the next of these. A script begins
//! without devices; a file that it leaves is there for the next one. A row is printed with its answer,
//! `ROW -> ANSWER`.
//!
//! A row that begins with `a`, `b` or `c` asks the device of that name. `-` is the empty path.
//!
//! | Row | What it asks |
//! |---|---|
//! | `a open PATH LEN`, `a existing PATH`, `a reading PATH` | opens a file with that length, one that is there, and one that is only read |
//! | `a make PATH LEN [OTHER]` | makes a file anew, which takes after another one |
//! | `a write PLACE TEXT`, `a read PLACE COUNT`, `a sync`, `a len` | what each device is asked |
//! | `a cause`, `a drop` | why its first call failed; lets it go |
//! | `anew PATH [TEXT]` | makes a file anew that its owner alone reads and writes, and writes the text |
//! | `take PATH OTHER`, `like PATH OTHER` | the file takes after another one; whether it does |
//! | `one PATH OTHER` | whether both paths name one file, and in the other order |
//! | `lock LINE`, `holder DEVICE INODE` | a line of a list of locks; who holds a file by the list |
//! | `words REFUSAL` | the words of a refusal |
//!
//! The other rows are calls of the system:
//!
//! | Row | What it asks |
//! |---|---|
//! | `put PATH TEXT`, `show PATH`, `is PATH` | writes a file; its octets; what stands there, with its octets and its mode |
//! | `cut PATH LEN`, `touch PATH`, `mode PATH MODE` | makes a file shorter; sets when it was written; sets its mode |
//! | `remove PATH`, `move PATH TO` | removes a file; renames it |
//! | `link OTHER PATH`, `name OTHER PATH` | makes a symbolic link to another file; gives the other one a second name |
//! | `folder PATH`, `no-folder PATH` | makes a folder; removes it |
#![tactic(auto)]

mod devices;
mod files;
mod said;
mod stage;
mod words;

use anyhow::Result;
use said::print_said;
use stage::Stage;
use std::alloc::Global;
use std::io::{BufRead, BufReader, BufWriter, Write};

/// Plays a line of the input, and prints it with its answer.
fn play<W: Write>(
    rt: &HostRuntime,
    alloc: Global,
    stage: &mut Stage,
    line: &str,
    output: &mut W,
) -> Result<()> {
    if line.starts_with("== ") {
        *stage = Stage::new(alloc);
        writeln!(output, "{line}")?;
        return Ok(());
    }
    let said = stage.answer(rt, line);
    write!(output, "{line} -> ")?;
    print_said(output, &said)
}

fn main(rt: HostRuntime) -> Result<()> {
    let alloc = rt.alloc();
    let mut output = BufWriter::new(alloc, rt.stdout())?;
    let mut stage = Stage::new(alloc);
    for line in BufReader::new(alloc, rt.reader())?.lines(alloc) {
        play(&rt, alloc, &mut stage, line?.as_str(), &mut output)?;
    }
    output.flush()?;
    Ok(())
}
