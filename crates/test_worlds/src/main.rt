//! Plays scripts over a world whose device is in memory, and prints what each row answers.
//!
//! A line `== NAME` of standard input begins a script that is played, a line `-- NAME` one that only later scripts use.
//! The script consists of the lines up to the next of these. In it `+ N NAME` stands for the lines of an earlier script, N times.
//! A row is printed with its answer, `ROW -> ANSWER`, if it has one. A line `# TEXT` is a remark, and is printed too.
//!
//! | Row | What it does or answers |
//! |---|---|
//! | an event of a script of `newsd sim` | what the event answers |
//! | `new` | a new volume, opened |
//! | `close`, `open`, `damage PICK`, `crash PICK` | closes the world; opens the device; crashes the device; all three |
//! | `fail N`, `fail KIND N` | a later device call fails |
//! | `put AT HH`, `undo`, `octet AT` | writes an octet of the device; writes the one that was there before; answers one |
//! | `zero`, `writes`, `syncs` | counts from now on; the device calls since then |
//! | `commit`, `settle` | the last answer of the device: up to a commit that the kernel learns of; up to one that is not `Working` |
//! | `drain` | `World::drain` |
//! | `calls` | the answers to device calls since the last `fail` |
//! | `counts`, `durable`, `trace`, `arrived S`, `out S` | the changes of the world, its trace, and octets of a session |
//! | `serial NAME`, `numbers NAME`, `article N` | what the spool has |
//! | `shows N` | whether the changes are the first ones of the script of batches: N of them, or one more |
//! | `quietly N NAME`, `run NAME` | plays a script without its answers, N times; plays it by `World::run` |
#![tactic(auto)]

mod errors;
mod playing;
mod rows;
mod scripts;
mod stage;
mod tally;
mod words;

use anyhow::Result;
use rows::answer;
use scripts::{Script, take_line};
use stage::Stage;
use std::alloc::Global;
use std::io::{BufRead, BufReader, BufWriter, Write};

/// Plays a script, and prints what its rows answer.
fn play<W: Write>(
    alloc: Global,
    stage: &mut Stage,
    scripts: &[Script],
    script: &Script,
    output: &mut W,
) -> Result<()> {
    let name = script.name();
    writeln!(output, "== {name}")?;
    for row in script.lines() {
        play_row(alloc, stage, scripts, row.as_str(), output)?;
    }
    Ok(())
}

/// Does what a row asks, and prints the row and its answer.
fn play_row<W: Write>(
    alloc: Global,
    stage: &mut Stage,
    scripts: &[Script],
    row: &str,
    output: &mut W,
) -> Result<()> {
    if row.starts_with("# ") {
        writeln!(output, "{row}")?;
        return Ok(());
    }
    match answer(alloc, stage, scripts, row) {
        Ok(Some(answer)) => writeln!(output, "{row} -> {answer}")?,
        Ok(None) => {}
        Err(error) => writeln!(output, "{row} -> {error}")?,
    }
    Ok(())
}

fn main(rt: HostRuntime) -> Result<()> {
    let alloc = rt.alloc();
    let mut scripts = Vec::new(alloc);
    for line in BufReader::new(alloc, rt.reader())?.lines(alloc) {
        take_line(alloc, &mut scripts, line?.as_str())?;
    }
    let mut output = BufWriter::new(alloc, rt.stdout())?;
    let mut stage = Stage::new(alloc);
    for script in &scripts {
        if script.is_played() {
            play(alloc, &mut stage, &scripts, script, &mut output)?;
        }
    }
    output.flush()?;
    Ok(())
}
