//! Makes the calls of spools in files over volumes in memory, renews these spools, and prints what each row answers.
//!
//! A line `== NAME` of standard input begins a script that is played, a line `-- NAME` one that only later scripts use.
//! The script consists of the rows up to the next of these. In it `+ NAME` stands for the rows of an earlier script.
//! Each script has a new spool of the host news.example, and no new volume yet. A row is printed with its answer, `ROW -> ANSWER`. A line `# TEXT` is a remark, and is
//! printed too.
//!
//! | Row | What it asks |
//! |---|---|
//! | `add NAME STATUS TEXT`, `groups N` | adds a group; adds the groups g.1 to g.N |
//! | `post ID SIZE GROUPS`, `posts N ID SIZE GROUPS`, `take ID SIZE GROUPS` | posts an article, or N times; takes one of another server |
//! | `expire NAME N` | removes the articles up to a number from a group |
//! | `change SERIAL WANTED` | whether the change is this one |
//! | `find QUESTION`, `text QUESTION` | a number, or a text |
//! | `dirty`, `carry`, `reopen` | the dirty blocks; takes them as a batch; opens what the batches have written |
//! | `volume BLOCKS INODES HOST` | makes a new volume. With `write N` or `sync N` behind that, its n-th such call since the opening fails |
//! | `renew` | renews the spool onto the new volume, and counts what the watcher was told |
//! | `short SERIAL` | what the new volume has too little of for this change |
//! | `open` | opens the new volume again, and counts its changes |
//! | `renewed SERIAL` | the text of this change on the new volume |
#![tactic(auto)]

mod errors;
mod renewals;
mod scripts;
mod shown;
mod stage;
mod volumes;
mod words;

use anyhow::Result;
use scripts::{Script, take_line};
use stage::Stage;
use std::alloc::Global;
use std::io::{BufRead, BufReader, BufWriter, Write};

/// Plays a script, and prints what its rows answer.
fn play<W: Write>(alloc: Global, script: &Script, output: &mut W) -> Result<()> {
    let name = script.name();
    writeln!(output, "== {name}")?;
    let mut stage = Stage::new(alloc)?;
    for row in script.rows() {
        play_row(alloc, &mut stage, row.as_str(), output)?;
    }
    Ok(())
}

/// Does what a row asks, and prints the row and its answer.
fn play_row<W: Write>(alloc: Global, stage: &mut Stage, row: &str, output: &mut W) -> Result<()> {
    if row.starts_with("# ") {
        writeln!(output, "{row}")?;
        return Ok(());
    }
    match stage.answer(alloc, row) {
        Ok(answer) => writeln!(output, "{row} -> {answer}")?,
        Err(error) => writeln!(output, "{row} -> {error}")?,
    }
    Ok(())
}

fn main(rt: HostRuntime) -> Result<()> {
    let alloc = rt.alloc();
    let mut scripts = Vec::new(alloc);
    for line in BufReader::new(alloc, rt.reader())?.lines(alloc) {
        take_line(alloc, &mut scripts, line?.as_str())?;
    }
    let mut output = BufWriter::new(alloc, rt.stdout())?;
    for script in &scripts {
        if script.is_played() {
            play(alloc, script, &mut output)?;
        }
    }
    output.flush()?;
    Ok(())
}
