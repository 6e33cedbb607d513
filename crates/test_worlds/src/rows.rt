//! What each row of a script asks, and what it answers.

use crate::errors::RowError;
use crate::scripts::{Script, lines_of};
use crate::stage::Stage;
use crate::tally::Tally;
use crate::words::Words;
use program_script::escaped;
use std::alloc::{AllocError, Global};
use test_support_world::shows;

/// Does what a row asks. Answers `None` if the row has no answer.
pub(crate) fn answer(
    alloc: Global,
    stage: &mut Stage,
    scripts: &[Script],
    row: &str,
) -> Result<Option<String>, RowError> {
    let mut words = Words::of(row);
    match words.next() {
        "new" | "close" | "undo" | "zero" => set(alloc, stage, row)?,
        "damage" => damage(alloc, stage, &mut words)?,
        "fail" => stage.fail(alloc, row)?,
        "put" => stage.put(words.number()?, words.octet()?)?,
        "quietly" => quietly(alloc, stage, scripts, &mut words)?,
        _ => return Ok(Some(told(alloc, stage, scripts, row)?)),
    }
    Ok(None)
}

/// A row of one word that has no answer.
fn set(alloc: Global, stage: &mut Stage, word: &str) -> Result<(), RowError> {
    match word {
        "new" => stage.renew(alloc),
        "close" => stage.close(),
        "undo" => stage.undo(),
        "zero" => stage.zero(),
        _ => Err(RowError::Unreadable),
    }
}

fn damage(alloc: Global, stage: &mut Stage, words: &mut Words<'_>) -> Result<(), RowError> {
    let pick = words.all();
    stage.damage(alloc, format!(in alloc; "crash {pick}")?.as_str())
}

/// `quietly N NAME`: a script without its answers, N times.
fn quietly(
    alloc: Global,
    stage: &mut Stage,
    scripts: &[Script],
    words: &mut Words<'_>,
) -> Result<(), RowError> {
    let times = words.number()?;
    let lines = lines_of(scripts, words.all())?;
    for _ in 0..times {
        stage.quietly(alloc, lines)?;
    }
    Ok(())
}

/// Does what a row with an answer asks.
fn told(
    alloc: Global,
    stage: &mut Stage,
    scripts: &[Script],
    row: &str,
) -> Result<String, RowError> {
    let mut words = Words::of(row);
    match words.next() {
        "open" | "crash" => opened(alloc, stage, row),
        "octet" => Ok(number(alloc, u64::from(stage.octet(words.number()?)?))?),
        "writes" => Ok(number(alloc, stage.counted()?.0)?),
        "syncs" => Ok(number(alloc, stage.counted()?.1)?),
        "calls" => stage.calls(alloc),
        "counts" | "durable" | "trace" => of_world(alloc, stage, row),
        "arrived" | "out" | "serial" | "article" | "numbers" | "shows" => found(alloc, stage, row),
        "run" => run(alloc, stage, lines_of(scripts, words.all())?),
        _ => stage.tell(alloc, row),
    }
}

/// Opens the device, after a crash if the row is one.
fn opened(alloc: Global, stage: &mut Stage, row: &str) -> Result<String, RowError> {
    if row != "open" {
        stage.close()?;
        stage.damage(alloc, row)?;
    }
    stage.open(alloc)
}

fn number(alloc: Global, number: u64) -> Result<String, AllocError> {
    format!(in alloc; "{number}")
}

fn of_world(alloc: Global, stage: &Stage, word: &str) -> Result<String, RowError> {
    let sim = stage.sim()?;
    let (opened, durable, accepted) = sim.counts();
    match word {
        "trace" => trace(alloc, sim.trace(alloc)?.as_slice()),
        "durable" => Ok(number(alloc, durable)?),
        _ => Ok(format!(in alloc; "{opened} opened, {durable} durable, {accepted} accepted")?),
    }
}

fn trace(alloc: Global, entries: &[String]) -> Result<String, RowError> {
    let mut tally = Tally::new(alloc);
    for entry in entries {
        tally.push(alloc, entry.as_str())?;
    }
    Ok(tally.said(alloc, ", ")?)
}

/// A look-up in the world.
fn found(alloc: Global, stage: &Stage, row: &str) -> Result<String, RowError> {
    let sim = stage.sim()?;
    let mut words = Words::of(row);
    match words.next() {
        "arrived" => shown(alloc, sim.arrived(words.number()?)),
        "out" => shown(alloc, sim.released(words.number()?)),
        "shows" => {
            let is_shown = shows(alloc, sim, words.number()?)?;
            Ok(format!(in alloc; "{is_shown}")?)
        }
        "article" => article(alloc, stage, words.number()?),
        "serial" => match sim.serial(words.all().as_bytes()) {
            Some(serial) => Ok(number(alloc, serial)?),
            None => none(alloc),
        },
        _ => match sim.numbers(words.all().as_bytes()) {
            Some((low, high)) => Ok(format!(in alloc; "{low} to {high}")?),
            None => none(alloc),
        },
    }
}

fn none(alloc: Global) -> Result<String, RowError> {
    Ok(String::from_str(alloc, "none")?)
}

fn article(alloc: Global, stage: &Stage, serial: u64) -> Result<String, RowError> {
    match stage.sim()?.article(alloc, serial)? {
        Some(octets) => shown(alloc, octets.as_slice()),
        None => none(alloc),
    }
}

/// Octets in their printed form. Equal lines one behind another are written once, with their number.
fn shown(alloc: Global, octets: &[u8]) -> Result<String, RowError> {
    let mut tally = Tally::new(alloc);
    for line in octets.split_inclusive(|octet| *octet == b'\n') {
        let line = escaped(alloc, line)?;
        tally.push(alloc, str::from_utf8(line.as_slice()).unwrap_or("?"))?;
    }
    Ok(tally.said(alloc, "")?)
}

/// `run NAME`: the lines of a script by `World::run`.
fn run(alloc: Global, stage: &mut Stage, lines: &[String]) -> Result<String, RowError> {
    let count = lines.len();
    let went = stage.run(alloc, lines)?;
    Ok(format!(in alloc; "{went} of {count}")?)
}
