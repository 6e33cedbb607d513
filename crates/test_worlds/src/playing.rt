//! Lines that are told to a world: the events, and those that stand for several.

use crate::errors::RowError;
use crate::tally::Tally;
use std::alloc::Global;
use test_support_world::Sim;

/// More device calls than a batch makes, including those that carry all images home.
const MANY_CALLS: u64 = 600;

/// Plays the lines, whatever they answer. The answers to device calls are added to `calls`.
pub(crate) fn play(
    alloc: Global,
    sim: &mut Sim,
    lines: &[String],
    calls: &mut Tally,
) -> Result<(), RowError> {
    for line in lines {
        play_line(alloc, sim, line.as_str(), calls)?;
    }
    Ok(())
}

/// Plays a line, and answers what it answers.
pub(crate) fn play_line(
    alloc: Global,
    sim: &mut Sim,
    line: &str,
    calls: &mut Tally,
) -> Result<String, RowError> {
    match line {
        "commit" => commit(alloc, sim, calls),
        "settle" => carry(alloc, sim, calls),
        "dev" => call(alloc, sim, calls),
        "drain" => Ok(sim.drain(alloc)?),
        _ => Ok(sim.tell(alloc, line)?),
    }
}

/// A batch is written up to its commit, and the kernel learns of it.
fn commit(alloc: Global, sim: &mut Sim, calls: &mut Tally) -> Result<String, RowError> {
    sim.tell(alloc, "take")?;
    let last = carry(alloc, sim, calls)?;
    sim.tell(alloc, "told")?;
    Ok(last)
}

/// Calls the device until a call does not answer that the batch continues.
fn carry(alloc: Global, sim: &mut Sim, calls: &mut Tally) -> Result<String, RowError> {
    for _ in 0..MANY_CALLS {
        let answer = call(alloc, sim, calls)?;
        if answer.as_str() != "Working" {
            return Ok(answer);
        }
    }
    Err(RowError::NoEnd)
}

/// Calls the device.
fn call(alloc: Global, sim: &mut Sim, calls: &mut Tally) -> Result<String, RowError> {
    let answer = sim.tell(alloc, "dev")?;
    calls.push(alloc, answer.as_str())?;
    Ok(answer)
}
