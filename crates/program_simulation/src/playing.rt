//! A script of events, played over a device in memory.

use crate::new_device::formatted;
use crate::sim::{Closed, Sim};
use crate::sim_devices::Device;
use crate::stage::Stage;
use disk_cache::WCache;
use disk_memory::{MemDisk, Pick};
use journal::Progress;
use program_printing::{Failure, print_refusal, print_released, print_spool};
use program_script::{Line, ParseError, parse};
use std::alloc::Global;
use std::io::{BufRead, Write};
use volume_new::VolumePlan;
use world::{Event, StepAnswer, StepError};

/// The most device calls from the first of a batch to its end. The commit is call `n + 4`. A checkpoint of eight
/// segments adds a write for each home block, a sync, and a write and a sync that close them all. A batch has at most
/// 512 images.
const MOST_CALLS: u32 = 9 * 512 + 5 + 2;

/// Plays the script that `input` holds, one event per line, and prints what it does. A refused event prints its
/// refusal, and the script continues. It ends early with `Memory` (the simulation itself gets no memory), `NotOpened`
/// (the new volume was not made), `BadEvent` (a line is not an event), or `Stream` (a stream failed); what was done
/// until then is printed.
pub fn simulate<R: BufRead, W: Write>(
    alloc: Global,
    plan: &VolumePlan<'_>,
    is_cached: bool,
    input: &mut R,
    output: &mut W,
) -> Result<(), Failure> {
    if is_cached {
        play_lines::<WCache<MemDisk>, R, W>(alloc, plan, input, output)
    } else {
        play_lines::<MemDisk, R, W>(alloc, plan, input, output)
    }
}

/// The same for one kind of device.
fn play_lines<D: Device, R: BufRead, W: Write>(
    alloc: Global,
    plan: &VolumePlan<'_>,
    input: &mut R,
    output: &mut W,
) -> Result<(), Failure> {
    let device = Closed::new(D::over(alloc, formatted(alloc, plan)?));
    match Stage::open(alloc, plan, device) {
        Ok(stage) => {
            let mut stage = stage;
            play_all(alloc, &mut stage, input, output)
        }
        Err(error) => Err(Failure::NotOpened(error)),
    }
}

/// Plays each line.
fn play_all<D: Device, R: BufRead, W: Write>(
    alloc: Global,
    stage: &mut Stage<'_, D>,
    input: &mut R,
    output: &mut W,
) -> Result<(), Failure> {
    let mut text = Vec::new(alloc);
    for number in 1..=u64::MAX {
        text.clear();
        if input.read_until(b'\n', &mut text)? == 0 {
            break;
        }
        play_text(alloc, stage, without_end(&text), number, output)?;
    }
    Ok(())
}

/// Plays the line with this number.
fn play_text<D: Device, W: Write>(
    alloc: Global,
    stage: &mut Stage<'_, D>,
    text: &[u8],
    number: u64,
    output: &mut W,
) -> Result<(), Failure> {
    match parse(alloc, text) {
        Ok(line) => play(alloc, stage, line, output),
        Err(ParseError::Bad) => Err(Failure::BadEvent(number)),
        Err(ParseError::Memory) => Err(Failure::Memory),
    }
}

/// A line without its LF.
fn without_end(line: &[u8]) -> &[u8] {
    match line {
        [text @ .., b'\n'] => text,
        _ => line,
    }
}

/// Plays a line.
fn play<D: Device, W: Write>(
    alloc: Global,
    stage: &mut Stage<'_, D>,
    line: Line,
    output: &mut W,
) -> Result<(), Failure> {
    match line {
        Line::Crash(pick) => reopen(alloc, stage, pick, output),
        Line::Renew => renew(alloc, stage, output),
        Line::FailAt(call) => {
            stage.fail_at(call);
            Ok(())
        }
        Line::FailKind(kind, call) => {
            stage.fail_kind(kind, call);
            Ok(())
        }
        line => match &mut stage.sim {
            Some(sim) => act(alloc, sim, line, output),
            None => Ok(print_refusal(&StepError::Halted, output)?),
        },
    }
}

/// Crashes the device, each touched octet becoming what this pick says, and opens it again.
fn reopen<D: Device, W: Write>(
    alloc: Global,
    stage: &mut Stage<'_, D>,
    pick: Pick,
    output: &mut W,
) -> Result<(), Failure> {
    match stage.crash(alloc, pick) {
        Ok(opened) => Ok(writeln!(output, "opened {opened}")?),
        Err(error) => Ok(print_refusal(&error, output)?),
    }
}

/// Copies the volume into a new one, which takes the place of the device. A refusal leaves the old one as after `crash new`.
fn renew<D: Device, W: Write>(
    alloc: Global,
    stage: &mut Stage<'_, D>,
    output: &mut W,
) -> Result<(), Failure> {
    match stage.renew(alloc) {
        Ok(renewed) => Ok(writeln!(output, "renewed {renewed}")?),
        Err(error) => {
            print_refusal(&error, output)?;
            reopen(alloc, stage, Pick::New, output)
        }
    }
}

/// Does what a line asks of the world, and prints the line's output.
fn act<D: Device, W: Write>(
    alloc: Global,
    sim: &mut Sim<D>,
    line: Line,
    output: &mut W,
) -> Result<(), Failure> {
    match line {
        Line::Join => join(alloc, sim, output),
        Line::Release => release(alloc, sim, Event::Release, output),
        Line::ReleaseOf { session, room } => {
            let number = session;
            release(alloc, sim, Event::ReleaseOf { number, room }, output)
        }
        Line::Stop => stop(alloc, sim, output),
        Line::Commit => commit(alloc, sim, output),
        Line::Settle => settle(alloc, sim, output),
        Line::Drain => drain(alloc, sim, output),
        Line::Spool => Ok(print_spool(alloc, sim.spool(), output)?),
        line => match event_of(line) {
            Some(event) => step(alloc, sim, event, output),
            // the others act on the device too, see `play`
            None => Ok(()),
        },
    }
}

/// The event of a line that prints nothing but its refusal.
fn event_of(line: Line) -> Option<Event> {
    match line {
        Line::Group(request) => Some(Event::Admin(request)),
        Line::Expire { name, number } => Some(Event::Expire { name, number }),
        Line::Leave(session) => Some(Event::Leave(session)),
        Line::Arrive { session, octets } => Some(Event::Arrive(session, octets)),
        Line::Exec { session, moment } => Some(Event::Exec(session, moment)),
        Line::Take => Some(Event::Take),
        Line::Dev => Some(Event::Dev),
        Line::Told => Some(Event::Told),
        _ => None,
    }
}

/// An event that prints nothing but its refusal.
fn step<D: Device, W: Write>(
    alloc: Global,
    sim: &mut Sim<D>,
    event: Event,
    output: &mut W,
) -> Result<(), Failure> {
    match sim.step(alloc, &event) {
        Ok(_) => Ok(()),
        Err(error) => Ok(print_refusal(&error, output)?),
    }
}

/// Begins a session and prints its number.
fn join<D: Device, W: Write>(
    alloc: Global,
    sim: &mut Sim<D>,
    output: &mut W,
) -> Result<(), Failure> {
    match sim.step(alloc, &Event::Join) {
        Ok(StepAnswer::Joined(session)) => Ok(writeln!(output, "join {session}")?),
        Ok(_) => Ok(()),
        Err(error) => Ok(print_refusal(&error, output)?),
    }
}

/// Hands out and prints what is ready, of all sessions or of one.
fn release<D: Device, W: Write>(
    alloc: Global,
    sim: &mut Sim<D>,
    event: Event,
    output: &mut W,
) -> Result<(), Failure> {
    match sim.step(alloc, &event) {
        Ok(_) => print_released(alloc, sim.ready(), output),
        Err(error) => Ok(print_refusal(&error, output)?),
    }
}

/// Stops the service, if every accepted change is durable, and prints whether it did.
fn stop<D: Device, W: Write>(
    alloc: Global,
    sim: &mut Sim<D>,
    output: &mut W,
) -> Result<(), Failure> {
    match sim.step(alloc, &Event::Stop) {
        Ok(StepAnswer::Stopped(true)) => Ok(writeln!(output, "stopped")?),
        Ok(_) => Ok(writeln!(output, "not stopped")?),
        Err(error) => Ok(print_refusal(&error, output)?),
    }
}

/// Takes a batch and writes it up to its commit, which the kernel then learns. If no batch was taken, nothing happens.
fn commit<D: Device, W: Write>(
    alloc: Global,
    sim: &mut Sim<D>,
    output: &mut W,
) -> Result<(), Failure> {
    match sim.step(alloc, &Event::Take) {
        Ok(StepAnswer::Took(Some(_))) => {}
        Ok(_) => return Ok(()),
        Err(error) => return Ok(print_refusal(&error, output)?),
    }
    let refused = carry(alloc, sim, Until::Committed);
    let told = sim.step(alloc, &Event::Told);
    match refused.and(told) {
        Ok(_) => {
            let durable = sim.durable();
            Ok(writeln!(output, "durable {durable}")?)
        }
        Err(error) => Ok(print_refusal(&error, output)?),
    }
}

/// Carries the batch in flight to its end.
fn settle<D: Device, W: Write>(
    alloc: Global,
    sim: &mut Sim<D>,
    output: &mut W,
) -> Result<(), Failure> {
    match carry(alloc, sim, Until::Ended) {
        Ok(_) => Ok(()),
        Err(error) => Ok(print_refusal(&error, output)?),
    }
}

/// Makes all accepted changes durable, and then hands out and prints all replies.
fn drain<D: Device, W: Write>(
    alloc: Global,
    sim: &mut Sim<D>,
    output: &mut W,
) -> Result<(), Failure> {
    if let Err(error) = sim.settle(alloc) {
        return Ok(print_refusal(&error, output)?);
    }
    let durable = sim.durable();
    writeln!(output, "durable {durable}")?;
    for _ in 0..u64::MAX {
        if let Err(error) = sim.step(alloc, &Event::Release) {
            return Ok(print_refusal(&error, output)?);
        }
        if sim.ready().is_empty() {
            break;
        }
        print_released(alloc, sim.ready(), output)?;
    }
    Ok(())
}

/// How far a batch is carried.
#[derive(Clone, Copy)]
enum Until {
    Committed,
    Ended,
}

impl Until {
    /// Whether this answer to a device call is the awaited one.
    fn is_met(self, progress: Progress) -> bool {
        match (self, progress) {
            (Until::Committed, Progress::Committed(_)) | (Until::Ended, Progress::Idle) => true,
            _ => false,
        }
    }
}

/// Makes device calls until one gives the awaited answer, or is refused.
fn carry<D: Device>(
    alloc: Global,
    sim: &mut Sim<D>,
    until: Until,
) -> Result<StepAnswer, StepError> {
    for _ in 0..MOST_CALLS {
        if let StepAnswer::Progressed(progress) = sim.step(alloc, &Event::Dev)? {
            if until.is_met(progress) {
                break;
            }
        }
    }
    Ok(StepAnswer::Done)
}
