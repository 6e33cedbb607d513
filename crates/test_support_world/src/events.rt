//! What a line of a script asks of a world, and the world's answers in words.

use crate::errors::SimError;
use model::{Change, Mark};
use program_script::{Line, ParseError, parse};
use std::alloc::{AllocError, Global};
use world::{Entry, Event, Happened, Outcome, StepAnswer, StepError};

/// A line of a script, and its answer.
pub type Row = (&'static str, &'static str);

/// What a line asks.
pub(crate) fn event(alloc: Global, line: &str) -> Result<Event, SimError> {
    match parse(alloc, line.as_bytes()) {
        Ok(line) => event_of(line),
        Err(ParseError::Bad) => Err(SimError::NoEvent),
        Err(ParseError::Memory) => Err(SimError::Memory),
    }
}

fn event_of(line: Line) -> Result<Event, SimError> {
    match line {
        Line::Group(group) => Ok(Event::Admin(group)),
        Line::Expire { name, number } => Ok(Event::Expire { name, number }),
        Line::Join => Ok(Event::Join),
        Line::Leave(session) => Ok(Event::Leave(session)),
        Line::Arrive { session, octets } => Ok(Event::Arrive(session, octets)),
        Line::Exec { session, moment } => Ok(Event::Exec(session, moment)),
        Line::Take => Ok(Event::Take),
        Line::Dev => Ok(Event::Dev),
        Line::Told => Ok(Event::Told),
        Line::Release => Ok(Event::Release),
        Line::ReleaseOf { session, room } => Ok(Event::ReleaseOf {
            number: session,
            room,
        }),
        Line::Stop => Ok(Event::Stop),
        _ => Err(SimError::NoEvent),
    }
}

/// What a served message got, in words.
fn served_text(alloc: Global, outcome: Outcome) -> Result<String, AllocError> {
    let next = outcome.next;
    match outcome.mark {
        Mark::Served => format!(in alloc; "served, {next:?} is next"),
        Mark::Stopped => format!(in alloc; "stopped, {next:?} is next"),
        _ => String::from_str(alloc, "full"),
    }
}

/// An answer in words.
pub(crate) fn said(
    alloc: Global,
    answered: Result<StepAnswer, StepError>,
) -> Result<String, AllocError> {
    match answered {
        Ok(StepAnswer::Done) => String::from_str(alloc, "done"),
        Ok(StepAnswer::Joined(number)) => format!(in alloc; "joined {number}"),
        Ok(StepAnswer::Served(None)) => String::from_str(alloc, "no message"),
        Ok(StepAnswer::Served(Some(outcome))) => served_text(alloc, outcome),
        Ok(StepAnswer::Made(serial)) => format!(in alloc; "made {serial}"),
        Ok(StepAnswer::Took(last)) => format!(in alloc; "took {last:?}"),
        Ok(StepAnswer::Progressed(progress)) => format!(in alloc; "{progress:?}"),
        Ok(StepAnswer::Stopped(true)) => String::from_str(alloc, "stopped"),
        Ok(StepAnswer::Stopped(false)) => String::from_str(alloc, "not stopped"),
        Err(error) => format!(in alloc; "{error}"),
    }
}

/// An entry of the trace in words.
pub(crate) fn traced(alloc: Global, entry: &Entry) -> Result<String, AllocError> {
    match entry.happened() {
        Happened::Command(session, moment, mark) => {
            let seconds = moment.seconds();
            let mark = marked(*mark);
            format!(in alloc; "session {session} at {seconds} {mark}")
        }
        Happened::Admin(Change::Group(group)) => named(alloc, "group", group.name.as_slice()),
        Happened::Admin(Change::Expire(expiry)) => {
            let mut text = named(alloc, "expire", expiry.group.as_slice())?;
            let number = expiry.number;
            text.push_str(format!(in alloc; " {number}")?.as_str())?;
            Ok(text)
        }
        Happened::Admin(Change::Article(_)) => String::from_str(alloc, "article"),
    }
}

fn marked(mark: Mark) -> &'static str {
    match mark {
        Mark::Served => "served",
        Mark::Stopped => "stopped",
        _ => "full",
    }
}

/// A word, and the name of a group.
fn named(alloc: Global, word: &str, name: &[u8]) -> Result<String, AllocError> {
    let name = str::from_utf8(name).unwrap_or("?");
    format!(in alloc; "{word} {name}")
}
