//! How the lines of a script are read, and how octets are printed.

use model::{Moment, Status};
use program_script::{Line, ParseError, days, escaped, is_blank, number, parse, parse_at};
use std::alloc::{AllocError, Global};
use test_support_data::{Answer, Area, Arguments, RowError};

#[derive(Drop)]
pub struct ScriptLines;

impl Area for ScriptLines {
    /// `parse LINE`: what the line asks for; `parse_at LINE MOMENT`: the same at this moment, or where there is none. `number WORD`,
    /// `days WORD`. `blank TEXT`: whether it shows nothing. `escaped OCTETS`: the octets as they are printed.
    fn answer(
        &mut self,
        alloc: Global,
        call: &str,
        arguments: &mut Arguments<'_>,
        answer: &mut Answer,
    ) -> Result<(), RowError> {
        let octets = arguments.octets()?;
        match call {
            "parse" => answer_parsed(parse(alloc, octets.as_slice()), answer),
            "parse_at" => {
                let now = Moment::at(arguments.number()?);
                answer_parsed(parse_at(alloc, octets.as_slice(), now), answer)
            }
            "number" => Ok(answer.found(number(octets.as_slice()))?),
            "days" => Ok(answer.found(days(octets.as_slice()))?),
            "blank" => Ok(answer.is(is_blank(octets.as_slice()))?),
            "escaped" => Ok(answer.octets(escaped(alloc, octets.as_slice())?.as_slice())?),
            _ => Err(RowError::Unreadable),
        }
    }
}

fn answer_parsed(read: Result<Line, ParseError>, answer: &mut Answer) -> Result<(), RowError> {
    match read {
        Ok(line) => answer_line(&line, answer)?,
        Err(ParseError::Bad) => answer.word("bad event")?,
        Err(ParseError::Memory) => return Err(RowError::Memory),
    }
    Ok(())
}

/// The line's word, and what else it says.
fn answer_line(line: &Line, answer: &mut Answer) -> Result<(), AllocError> {
    answer.word(word_of(line))?;
    match line {
        Line::Leave(session) => answer.number(*session),
        Line::Exec { session, moment } => {
            answer.number(*session)?;
            answer.number(moment.seconds())
        }
        Line::ReleaseOf { session, room } => {
            answer.number(*session)?;
            answer.number(*room)
        }
        Line::FailAt(call) => answer.number(*call),
        Line::FailKind(kind, call) => {
            answer.shown(kind)?;
            answer.number(*call)
        }
        Line::Crash(pick) => answer.shown(pick),
        line => answer_texts(line, answer),
    }
}

/// What a line with texts says.
fn answer_texts(line: &Line, answer: &mut Answer) -> Result<(), AllocError> {
    match line {
        Line::Arrive { session, octets } => {
            answer.number(*session)?;
            answer.octets(octets.as_slice())
        }
        Line::Group(request) => {
            answer.octets(request.name.as_slice())?;
            answer.word(status_word(request.status))?;
            answer.number(request.moment.seconds())?;
            answer.octets(request.description.as_slice())
        }
        Line::Expire { name, number } => {
            answer.octets(name.as_slice())?;
            answer.number(u64::from(*number))
        }
        _ => Ok(()),
    }
}

fn status_word(status: Status) -> &'static str {
    match status {
        Status::Open => "y",
        Status::Closed => "n",
    }
}

fn word_of(line: &Line) -> &'static str {
    match line {
        Line::Group(_) => "Group",
        Line::Expire { .. } => "Expire",
        Line::Join => "Join",
        Line::Leave(_) => "Leave",
        Line::Arrive { .. } => "Arrive",
        Line::Exec { .. } => "Exec",
        Line::Take => "Take",
        Line::Dev => "Dev",
        Line::Told => "Told",
        Line::Release => "Release",
        Line::ReleaseOf { .. } => "ReleaseOf",
        Line::Stop => "Stop",
        Line::Commit => "Commit",
        Line::Settle => "Settle",
        Line::Drain => "Drain",
        Line::FailAt(_) => "FailAt",
        Line::FailKind(..) => "FailKind",
        Line::Crash(_) => "Crash",
        Line::Renew => "Renew",
        Line::Spool => "Spool",
    }
}
