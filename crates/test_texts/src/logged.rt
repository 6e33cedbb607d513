//! The line of each event of the log.

use crate::moments::moment_at;
use server_logging::{
    Cause, EndedSession, Ending, LogEntry, LogEvent, OpeningStep, PostRefusal, RefusedCallers,
    RefusedPost, SessionCounts, SessionRefusal, TakenPost, UsedPart, line,
};
use std::alloc::Global;
use std::net::SocketAddr;
use test_support_data::{Answer, Area, Arguments, RowError};

#[derive(Drop)]
pub struct LogLines;

impl Area for LogLines {
    /// `EVENT MOMENT ..`: the line of an event that is noted at this moment. `ending NAME`, `refusal NAME`, `cause NAME`: the word for
    /// a cause. `nearly_full USED ALL`.
    fn answer(
        &mut self,
        alloc: Global,
        call: &str,
        arguments: &mut Arguments<'_>,
        answer: &mut Answer,
    ) -> Result<(), RowError> {
        match call {
            "ending" => {
                let word = ending_of(arguments.word()?)?.to_string(alloc)?;
                answer.word(word.as_str())?;
            }
            "refusal" => {
                let word = refusal_of(arguments.word()?)?.to_string(alloc)?;
                answer.word(word.as_str())?;
            }
            "cause" => {
                let word = cause_of(arguments.word()?)?.to_string(alloc)?;
                answer.word(word.as_str())?;
            }
            "nearly_full" => answer.is(read_part(arguments)?.is_nearly_full())?,
            _ => return answer_event(alloc, call, arguments, answer),
        }
        Ok(())
    }
}

fn answer_event(
    alloc: Global,
    call: &str,
    arguments: &mut Arguments<'_>,
    answer: &mut Answer,
) -> Result<(), RowError> {
    let moment = moment_at(arguments.number()?)?;
    let event = read_event(call, arguments)?;
    let line = line(alloc, &LogEntry { moment, event })?;
    Ok(answer.octets(line.as_slice())?)
}

fn read_event(call: &str, arguments: &mut Arguments<'_>) -> Result<LogEvent, RowError> {
    match call {
        "end" => Ok(LogEvent::End(read_end(arguments)?)),
        "post" => {
            let session = arguments.number()?;
            let id = arguments.text()?;
            let serial = arguments.number()?;
            Ok(LogEvent::Post(TakenPost {
                session,
                id,
                serial,
            }))
        }
        "notposted" => {
            let session = arguments.number()?;
            let cause = cause_of(arguments.word()?)?;
            Ok(LogEvent::NotPosted(RefusedPost { session, cause }))
        }
        "refused" => {
            let peer = read_address(arguments)?;
            let why = refusal_of(arguments.word()?)?;
            let times = arguments.number()?;
            Ok(LogEvent::Refused(RefusedCallers { peer, why, times }))
        }
        "fault" => Ok(LogEvent::Fault(fault_of(arguments.word()?)?)),
        "halted" => Ok(LogEvent::Halted),
        "clock" => Ok(LogEvent::Clock),
        "full" => {
            let blocks = read_part(arguments)?;
            let inodes = read_part(arguments)?;
            Ok(LogEvent::Full { blocks, inodes })
        }
        "lost" => Ok(LogEvent::Lost(arguments.number()?)),
        "opening" => {
            let read = arguments.number()?;
            let all = arguments.number()?;
            Ok(LogEvent::Opening(OpeningStep::after(read, all)))
        }
        _ => Err(RowError::Unreadable),
    }
}

/// `PEER SESSION MESSAGES TAKEN REFUSED IN OUT WHY`.
fn read_end(arguments: &mut Arguments<'_>) -> Result<EndedSession, RowError> {
    let peer = read_address(arguments)?;
    let session = arguments.number()?;
    let counts = read_counts(arguments)?;
    let why = ending_of(arguments.word()?)?;
    Ok(EndedSession {
        peer,
        session,
        counts,
        why,
    })
}

fn read_counts(arguments: &mut Arguments<'_>) -> Result<SessionCounts, RowError> {
    let messages = arguments.number()?;
    let taken = arguments.number()?;
    let refused = arguments.number()?;
    let octets_in = arguments.number()?;
    let octets_out = arguments.number()?;
    Ok(SessionCounts {
        messages,
        taken,
        refused,
        octets_in,
        octets_out,
    })
}

fn read_address(arguments: &mut Arguments<'_>) -> Result<SocketAddr, RowError> {
    let text = arguments.text()?;
    text.as_str()
        .parse::<SocketAddr>()
        .ok()
        .ok_or(RowError::Unreadable)
}

fn read_part(arguments: &mut Arguments<'_>) -> Result<UsedPart, RowError> {
    let used = arguments.number()?;
    let all = arguments.number()?;
    Ok(UsedPart { used, all })
}

fn ending_of(word: &str) -> Result<Ending, RowError> {
    match word {
        "Quit" => Ok(Ending::Quit),
        "Closed" => Ok(Ending::Closed),
        "Silent" => Ok(Ending::Silent),
        "Stalled" => Ok(Ending::Stalled),
        "Slow" => Ok(Ending::Slow),
        "Failed" => Ok(Ending::Failed),
        "Http" => Ok(Ending::Http),
        "Memory" => Ok(Ending::Memory),
        "Stopped" => Ok(Ending::Stopped),
        _ => Err(RowError::Unreadable),
    }
}

fn fault_of(word: &str) -> Result<Cause, RowError> {
    match word {
        "NoSpace" => Ok(Cause::NoSpace),
        "Quota" => Ok(Cause::Quota),
        "ReadOnly" => Ok(Cause::ReadOnly),
        "TooLarge" => Ok(Cause::TooLarge),
        "Io" => Ok(Cause::Io),
        "Denied" => Ok(Cause::Denied),
        "Missing" => Ok(Cause::Missing),
        "Stale" => Ok(Cause::Stale),
        "Short" => Ok(Cause::Short),
        "Other" => Ok(Cause::Other),
        _ => Err(RowError::Unreadable),
    }
}

fn refusal_of(word: &str) -> Result<SessionRefusal, RowError> {
    match word {
        "Access" => Ok(SessionRefusal::Access),
        "Sessions" => Ok(SessionRefusal::Sessions),
        "Address" => Ok(SessionRefusal::Address),
        "Descriptors" => Ok(SessionRefusal::Descriptors),
        "Memory" => Ok(SessionRefusal::Memory),
        "Failed" => Ok(SessionRefusal::Failed),
        "Proxy" => Ok(SessionRefusal::Proxy),
        "Halted" => Ok(SessionRefusal::Halted),
        _ => Err(RowError::Unreadable),
    }
}

fn cause_of(word: &str) -> Result<PostRefusal, RowError> {
    match word {
        "Octets" => Ok(PostRefusal::Octets),
        "NoEnd" => Ok(PostRefusal::NoEnd),
        "Field" => Ok(PostRefusal::Field),
        "Twice" => Ok(PostRefusal::Twice),
        "Missing" => Ok(PostRefusal::Missing),
        "Id" => Ok(PostRefusal::Id),
        "Groups" => Ok(PostRefusal::Groups),
        "Long" => Ok(PostRefusal::Long),
        "Repeat" => Ok(PostRefusal::Repeat),
        "NoGroup" => Ok(PostRefusal::NoGroup),
        "Closed" => Ok(PostRefusal::Closed),
        "OtherId" => Ok(PostRefusal::OtherId),
        "Full" => Ok(PostRefusal::Full),
        "Memory" => Ok(PostRefusal::Memory),
        "Stopped" => Ok(PostRefusal::Stopped),
        _ => Err(RowError::Unreadable),
    }
}
