//! Names, patterns and dates.

use crate::moments::moment_at;
use model::Range;
use std::alloc::Global;
use test_support_data::{Answer, Area, Arguments, RowError};
use text_dates::{SinceError, date_header, date_reply, read_since};
use text_names::{
    Description, GroupName, MessageId, NameError, Wildmat, is_description, is_group_name, is_host,
    is_message_id, is_of_host, is_wildmat, number_of, range_of,
};

/// When dates with a year of two digits are read, in seconds since 1970.
const NOW: u64 = 1_000_000_000;

#[derive(Drop)]
pub struct NameTexts;

impl Area for NameTexts {
    /// `group TEXT`, `id TEXT`, `host TEXT`, `wildmat TEXT` and `description TEXT`: what the text is read as, and whether
    /// the plain check says that it is one.
    fn answer(
        &mut self,
        alloc: Global,
        call: &str,
        arguments: &mut Arguments<'_>,
        answer: &mut Answer,
    ) -> Result<(), RowError> {
        match call {
            "group" | "id" | "host" | "wildmat" | "description" => {
                let text = arguments.octets()?;
                answer_read(alloc, call, text.as_slice(), answer)?;
                answer.is(is_one(call, text.as_slice()))?;
                Ok(())
            }
            "dates" | "since" => answer_dates(alloc, call, arguments, answer),
            _ => answer_other(alloc, call, arguments, answer),
        }
    }
}

/// The octets of what a text is read as, or `bad`.
fn answer_read(
    alloc: Global,
    kind: &str,
    text: &[u8],
    answer: &mut Answer,
) -> Result<(), RowError> {
    match read_back(alloc, kind, text) {
        Ok(read) => answer.octets(read.as_slice())?,
        Err(NameError::Bad) => answer.word("bad")?,
        Err(NameError::Memory) => return Err(RowError::Memory),
    }
    Ok(())
}

/// The octets of what a text is read as.
fn read_back(alloc: Global, kind: &str, text: &[u8]) -> Result<Vec<u8>, NameError> {
    let read = match kind {
        "group" => GroupName::read(text)?.as_slice().to_vec(alloc),
        "id" => MessageId::read(alloc, text)?.as_slice().to_vec(alloc),
        "wildmat" => Wildmat::read(alloc, text)?.as_slice().to_vec(alloc),
        "description" => Description::read(alloc, text)?.as_slice().to_vec(alloc),
        _ if is_host(text) => text.to_vec(alloc),
        _ => return Err(NameError::Bad),
    };
    read.ok().ok_or(NameError::Memory)
}

/// Whether the plain check says that the text is of the kind.
fn is_one(kind: &str, text: &[u8]) -> bool {
    match kind {
        "group" => is_group_name(text),
        "id" => is_message_id(text),
        "wildmat" => is_wildmat(text),
        "description" => is_description(text),
        _ => is_host(text),
    }
}

/// `of_host HOST ID`, `number TEXT`, `range TEXT`, `matches WILDMAT NAME`.
fn answer_other(
    alloc: Global,
    call: &str,
    arguments: &mut Arguments<'_>,
    answer: &mut Answer,
) -> Result<(), RowError> {
    let text = arguments.octets()?;
    match call {
        "of_host" => answer.is(is_of_host(text.as_slice(), arguments.octets()?.as_slice()))?,
        "number" => answer.found(number_of(text.as_slice()))?,
        "range" => answer_range(range_of(text.as_slice()), answer)?,
        "matches" => {
            let name = arguments.octets()?;
            answer_match(alloc, text.as_slice(), name.as_slice(), answer)?;
        }
        _ => return Err(RowError::Unreadable),
    }
    Ok(())
}

fn answer_range(range: Option<Range>, answer: &mut Answer) -> Result<(), RowError> {
    match range {
        Some(Range { first, last }) => {
            answer.number(first)?;
            answer.found(last)?;
        }
        None => answer.word("bad")?,
    }
    Ok(())
}

fn answer_match(
    alloc: Global,
    wildmat: &[u8],
    name: &[u8],
    answer: &mut Answer,
) -> Result<(), RowError> {
    let name = match GroupName::read(name) {
        Ok(name) => name,
        Err(_) => return Err(RowError::Unreadable),
    };
    match Wildmat::read(alloc, wildmat) {
        Ok(wildmat) => answer.is(wildmat.matches(&name))?,
        Err(_) => return Err(RowError::Unreadable),
    }
    Ok(())
}

/// `dates MOMENT`: the reply to DATE and the content of Date. `since DATE TIME`: the moment.
fn answer_dates(
    alloc: Global,
    call: &str,
    arguments: &mut Arguments<'_>,
    answer: &mut Answer,
) -> Result<(), RowError> {
    if call == "since" {
        return answer_since(arguments, answer);
    }
    let moment = moment_at(arguments.number()?)?;
    answer.octets(date_reply(alloc, moment)?.as_slice())?;
    answer.octets(date_header(alloc, moment)?.as_slice())?;
    Ok(())
}

fn answer_since(arguments: &mut Arguments<'_>, answer: &mut Answer) -> Result<(), RowError> {
    let date = arguments.octets()?;
    let time = arguments.octets()?;
    match read_since(date.as_slice(), time.as_slice(), moment_at(NOW)?) {
        Ok(seconds) => answer.signed(seconds)?,
        Err(SinceError::Bad) => answer.word("bad")?,
    }
    Ok(())
}
