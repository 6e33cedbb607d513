//! Records of a spool, written and read back, and the names of their files.

use crate::moments::moment_at;
use model::{Envelope, Names, NewGroup, Status, Text};
use spool_records::{
    ArticleRecord, FileKind, article_record, expiry_record, file_name, group_record, kind_of,
    number_record, read_article, read_expiry, read_group, serial_digits, serial_of,
};
use std::alloc::{AllocError, Global};
use test_support_data::{Answer, Area, Arguments, RowError};

/// A length of one octet in a record is below this.
const SHORT: usize = 256;

#[derive(Drop)]
pub struct Files;

impl Area for Files {
    fn answer(
        &mut self,
        alloc: Global,
        call: &str,
        arguments: &mut Arguments<'_>,
        answer: &mut Answer,
    ) -> Result<(), RowError> {
        match call {
            "file_name" => answer_file_name(alloc, arguments, answer),
            "digits" => Ok(answer.octets(serial_digits(arguments.number()?).as_slice())?),
            "group" => answer_group(alloc, arguments, answer),
            "article" => answer_article(alloc, arguments, answer),
            "expiry" => answer_expiry(alloc, arguments, answer),
            "number" => answer_number(arguments, answer),
            _ => answer_read(alloc, call, arguments.octets()?.as_slice(), answer),
        }
    }
}

/// `kind_of NAME`, `serial_of DIGITS`, `read_group RECORD`, `read_article RECORD`, `read_expiry RECORD`.
fn answer_read(
    alloc: Global,
    call: &str,
    octets: &[u8],
    answer: &mut Answer,
) -> Result<(), RowError> {
    match call {
        "kind_of" => answer_kind(octets, answer)?,
        "serial_of" => answer.found(serial_of(octets))?,
        "read_group" => answer_read_group(octets, answer)?,
        "read_article" => answer_read_article(alloc, octets, answer)?,
        "read_expiry" => answer_read_expiry(octets, answer)?,
        _ => return Err(RowError::Unreadable),
    }
    Ok(())
}

/// `file_name KIND REST`.
fn answer_file_name(
    alloc: Global,
    arguments: &mut Arguments<'_>,
    answer: &mut Answer,
) -> Result<(), RowError> {
    let kind = match arguments.word()? {
        "Group" => FileKind::Group,
        "Numbers" => FileKind::Numbers,
        "Overview" => FileKind::Overview,
        "Article" => FileKind::Article,
        "Expiry" => FileKind::Expiry,
        _ => return Err(RowError::Unreadable),
    };
    let rest = arguments.octets()?;
    Ok(answer.octets(file_name(alloc, kind, rest.as_slice())?.as_slice())?)
}

fn answer_kind(name: &[u8], answer: &mut Answer) -> Result<(), AllocError> {
    match kind_of(name) {
        Some((kind, rest)) => {
            answer.shown(&kind)?;
            answer.octets(rest)
        }
        None => answer.word("none"),
    }
}

/// `group SERIAL MOMENT STATUS DESCRIPTION`.
fn answer_group(
    alloc: Global,
    arguments: &mut Arguments<'_>,
    answer: &mut Answer,
) -> Result<(), RowError> {
    let serial = arguments.number()?;
    let group = read_new_group(alloc, arguments)?;
    let record = group_record(alloc, serial, &group)?;
    Ok(answer.octets(record.as_slice())?)
}

/// `MOMENT STATUS DESCRIPTION`.
fn read_new_group(alloc: Global, arguments: &mut Arguments<'_>) -> Result<NewGroup, RowError> {
    let moment = moment_at(arguments.number()?)?;
    let status = status_of(arguments.word()?)?;
    Ok(NewGroup {
        name: Text::new(Vec::new(alloc)),
        status,
        description: Text::new(arguments.octets()?),
        moment,
    })
}

/// The status for which a word stands.
fn status_of(word: &str) -> Result<Status, RowError> {
    match word {
        "y" => Ok(Status::Open),
        "n" => Ok(Status::Closed),
        _ => Err(RowError::Unreadable),
    }
}

fn answer_read_group(octets: &[u8], answer: &mut Answer) -> Result<(), AllocError> {
    match read_group(octets) {
        Some(read) => {
            answer.number(read.serial)?;
            answer.number(read.moment)?;
            answer.plain(&[read.status])?;
            answer.octets(read.description)
        }
        None => answer.word("none"),
    }
}

/// `article SERIAL MOMENT TEXT GROUP ..`.
fn answer_article(
    alloc: Global,
    arguments: &mut Arguments<'_>,
    answer: &mut Answer,
) -> Result<(), RowError> {
    let serial = arguments.number()?;
    let (envelope, text) = read_filing(alloc, arguments)?;
    match article(alloc, serial, &envelope, text.as_slice())? {
        Some(record) => Ok(answer.octets(record.as_slice())?),
        None => Err(RowError::Unreadable),
    }
}

/// `MOMENT TEXT GROUP ..`.
fn read_filing(
    alloc: Global,
    arguments: &mut Arguments<'_>,
) -> Result<(Envelope, Vec<u8>), RowError> {
    let moment = moment_at(arguments.number()?)?;
    let text = arguments.octets()?;
    let groups = read_names(alloc, arguments)?;
    Ok((Envelope { groups, moment }, text))
}

/// The names that the further arguments are.
pub fn read_names(alloc: Global, arguments: &mut Arguments<'_>) -> Result<Names, RowError> {
    let mut names = Vec::new(alloc);
    for _ in 0..arguments.len() {
        names.push(Text::new(arguments.octets()?))?;
    }
    Ok(Names::new(names))
}

/// The record of an article; `None` if a length does not fit into it.
fn article(
    alloc: Global,
    serial: u64,
    envelope: &Envelope,
    text: &[u8],
) -> Result<Option<Vec<u8>>, AllocError> {
    let groups = envelope.groups.as_slice();
    if u32::MAX as usize <= text.len() || SHORT <= groups.len() {
        return Ok(None);
    }
    if !groups.iter().all(|group| group.as_slice().len() < SHORT) {
        return Ok(None);
    }
    Ok(Some(article_record(alloc, serial, envelope, text)?))
}

fn answer_read_article(
    alloc: Global,
    octets: &[u8],
    answer: &mut Answer,
) -> Result<(), AllocError> {
    match read_article(alloc, octets)? {
        Some(read) => answer_record(&read, answer),
        None => answer.word("none"),
    }
}

fn answer_record(read: &ArticleRecord<'_>, answer: &mut Answer) -> Result<(), AllocError> {
    answer.number(read.serial)?;
    answer.number(read.envelope.moment.seconds())?;
    answer.octets(read.text)?;
    for group in read.envelope.groups.as_slice() {
        answer.octets(group.as_slice())?;
    }
    Ok(())
}

/// `expiry SERIAL GROUP NUMBER`.
fn answer_expiry(
    alloc: Global,
    arguments: &mut Arguments<'_>,
    answer: &mut Answer,
) -> Result<(), RowError> {
    let serial = arguments.number()?;
    let group = arguments.octets()?;
    let number = arguments.small()?;
    if SHORT <= group.len() {
        return Err(RowError::Unreadable);
    }
    let record = expiry_record(alloc, serial, group.as_slice(), number)?;
    Ok(answer.octets(record.as_slice())?)
}

fn answer_read_expiry(octets: &[u8], answer: &mut Answer) -> Result<(), AllocError> {
    match read_expiry(octets) {
        Some(read) => {
            answer.number(read.serial)?;
            answer.octets(read.group)?;
            answer.number(u64::from(read.number))
        }
        None => answer.word("none"),
    }
}

/// `number SERIAL OFFSET LINE`.
fn answer_number(arguments: &mut Arguments<'_>, answer: &mut Answer) -> Result<(), RowError> {
    let serial = arguments.number()?;
    let offset = arguments.small()?;
    let line = arguments.octets()?;
    if u32::MAX as usize <= line.len() {
        return Err(RowError::Unreadable);
    }
    let record = number_record(serial, offset, line.as_slice());
    Ok(answer.octets(record.as_slice())?)
}
