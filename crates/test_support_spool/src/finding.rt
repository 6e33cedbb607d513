//! Look-ups in a spool. Each call checks its own preconditions, and has no contract.

use kernel_outbox::{LONGEST_LINE, RELEASE_OCTETS, Source};
use model::Part;
use session_lookups::{LookUps, counts_of, find_id};
use spool::Spool;
use std::alloc::{AllocError, Global};
use text_names::is_wildmat;

/// The octets of the line that ends a block.
const END_OF_BLOCK: usize = 3;

/// The question that is asked.
#[derive(Clone, Copy)]
pub enum Asked<'a> {
    Len,
    Blocks,
    Inodes,
    GroupCount,
    /// The serial of the group at a place.
    At(usize),
    Serial(&'a str),
    Status(&'a str),
    Made(&'a str),
    Low(&'a str),
    High(&'a str),
    Last(&'a str),
    ByNumber(&'a str, u64),
    ById(&'a str),
    ExpiredAt(&'a str, u64),
    GoneAt(u64),
    Moment(u64),
}

/// What a look-up finds; `None` if it finds nothing, or if its preconditions do not hold.
pub fn find(spool: &Spool, asked: Asked<'_>) -> Option<u64> {
    match asked {
        Asked::Len => Some(spool.len()),
        Asked::Blocks => Some(u64::from(spool.blocks())),
        Asked::Inodes => Some(u64::from(spool.inodes())),
        Asked::GroupCount => Some(spool.group_count() as u64),
        Asked::At(place) => at(spool, place),
        Asked::ByNumber(name, number) => spool.by_number(name.as_bytes(), number),
        Asked::ById(id) => spool.by_id(id.as_bytes()),
        Asked::ExpiredAt(name, number) => Some(spool.expired_at(name.as_bytes(), number)),
        Asked::GoneAt(serial) => spool.gone_at(serial),
        Asked::Moment(serial) => spool.moment(serial),
        of_group => find_in_group(spool, of_group),
    }
}

fn at(spool: &Spool, place: usize) -> Option<u64> {
    if place >= spool.group_count() {
        return None;
    }
    Some(spool.group_at(place).serial)
}

fn find_in_group(spool: &Spool, asked: Asked<'_>) -> Option<u64> {
    match asked {
        Asked::Serial(name) => Some(spool.group(name.as_bytes())?.serial),
        Asked::Status(name) => Some(u64::from(spool.group(name.as_bytes())?.status.octet())),
        Asked::Made(name) => Some(spool.group(name.as_bytes())?.moment),
        Asked::Low(name) => Some(spool.group(name.as_bytes())?.low),
        Asked::High(name) => Some(spool.group(name.as_bytes())?.high),
        Asked::Last(name) => Some(spool.group(name.as_bytes())?.last),
        _ => None,
    }
}

/// A text that is asked for.
#[derive(Clone, Copy)]
pub enum Sought<'a> {
    Host,
    Name(&'a str),
    Description(&'a str),
    /// The id, the parts and the overview line, with the number 7, of the article with an id.
    Id(&'a str),
    Whole(&'a str),
    Head(&'a str),
    Body(&'a str),
    Nothing(&'a str),
    Line(&'a str),
    /// The overview lines of a group from one number to another.
    Lines(&'a str, u64, u64),
    /// The lines of the articles that are in a group whose name the wildmat matches and that were filed at a moment or
    /// later.
    New(&'a str, i64),
}

/// A text; `None` if nothing is found, or if the look-up's preconditions do not hold.
pub fn text_of(
    alloc: Global,
    spool: &Spool,
    sought: Sought<'_>,
) -> Result<Option<Vec<u8>>, AllocError> {
    let mut text = Vec::new(alloc);
    let found = match sought {
        Sought::Host => {
            text.extend_from_slice(spool.host())?;
            true
        }
        Sought::Name(name) => push_name(spool, name.as_bytes(), &mut text)?,
        Sought::Description(name) => push_description(spool, name.as_bytes(), &mut text)?,
        Sought::Lines(name, from, to) => push_lines(spool, name.as_bytes(), from, to, &mut text)?,
        Sought::New(wildmat, from) => push_new(spool, wildmat.as_bytes(), from, &mut text)?,
        of_article => push_of_article(spool, of_article, &mut text)?,
    };
    if found { Ok(Some(text)) } else { Ok(None) }
}

fn push_name(spool: &Spool, name: &[u8], text: &mut Vec<u8>) -> Result<bool, AllocError> {
    let Some(view) = spool.group(name) else {
        return Ok(false);
    };
    text.extend_from_slice(view.name)?;
    Ok(true)
}

fn push_description(spool: &Spool, name: &[u8], text: &mut Vec<u8>) -> Result<bool, AllocError> {
    let Some(view) = spool.group(name) else {
        return Ok(false);
    };
    text.extend_from_slice(view.description)?;
    Ok(true)
}

/// The overview lines, if they are made at once, without the line that ends the block.
fn push_lines(
    spool: &Spool,
    name: &[u8],
    from: u64,
    to: u64,
    text: &mut Vec<u8>,
) -> Result<bool, AllocError> {
    let counts = counts_of(spool, name);
    if from < counts.low || to < from || counts.high < to || text.len() > RELEASE_OCTETS {
        return Ok(false);
    }
    text.reserve(RELEASE_OCTETS + LONGEST_LINE)?;
    let rest = spool.make_some(spool.overview_lines(name, from, to), text);
    let end = text.len().saturating_sub(END_OF_BLOCK);
    text.truncate(end);
    Ok(rest.is_none())
}

fn push_new(
    spool: &Spool,
    wildmat: &[u8],
    from: i64,
    text: &mut Vec<u8>,
) -> Result<bool, AllocError> {
    if !is_wildmat(wildmat) {
        return Ok(false);
    }
    spool.push_new_ids(wildmat, from, text)?;
    Ok(true)
}

fn push_of_article(
    spool: &Spool,
    sought: Sought<'_>,
    text: &mut Vec<u8>,
) -> Result<bool, AllocError> {
    match sought {
        Sought::Id(id) => push_id(spool, id.as_bytes(), text),
        Sought::Whole(id) => push_part(spool, id.as_bytes(), &Part::Whole, text),
        Sought::Head(id) => push_part(spool, id.as_bytes(), &Part::Head, text),
        Sought::Body(id) => push_part(spool, id.as_bytes(), &Part::Body, text),
        Sought::Nothing(id) => push_part(spool, id.as_bytes(), &Part::Nothing, text),
        Sought::Line(id) => push_line(spool, id.as_bytes(), text),
        _ => Ok(false),
    }
}

fn push_id(spool: &Spool, id: &[u8], text: &mut Vec<u8>) -> Result<bool, AllocError> {
    let Some(serial) = find_id(spool, id) else {
        return Ok(false);
    };
    spool.push_id(serial, text)?;
    Ok(true)
}

fn push_part(
    spool: &Spool,
    id: &[u8],
    part: &Part,
    text: &mut Vec<u8>,
) -> Result<bool, AllocError> {
    let Some(serial) = find_id(spool, id) else {
        return Ok(false);
    };
    spool.push_part(part, serial, text)?;
    Ok(true)
}

fn push_line(spool: &Spool, id: &[u8], text: &mut Vec<u8>) -> Result<bool, AllocError> {
    let Some(serial) = find_id(spool, id) else {
        return Ok(false);
    };
    spool.push_overview(serial, 7, text)?;
    Ok(true)
}
