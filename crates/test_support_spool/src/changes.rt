//! The changes of a spool, as they are read back.

use crate::changing::MOMENT;
use crate::sent::Sent;
use model::{Change, Names, Status, Text};
use session_lookups::LookUps;
use spool::Spool;
use std::alloc::{AllocError, Global};

/// The expected change.
#[derive(Clone, Copy)]
pub enum Wanted<'a> {
    /// A group with this status and this description.
    Group(&'a str, Status, &'a str),
    /// An article as it was sent, filed in these groups, with a space between two of them.
    Article(Sent<'a>, &'a str),
    Expiry(&'a str, u64),
}

/// Whether the change with a serial is this one; `None` if there is no such change.
pub fn is_change(
    alloc: Global,
    spool: &Spool,
    serial: u64,
    wanted: &Wanted<'_>,
) -> Result<Option<bool>, AllocError> {
    if serial < 1 || spool.len() < serial {
        return Ok(None);
    }
    let change = spool.change(serial)?;
    Ok(Some(is_wanted(alloc, &change, wanted)?))
}

fn is_wanted(alloc: Global, change: &Change, wanted: &Wanted<'_>) -> Result<bool, AllocError> {
    match (change, wanted) {
        (Change::Group(group), Wanted::Group(name, status, description)) => Ok(
            is_text(&group.name, name)
                && is_text(&group.description, description)
                && group.status == *status
                && group.moment.seconds() == MOMENT,
        ),
        (Change::Article(filing), Wanted::Article(sent, groups)) => {
            let octets = sent.text(alloc)?;
            let are_filed = are_names(alloc, &filing.envelope.groups, groups)?;
            Ok(
                filing.text.as_slice() == octets.as_slice()
                    && are_filed
                    && filing.envelope.moment.seconds() == MOMENT,
            )
        }
        (Change::Expire(expiry), Wanted::Expiry(group, number)) => {
            Ok(is_text(&expiry.group, group) && expiry.number == *number)
        }
        _ => Ok(false),
    }
}

fn is_text(text: &Text, wanted: &str) -> bool {
    text.as_slice() == wanted.as_bytes()
}

/// Whether these are the names, with a space between two of them.
fn are_names(alloc: Global, names: &Names, wanted: &str) -> Result<bool, AllocError> {
    let mut text = Vec::new(alloc);
    for name in names.as_slice() {
        if !text.is_empty() {
            text.extend_from_slice(b" ")?;
        }
        text.extend_from_slice(name.as_slice())?;
    }
    Ok(text.as_slice() == wanted.as_bytes())
}
