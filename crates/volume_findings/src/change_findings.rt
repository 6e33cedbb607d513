//! Checks the files of changes, as far as their sizes and their first octets show.

use crate::seen::Seen;
use crate::serials::Serials;
use disk::Disk;
use disk_numbers::{number32, number64};
use model::{MOMENT_LIMIT, Status};
use spool_records::{ARTICLE_COUNT_AT, ARTICLE_HEAD, ARTICLE_TEXT_AT, FileKind};
use std::alloc::Global;
use text_names::DESCRIPTION_LIMIT;
use volume_reading::{Grouped, ReadStop, ReadVolume, wrong, wrong_unless};

/// The octets before a group's description, and before the name of an expiry's group.
const GROUP_HEADER: usize = 17;

const EXPIRY_HEADER: usize = 13;

/// The offset of the moment of a group or an article, and that of a group's status.
const MOMENT_AT: usize = 8;

const STATUS_AT: usize = 16;

/// The offset of the size of the name in an expiry.
const NAME_SIZE_AT: usize = 12;

/// Checks the file of a group.
pub(crate) fn look_at_group<D: Disk>(
    volume: &mut ReadVolume<D>,
    file: &Seen<'_>,
    serials: &mut Serials,
) -> Result<(), ReadStop> {
    let serial = serial_in(volume.alloc, file, GROUP_HEADER)?;
    serials.note(volume, file, serial)?;
    look_at_moment(volume.alloc, file)?;
    look_at_status(volume.alloc, file)?;
    look_at_description(volume.alloc, file)
}

/// Checks the file of an article or an expiry, whose name states its serial.
pub(crate) fn look_at_numbered<D: Disk>(
    volume: &mut ReadVolume<D>,
    file: &Seen<'_>,
    kind: FileKind,
    named: u64,
    serials: &mut Serials,
) -> Result<(), ReadStop> {
    let alloc = volume.alloc;
    let is_article = kind == FileKind::Article;
    let header = if is_article {
        ARTICLE_HEAD
    } else {
        EXPIRY_HEADER
    };
    let serial = serial_in(alloc, file, header)?;
    wrong_unless!(alloc; serial == named, "{file} has serial {serial}");
    serials.note(volume, file, serial)?;
    if is_article {
        look_at_article(alloc, file)
    } else {
        look_at_size(alloc, file, expiry_size(file.head))
    }
}

/// Checks the moment and the size of an article.
fn look_at_article(alloc: Global, file: &Seen<'_>) -> Result<(), ReadStop> {
    look_at_moment(alloc, file)?;
    look_at_size(alloc, file, article_size(file.head))
}

/// The serial in the first octets of a change's file, which must have room for its header.
fn serial_in(alloc: Global, file: &Seen<'_>, header: usize) -> Result<u64, ReadStop> {
    let octets = file.head;
    wrong_unless!(alloc; octets.len() >= header, "{file} has {} octets, fewer than the {header} of its header", octets.len());
    number_in(octets, 0)
}

/// The number in the eight octets from a place on.
fn number_in(octets: &[u8], at: usize) -> Result<u64, ReadStop> {
    if octets.len() < 8 || octets.len() - 8 < at {
        return Err(ReadStop::Unseen);
    }
    Ok(number64(octets, at))
}

/// Checks the moment of a group or an article.
fn look_at_moment(alloc: Global, file: &Seen<'_>) -> Result<(), ReadStop> {
    let moment = number_in(file.head, MOMENT_AT)?;
    wrong_unless!(alloc; moment < MOMENT_LIMIT, "{file} has the moment {moment}, which isn't before the year 10000");
    Ok(())
}

/// Checks the status of a group.
fn look_at_status(alloc: Global, file: &Seen<'_>) -> Result<(), ReadStop> {
    let status = match file.head.get(STATUS_AT) {
        Some(octet) => Status::of(*octet),
        None => None,
    };
    wrong_unless!(alloc; status.is_some(), "{file} has a status that is neither y nor n");
    Ok(())
}

/// Checks the description of a group.
fn look_at_description(alloc: Global, file: &Seen<'_>) -> Result<(), ReadStop> {
    let size = file.size.saturating_sub(GROUP_HEADER as u64);
    wrong_unless!(alloc; size <= DESCRIPTION_LIMIT as u64,
        "{file} has a description of {} octets, where {DESCRIPTION_LIMIT} are the most", Grouped(size));
    let octets = file.head;
    for at in GROUP_HEADER..octets.len() {
        let octet = octets[at];
        wrong_unless!(alloc; b' ' <= octet && octet <= b'~', "octet {at} of {file} is {octet}, where a description has 32 to 126");
    }
    Ok(())
}

/// Checks that a file has the size that its header asks for, which is `None` if the header doesn't end in its first
/// octets.
fn look_at_size(alloc: Global, file: &Seen<'_>, wanted: Option<u64>) -> Result<(), ReadStop> {
    let size = Grouped(file.size);
    match wanted {
        Some(wanted) if wanted == file.size => Ok(()),
        Some(wanted) =>
            wrong!(alloc; "{file} has {size} octets, where its header asks for {}", Grouped(wanted)),
        None => wrong!(alloc; "{file} has {size} octets, in which its header doesn't end"),
    }
}

/// The size of an article's file by its header; `None` if the header doesn't end in these octets.
fn article_size(octets: &[u8]) -> Option<u64> {
    if octets.len() < ARTICLE_HEAD {
        return None;
    }
    let mut end = ARTICLE_HEAD;
    for _ in 0..octets[ARTICLE_COUNT_AT] {
        let name = *octets.get(end)?;
        end = end.saturating_add(1 + name as usize);
    }
    if octets.len() < end {
        return None;
    }
    let text = u64::from(number32(octets, ARTICLE_TEXT_AT));
    Some((end as u64).saturating_add(text))
}

/// The size of an expiry's file by its header; `None` if these octets have none.
fn expiry_size(octets: &[u8]) -> Option<u64> {
    let name = *octets.get(NAME_SIZE_AT)?;
    Some(EXPIRY_HEADER as u64 + u64::from(name))
}
