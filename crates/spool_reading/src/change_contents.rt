//! The contents of the files of changes.

ghost use Rattle.std.specs.Prelude.{◌≡◌, ◌^◌, ◌<◌, ◌++◌, ◌↔◌, length, codes, IfOk, IsTrue, MatchOption};
ghost use Rattle.model.specs.Records.{last_digits};
ghost use Rattle.model.specs.SpoolFiles.{group_name};
ghost use Rattle.model.specs.declared.change.Change.{Change};
ghost use Rattle.spool_reading.specs.StoredChanges.{IsFileOf, change_of};

use model::{Envelope, Moment, NewGroup, Status, Text};
use spool_records::{FileKind, kind_of, read_article, read_expiry, read_group, serial_digits};
use std::alloc::{AllocError, Global};

/// The contents of a change's file.
#[derive(Drop)]
pub enum StoredChange<'a> {
    Group(NewGroup),
    Article { text: &'a [u8], envelope: Envelope },
    Expiry { group: &'a [u8], number: u32 },
}

/// The contents of the file with this name, if it is that of the change with this serial and the change's moment is
/// before the year 10000. Refused only for want of memory.
pub fn read_change<'a>(
    alloc: Global,
    name: &'a [u8],
    content: &'a [u8],
    serial: u64,
) -> Result<Option<StoredChange<'a>>, AllocError>
    requires { length content.now < 2 ^ 32 }
    ensures { IfOk result (λ said. MatchOption said
        ((c : Change) → IsFileOf serial c name.now content.now → ⊥)
        (λ s. IsFileOf serial (change_of s) name.now content.now)) }
{
    match kind_of(name) {
        Some((FileKind::Group, group)) => group_said(alloc, group, content, serial),
        Some((FileKind::Article, digits)) => article_said(alloc, digits, content, serial),
        Some((FileKind::Expiry, digits)) => Ok(expiry_said(digits, content, serial)),
        Some((FileKind::Numbers, _)) => Ok(None),
        Some((FileKind::Overview, _)) => Ok(None),
        None => Ok(None),
    }
}

/// The contents of a group's file.
fn group_said<'a>(
    alloc: Global,
    group: &'a [u8],
    content: &'a [u8],
    serial: u64,
) -> Result<Option<StoredChange<'a>>, AllocError>
    ensures { IfOk result (λ said. MatchOption said
        ((c : Change) → IsFileOf serial c (group_name group.now) content.now → ⊥)
        (λ s. IsFileOf serial (change_of s) (group_name group.now) content.now)) }
{
    let Some(said) = read_group(content) else {
        return Ok(None);
    };
    if said.serial != serial {
        return Ok(None);
    }
    let Some(status) = Status::of(said.status) else {
        return Ok(None);
    };
    let Some(moment) = Moment::at(said.moment) else {
        return Ok(None);
    };
    Ok(Some(StoredChange::Group(NewGroup {
        name: Text::new(Vec::from_slice(alloc, group)?),
        status,
        description: Text::new(Vec::from_slice(alloc, said.description)?),
        moment,
    })))
}

/// The contents of the file of an article whose name has these digits.
fn article_said<'a>(
    alloc: Global,
    digits: &'a [u8],
    content: &'a [u8],
    serial: u64,
) -> Result<Option<StoredChange<'a>>, AllocError>
    requires { length content.now < 2 ^ 32 }
    ensures { IfOk result (λ said. MatchOption said
        ((c : Change) → IsFileOf serial c (codes "a." ++ digits.now) content.now → ⊥)
        (λ s. IsFileOf serial (change_of s) (codes "a." ++ digits.now) content.now)) }
{
    if !is_serial(digits, serial) {
        return Ok(None);
    }
    let Some(said) = read_article(alloc, content)? else {
        return Ok(None);
    };
    if said.serial != serial {
        return Ok(None);
    }
    Ok(Some(StoredChange::Article {
        text: said.text,
        envelope: said.envelope,
    }))
}

/// The contents of the file of an expiry whose name has these digits.
fn expiry_said<'a>(digits: &'a [u8], content: &'a [u8], serial: u64) -> Option<StoredChange<'a>>
    ensures { MatchOption result
        ((c : Change) → IsFileOf serial c (codes "x." ++ digits.now) content.now → ⊥)
        (λ s. IsFileOf serial (change_of s) (codes "x." ++ digits.now) content.now) }
{
    if !is_serial(digits, serial) {
        return None;
    }
    let Some(said) = read_expiry(content) else {
        return None;
    };
    if said.serial != serial {
        return None;
    }
    Some(StoredChange::Expiry {
        group: said.group,
        number: said.number,
    })
}

/// Whether these are the digits of a serial in a file's name.
fn is_serial(digits: &[u8], serial: u64) -> bool
    ensures { IsTrue result ↔ (digits.now ≡ last_digits 10 serial) }
{
    digits == serial_digits(serial).as_slice()
}
