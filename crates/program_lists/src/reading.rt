//! Reads a list.

ghost use Rattle.std.specs.Prelude.{◌≡◌, IfOk, IfErr, None, Some, map, option_map};
ghost use Rattle.program_lists.specs.Lists.{asked, asked_of, fault_of, first_about, is_skipped, listed_from, request_of, said, status_of};
ghost use Rattle.program_lists.specs.Lists.{told_by};

use crate::faults::ListFault;
use crate::lines::{Active, read_about, read_active};
use model::{Moment, Status};
use program_script::{is_blank, status};
use std::alloc::{AllocError, Global};
use text_names::{Description, GROUP_NAME_LIMIT, GroupName, GroupRequest, NameError};

/// The description of a group that has none in the list, as INN words it.
const NO_DESCRIPTION: &[u8] = b"No description.";

/// What a line of a list asks for.
#[derive(Drop)]
pub struct Listed {
    /// The number of the line, from 1.
    pub line: u64,
    /// The group that it asks for, or why it asks for none.
    pub asked: Result<GroupRequest, ListFault>,
}

/// What the lines of a list ask for, at this moment (docs/FORMATS.md). A line `NAME HIGH LOW FLAG` asks for a group. Its description is
/// that of the first line `NAME<TAB>DESCRIPTION` with the same name, wherever it stands, and `No description.` if there is none.
/// Such a line asks for nothing by itself, nor does a blank line or one that begins with `#`.
pub fn read_list(alloc: Global, lines: &[&[u8]], moment: Moment) -> Result<Vec<Listed>, AllocError>
    ensures { IfOk result (λ listed. let texts = map (λ line. line.now) lines.now in
        map said listed.items ≡ listed_from texts moment 1 texts) }
{
    let mut listed = Vec::new(alloc);
    'lines: for place in 0..lines.len() {
        if let Some(asked) = asked_by(alloc, lines, lines[place], moment)? {
            listed.push(Listed {
                line: place as u64 + 1,
                asked,
            })?;
        }
    }
    Ok(listed)
}

/// What a line of a list asks for. `None` if it asks for nothing.
fn asked_by(
    alloc: Global,
    lines: &[&[u8]],
    line: &[u8],
    moment: Moment,
) -> Result<Option<Result<GroupRequest, ListFault>>, AllocError>
    ensures { IfOk result (λ found. option_map asked found ≡ asked_of (map (λ line. line.now) lines.now) moment line.now) }
{
    if is_skipped(line) || read_about(line).is_some() {
        return Ok(None);
    }
    let Some(active) = read_active(line) else {
        return Ok(Some(Err(ListFault::NoLine)));
    };
    let description = first_about(lines, active.name).unwrap_or(NO_DESCRIPTION);
    match request(alloc, active, description, moment) {
        Ok(asked) => Ok(Some(asked)),
        Err(error) => Err(error),
    }
}

/// Whether a line says nothing: it is blank, or a comment.
fn is_skipped(line: &[u8]) -> bool
    ensures { result ≡ is_skipped line.now }
{
    is_blank(line) || matches!(line, [b'#', ..])
}

/// The description of the first line that describes a group of this name.
fn first_about<'t>(lines: &[&'t [u8]], name: &[u8]) -> Option<&'t [u8]>
    ensures { option_map (λ text. text.now) result ≡ first_about (map (λ line. line.now) lines.now) name.now }
{
    'lines: for place in 0..lines.len() {
        if let Some(description) = told_by(lines[place], name) {
            return Some(description);
        }
    }
    None
}

/// The description in a line that describes a group of this name.
fn told_by<'t>(line: &'t [u8], name: &[u8]) -> Option<&'t [u8]>
    ensures { option_map (λ text. text.now) result ≡ told_by name.now line.now }
{
    let about = read_about(line)?;
    if about.name == name {
        return Some(about.description);
    }
    None
}

/// The group that a line of `active` asks for, with this description, or why it asks for none.
fn request(
    alloc: Global,
    active: Active<'_>,
    description: &[u8],
    moment: Moment,
) -> Result<Result<GroupRequest, ListFault>, AllocError>
    ensures { IfOk result (λ found. asked found ≡ request_of active.entry.name.now active.entry.flag.now description.now moment) }
{
    let (name, status) = match wanted(active) {
        Ok(wanted) => wanted,
        Err(fault) => return Ok(Err(fault)),
    };
    if is_blank(description) {
        return Ok(Err(ListFault::NoDescription));
    }
    match Description::read(alloc, description) {
        Ok(description) => Ok(Ok(GroupRequest {
            name,
            status,
            description,
            moment,
        })),
        Err(NameError::Bad) => Ok(Err(ListFault::NoDescription)),
        Err(NameError::Memory) => Err(AllocError),
    }
}

/// The name and the status of a line of `active`, or why it makes no group.
fn wanted(active: Active<'_>) -> Result<(GroupName, Status), ListFault>
    ensures ok { IfOk result (λ wanted. (fault_of active.entry.name.now active.entry.flag.now ≡ None) × (wanted.0 ≡ active.entry.name.now)
        × (status_of active.entry.flag.now ≡ Some wanted.1)) }
    ensures err { IfErr result (λ fault. fault_of active.entry.name.now active.entry.flag.now ≡ Some fault) }
{
    if active.name.len() > GROUP_NAME_LIMIT {
        return Err(ListFault::LongName);
    }
    let Ok(name) = GroupName::read(active.name) else {
        return Err(ListFault::NoName);
    };
    if active.flag == b"m".as_slice() {
        return Err(ListFault::Moderated);
    }
    match status(active.flag) {
        Some(status) => Ok((name, status)),
        None => Err(ListFault::OtherFlag),
    }
}
