//! GROUP and LISTGROUP.

ghost use Rattle.std.specs.Prelude.{◌≡◌, ◌+◌, ◌-◌, ◌++◌, ◌≤◌, IfOk, OnOk};
ghost use Rattle.model.specs.Answer as answers;
ghost use Rattle.model.specs.Reads.{group_reads, numbers_reads, selected_reads};
ghost use Rattle.model.specs.Spool.{contents, contents_if_here, last_naming};
ghost use Rattle.session_lookups.specs.Held.{IsCounts};
ghost use Rattle.session_replies.specs.Answered.{answered, replied_with, with_group};
ghost use Rattle.session_reading.specs.Words.{counted};

use crate::ranges::{self, numbers_in};
use kernel_outbox::Outgoing;
use model::{Range, Session, Text};
use session_lookups::{Counts, LookUps, counts_of, find_group};
use session_replies::{Answered, Reply, outgoing, push_line, push_spaced, says_line, selecting};
use std::alloc::{AllocError, Global};

/// The most octets that the first line of a reply has besides the group's name: `211`, three numbers, ` list follows`
/// and CRLF.
const WORDS: usize = 82;

/// The number of articles in a group with these counts.
fn count(counts: Counts) -> u64
    requires { 1 ≤ counts.low }
    ensures { result ≡ counts.high + 1 - counts.low }
{
    if counts.low > counts.high {
        return 0;
    }
    counts.high - counts.low + 1
}

/// A copy of a name.
fn copied(alloc: Global, name: &[u8]) -> Result<Text, AllocError>
    ensures { IfOk result (λ copy. copy ≡ name.now) }
{
    Ok(Text::new(name.to_vec(alloc)?))
}

/// Appends `211`, the count, the lowest and the highest number, and the name.
fn push_counted(reply: &mut Vec<u8>, counts: Counts, group: &[u8]) -> Result<(), AllocError>
    requires { 1 ≤ counts.low }
    ensures { OnOk result (reply.new.items ≡ reply.old.items ++ counted counts.low counts.high group.now) }
{
    reply.extend_from_slice(b"211")?;
    push_spaced(reply, count(counts))?;
    push_spaced(reply, counts.low)?;
    push_spaced(reply, counts.high)?;
    reply.extend_from_slice(b" ")?;
    reply.extend_from_slice(group)
}

/// A reply that selects the group with these counts, and reads the group.
fn selects(
    alloc: Global,
    session: &Session,
    group: Text,
    counts: Counts,
    reply: Outgoing,
) -> Result<Answered, AllocError>
    requires { 1 ≤ counts.low }
    ensures { IfOk result (λ r. r ≡ replied_with reply (with_group session.now group counts.low (counts.high + 1 - counts.low))
        counts.last) }
{
    let next = selecting(alloc, session, group, counts.low, count(counts))?;
    Ok(outgoing(reply, next, counts.last))
}

/// GROUP (RFC 3977, section 6.1.1). The session takes the name.
pub fn group<L: LookUps>(
    alloc: Global,
    spool: &L,
    session: &Session,
    group: Text,
) -> Result<Answered, AllocError>
    ensures { IfOk result (λ r. r ≡ answered
        (answers.if_here session.now (contents_if_here (L.changes spool.now) group) (answers.group_answer session.now group))
        (group_reads (L.changes spool.now) group)) }
{
    match find_group(spool, group.as_slice()) {
        Some(found) => selected(alloc, spool, session, group, found.counts),
        None => says_line(alloc, session, Reply::NoSuchGroup, 0),
    }
}

fn selected<L: LookUps>(
    alloc: Global,
    spool: &L,
    session: &Session,
    group: Text,
    counts: Counts,
) -> Result<Answered, AllocError>
    requires { IsCounts (L.changes spool.now) group counts }
    ensures { IfOk result (λ r. r ≡ answered (answers.group_answer session.now group (contents (L.changes spool.now) group))
        (last_naming (L.changes spool.now) group)) }
{
    let name = group.as_slice();
    let mut reply = Vec::with_capacity(alloc, name.len().saturating_add(WORDS))?;
    push_counted(&mut reply, counts, name)?;
    reply.extend_from_slice(b"\r\n")?;
    selects(alloc, session, group, counts, Outgoing::whole(reply))
}

/// LISTGROUP of the named group, or of the selected one where none is named (RFC 3977, section 6.1.2).
pub fn list_group<L: LookUps>(
    alloc: Global,
    spool: &L,
    session: &Session,
    group: &Option<Text>,
    range: &Range,
) -> Result<Answered, AllocError>
    ensures { IfOk result (λ r. r ≡ answered (answers.numbers_answer (L.changes spool.now) session.now range.now group.now)
        (numbers_reads (L.changes spool.now) session.now group.now)) }
{
    match group {
        Some(group) => list_named(alloc, spool, session, group.as_slice(), range),
        None => list_selected(alloc, spool, session, range),
    }
}

fn list_named<L: LookUps>(
    alloc: Global,
    spool: &L,
    session: &Session,
    group: &[u8],
    range: &Range,
) -> Result<Answered, AllocError>
    ensures { IfOk result (λ r. r ≡ answered
        (answers.if_here session.now (contents_if_here (L.changes spool.now) group.now)
        (answers.listgroup_answer session.now range.now group.now)) (group_reads (L.changes spool.now) group.now)) }
{
    match find_group(spool, group) {
        Some(found) => numbered(alloc, spool, session, group, range, found.counts),
        None => says_line(alloc, session, Reply::NoSuchGroup, 0),
    }
}

fn list_selected<L: LookUps>(
    alloc: Global,
    spool: &L,
    session: &Session,
    range: &Range,
) -> Result<Answered, AllocError>
    ensures { IfOk result (λ r. r ≡ answered
        (answers.in_selected (L.changes spool.now) session.now session.now.group (answers.listgroup_answer session.now range.now))
        (selected_reads (L.changes spool.now) session.now.group)) }
{
    match &session.group {
        Some(group) => {
            let counts = counts_of(spool, group.as_slice());
            numbered(alloc, spool, session, group.as_slice(), range, counts)
        }
        None => says_line(alloc, session, Reply::NoGroupSelected, 0),
    }
}

fn numbered<L: LookUps>(
    alloc: Global,
    spool: &L,
    session: &Session,
    group: &[u8],
    range: &Range,
    counts: Counts,
) -> Result<Answered, AllocError>
    requires { IsCounts (L.changes spool.now) group.now counts }
    ensures { IfOk result (λ r. r ≡ answered
        (answers.listgroup_answer session.now range.now group.now (contents (L.changes spool.now) group.now))
        (last_naming (L.changes spool.now) group.now)) }
{
    let mut reply = Vec::with_capacity(alloc, group.len().saturating_add(WORDS))?;
    push_counted(&mut reply, counts, group)?;
    push_line(&mut reply, b" list follows")?;
    let numbers = numbers_in(range, counts);
    let reply = Outgoing::numbered(reply, numbers.first, ranges::count(numbers))?;
    let name = copied(alloc, group)?;
    selects(alloc, session, name, counts, reply)
}
