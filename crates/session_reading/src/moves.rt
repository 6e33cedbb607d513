//! NEXT and LAST.

ghost use Rattle.std.specs.Prelude.{◌≡◌, IfOk, Some};
ghost use Rattle.model.specs.Answer as answers;
ghost use Rattle.model.specs.Reads.{selected_reads};
ghost use Rattle.model.specs.Spool.{contents, last_naming};
ghost use Rattle.session_lookups.specs.Held.{article_of, article_with};
ghost use Rattle.session_replies.specs.Answered.{answered};
ghost use Rattle.session_reading.specs.Words.{current_of};

use crate::article_parts::{FOUND_ROOM, push_found};
use model::{Part, Session};
use session_lookups::{LookUps, counts_of, find_number};
use session_replies::{Answered, Reply, answer, at_number, says_line};
use std::alloc::{AllocError, Global};

/// NEXT (RFC 3977, section 6.1.4).
pub fn next<L: LookUps>(alloc: Global, spool: &L, session: &Session) -> Result<Answered, AllocError>
    ensures { IfOk result (λ r. r ≡ answered
        (answers.in_selected (L.changes spool.now) session.now session.now.group (λ g. answers.next_answer session.now))
        (selected_reads (L.changes spool.now) session.now.group)) }
{
    match &session.group {
        Some(group) => next_in(alloc, spool, session, group.as_slice()),
        None => says_line(alloc, session, Reply::NoGroupSelected, 0),
    }
}

/// LAST (RFC 3977, section 6.1.3).
pub fn last<L: LookUps>(alloc: Global, spool: &L, session: &Session) -> Result<Answered, AllocError>
    ensures { IfOk result (λ r. r ≡ answered
        (answers.in_selected (L.changes spool.now) session.now session.now.group (λ g. answers.last_answer session.now))
        (selected_reads (L.changes spool.now) session.now.group)) }
{
    match &session.group {
        Some(group) => last_in(alloc, spool, session, group.as_slice()),
        None => says_line(alloc, session, Reply::NoGroupSelected, 0),
    }
}

/// The current number, unless it is below the lowest.
fn current_of(current: Option<u64>, low: u64) -> Option<u64>
    ensures { result ≡ current_of current low }
{
    match current {
        Some(number) if low <= number => Some(number),
        _ => None,
    }
}

fn next_in<L: LookUps>(
    alloc: Global,
    spool: &L,
    session: &Session,
    group: &[u8],
) -> Result<Answered, AllocError>
    ensures { IfOk result (λ r. r ≡ answered (answers.next_answer session.now (contents (L.changes spool.now) group.now))
        (last_naming (L.changes spool.now) group.now)) }
{
    let counts = counts_of(spool, group);
    let Some(number) = current_of(session.current, counts.low) else {
        return says_line(alloc, session, Reply::NoCurrentArticle, counts.last);
    };
    if number >= counts.high {
        return says_line(alloc, session, Reply::NoNextArticle, counts.last);
    }
    match find_number(spool, group, number + 1) {
        Some(serial) => moved(alloc, spool, session, number + 1, serial, counts.last),
        None => says_line(alloc, session, Reply::NoNextArticle, counts.last),
    }
}

fn last_in<L: LookUps>(
    alloc: Global,
    spool: &L,
    session: &Session,
    group: &[u8],
) -> Result<Answered, AllocError>
    ensures { IfOk result (λ r. r ≡ answered (answers.last_answer session.now (contents (L.changes spool.now) group.now))
        (last_naming (L.changes spool.now) group.now)) }
{
    let counts = counts_of(spool, group);
    let Some(number) = current_of(session.current, counts.low) else {
        return says_line(alloc, session, Reply::NoCurrentArticle, counts.last);
    };
    let before = number.saturating_sub(1);
    match find_number(spool, group, before) {
        Some(serial) => moved(alloc, spool, session, before, serial, counts.last),
        None => says_line(alloc, session, Reply::NoPreviousArticle, counts.last),
    }
}

/// Makes the article under this number the current one.
fn moved<L: LookUps>(
    alloc: Global,
    spool: &L,
    session: &Session,
    number: u64,
    serial: u64,
    reads: u64,
) -> Result<Answered, AllocError>
    requires { article_with (L.changes spool.now) serial ≡ Some (article_of (L.changes spool.now) serial) }
    ensures { IfOk result (λ r. r ≡ answered (answers.moved_answer session.now number (article_of (L.changes spool.now) serial)) reads) }
{
    let mut reply = Vec::with_capacity(alloc, FOUND_ROOM)?;
    push_found(spool, &Part::Nothing, number, serial, &mut reply)?;
    Ok(answer(reply, at_number(alloc, session, number)?, reads))
}
