//! ARTICLE, HEAD, BODY and STAT.

ghost use Rattle.std.specs.Prelude.{◌≡◌, IfOk, Some};
ghost use Rattle.model.specs.Answer as answers;
ghost use Rattle.model.specs.Reads.{current_reads, fetch_reads, id_reads, number_reads, selected_number_reads};
ghost use Rattle.model.specs.Spool.{by_id, by_number, contents, here_by_id};
ghost use Rattle.session_lookups.specs.Held.{article_of, article_with};
ghost use Rattle.session_replies.specs.Answered.{answered};

use crate::article_parts::{FOUND_ROOM, push_part};
use model::{Part, Selector, Session};
use session_lookups::{LookUps, locate_id, locate_number};
use session_replies::{Answered, Reply, answer, at_number, says, says_line};
use std::alloc::{AllocError, Global};

/// ARTICLE, HEAD, BODY and STAT, of the article that they ask for (RFC 3977, sections 6.2.1 to 6.2.4).
pub fn fetch<L: LookUps>(
    alloc: Global,
    spool: &L,
    session: &Session,
    part: &Part,
    selector: &Selector,
) -> Result<Answered, AllocError>
    ensures { IfOk result (λ r. r ≡ answered (answers.fetch_answer (L.changes spool.now) session.now part.now selector.now)
        (fetch_reads (L.changes spool.now) session.now selector.now)) }
{
    match selector {
        Selector::Current => fetch_current(alloc, spool, session, part),
        Selector::Number(number) => fetch_number(alloc, spool, session, part, *number),
        Selector::Id(id) => fetch_id(alloc, spool, session, part, id.as_slice()),
    }
}

/// Answers without an argument: the current article (RFC 3977, sections 6.2.1 to 6.2.4).
fn fetch_current<L: LookUps>(
    alloc: Global,
    spool: &L,
    session: &Session,
    part: &Part,
) -> Result<Answered, AllocError>
    ensures { IfOk result (λ r. r ≡ answered
        (answers.in_selected (L.changes spool.now) session.now session.now.group (λ g. answers.fetch_current session.now part.now))
        (current_reads (L.changes spool.now) session.now.group session.now.current)) }
{
    match (&session.group, session.current) {
        (Some(group), Some(number)) => {
            current_in(alloc, spool, session, part, group.as_slice(), number)
        }
        (Some(_), None) => says_line(alloc, session, Reply::NoCurrentArticle, 0),
        (None, _) => says_line(alloc, session, Reply::NoGroupSelected, 0),
    }
}

fn current_in<L: LookUps>(
    alloc: Global,
    spool: &L,
    session: &Session,
    part: &Part,
    group: &[u8],
    number: u64,
) -> Result<Answered, AllocError>
    requires { session.now.current ≡ Some number }
    ensures { IfOk result (λ r. r ≡ answered (answers.fetch_current session.now part.now (contents (L.changes spool.now) group.now))
        (number_reads (L.changes spool.now) group.now number (by_number (L.changes spool.now) group.now number))) }
{
    let located = locate_number(spool, group, number);
    match located.serial {
        Some(serial) => shown(alloc, spool, session, part, number, serial, located.reads),
        None => says_line(alloc, session, Reply::NoCurrentArticle, located.reads),
    }
}

/// Answers by number: the article becomes the current one (RFC 3977, sections 6.2.1 to 6.2.4).
fn fetch_number<L: LookUps>(
    alloc: Global,
    spool: &L,
    session: &Session,
    part: &Part,
    number: u64,
) -> Result<Answered, AllocError>
    ensures { IfOk result (λ r. r ≡ answered
        (answers.in_selected (L.changes spool.now) session.now session.now.group (λ g. answers.fetch_number session.now part.now number))
        (selected_number_reads (L.changes spool.now) session.now.group number)) }
{
    match &session.group {
        Some(group) => number_in(alloc, spool, session, part, group.as_slice(), number),
        None => says_line(alloc, session, Reply::NoGroupSelected, 0),
    }
}

fn number_in<L: LookUps>(
    alloc: Global,
    spool: &L,
    session: &Session,
    part: &Part,
    group: &[u8],
    number: u64,
) -> Result<Answered, AllocError>
    ensures { IfOk result (λ r. r ≡ answered (answers.fetch_number session.now part.now number (contents (L.changes spool.now) group.now))
        (number_reads (L.changes spool.now) group.now number (by_number (L.changes spool.now) group.now number))) }
{
    let located = locate_number(spool, group, number);
    match located.serial {
        Some(serial) => {
            let mut reply = Vec::with_capacity(alloc, FOUND_ROOM)?;
            push_part(spool, part, number, serial, &mut reply)?;
            Ok(answer(reply, at_number(alloc, session, number)?, located.reads))
        }
        None => says_line(alloc, session, Reply::NoSuchNumber, located.reads),
    }
}

/// Answers by message-id: the number is 0, and the current article stays (RFC 3977, sections 6.2.1 to 6.2.4).
fn fetch_id<L: LookUps>(
    alloc: Global,
    spool: &L,
    session: &Session,
    part: &Part,
    id: &[u8],
) -> Result<Answered, AllocError>
    ensures { IfOk result (λ r. r ≡ answered (answers.fetch_id session.now part.now (here_by_id (L.changes spool.now) id.now))
        (id_reads (L.changes spool.now) (by_id (L.changes spool.now) id.now))) }
{
    let located = locate_id(spool, id);
    match located.serial {
        Some(serial) => shown(alloc, spool, session, part, 0, serial, located.reads),
        None => says_line(alloc, session, Reply::NoSuchArticle, located.reads),
    }
}

/// The reply with this part of an article, which leaves the session as it is.
fn shown<L: LookUps>(
    alloc: Global,
    spool: &L,
    session: &Session,
    part: &Part,
    number: u64,
    serial: u64,
    reads: u64,
) -> Result<Answered, AllocError>
    requires { article_with (L.changes spool.now) serial ≡ Some (article_of (L.changes spool.now) serial) }
    ensures { IfOk result (λ r. r ≡ answered
        (answers.says session.now (answers.part_reply part.now number (article_of (L.changes spool.now) serial))) reads) }
{
    let mut reply = Vec::with_capacity(alloc, FOUND_ROOM)?;
    push_part(spool, part, number, serial, &mut reply)?;
    says(alloc, session, reply, reads)
}
