//! OVER.

ghost use Rattle.std.specs.Prelude.{◌≡◌, ◌∷◌, [], IfOk, Some};
ghost use Rattle.model.specs.Article.{overview_line};
ghost use Rattle.model.specs.Answer as answers;
ghost use Rattle.model.specs.Reads.{id_reads, over_reads, selected_reads};
ghost use Rattle.model.specs.Replies.{block, overview_follows};
ghost use Rattle.model.specs.Spool.{by_id, contents, here_by_id, last_naming};
ghost use Rattle.session_lookups.specs.Held.{article_of, article_with, text_of};
ghost use Rattle.session_replies.specs.Answered.{Answers, answered};

use crate::ranges::numbers_in;
use kernel_outbox::Outgoing;
use model::{Range, Session, Wanted};
use session_lookups::{LookUps, counts_of, find_number, locate_id};
use session_replies::{
    Answered, Heading, Reply, copy, outgoing, push_end, push_heading, says, says_line,
};
use std::alloc::{AllocError, Global};

/// OVER, of the articles that it asks for (RFC 3977, section 8.3).
pub fn over<L: LookUps>(
    alloc: Global,
    spool: &L,
    session: &Session,
    wanted: &Wanted,
) -> Result<Answered, AllocError>
    ensures { IfOk result (λ r. Answers (L.octets_of spool.now) (L.keeps spool.now) r
        (answers.over_answer (L.changes spool.now) session.now wanted.now) (over_reads (L.changes spool.now) session.now wanted.now)) }
{
    match wanted {
        Wanted::Current => over_current(alloc, spool, session),
        Wanted::Range(range) => over_range(alloc, spool, session, range),
        Wanted::Id(id) => over_id(alloc, spool, session, id.as_slice()),
    }
}

/// OVER without an argument: the line of the current article (RFC 3977, section 8.3).
fn over_current<L: LookUps>(
    alloc: Global,
    spool: &L,
    session: &Session,
) -> Result<Answered, AllocError>
    ensures { IfOk result (λ r. r ≡ answered
        (answers.in_selected (L.changes spool.now) session.now session.now.group (λ g. answers.over_current session.now))
        (selected_reads (L.changes spool.now) session.now.group)) }
{
    match &session.group {
        Some(group) => current_in(alloc, spool, session, group.as_slice()),
        None => says_line(alloc, session, Reply::NoGroupSelected, 0),
    }
}

fn current_in<L: LookUps>(
    alloc: Global,
    spool: &L,
    session: &Session,
    group: &[u8],
) -> Result<Answered, AllocError>
    ensures { IfOk result (λ r. r ≡ answered (answers.over_current session.now (contents (L.changes spool.now) group.now))
        (last_naming (L.changes spool.now) group.now)) }
{
    let counts = counts_of(spool, group);
    let Some(number) = session.current else {
        return says_line(alloc, session, Reply::NoCurrentArticle, counts.last);
    };
    match find_number(spool, group, number) {
        Some(serial) => one_line(alloc, spool, session, serial, number, counts.last),
        None => says_line(alloc, session, Reply::NoCurrentArticle, counts.last),
    }
}

/// OVER with a range: a line for each of its articles, made as it is handed out (RFC 3977, section 8.3).
fn over_range<L: LookUps>(
    alloc: Global,
    spool: &L,
    session: &Session,
    range: &Range,
) -> Result<Answered, AllocError>
    ensures { IfOk result (λ r. Answers (L.octets_of spool.now) (L.keeps spool.now) r
        (answers.in_selected (L.changes spool.now) session.now session.now.group (λ g. answers.over_range session.now range.now))
        (selected_reads (L.changes spool.now) session.now.group)) }
{
    match &session.group {
        Some(group) => range_in(alloc, spool, session, group.as_slice(), range),
        None => says_line(alloc, session, Reply::NoGroupSelected, 0),
    }
}

fn range_in<L: LookUps>(
    alloc: Global,
    spool: &L,
    session: &Session,
    group: &[u8],
    range: &Range,
) -> Result<Answered, AllocError>
    ensures { IfOk result (λ r. Answers (L.octets_of spool.now) (L.keeps spool.now) r
        (answers.over_range session.now range.now (contents (L.changes spool.now) group.now)) (last_naming (L.changes spool.now) group.now)) }
{
    let counts = counts_of(spool, group);
    let numbers = numbers_in(range, counts);
    if numbers.last < numbers.first {
        return says_line(alloc, session, Reply::NoSuchNumber, counts.last);
    }
    let mut reply = Vec::new(alloc);
    push_heading(&mut reply, Heading::Overview)?;
    let lines = spool.overview_lines(group, numbers.first, numbers.last);
    let reply = Outgoing::lined(reply, lines)?;
    Ok(outgoing(reply, copy(alloc, session)?, counts.last))
}

/// OVER with a message-id (RFC 3977, section 8.3).
fn over_id<L: LookUps>(
    alloc: Global,
    spool: &L,
    session: &Session,
    id: &[u8],
) -> Result<Answered, AllocError>
    ensures { IfOk result (λ r. r ≡ answered (answers.over_id session.now (here_by_id (L.changes spool.now) id.now))
        (id_reads (L.changes spool.now) (by_id (L.changes spool.now) id.now))) }
{
    let located = locate_id(spool, id);
    match located.serial {
        Some(serial) => one_line(alloc, spool, session, serial, 0, located.reads),
        None => says_line(alloc, session, Reply::NoSuchArticle, located.reads),
    }
}

/// The overview of one article.
fn one_line<L: LookUps>(
    alloc: Global,
    spool: &L,
    session: &Session,
    serial: u64,
    number: u64,
    reads: u64,
) -> Result<Answered, AllocError>
    requires { article_with (L.changes spool.now) serial ≡ Some (article_of (L.changes spool.now) serial) }
    ensures { IfOk result (λ r. r ≡ answered
        (answers.says session.now (block overview_follows (overview_line number (text_of (L.changes spool.now) serial) ∷ []))) reads) }
{
    let mut reply = Vec::new(alloc);
    push_heading(&mut reply, Heading::Overview)?;
    spool.push_overview(serial, number, &mut reply)?;
    push_end(&mut reply)?;
    says(alloc, session, reply, reads)
}
