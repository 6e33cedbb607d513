//! The articles that follow POST and IHAVE.

ghost use Rattle.std.specs.Prelude.{◌≡◌, ◌+◌, IfOk, None, Some, length, not};
ghost use Rattle.model.specs.Answer as answers;
ghost use Rattle.model.specs.Article.{Carried, Posted as PostedTo, cause};
ghost use Rattle.session_replies.specs.Answered.{answered};
ghost use Rattle.session_replies.specs.Replies.{sent};
ghost use Rattle.session_posting.specs.Accepted.{change_of};
ghost use Rattle.session_posting.specs.Outcomes.{mark_by, post_said, posted_by, said, said_of, said_served, then_line, transfer_said};

use crate::accepted::{Accepted, Stored};
use crate::filed_groups::{Closed, Outcome, filing};
use crate::refusals::Refusal;
use model::{Awaits, Cause, Envelope, Mark, Moment, Session};
use session_lookups::LookUps;
use session_replies::{Answered, Reply, ends};
use std::alloc::{AllocError, Global};
use text_article::{Article, Origin, Reading};

/// What a message is answered, and the article that is to be filed for it.
#[derive(Drop)]
pub struct Step<'t> {
    /// counts its own change among those that it reads
    pub answered: Answered,
    /// the article, if one is accepted
    pub accepted: Option<Accepted<'t>>,
    /// why an article is not accepted, if the message has one
    pub refusal: Option<Refusal>,
    /// `Long` if a posted article is refused because it would be too long as it is stored, else `Served`
    pub mark: Mark,
}

/// A reply after which a line is awaited.
fn reply(alloc: Global, session: &Session, which: Reply, reads: u64) -> Result<Answered, AllocError>
    ensures { IfOk result (λ said. said ≡ answered (then_line session.now (sent which) None) reads) }
{
    Ok(ends(alloc, session, which, Awaits::Line)?.reading(reads))
}

/// A reply to an article that is accepted.
fn accept<'t>(
    alloc: Global,
    session: &Session,
    which: Reply,
    accepted: Accepted<'t>,
    reads: u64,
) -> Result<Step<'t>, AllocError>
    ensures { IfOk result (λ step. said step
        ≡ said_served (answered (then_line session.now (sent which) (Some (change_of accepted.entry))) reads)) }
{
    Ok(Step {
        answered: reply(alloc, session, which, reads)?,
        accepted: Some(accepted),
        refusal: None,
        mark: Mark::Served,
    })
}

/// A reply to an article that is not accepted, and why.
fn refuse<'t>(
    alloc: Global,
    session: &Session,
    which: Reply,
    why: Refusal,
    reads: u64,
) -> Result<Step<'t>, AllocError>
    ensures { IfOk result (λ step. said step ≡ said_of (Some why) (answered (then_line session.now (sent which) None) reads)) }
{
    Ok(Step {
        answered: reply(alloc, session, which, reads)?,
        accepted: None,
        refusal: Some(why),
        mark: Mark::Served,
    })
}

/// Answers the message that follows POST, which was read, at the given moment. It is refused if it is not an article, or
/// if an article with its id was filed. It is also refused if none of its groups exists, or one of them takes no
/// articles. Its mark is `Long` if it is refused because it would be too long as it is stored.
pub fn post_block<'t, L: LookUps>(
    alloc: Global,
    spool: &L,
    session: &Session,
    reading: Reading<'t>,
    moment: Moment,
) -> Result<Step<'t>, AllocError>
    ensures { IfOk result (λ step. said step
        ≡ post_said (L.host_of spool.now) (L.changes spool.now) session.now moment reading.entry) }
{
    let host = spool.host();
    let serial = spool.len() + 1;
    match Article::of(reading, Origin::Posted { host, serial }) {
        Ok(article) => taken(alloc, spool, session, article, serial, moment),
        Err(cause) => {
            let refused = refuse(alloc, session, Reply::NotAccepted, Refusal::Text(cause), 0)?;
            Ok(Step {
                mark: mark_of(cause),
                ..refused
            })
        }
    }
}

/// The mark of a post that is refused for this cause.
fn mark_of(cause: Cause) -> Mark
    ensures { result ≡ mark_by cause }
{
    match cause {
        Cause::Long => Mark::Long,
        _ => Mark::Served,
    }
}

/// The answer to a posted article over this spool.
fn taken<'t, L: LookUps>(
    alloc: Global,
    spool: &L,
    session: &Session,
    article: Article<'t>,
    serial: u64,
    moment: Moment,
) -> Result<Step<'t>, AllocError>
    requires serial { serial ≡ length (L.changes spool.now) + 1 }
    requires cause { cause (PostedTo (L.host_of spool.now) serial) article ≡ None }
    ensures { IfOk result (λ step. said step
        ≡ posted_by (L.host_of spool.now) (L.changes spool.now) session.now moment article.entry) }
{
    match filing(alloc, spool, &article, Closed::Refuse)? {
        Outcome::Refused(why, reads) => refuse(alloc, session, Reply::NotAccepted, why, reads),
        Outcome::Accepted(groups) => {
            let stored = article.injected(alloc, serial, spool.host(), moment)?;
            let accepted = Accepted {
                text: Stored::Posted(stored),
                envelope: Envelope { groups, moment },
            };
            accept(alloc, session, Reply::Received, accepted, serial)
        }
    }
}

/// Answers the message that follows IHAVE with this message-id, which was read, at the given moment. It is refused if it
/// is not an article or has another id. It is also refused if an article with its id was filed, or if none of its groups
/// exists.
pub fn ihave_block<'t, L: LookUps>(
    alloc: Global,
    spool: &L,
    session: &Session,
    id: &[u8],
    reading: Reading<'t>,
    moment: Moment,
) -> Result<Step<'t>, AllocError>
    ensures { IfOk result (λ step. said step ≡ transfer_said (L.changes spool.now) session.now moment id.now reading.entry) }
{
    match Article::of(reading, Origin::Carried) {
        Ok(article) => given(alloc, spool, session, id, article, moment),
        Err(cause) => refuse(alloc, session, Reply::Rejected, Refusal::Text(cause), 0),
    }
}

/// The answer to a carried article, by its id and over this spool.
fn given<'t, L: LookUps>(
    alloc: Global,
    spool: &L,
    session: &Session,
    id: &[u8],
    article: Article<'t>,
    moment: Moment,
) -> Result<Step<'t>, AllocError>
    requires { cause Carried article ≡ None }
    ensures { IfOk result (λ step. said step ≡ transfer_said (L.changes spool.now) session.now moment id.now article.entry) }
{
    if !has_id(&article, id) {
        return refuse(alloc, session, Reply::Rejected, Refusal::OtherId, 0);
    }
    match filing(alloc, spool, &article, Closed::Take)? {
        Outcome::Refused(why, reads) => refuse(alloc, session, Reply::Rejected, why, reads),
        Outcome::Accepted(groups) => {
            let accepted = Accepted {
                text: Stored::Carried(article),
                envelope: Envelope { groups, moment },
            };
            let serial = spool.len() + 1;
            accept(alloc, session, Reply::Transferred, accepted, serial)
        }
    }
}

/// Whether an article has this message-id.
fn has_id(article: &Article<'_>, id: &[u8]) -> bool
    ensures { answers.has_other_id id.now article.now ≡ not result }
{
    match article.id() {
        Some(own) => own == id,
        None => false,
    }
}
