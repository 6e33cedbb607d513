//! A session after an answer. Each call is refused only for want of memory.

ghost use Rattle.std.specs.Prelude.{◌≡◌, IfOk};
ghost use Rattle.model.specs.Answer as answers;
ghost use Rattle.session_replies.specs.Answered.{answered, replied, replied_with, reply_of, with_group};
ghost use Rattle.session_replies.specs.Replies.{sent, sent_block};

use crate::blocks::push_block;
use crate::reply_parts::push_reply;
use crate::texts::{FixedBlock, Reply};
use kernel_outbox::Outgoing;
use model::{Awaits, Session, Text};
use std::alloc::{AllocError, Global};
use std::marker::Model;

/// An answer without a change, and the greatest serial that it reads. What is still to be made of its reply is made as it
/// is handed out.
#[derive(Drop)]
pub struct Answered {
    reply: Outgoing,
    next: Session,
    reads: u64,
}

impl Model for Answered {
    ghost use Rattle.session_replies.specs.Answered.{Answered as AnsweredView};

    ghost Value = { AnsweredView };

    ghost use Rattle.session_replies.specs.Answered.{replied_with};

    ghost view = { λ a. replied_with a.reply a.next a.reads };
}

impl Answered {
    /// The same answer, of which it is said that it reads this.
    pub fn reading(self, reads: u64) -> Answered
        ensures { result ≡ record { answer = self.answer; reads = reads; lines = self.lines } }
    {
        Answered { reads, ..self }
    }

    /// The reply, the session afterwards, and the greatest serial that the answer reads.
    pub fn into_parts(self) -> (Outgoing, Session, u64)
        ensures reply { result.0 ≡ reply_of self }
        ensures next { result.1 ≡ self.answer.next }
        ensures reads { result.2 ≡ self.reads }
    {
        let Answered { reply, next, reads } = self;
        (reply, next, reads)
    }
}

/// The answer with this reply and this session afterwards, without a change.
pub fn answer(reply: Vec<u8>, next: Session, reads: u64) -> Answered
    ensures { result ≡ answered (replied reply.items next) reads }
{
    outgoing(Outgoing::whole(reply), next, reads)
}

/// The same with a reply that may not be made whole.
pub fn outgoing(reply: Outgoing, next: Session, reads: u64) -> Answered
    ensures { result ≡ replied_with reply next reads }
{
    Answered { reply, next, reads }
}

/// A copy of the name, if there is one.
fn copy_name(alloc: Global, name: &Option<Text>) -> Result<Option<Text>, AllocError>
    ensures { IfOk result (λ copy. copy ≡ name.now) }
{
    match name {
        Some(name) => Ok(Some(name.copy(alloc)?)),
        None => Ok(None),
    }
}

fn copy_awaits(alloc: Global, awaits: &Awaits) -> Result<Awaits, AllocError>
    ensures { IfOk result (λ copy. copy ≡ awaits.now) }
{
    match awaits {
        Awaits::Line => Ok(Awaits::Line),
        Awaits::PostBlock => Ok(Awaits::PostBlock),
        Awaits::IhaveBlock(id) => Ok(Awaits::IhaveBlock(id.copy(alloc)?)),
        Awaits::Nothing => Ok(Awaits::Nothing),
    }
}

/// A copy of the session.
pub fn copy(alloc: Global, session: &Session) -> Result<Session, AllocError>
    ensures { IfOk result (λ next. next ≡ session.now) }
{
    let awaits = copy_awaits(alloc, &session.awaits)?;
    awaiting(alloc, session, awaits)
}

/// The session, except that it awaits this next.
pub fn awaiting(alloc: Global, session: &Session, awaits: Awaits) -> Result<Session, AllocError>
    ensures { IfOk result (λ next. next ≡ answers.awaiting session.now awaits) }
{
    Ok(Session {
        awaits,
        group: copy_name(alloc, &session.group)?,
        current: session.current,
    })
}

/// The session with this number as the current one.
pub fn at_number(alloc: Global, session: &Session, number: u64) -> Result<Session, AllocError>
    ensures { IfOk result (λ next. next ≡ answers.at_number session.now number) }
{
    let next = copy(alloc, session)?;
    Ok(Session {
        current: Some(number),
        ..next
    })
}

/// The session with this group selected and, if the group has an article, with its lowest number as the current one.
/// The session takes the name.
pub fn selecting(
    alloc: Global,
    session: &Session,
    group: Text,
    low: u64,
    count: u64,
) -> Result<Session, AllocError>
    ensures { IfOk result (λ next. next ≡ with_group session.now group low count) }
{
    let awaits = copy_awaits(alloc, &session.awaits)?;
    let current = if count == 0 { None } else { Some(low) };
    Ok(Session {
        awaits,
        group: Some(group),
        current,
    })
}

/// A reply that leaves the session as it is.
pub fn says(
    alloc: Global,
    session: &Session,
    reply: Vec<u8>,
    reads: u64,
) -> Result<Answered, AllocError>
    ensures { IfOk result (λ said. said ≡ answered (answers.says session.now reply.items) reads) }
{
    Ok(answer(reply, copy(alloc, session)?, reads))
}

/// A one-line reply that leaves the session as it is.
pub fn says_line(
    alloc: Global,
    session: &Session,
    which: Reply,
    reads: u64,
) -> Result<Answered, AllocError>
    ensures { IfOk result (λ said. said ≡ answered (answers.says session.now (sent which)) reads) }
{
    let mut reply = Vec::new(alloc);
    push_reply(&mut reply, which)?;
    says(alloc, session, reply, reads)
}

/// CAPABILITIES, HELP and LIST OVERVIEW.FMT (RFC 3977, sections 5.2, 7.2 and 8.4), which leave the session as it is and
/// read nothing.
pub fn says_block(
    alloc: Global,
    session: &Session,
    which: FixedBlock,
) -> Result<Answered, AllocError>
    ensures { IfOk result (λ said. said ≡ answered (answers.says session.now (sent_block which)) 0) }
{
    let mut reply = Vec::new(alloc);
    push_block(&mut reply, which)?;
    says(alloc, session, reply, 0)
}
