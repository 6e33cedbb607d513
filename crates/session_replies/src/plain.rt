//! The commands that read nothing of the spool, except those whose reply never changes (`crate::says_block`), and the
//! answers when there is no room or the server has stopped. Each answers as `specs/Answer.antt` of the crate `model`
//! says, and is refused only for want of memory.

ghost use Rattle.std.specs.Prelude.{◌≡◌, ◌++◌, IfOk, codes};
ghost use Rattle.model.specs.Answer as answers;
ghost use Rattle.model.specs.Calendar.{date_reply};
ghost use Rattle.model.specs.Replies.{bye, greeting, service_ends};
ghost use Rattle.model.specs.Stream.{line};
ghost use Rattle.model.specs.declared.session.Awaits.TheVariants as waits;
ghost use Rattle.session_replies.specs.Answered.{answered, replied};
ghost use Rattle.session_replies.specs.Replies.{sent};

use crate::{Answered, Reply, answer, awaiting, push_greeting, push_reply, says};
use model::{Awaits, Moment, Session};
use std::alloc::{AllocError, Global};
use text_dates::{DATE_DIGITS, push_date_reply};

/// How the reply to DATE begins.
const DATE: &[u8] = b"111 ";

/// What ends a line.
const CRLF: &[u8] = b"\r\n";

/// MODE READER (RFC 3977, section 5.3).
pub fn mode_reader(alloc: Global, session: &Session, host: &[u8]) -> Result<Answered, AllocError>
    ensures { IfOk result (λ said. said ≡ answered (answers.says session.now (greeting host.now)) 0) }
{
    let mut reply = Vec::new(alloc);
    push_greeting(&mut reply, host)?;
    says(alloc, session, reply, 0)
}

/// DATE (RFC 3977, section 7.1), at this moment.
pub fn date(alloc: Global, session: &Session, moment: Moment) -> Result<Answered, AllocError>
    ensures { IfOk result (λ said. said ≡ answered (answers.says session.now (line (codes "111 " ++ date_reply moment))) 0) }
{
    let mut reply = Vec::with_capacity(alloc, DATE.len() + DATE_DIGITS + CRLF.len())?;
    reply.extend_from_slice(DATE)?;
    push_date_reply(&mut reply, moment)?;
    reply.extend_from_slice(CRLF)?;
    says(alloc, session, reply, 0)
}

/// QUIT (RFC 3977, section 5.4). The session is closed.
pub fn quit(alloc: Global, session: &Session) -> Result<Answered, AllocError>
    ensures { IfOk result (λ said. said ≡ answered (answers.says (answers.awaiting session.now waits.Nothing) bye) 0) }
{
    closes(alloc, session, Reply::Bye)
}

/// The answer of a server that has stopped (RFC 3977, section 3.2.1). The session is closed.
pub fn stopped(alloc: Global, session: &Session) -> Result<Answered, AllocError>
    ensures { IfOk result (λ said. said ≡ answered (answers.says (answers.awaiting session.now waits.Nothing) service_ends) 0) }
{
    closes(alloc, session, Reply::ServiceEnds)
}

/// The answer to an article for which there is no room: an offered one may be sent again later, a posted one is not
/// accepted (RFC 3977, sections 6.3.1 and 6.3.2).
pub fn full(alloc: Global, session: &Session) -> Result<Answered, AllocError>
    ensures { IfOk result (λ said. said ≡ answered (answers.full_answer session.now session.now.awaits) 0) }
{
    let which = match &session.awaits {
        Awaits::IhaveBlock(_) => Reply::TryLater,
        _ => Reply::NotAccepted,
    };
    ends(alloc, session, which, Awaits::Line)
}

fn closes(alloc: Global, session: &Session, which: Reply) -> Result<Answered, AllocError>
    ensures { IfOk result (λ said. said ≡ answered (replied (sent which) (answers.awaiting session.now waits.Nothing)) 0) }
{
    ends(alloc, session, which, Awaits::Nothing)
}

/// A one-line reply, after which the session awaits this.
pub fn ends(
    alloc: Global,
    session: &Session,
    which: Reply,
    awaits: Awaits,
) -> Result<Answered, AllocError>
    ensures { IfOk result (λ said. said ≡ answered (replied (sent which) (answers.awaiting session.now awaits)) 0) }
{
    let mut reply = Vec::new(alloc);
    push_reply(&mut reply, which)?;
    Ok(answer(reply, awaiting(alloc, session, awaits)?, 0))
}
