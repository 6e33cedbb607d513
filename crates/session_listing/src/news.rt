//! NEWNEWS.

ghost use Rattle.std.specs.Prelude.{◌≡◌, IfOk, IsTrue, length};
ghost use Rattle.model.specs.Answer as answers;
ghost use Rattle.model.specs.Calendar.{since};
ghost use Rattle.model.specs.Names.{is_wildmat};
ghost use Rattle.model.specs.Reads.{since_reads};
ghost use Rattle.model.specs.Spool.{articles_now};
ghost use Rattle.session_replies.specs.Answered.{answered};

use model::{Moment, Session};
use session_lookups::LookUps;
use session_replies::{Answered, Heading, Reply, push_end, push_heading, says, says_line};
use std::alloc::{AllocError, Global};
use text_dates::read_since;

/// NEWNEWS (RFC 3977, section 7.4): the message-ids of the articles filed since a date (`yymmdd` or `yyyymmdd`) and a
/// time (`hhmmss`) in UTC that are in a group whose name the wildmat matches, by a command that is given at this moment.
/// A date that the calendar does not have is a syntax error.
pub fn newnews<L: LookUps>(
    alloc: Global,
    spool: &L,
    session: &Session,
    wildmat: &[u8],
    date: &[u8],
    time: &[u8],
    moment: Moment,
) -> Result<Answered, AllocError>
    requires { IsTrue (is_wildmat wildmat.now) }
    ensures { IfOk result (λ r. r ≡ answered
        (answers.if_dated session.now (since date.now time.now moment)
        (answers.newnews_answer session.now wildmat.now (articles_now (L.changes spool.now))))
        (since_reads (L.changes spool.now) (since date.now time.now moment))) }
{
    match read_since(date, time, moment) {
        Ok(from) => articles_since(alloc, spool, session, wildmat, from),
        Err(_) => says_line(alloc, session, Reply::SyntaxError, 0),
    }
}

fn articles_since<L: LookUps>(
    alloc: Global,
    spool: &L,
    session: &Session,
    wildmat: &[u8],
    from: i64,
) -> Result<Answered, AllocError>
    requires { IsTrue (is_wildmat wildmat.now) }
    ensures { IfOk result (λ r. r ≡ answered (answers.newnews_answer session.now wildmat.now (articles_now (L.changes spool.now)) from)
        (length (L.changes spool.now))) }
{
    let mut reply = Vec::new(alloc);
    push_heading(&mut reply, Heading::Articles)?;
    spool.push_new_ids(wildmat, from, &mut reply)?;
    push_end(&mut reply)?;
    says(alloc, session, reply, spool.len())
}
