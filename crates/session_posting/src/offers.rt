//! The commands POST and IHAVE.

ghost use Rattle.std.specs.Prelude.{◌≡◌, IfOk};
ghost use Rattle.model.specs.Answer as answers;
ghost use Rattle.model.specs.Reads.{offer_reads};
ghost use Rattle.model.specs.Replies.{send_posted};
ghost use Rattle.model.specs.Spool.{by_id};
ghost use Rattle.model.specs.declared.session.Awaits.TheVariants as waits;
ghost use Rattle.session_replies.specs.Answered.{answered};

use model::{Awaits, Session, Text};
use session_lookups::{LookUps, find_id};
use session_replies::{Answered, Reply, ends, says_line};
use std::alloc::{AllocError, Global};
use text_names::is_of_host;

/// POST (RFC 3977, section 6.3.1).
pub fn post(alloc: Global, session: &Session) -> Result<Answered, AllocError>
    ensures { IfOk result (λ said. said ≡ answered (answers.says (answers.awaiting session.now waits.PostBlock) send_posted) 0) }
{
    ends(alloc, session, Reply::SendPosted, Awaits::PostBlock)
}

/// IHAVE (RFC 3977, section 6.3.2). An id of the host's own is never wanted, nor is the id of an article that was
/// filed.
pub fn ihave<L: LookUps>(
    alloc: Global,
    spool: &L,
    session: &Session,
    id: &[u8],
) -> Result<Answered, AllocError>
    ensures { IfOk result (λ said. said
        ≡ answered (answers.offer_answer (L.host_of spool.now) session.now id.now (by_id (L.changes spool.now) id.now))
        (offer_reads (L.host_of spool.now) id.now (by_id (L.changes spool.now) id.now))) }
{
    if is_of_host(spool.host(), id) {
        return says_line(alloc, session, Reply::NotWanted, 0);
    }
    match find_id(spool, id) {
        Some(serial) => says_line(alloc, session, Reply::NotWanted, serial),
        None => {
            let id = Text::new(id.to_vec(alloc)?);
            ends(
                alloc,
                session,
                Reply::SendTransferred,
                Awaits::IhaveBlock(id),
            )
        }
    }
}
