//! A message of a session, served over a spool that takes changes: the answer, what it reads, its mark, and the change
//! that is filed.
#![tactic(auto)]

ghost use Rattle.std.specs.Prelude.{◌≡◌, ◌++◌, ◌∷◌, [], IfOk, OnErr};
ghost use Rattle.model.specs.Lawful.{IsLawful, IsLawfulSession};
ghost use Rattle.session_posting.specs.Accepted.{change_of};
ghost use Rattle.session.specs.Served.{IsFiled, IsServed};

mod commands;
mod messages;
mod steps;

use model::{Mark, Moment, Session, lawful_stays};
use session_lookups::{ChangeSpool, FilingError};
use session_posting::{Accepted, Refusal, Step, Stored};
use session_received::Received;
use session_replies::{Answered, full};
use std::alloc::{AllocError, Global};
use steps::step;

/// What a message was answered, after what it accepts was filed.
#[derive(Drop)]
pub struct Served {
    /// counts its own change among those that it reads
    pub answered: Answered,
    pub mark: Mark,
    /// Why the message's article is not filed. `None` if it is, or if the message has none.
    pub refusal: Option<Refusal>,
    /// Whether the message's change was filed; it is the spool's last one then.
    pub has_accepted: bool,
}

/// Answers a message and files the change that it accepts, at the given moment. The message was read before, and is
/// not read again. The mark is `Long` if a posted article is refused because it would be too long as it is stored.
/// It is `Full` if there is no room for the change, and otherwise `Served`. Refused only for want of memory, also if an
/// allocation was refused as the message was read; then nothing has changed.
pub fn serve<S: ChangeSpool>(
    alloc: Global,
    spool: &mut S,
    session: &Session,
    received: Received<'_>,
    moment: Moment,
) -> Result<Served, AllocError>
    requires { IsLawfulSession (S.host_of spool.old) session.now }
    ensures ok { IfOk result (IsServed (S.host_of spool.old) (S.changes spool.old) (S.octets_of spool.new) (S.keeps spool.new)
        (S.lacks_room spool.old) (S.adds spool.old spool.new) (spool.new ≡ spool.old) session.now received.entry moment) }
    ensures err { OnErr result (spool.new ≡ spool.old) }
{
    lawful_stays();
    // for the proof: the moment is before the year 10000
    let _seconds = moment.seconds();
    let Step {
        answered,
        accepted,
        refusal,
        mark,
    } = step(alloc, spool, session, received, moment)?;
    let served = Served {
        answered,
        mark,
        refusal,
        has_accepted: accepted.is_some(),
    };
    let Some(accepted) = accepted else {
        return Ok(served);
    };
    match file(alloc, spool, &accepted) {
        Ok(()) => Ok(served),
        Err(FilingError::Full) => Ok(Served {
            answered: full(alloc, session)?,
            mark: Mark::Full,
            refusal: Some(Refusal::Full),
            has_accepted: false,
        }),
        Err(FilingError::Memory) => Err(AllocError),
    }
}

/// Files an article that was accepted, as it was read. Refused as `Full` only if there is no room, or as `Memory`; a
/// refusal changes nothing.
fn file<S: ChangeSpool>(
    alloc: Global,
    spool: &mut S,
    accepted: &Accepted<'_>,
) -> Result<(), FilingError>
    requires { IsLawful (S.host_of spool.old) (S.changes spool.old ++ change_of accepted.now ∷ []) }
    ensures { IsFiled (S.lacks_room spool.old) (S.adds spool.old spool.new) (spool.new ≡ spool.old) (change_of accepted.now) result }
{
    match &accepted.text {
        Stored::Carried(article) => spool.file(article, &accepted.envelope),
        Stored::Posted(stored) => match stored.article(alloc) {
            Ok(article) => spool.file(&article, &accepted.envelope),
            Err(_) => Err(FilingError::Memory),
        },
    }
}
