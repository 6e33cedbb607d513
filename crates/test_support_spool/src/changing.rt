//! Changes of a spool. Each call checks its own preconditions, and has no contract.

ghost use Rattle.model.specs.Lawful.{MayAwait};

use crate::sent::Sent;
use kernel_outbox::{Outgoing, Queue, ReadyBuf};
use model::{Awaits, Mark, Message, Moment, Session, Status, Text};
use session::{Served, serve};
use session_lookups::LookUps;
use session_received::Received;
use spool::{AddError, ExpireError, Spool};
use std::alloc::{AllocError, Global};
use test_support_lines::give;
use text_names::{Description, GroupName, GroupRequest, NameError, is_of_host, number_of};

/// When everything is made, in seconds since 1970.
pub const MOMENT: u64 = 1_000_000_000;

/// The answer to a change.
#[derive(Clone, Copy, Debug, PartialEq)]
pub enum Filed {
    /// It has this serial.
    Serial(u64),
    /// The code of the reply, and the serial that it reads.
    Reply(u64, u64),
    /// The code of the reply if there is no room.
    Full(u64),
    /// The code of the reply if the article would be too long as it is stored.
    Long(u64),
    NotAdded(AddError),
    NotExpired(ExpireError),
    /// The call's preconditions do not hold, so it was not made.
    NotCalled,
    Memory,
}

/// Adds a group.
pub fn add(
    alloc: Global,
    spool: &mut Spool,
    name: &[u8],
    status: Status,
    description: &[u8],
) -> Filed {
    let group = match group_of(alloc, name, status, description) {
        Ok(group) => group,
        Err(NameError::Bad) => return Filed::NotCalled,
        Err(NameError::Memory) => return Filed::Memory,
    };
    match spool.add_group(&group) {
        Ok(serial) => Filed::Serial(serial),
        Err(error) => Filed::NotAdded(error),
    }
}

// The group that is asked for. `Bad` if the name is no name of a group, or the description none of one.
fn group_of(
    alloc: Global,
    name: &[u8],
    status: Status,
    description: &[u8],
) -> Result<GroupRequest, NameError> {
    let Some(moment) = Moment::at(MOMENT) else {
        return Err(NameError::Bad);
    };
    Ok(GroupRequest {
        name: GroupName::read(name)?,
        status,
        description: Description::read(alloc, description)?,
        moment,
    })
}

/// Removes articles from a group.
pub fn expire(spool: &mut Spool, name: &[u8], number: u32) -> Filed {
    match spool.expire(name, number) {
        Ok(serial) => Filed::Serial(serial),
        Err(error) => Filed::NotExpired(error),
    }
}

/// Posts an article.
pub fn post(alloc: Global, spool: &mut Spool, sent: &Sent<'_>) -> Filed {
    deliver(alloc, spool, sent, Awaits::PostBlock)
}

/// Accepts an article from another server, which offered it under its id.
pub fn take(alloc: Global, spool: &mut Spool, sent: &Sent<'_>) -> Filed {
    let Ok(id) = Vec::from_slice(alloc, sent.id.as_bytes()) else {
        return Filed::Memory;
    };
    if is_of_host(spool.host(), &id) {
        return Filed::NotCalled;
    }
    deliver(alloc, spool, sent, Awaits::IhaveBlock(Text::new(id)))
}

// Sends an article to a session that awaits it.
fn deliver(alloc: Global, spool: &mut Spool, sent: &Sent<'_>, awaits: Awaits) -> Filed
    requires { MayAwait spool.old.host awaits }
{
    let Ok(text) = sent.text(alloc) else {
        return Filed::Memory;
    };
    let session = Session {
        awaits,
        group: None,
        current: None,
    };
    let message = Message::Block(Text::new(text));
    let Some(moment) = Moment::at(MOMENT) else {
        return Filed::NotCalled;
    };
    let received = Received::of(alloc, &message);
    match serve(alloc, spool, &session, received, moment) {
        Ok(served) => said(alloc, served).unwrap_or(Filed::Memory),
        Err(_) => Filed::Memory,
    }
}

// The answer to an article.
fn said(alloc: Global, served: Served) -> Result<Filed, AllocError> {
    let (reply, _, reads) = served.answered.into_parts();
    let Some(code) = code_of(alloc, reply)? else {
        return Ok(Filed::NotCalled);
    };
    Ok(match served.mark {
        Mark::Served => Filed::Reply(code, reads),
        Mark::Full => Filed::Full(code),
        Mark::Long => Filed::Long(code),
        Mark::Stopped => Filed::NotCalled,
    })
}

// The three digits that a reply begins with.
fn code_of(alloc: Global, reply: Outgoing) -> Result<Option<u64>, AllocError> {
    let mut queue = Queue::new(alloc);
    queue.reserve(1)?;
    // for the proof: a reply has fewer than 2^63 octets
    let _octets = reply.len();
    queue.push(reply, 0, false);
    let mut ready = ReadyBuf::new(alloc)?;
    // its first octets are made, whatever its lines are
    give(&mut queue, 0, 0, &mut ready);
    let Some(digits) = ready.octets().get(..3) else {
        return Ok(None);
    };
    Ok(number_of(digits))
}
