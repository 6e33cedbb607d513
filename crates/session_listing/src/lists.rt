//! LIST and NEWGROUPS.

ghost use Rattle.std.specs.Prelude.{◌≡◌, IfOk, IfSome, IsTrue, None, length};
ghost use Rattle.model.specs.Answer as answers;
ghost use Rattle.model.specs.Calendar.{since};
ghost use Rattle.model.specs.Names.{is_wildmat};
ghost use Rattle.model.specs.Reads.{list_reads, listing_reads, since_reads};
ghost use Rattle.model.specs.Spool.{listed};
ghost use Rattle.session_listing.specs.Lists.{shown_as};
ghost use Rattle.session_replies.specs.Answered.{answered};

use crate::listed_groups::{Choice, Show, pick_of, push_groups};
use model::{Listing, Moment, Session, Text};
use session_lookups::LookUps;
use session_replies::{
    Answered, FixedBlock, Heading, Reply, push_end, push_heading, says, says_block, says_line,
};
use std::alloc::{AllocError, Global};
use text_dates::read_since;

/// LIST (RFC 3977, sections 7.6.3, 7.6.4, 7.6.6 and 8.4), of the groups whose names the wildmat matches, or of all. The
/// overview's format is the same for each wildmat.
pub fn list<L: LookUps>(
    alloc: Global,
    spool: &L,
    session: &Session,
    listing: Listing,
    wildmat: &Option<Text>,
) -> Result<Answered, AllocError>
    requires { IfSome wildmat.now (λ w. IsTrue (is_wildmat w)) }
    ensures { IfOk result (λ r. r ≡ answered (answers.listing_answer (L.changes spool.now) session.now wildmat.now listing)
        (listing_reads (L.changes spool.now) wildmat.now listing)) }
{
    match listing {
        Listing::Active => list_groups(alloc, spool, session, wildmat, Show::Active),
        Listing::Times => list_groups(alloc, spool, session, wildmat, Show::Times),
        Listing::Newsgroups => list_groups(alloc, spool, session, wildmat, Show::Newsgroups),
        Listing::OverviewFormat => says_block(alloc, session, FixedBlock::OverviewFormat),
    }
}

/// A list of groups. It reads the last serial that names one of them.
fn list_groups<L: LookUps>(
    alloc: Global,
    spool: &L,
    session: &Session,
    wildmat: &Option<Text>,
    show: Show,
) -> Result<Answered, AllocError>
    requires { IfSome wildmat.now (λ w. IsTrue (is_wildmat w)) }
    ensures { IfOk result (λ r. r ≡ answered
        (answers.list_answer session.now (shown_as show) (listed (L.changes spool.now) (answers.is_listed wildmat.now)))
        (list_reads (L.changes spool.now) wildmat.now)) }
{
    let mut reply = Vec::new(alloc);
    push_heading(&mut reply, Heading::Information)?;
    let last = push_groups(spool, &pick_of(wildmat), show, &mut reply)?;
    push_end(&mut reply)?;
    says(alloc, session, reply, last)
}

/// NEWGROUPS (RFC 3977, section 7.3): the groups that were made since a date (`yymmdd` or `yyyymmdd`) and a time
/// (`hhmmss`) in UTC, by a command that is given at this moment. A date that the calendar does not have is a syntax
/// error.
pub fn newgroups<L: LookUps>(
    alloc: Global,
    spool: &L,
    session: &Session,
    date: &[u8],
    time: &[u8],
    moment: Moment,
) -> Result<Answered, AllocError>
    ensures { IfOk result (λ r. r ≡ answered
        (answers.if_dated session.now (since date.now time.now moment)
        (answers.newgroups_answer session.now (listed (L.changes spool.now) (answers.is_listed None))))
        (since_reads (L.changes spool.now) (since date.now time.now moment))) }
{
    match read_since(date, time, moment) {
        Ok(from) => groups_since(alloc, spool, session, from),
        Err(_) => says_line(alloc, session, Reply::SyntaxError, 0),
    }
}

fn groups_since<L: LookUps>(
    alloc: Global,
    spool: &L,
    session: &Session,
    from: i64,
) -> Result<Answered, AllocError>
    ensures { IfOk result (λ r. r ≡ answered
        (answers.newgroups_answer session.now (listed (L.changes spool.now) (answers.is_listed None)) from)
        (length (L.changes spool.now))) }
{
    let mut reply = Vec::new(alloc);
    push_heading(&mut reply, Heading::Groups)?;
    push_groups(spool, &Choice::Since(from), Show::Active, &mut reply)?;
    push_end(&mut reply)?;
    says(alloc, session, reply, spool.len())
}
