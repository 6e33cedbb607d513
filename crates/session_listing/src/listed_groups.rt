//! The groups in a list, and their lines.

ghost use Rattle.std.specs.Prelude.{◌≡◌, ◌++◌, IfOk, IfSome, IsTrue, OnOk};
ghost use Rattle.model.specs.Answer.{is_listed};
ghost use Rattle.model.specs.Names.{is_wildmat};
ghost use Rattle.model.specs.Spool.{NewsGroup};
ghost use Rattle.model.specs.Stream.{line, stuffed_line};
ghost use Rattle.session_lookups.specs.Held.{all_known, shown};
ghost use Rattle.session_listing.specs.Lists.{IsPick, is_picked, last_of, later_of, line_of, lines_of, rest_of, shown_as};

use model::Text;
use session_lookups::{GroupView, LookUps, is_since};
use session_replies::push_spaced;
use std::alloc::AllocError;
use text_names::wildmat_matches;

/// Which groups are in a list.
#[derive(Clone, Copy)]
pub enum Choice<'a> {
    All,
    /// those whose names the wildmat matches
    Matching(&'a [u8]),
    /// those that were made at this moment or later, in seconds since 1970
    Since(i64),
}

/// What a list says of a group after its name.
#[derive(Clone, Copy)]
pub enum Show {
    Active,
    Times,
    Newsgroups,
}

/// The groups whose names the wildmat matches, or all groups if there is no wildmat.
pub fn pick_of(wildmat: &Option<Text>) -> Choice<'_>
    requires { IfSome wildmat.now (λ w. IsTrue (is_wildmat w)) }
    ensures same { (g : NewsGroup) → is_picked result g ≡ is_listed wildmat.now g.name }
    ensures is { IsPick result }
{
    match wildmat {
        Some(wildmat) => Choice::Matching(wildmat.as_slice()),
        None => Choice::All,
    }
}

fn is_picked(pick: &Choice<'_>, group: &GroupView<'_>) -> bool
    requires { IsPick pick.now }
    ensures { result ≡ is_picked pick.now (shown group.now).listed.group }
{
    match pick {
        Choice::All => true,
        Choice::Matching(wildmat) => wildmat_matches(wildmat, group.name),
        Choice::Since(from) => is_since(*from, group.moment),
    }
}

/// Appends the rest of a group's line after its name, with CRLF.
fn push_rest(reply: &mut Vec<u8>, show: Show, group: &GroupView<'_>) -> Result<(), AllocError>
    ensures { OnOk result (reply.new.items ≡ reply.old.items ++ rest_of show (shown group.now).listed) }
{
    match show {
        Show::Active => {
            push_spaced(reply, group.high)?;
            push_spaced(reply, group.low)?;
            reply.extend_from_slice(&[b' ', group.status.octet(), b'\r', b'\n'])
        }
        Show::Times => {
            push_spaced(reply, group.moment)?;
            reply.extend_from_slice(b" admin\r\n")
        }
        Show::Newsgroups => {
            reply.push(b'\t')?;
            reply.extend_from_slice(group.description)?;
            reply.extend_from_slice(b"\r\n")
        }
    }
}

/// Appends the first octets of a line of a block, with another dot before them if they begin with one.
fn push_first(reply: &mut Vec<u8>, text: &[u8]) -> Result<(), AllocError>
    ensures { OnOk result (reply.new.items ≡ reply.old.items ++ stuffed_line text.now) }
{
    if let [b'.', ..] = text {
        reply.push(b'.')?;
    }
    reply.extend_from_slice(text)
}

/// Appends the line of a group.
#[tactic(auto, using(crate::proofs::Listing::stuffed_group))]
fn push_group(reply: &mut Vec<u8>, show: Show, group: &GroupView<'_>) -> Result<(), AllocError>
    ensures { OnOk result (reply.new.items ≡ reply.old.items ++ stuffed_line (line (shown_as show (shown group.now).listed))) }
{
    push_first(reply, group.name)?;
    push_rest(reply, show, group)
}

/// Appends the line of a group, if it is picked, and answers the last serial that names a group picked so far.
fn push_picked(
    reply: &mut Vec<u8>,
    pick: &Choice<'_>,
    show: Show,
    group: &GroupView<'_>,
    last: u64,
) -> Result<u64, AllocError>
    requires { IsPick pick.now }
    ensures lines { OnOk result (reply.new.items ≡ reply.old.items ++ line_of pick.now show (shown group.now)) }
    ensures last { IfOk result (λ latest. latest ≡ later_of pick.now last (shown group.now)) }
{
    if !is_picked(pick, group) {
        return Ok(last);
    }
    push_group(reply, show, group)?;
    Ok(last.max(group.last))
}

/// Appends a line for each picked group, in rising serial. It answers the last serial that names one of them, or 0 if
/// no group is picked.
pub fn push_groups<L: LookUps>(
    spool: &L,
    pick: &Choice<'_>,
    show: Show,
    reply: &mut Vec<u8>,
) -> Result<u64, AllocError>
    requires { IsPick pick.now }
    ensures lines { OnOk result (reply.new.items ≡ reply.old.items ++ lines_of pick.now show (all_known (L.changes spool.now))) }
    ensures last { IfOk result (λ last. last ≡ last_of pick.now (all_known (L.changes spool.now))) }
{
    let mut last = 0;
    for place in 0..spool.group_count() {
        let group = spool.group_at(place);
        last = push_picked(reply, pick, show, &group, last)?;
    }
    Ok(last)
}
