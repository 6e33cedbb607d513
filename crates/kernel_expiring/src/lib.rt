//! Up to which number the articles of a group are old, and how many articles are gone. `specs/Ages.antt` and
//! `specs/Gone.antt` say what that is.
#![tactic(auto)]

ghost use Rattle.std.specs.Prelude.{◌≡◌, ◌-◌, ◌*◌, ◌<◌, ◌≤◌, IfSome, IfNone, IsTrue, Some, false, length, slice_get};
ghost use Rattle.model.specs.Names.{wildmat_matches};
ghost use Rattle.model.specs.Spool.{NewsGroup, groups, low};
ghost use Rattle.kernel_expiring.specs.Ages.{IsAged, IsAgedGroup, IsLastOld, expiry_number, is_old};

mod gone;
mod taking;

pub use gone::{GonePart, PART, gone_part};
use session_lookups::{LookUps, counts_of, find_number};
pub use taking::{TreatOld, treat_old};
use text_names::{GroupName, Wildmat};

/// The seconds of a day.
const DAY: u64 = 86_400;

/// The moment before which an article was filed that is older than this many days, in seconds since 1970. It is 1970 if
/// these days reach beyond it; then no article is older.
pub fn since(now: u64, days: u64) -> u64
    ensures { result ≡ now - 86400 * days }
{
    now.saturating_sub(days.saturating_mul(DAY))
}

/// The last number of a group before that of its first article that was filed at this moment or later, in seconds since
/// 1970: all articles of the group up to it are older. `None` if the group has no article, or its first one isn't older. The
/// time that it takes grows with the number of old articles.
pub fn last_old<L: LookUps>(spool: &L, group: &[u8], since: u64) -> Option<u64>
    ensures some { IfSome result (λ last. IsLastOld (L.changes spool.now) group.now since last) }
    ensures none { IfNone result (is_old (L.changes spool.now) group.now since (low (L.changes spool.now) group.now) ≡ false) }
{
    let counts = counts_of(spool, group);
    let mut last = counts.low - 1;
    while last < counts.high && is_old(spool, group, last + 1, since) {
        last += 1;
    }
    if last < counts.low {
        return None;
    }
    Some(last)
}

/// What an expiry by age takes out of a group: the articles from the lowest number up to the last one.
#[derive(Clone, Copy)]
struct Aged<'s> {
    name: &'s [u8],
    low: u64,
    last: u64,
}

/// What an expiry by age takes out of the group at this place, from 0, in rising serial: the articles before its first one
/// that was filed at this moment or later. `None` if the wildmat doesn't match the group's name, or nothing is to be taken out.
fn aged_at<'s, L: LookUps>(
    spool: &'s L,
    place: usize,
    wildmat: &Wildmat,
    since: u64,
) -> Option<Aged<'s>>
    requires { place < length (groups (L.changes spool.now)) }
    ensures some { IfSome result (λ aged. (group : NewsGroup) → slice_get (groups (L.changes spool.now)) place ≡ Some group
        → IsAged (L.changes spool.now) group wildmat.now since aged) }
    ensures none { IfNone result ((group : NewsGroup) → slice_get (groups (L.changes spool.now)) place ≡ Some group
        → IsTrue (wildmat_matches wildmat.now group.name)
        → is_old (L.changes spool.now) group.name since (low (L.changes spool.now) group.name) ≡ false) }
{
    let group = spool.group_at(place);
    if !wildmat.matches_octets(group.name) {
        return None;
    }
    let last = last_old(spool, group.name, since)?;
    Some(Aged {
        name: group.name,
        low: group.low,
        last,
    })
}

/// The articles of a group that an expiry by age takes out, as an expiry is asked for.
#[derive(Drop)]
pub struct AgedArticles {
    pub name: GroupName,
    /// They are those up to this number.
    pub number: u32,
    /// How many these are.
    pub articles: u64,
}

/// What an expiry by age does to the group at a place.
#[derive(Drop)]
pub enum AgedGroup {
    /// There is no group at this place, and none behind it.
    Missing,
    /// Nothing is to be taken out.
    Spared,
    /// These articles are to be taken out.
    Aged(AgedArticles),
}

/// What an expiry by age does to the group at this place, from 0, in rising serial. An expiry has a number of 32 bits: if
/// more articles than these count are old, the others are left to the next one. The time that it takes grows with the number
/// of old articles.
pub fn aged_group<L: LookUps>(spool: &L, place: usize, wildmat: &Wildmat, since: u64) -> AgedGroup
    ensures { IsAgedGroup (L.changes spool.now) place wildmat.now since result }
{
    if place >= spool.group_count() {
        return AgedGroup::Missing;
    }
    let Some(aged) = aged_at(spool, place, wildmat, since) else {
        return AgedGroup::Spared;
    };
    let Ok(name) = GroupName::read(aged.name) else {
        unreachable!()
    };
    let number = expiry_number(aged.last);
    AgedGroup::Aged(AgedArticles {
        name,
        number,
        articles: (u64::from(number) + 1).saturating_sub(aged.low),
    })
}

/// The number of an expiry that takes out the articles up to this one, as far as 32 bits reach.
fn expiry_number(last: u64) -> u32
    ensures { result ≡ expiry_number last }
{
    if last <= u64::from(u32::MAX) {
        last as u32
    } else {
        u32::MAX
    }
}

/// Whether an article is in the group under this number and was filed before this moment.
fn is_old<L: LookUps>(spool: &L, group: &[u8], number: u64, since: u64) -> bool
    ensures { result ≡ is_old (L.changes spool.now) group.now since number }
{
    let Some(serial) = find_number(spool, group, number) else {
        return false;
    };
    match spool.moment(serial) {
        Some(moment) => moment < since,
        None => false,
    }
}
