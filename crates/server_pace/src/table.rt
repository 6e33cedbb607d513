//! How many articles of each address are read in which minute.

ghost use Rattle.std.specs.Prelude.{◌≡◌, ◌≤◌, ℕ, IfNone, IfOk, IfSome, None, max, replicate};
ghost use Rattle.server_pace.specs.Turns.{HasNoPlace, IsPlaceOf, given, is_own, is_past, next_turn, own_turn, turn_at};

use std::alloc::{AllocError, Global};
use std::net::IpAddr;
use text_networks::same_home;

/// How many addresses are remembered. An article of one for which there is no room is read at once.
const ADDRESSES: usize = 4_096;

/// When an article is read: the minute, and how many of its address are read in that minute, with this one.
#[derive(Clone, Copy)]
struct Turn {
    minute: u64,
    count: u32,
}

/// An address, and when its latest article is read.
#[derive(Clone, Copy)]
struct Poster {
    address: IpAddr,
    latest: Turn,
}

/// When the latest article of each address is read. Minutes are counted from any moment. Addresses count as one as `same_home` says.
#[derive(Drop)]
pub struct Table {
    posters: Vec<Option<Poster>>,
    /// How many articles of an address may be read in a minute.
    most: u32,
}

impl Table {
    /// Nothing is remembered. An address may have so many articles read in a minute. Refused where memory is.
    pub fn new(alloc: Global, most: u32) -> Result<Table, AllocError>
        ensures posters { IfOk result (λ table. table.posters.items ≡ replicate 4096 None) }
        ensures most { IfOk result (λ table. table.most ≡ most) }
    {
        Ok(Table {
            posters: no_posters(alloc, ADDRESSES)?,
            most,
        })
    }

    /// The minute in which the next article of an address is read, where it is this minute now: this one, or the first in which fewer of
    /// that address are read than may be. The article has its turn then. `None` if there is no room for the address; then the article is
    /// read at once, and nothing changes.
    pub fn reserve(&mut self, address: IpAddr, now: u64) -> Option<u64>
        ensures given { IfSome result (λ minute. (at : ℕ) × IsPlaceOf self.old.posters.items address now at
            × (minute ≡ (turn_at self.old.posters.items self.old.most address now at).minute)
            × (self.new.posters.items ≡ given self.old.posters.items self.old.most address now at)) }
        ensures none { IfNone result (HasNoPlace self.old.posters.items address now) }
        ensures same { IfNone result (self.new.posters.items ≡ self.old.posters.items) }
        ensures most { self.new.most ≡ self.old.most }
    {
        let at = self.place_of(address, now)?;
        let latest = next_turn(self.most, now, own_turn(address, self.posters[at]));
        self.posters[at] = Some(Poster { address, latest });
        Some(latest.minute)
    }

    /// Where an address is to be remembered.
    fn place_of(&self, address: IpAddr, now: u64) -> Option<usize>
        ensures some { IfSome result (IsPlaceOf self.now.posters.items address now) }
        ensures none { IfNone result (HasNoPlace self.now.posters.items address now) }
    {
        let own = self
            .posters
            .iter()
            .position(|poster| is_own(address, *poster));
        match own {
            Some(at) => Some(at),
            None => self.posters.iter().position(|poster| is_past(now, *poster)),
        }
    }
}

/// So many places at which nothing is remembered.
fn no_posters(alloc: Global, places: usize) -> Result<Vec<Option<Poster>>, AllocError>
    ensures { IfOk result (λ posters. posters.items ≡ replicate places None) }
{
    vec![in alloc; None; places]
}

/// Whether this is the place of an address.
fn is_own(address: IpAddr, poster: Option<Poster>) -> bool
    ensures { result ≡ is_own address poster }
{
    match poster {
        Some(poster) => same_home(poster.address, address),
        None => false,
    }
}

/// Whether any address may have a place in this minute.
fn is_past(now: u64, poster: Option<Poster>) -> bool
    ensures { result ≡ is_past now poster }
{
    match poster {
        Some(poster) => poster.latest.minute < now,
        None => true,
    }
}

/// When the latest article of an address is read, where this is its place.
fn own_turn(address: IpAddr, poster: Option<Poster>) -> Option<Turn>
    ensures { result ≡ own_turn address poster }
{
    match poster {
        Some(poster) if same_home(poster.address, address) => Some(poster.latest),
        _ => None,
    }
}

/// When the next article of an address is read, where so many may be in a minute.
fn next_turn(most: u32, now: u64, latest: Option<Turn>) -> Turn
    ensures turn { result ≡ next_turn most now latest }
    ensures within { result.count ≤ max 1 most }
    ensures later { now ≤ result.minute }
{
    match latest {
        Some(latest) if now <= latest.minute && latest.count < most => Turn {
            minute: latest.minute,
            count: latest.count + 1,
        },
        Some(latest) if now <= latest.minute => Turn {
            minute: latest.minute.saturating_add(1),
            count: 1,
        },
        _ => Turn {
            minute: now,
            count: 1,
        },
    }
}
