//! Which callers have the seats of a server, and how many of them one address may have.

ghost use Rattle.std.specs.Prelude.{◌≡◌, ◌≢◌, ◌<◌, ◌≤◌, None, Some, Ok, Err, All, IfOk, IfSome, IfNone, OnOk, OnErr};
ghost use Rattle.std.specs.Prelude.{count_by, length, replicate, set, slice_index_or, true, false, vec_len};
ghost use Rattle.text_networks.specs.Guests.{has_most, is_free, is_like, same_guest, same_home};

use std::alloc::{AllocError, Global};
use std::net::IpAddr;

/// Why a caller gets no seat.
#[derive(Clone, Copy, Debug, PartialEq, Eq)]
pub enum NoSeat {
    /// All seats are taken.
    Full,
    /// The caller's address has as many seats as one may have.
    Address,
}

/// Who has a seat.
#[derive(Clone, Copy)]
pub enum Guest {
    /// A caller of this address.
    At(IpAddr),
    /// A caller by a proxy that has not said yet for whom it connects.
    Unnamed,
}

/// The seats of a server, and who has each that is taken.
#[derive(Drop)]
pub struct Guests {
    seats: Vec<Option<Guest>>,
    /// The most seats of one address. Where it is not given, an address may have as many as are free then.
    most_from: Option<usize>,
}

impl Guests {
    /// So many free seats.
    pub fn new(alloc: Global, seats: usize, most_from: Option<usize>) -> Result<Guests, AllocError>
        ensures seats { IfOk result (λ guests. guests.seats.items ≡ replicate seats None) }
        ensures most { IfOk result (λ guests. guests.most_from ≡ most_from) }
    {
        Ok(Guests {
            seats: vec![in alloc; None; seats]?,
            most_from,
        })
    }

    /// Gives a caller a seat, and answers which. `Full` if all are taken, `Address` if its address has as many as it may
    /// have, or if as many callers have said no address yet as seats are free; then nothing changes.
    pub fn enter(&mut self, guest: Guest) -> Result<usize, NoSeat>
        ensures seat { IfOk result
            (λ seat. (seat < vec_len self.old.seats) × (slice_index_or self.old.seats.items seat (Some guest) ≡ None)) }
        ensures taken { IfOk result (λ seat. self.new.seats.items ≡ set self.old.seats.items seat (Some guest)) }
        ensures may { OnOk result (has_most self.old.seats.items self.old.most_from guest ≡ false) }
        ensures full { result ≡ Err NoSeat.Full → All (λ seat. seat ≢ None) self.old.seats.items }
        ensures address { result ≡ Err NoSeat.Address → has_most self.old.seats.items self.old.most_from guest ≡ true }
        ensures err { OnErr result (self.new.seats.items ≡ self.old.seats.items) }
        ensures most { self.new.most_from ≡ self.old.most_from }
    {
        let Some(seat) = self.first_free() else {
            return Err(NoSeat::Full);
        };
        if self.has_most(guest) {
            return Err(NoSeat::Address);
        }
        self.seats[seat] = Some(guest);
        Ok(seat)
    }

    /// Gives the caller of a seat another one by its address, which is known now, and answers which. Its own is freed first.
    /// Refused as `enter` refuses a caller of this address; then it has none.
    pub fn name(&mut self, seat: usize, address: IpAddr) -> Result<usize, NoSeat>
        ensures seat { let freed = set self.old.seats.items seat None in IfOk result
            (λ own. (own < vec_len self.old.seats) × (slice_index_or freed own (Some (Guest.At address)) ≡ None)) }
        ensures taken { let freed = set self.old.seats.items seat None in
            IfOk result (λ own. self.new.seats.items ≡ set freed own (Some (Guest.At address))) }
        ensures may { OnOk result (has_most (set self.old.seats.items seat None) self.old.most_from (Guest.At address) ≡ false) }
        ensures full { result ≡ Err NoSeat.Full → All (λ own. own ≢ None) (set self.old.seats.items seat None) }
        ensures address { result ≡ Err NoSeat.Address
            → has_most (set self.old.seats.items seat None) self.old.most_from (Guest.At address) ≡ true }
        ensures err { OnErr result (self.new.seats.items ≡ set self.old.seats.items seat None) }
        ensures most { self.new.most_from ≡ self.old.most_from }
    {
        self.leave(seat);
        self.enter(Guest::At(address))
    }

    /// Frees a seat, if there is one of this number.
    pub fn leave(&mut self, seat: usize)
        ensures seats { self.new.seats.items ≡ set self.old.seats.items seat None }
        ensures most { self.new.most_from ≡ self.old.most_from }
    {
        if seat < self.seats.len() {
            self.seats[seat] = None;
        }
    }

    /// The first seat that is free.
    fn first_free(&self) -> Option<usize>
        ensures some { IfSome result (λ seat. (seat < vec_len self.now.seats) × (slice_index_or self.now.seats.items seat None ≡ None)) }
        ensures none { IfNone result (All (λ seat. seat ≢ None) self.now.seats.items) }
    {
        self.seats.iter().position(Option::is_none)
    }

    /// Whether the callers that count as one with this one have as many seats as they may have.
    fn has_most(&self, guest: Guest) -> bool
        ensures { result ≡ has_most self.now.seats.items self.now.most_from guest }
    {
        let seats = self.seats.as_slice();
        match (guest, self.most_from) {
            (Guest::At(_), Some(most)) => most <= count_like(seats, guest),
            (Guest::At(_), None) => count_free(seats) <= count_like(seats, guest),
            (Guest::Unnamed, _) => count_free(seats) <= count_like(seats, guest),
        }
    }
}

/// How many of these seats are free.
fn count_free(seats: &[Option<Guest>]) -> usize
    ensures count { result ≡ count_by is_free seats.now }
    ensures within { result ≤ length seats.now }
{
    let mut count = 0;
    for seat in seats {
        if seat.is_none() {
            count += 1;
        }
    }
    count
}

/// How many of these seats the callers have that count as one with this one.
fn count_like(seats: &[Option<Guest>], guest: Guest) -> usize
    ensures count { result ≡ count_by (is_like guest) seats.now }
    ensures within { result ≤ length seats.now }
{
    let mut count = 0;
    for seat in seats {
        if let Some(other) = seat
            && same_guest(guest, *other)
        {
            count += 1;
        }
    }
    count
}

/// Whether two callers count as one: those of one address, and those that have said none.
fn same_guest(a: Guest, b: Guest) -> bool
    ensures { result ≡ same_guest a b }
{
    match (a, b) {
        (Guest::At(a), Guest::At(b)) => same_home(a, b),
        (Guest::Unnamed, Guest::Unnamed) => true,
        _ => false,
    }
}

/// Whether two addresses count as one. Of an IPv6 address the first 64 bits count, since whoever has one of these has
/// them all (RFC 6177). An IPv4-mapped address counts as the IPv4 address.
pub fn same_home(a: IpAddr, b: IpAddr) -> bool
    ensures { result ≡ same_home a b }
{
    match (a.to_canonical(), b.to_canonical()) {
        (IpAddr::V4(a), IpAddr::V4(b)) => a.octets() == b.octets(),
        (IpAddr::V6(a), IpAddr::V6(b)) => a.octets()[..8] == b.octets()[..8],
        _ => false,
    }
}
