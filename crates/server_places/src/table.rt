//! Who has the places, and who waits for one.

ghost use Rattle.std.specs.Prelude.{◌≡◌, ◌≢◌, ◌⊎◌, All, IfNone, IfOk, IfSome, None, Ok, OnErr, Some, false, replicate, set, true};
ghost use Rattle.server_places.specs.Taken.{GivesOn, IsAt, IsTaken, WasGiven};

use std::alloc::{AllocError, Global};
use text_networks::{Guest, Guests};

/// How many sessions may hold a large reply, or ask for one, at one time. It bounds the memory that these replies take.
const PLACES: usize = 8;

/// How many of these the sessions of one address may be.
const PLACES_FROM: usize = 2;

/// A place that a session has. A table alone makes it, and it has no `Clone`.
#[derive(Drop)]
pub struct Held {
    seat: usize,
}

/// No place is free for a session that asks.
#[derive(Clone, Copy, Debug, PartialEq, Eq)]
pub struct NoPlace;

/// A session that waits for a place.
#[derive(Drop)]
struct Waiter {
    /// The number of its writer among all.
    writer: usize,
    guest: Guest,
    /// Once it was given one.
    given: Option<Held>,
}

/// Who has the places, and who waits for one. A session that waits could have none of those that are free: its address has as
/// many as it may have, or none is free. So who asks later takes none that it could have.
#[derive(Drop)]
pub struct Table {
    guests: Guests,
    /// In the order in which they asked.
    waiting: Vec<Waiter>,
    /// The kernel is halted, and answers everybody with one line: so nobody needs a place.
    is_open: bool,
    ghost most: { guests.most_from ≡ Some 2 },
}

impl Table {
    /// Eight places that are free, of which one address may have two, for the sessions of so many writers.
    pub fn new(alloc: Global, writers: usize) -> Result<Table, AllocError>
        ensures places { IfOk result (λ table. table.guests.seats.items ≡ replicate 8 None) }
    {
        Ok(Table {
            guests: Guests::new(alloc, PLACES, Some(PLACES_FROM))?,
            waiting: Vec::with_capacity(alloc, writers)?,
            is_open: false,
        })
    }

    /// A session that has no place asks for one, by the number of its writer. It gets the one that it was given while it waited, or
    /// one that is free and that its address may have. Otherwise it has to wait, and `has_to_wait` says how long. It gets none,
    /// and needs none, once the kernel is halted.
    pub fn ask(&mut self, writer: usize, guest: Guest) -> Result<Option<Held>, NoPlace>
        ensures counted { IfOk result (λ got. IfSome got (λ held.
            WasGiven self.old.waiting.items writer held.seat
            ⊎ IsTaken self.old.guests self.new.guests guest held.seat)) }
        ensures none { result ≡ Ok None → self.old.is_open ≡ true }
        ensures err { OnErr result (self.new.guests.seats.items ≡ self.old.guests.seats.items) }
    {
        if let Some(at) = self.find(writer) {
            if self.waiting[at].given.is_none() && !self.is_open {
                return Err(NoPlace);
            }
            let Waiter { given, .. } = self.waiting.remove(at);
            return Ok(given);
        }
        if self.is_open {
            return Ok(None);
        }
        if let Some(held) = self.take(guest) {
            return Ok(Some(held));
        }
        let waiter = Waiter {
            writer,
            guest,
            given: None,
        };
        // there is room for each writer
        let _ = self.waiting.push(waiter);
        Err(NoPlace)
    }

    /// Whether a session that asked has to wait on. One that doesn't asks again.
    pub fn has_to_wait(&self, writer: usize) -> bool
        ensures open { self.now.is_open ≡ true → result ≡ false }
    {
        match self.find(writer) {
            Some(at) => self.waiting[at].given.is_none() && !self.is_open,
            None => false,
        }
    }

    /// Frees a place, and gives it to the first that waits and may have it. Answers the number of its writer.
    pub fn free(&mut self, held: Held) -> Option<usize>
        ensures none { IfNone result (self.new.guests.seats.items ≡ set self.old.guests.seats.items held.seat None) }
        ensures given { IfSome result (λ writer.
            GivesOn (set self.old.guests.seats.items held.seat None) self.new.guests self.new.waiting.items writer) }
    {
        let Held { seat } = held;
        self.guests.leave(seat);
        self.hand_on()
    }

    /// A session waits no more. Answers the place that it was given, if it was, which is to be freed.
    pub fn forget(&mut self, writer: usize) -> Option<Held>
        ensures given { IfSome result (λ held. WasGiven self.old.waiting.items writer held.seat) }
        ensures guests { self.new.guests ≡ self.old.guests }
    {
        let at = self.find(writer)?;
        let Waiter { given, .. } = self.waiting.remove(at);
        given
    }

    /// Nobody needs a place from now on, as the kernel is halted.
    pub fn open(&mut self)
        ensures open { self.new.is_open ≡ true }
        ensures guests { self.new.guests ≡ self.old.guests }
        ensures waiting { self.new.waiting ≡ self.old.waiting }
    {
        self.is_open = true;
    }

    /// Where a session stands among those that wait.
    fn find(&self, writer: usize) -> Option<usize>
        ensures found { IfSome result (λ at. IsAt self.now.waiting.items writer at) }
        ensures none { IfNone result (All (λ w. w.writer ≢ writer) self.now.waiting.items) }
    {
        self.waiting
            .iter()
            .position(|waiter| waiter.writer == writer)
    }

    /// Takes a place that is free, if the guest's address may have one more.
    fn take(&mut self, guest: Guest) -> Option<Held>
        ensures taken { IfSome result (λ held. IsTaken self.old.guests self.new.guests guest held.seat) }
        ensures none { IfNone result (self.new.guests.seats.items ≡ self.old.guests.seats.items) }
        ensures waiting { self.new.waiting ≡ self.old.waiting }
        ensures open { self.new.is_open ≡ self.old.is_open }
    {
        match self.guests.enter(guest) {
            Ok(seat) => Some(Held { seat }),
            Err(_) => None,
        }
    }

    /// Gives a place that is free to the first that waits and may have it. Answers the number of its writer.
    fn hand_on(&mut self) -> Option<usize>
        ensures none { IfNone result (self.new.guests.seats.items ≡ self.old.guests.seats.items) }
        ensures given { IfSome result (λ writer.
            GivesOn self.old.guests.seats.items self.new.guests self.new.waiting.items writer) }
    {
        'waiters: for at in 0..self.waiting.len() {
            if self.waiting[at].given.is_some() {
                continue;
            }
            let guest = self.waiting[at].guest;
            if let Some(held) = self.take(guest) {
                self.waiting[at].given = Some(held);
                return Some(self.waiting[at].writer);
            }
        }
        None
    }
}
