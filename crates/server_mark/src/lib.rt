//! Two words that threads share without waiting: the number of durable changes, and whether the flusher has stopped.
//! `specs/Rule.antt` says what the words hold at each moment, whatever threads do, and what each step answers.
#![tactic(auto)]

ghost use Rattle.std.specs.Prelude.{◌≡◌, ◌≤◌, ◌++◌, [], ◌∷◌, IfOk, true};
ghost use Rattle.server_mark.specs.Rule.{WasRaised};
ghost use Rattle.server_mark.specs.Seats.{IsNew};

mod seats;
mod steps;

use atomic_table::Table;
pub use seats::{FlushSeat, Seat};
use std::alloc::{AllocError, Global};
use std::marker::Model;
use steps::{Begins, Looks, Raises, Rule, Same, Sees, Stops, TakesBack, Tells, View};

/// The word with the greatest number that was raised.
const DURABLE: usize = 0;

/// The word that says whether the flusher has stopped: 0, or 1.
const STOPPED: usize = 1;

/// The durable mark. Contracts see which one it is.
#[derive(Drop)]
pub struct Mark {
    table: Table<u8, View, (), Rule, Global>,
}

impl Model for Mark {
    ghost use Rattle.std.specs.Prelude.{◌≡◌};
    ghost use Rattle.atomic_table.specs.Seated.{TableId};

    ghost Value = { TableId };

    ghost view = { λ m. m.table.shared.table_id };

    ghost invariant = { λ m. m.table.shared.table_id.words ≡ 2 };
}

impl Mark {
    /// A mark at 0, its one flush seat, and a first seat. `another` makes further ones.
    pub fn new(alloc: Global) -> Result<(Mark, FlushSeat, Seat), AllocError>
        ensures { IfOk result (λ made. IsNew made.0 made.1 made.2) }
    {
        let (table, mut first) = Table::of_words(alloc, &[0, 0], &())?;
        let seat = table.shared.split_seat::<Begins>(&mut first);
        Ok((Mark { table }, FlushSeat { seat: first }, Seat { seat }))
    }

    /// A further seat, which has seen what this one has.
    pub fn another(&self, seat: &mut Seat) -> Seat
        requires { seat.old.mark ≡ self.now }
        ensures same { seat.new ≡ seat.old }
        ensures new { result ≡ seat.old }
    {
        Seat {
            seat: self.table.shared.split_seat::<Same>(&mut seat.seat),
        }
    }

    /// The number of durable changes: 0 or a number that was raised, and never less than the seat has seen.
    pub fn durable(&self, seat: &mut Seat) -> u64
        requires { seat.old.mark ≡ self.now }
        ensures answer { result ≡ seat.new.seen }
        ensures later { seat.old.seen ≤ seat.new.seen }
        ensures told { seat.new.told ≡ seat.old.told }
        ensures after_stop { seat.new.after_stop ≡ seat.old.told }
        ensures mark { seat.new.mark ≡ seat.old.mark }
    {
        self.table.shared.load::<Looks>(&mut seat.seat, DURABLE)
    }

    /// Raises the number: from now on at least `n` changes are durable.
    pub fn raise(&self, seat: &mut FlushSeat, n: u64)
        requires { seat.old.mark ≡ self.now }
        ensures raised { seat.new.raised ≡ seat.old.raised ++ n ∷ [] }
        ensures stopped { seat.new.stopped ≡ seat.old.stopped }
        ensures mark { seat.new.mark ≡ seat.old.mark }
    {
        self.table
            .shared
            .fetch_max::<Raises>(&mut seat.seat, DURABLE, n);
    }

    /// Notes that the flusher has stopped: waiting for a greater number is no use.
    pub fn stop(&self, seat: &mut FlushSeat)
        requires { seat.old.mark ≡ self.now }
        ensures raised { seat.new.raised ≡ seat.old.raised }
        ensures stopped { seat.new.stopped ≡ true }
        ensures mark { seat.new.mark ≡ seat.old.mark }
    {
        self.table
            .shared
            .fetch_or::<Stops>(&mut seat.seat, STOPPED, 1);
    }

    /// Takes a seat back. Whatever it has seen is 0 or a number that the flusher raised.
    pub fn take_back(&self, flush: &mut FlushSeat, seat: Seat)
        requires flush { flush.old.mark ≡ self.now }
        requires seat { seat.mark ≡ self.now }
        ensures raised { WasRaised flush.old.raised seat.seen }
        ensures same { flush.new ≡ flush.old }
    {
        let shared = &self.table.shared;
        shared.join_seat::<TakesBack>(&mut flush.seat, seat.seat);
        shared.load::<Tells>(&mut flush.seat, DURABLE);
    }

    /// Whether the flusher has stopped. A seat that has seen the stop always sees it again.
    pub fn stopped(&self, seat: &mut Seat) -> bool
        requires { seat.old.mark ≡ self.now }
        ensures answer { result ≡ seat.new.told }
        ensures again { seat.old.told ≡ true → seat.new.told ≡ true }
        ensures seen { seat.new.seen ≡ seat.old.seen }
        ensures after_stop { seat.new.after_stop ≡ seat.old.after_stop }
        ensures mark { seat.new.mark ≡ seat.old.mark }
    {
        self.table.shared.load::<Sees>(&mut seat.seat, STOPPED) == 1
    }
}
