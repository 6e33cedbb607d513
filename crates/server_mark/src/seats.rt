//! The seats by which threads use the mark. Seats have no bytes.

use crate::steps::View;
use atomic_table::Seat as TableSeat;
use std::marker::Model;

/// A caller's seat: the greatest number that it has seen, whether it has seen the stop, and whether it saw the stop
/// first.
#[derive(Drop)]
pub struct Seat {
    pub(crate) seat: TableSeat<u8, View>,
}

impl Model for Seat {
    ghost use Rattle.std.specs.Prelude.{◌≡◌, [], true};
    ghost use Rattle.server_mark.specs.Rule.{is_caller};
    ghost use Rattle.server_mark.specs.Seats.{SeatView, caller_of};

    ghost Value = { SeatView };

    ghost view = { λ s. caller_of s.seat.table_id s.seat.me.0 };

    ghost invariant = { λ s. (is_caller s.seat.me.0 ≡ true) × (s.seat.me.1 ≡ []) };
}

/// The flusher's seat: the numbers that it raised, and whether it has stopped.
#[derive(Drop)]
pub struct FlushSeat {
    pub(crate) seat: TableSeat<u8, View>,
}

impl Model for FlushSeat {
    ghost use Rattle.std.specs.Prelude.{◌≡◌, [], true};
    ghost use Rattle.server_mark.specs.Rule.{is_flusher};
    ghost use Rattle.server_mark.specs.Seats.{FlushView, flusher_of};

    ghost Value = { FlushView };

    ghost view = { λ s. flusher_of s.seat.table_id s.seat.me.0 };

    ghost invariant = { λ s. (is_flusher s.seat.me.0 ≡ true) × (s.seat.me.1 ≡ []) };
}
