//! The flusher's seat of the mark, in the hands of its turns.

ghost use Rattle.std.specs.Prelude.{◌≡◌, ◌++◌, ◌∷◌, [], true};

use kernel_shared::{Halted, Told};
use server_mark::{FlushSeat, Mark};
use std::marker::Model;

/// A seat that raises the mark by what a kernel was told, and stops it once a kernel was asked to halt.
#[derive(Drop)]
pub struct TurnSeat {
    seat: FlushSeat,
}

impl Model for TurnSeat {
    ghost use Rattle.server_mark.specs.Seats.{FlushView};

    ghost Value = { FlushView };

    ghost view = { λ s. s.seat };
}

impl TurnSeat {
    /// A seat that has raised what this one has.
    pub fn new(seat: FlushSeat) -> TurnSeat
        ensures { result ≡ seat }
    {
        TurnSeat { seat }
    }

    /// Raises the mark to the number of changes of which a kernel was told.
    pub fn raise(&mut self, mark: &Mark, told: Told)
        requires { self.old.mark ≡ mark.now }
        ensures raised { self.new.raised ≡ self.old.raised ++ told.last ∷ [] }
        ensures stopped { self.new.stopped ≡ self.old.stopped }
        ensures mark { self.new.mark ≡ self.old.mark }
    {
        mark.raise(&mut self.seat, told.last());
    }

    /// Stops the mark of a kernel that was asked to halt.
    pub fn stop(&mut self, mark: &Mark, _: Halted)
        requires { self.old.mark ≡ mark.now }
        ensures raised { self.new.raised ≡ self.old.raised }
        ensures stopped { self.new.stopped ≡ true }
        ensures mark { self.new.mark ≡ self.old.mark }
    {
        mark.stop(&mut self.seat);
    }
}
