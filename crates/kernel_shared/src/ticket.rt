//! The name of a batch in flight.

ghost use Rattle.std.specs.Prelude.{◌≡◌};

/// Names a batch in flight.
#[derive(Clone, Copy, Debug, PartialEq, Eq)]
pub struct Ticket {
    last: u64,
}

impl Ticket {
    /// The ticket of a batch that is taken when this many changes are accepted.
    pub fn new(last: u64) -> Ticket
        ensures { result ≡ record { last = last } }
    {
        Ticket { last }
    }

    /// The number of changes that were accepted when the batch was taken.
    pub fn last(self) -> u64
        ensures { result ≡ self.last }
    {
        self.last
    }
}
