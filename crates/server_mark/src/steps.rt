//! The rule of the two words, and what each step on them answers.

ghost use Rattle.server_mark.specs.Rule.{IsKept, at_first, caller_at_first, looks, sees, raises, stops, tells, with_taken};

use atomic_table::{Join, Play, Split, TableRule};
use std::collections::LinkedList;

/// What a seat knows. No value of it is made.
pub enum View {
    /// The greatest number that it has seen, whether it has seen the stop, and whether it had seen the stop before it
    /// saw that number.
    Caller {
        seen: u64,
        told: bool,
        after_stop: bool,
    },
    /// The numbers that it raised, in order, whether it has stopped, and the number that a seat had seen which it took back last.
    Flusher {
        raised: LinkedList<u64>,
        stopped: bool,
        known: u64,
    },
}

/// The rule of the two words: `IsKept` of `specs/Rule.antt`.
pub struct Rule;

impl TableRule<u8, View, ()> for Rule {
    ghost holds = { λ _ state. IsKept state.words state.views };

    ghost first = { λ _. at_first };
}

/// A caller reads the number of durable changes.
pub(crate) struct Looks;

impl Play<u8, View> for Looks {
    ghost then = { λ _ before found after. looks before.0 found after.0 before.1 after.1 };
}

/// A caller reads whether the flusher has stopped.
pub(crate) struct Sees;

impl Play<u8, View> for Sees {
    ghost then = { λ _ before found after. sees before.0 found after.0 before.1 after.1 };
}

/// The flusher raises the mark.
pub(crate) struct Raises;

impl Play<u8, View> for Raises {
    ghost then = { λ step before _ after. raises before.0 step.first after.0 before.1 after.1 };
}

/// The flusher stops.
pub(crate) struct Stops;

impl Play<u8, View> for Stops {
    ghost then = { λ _ before _ after. stops before.0 after.0 before.1 after.1 };
}

/// The flusher takes back a caller's seat.
pub(crate) struct TakesBack;

impl Join<View> for TakesBack {
    ghost both = { λ flusher caller. with_taken flusher caller };

    ghost spent = { caller_at_first };
}

/// The flusher says whence the number of the seat is that it took back.
pub(crate) struct Tells;

impl Play<u8, View> for Tells {
    ghost then = { λ _ before _ after. tells before.0 after.0 before.1 after.1 };
}

/// The flusher's seat stays as it is, and the first caller's seat begins.
pub(crate) struct Begins;

impl Split<View> for Begins {
    ghost left = { λ view. view };

    ghost right = { λ _. caller_at_first };
}

/// A caller's seat stays as it is, and another caller's seat has seen the same.
pub(crate) struct Same;

impl Split<View> for Same {
    ghost left = { λ view. view };

    ghost right = { λ view. view };
}
