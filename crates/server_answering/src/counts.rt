//! What a session was served, as the log tells it: of the posts and transfers that were taken only those that no crash undoes.

use kernel_shared::{ExecOutcome, Hand, Hooks, Kern};
use model::Mode;
use server_attending::await_durable;
use server_logging::{CountedMessage, SessionCounts};
use server_releasing::Shared;
use std::sync::Wait;
use std::time::Clock;

/// What a session was served.
#[derive(Clone, Copy)]
pub(crate) struct Counted {
    pub(crate) all: SessionCounts,
    /// How many of the taken ones are known to be durable: those after which the session held no output.
    durable: u64,
}

impl Counted {
    /// Nothing was served yet.
    pub(crate) fn new() -> Counted {
        Counted {
            all: SessionCounts::new(),
            durable: 0,
        }
    }

    /// Counts a message that was answered while this was awaited.
    pub(crate) fn note(&mut self, awaited: Mode, answered: ExecOutcome) {
        self.all.note(served(awaited, answered));
        if !answered.is_held {
            self.durable = self.all.taken;
        }
    }

    /// The counts, once all that were taken are durable. If the device fails before that, those count that are known to be.
    pub(crate) fn durable<R: Wait + Clock, K: Kern, H: Hooks>(
        &self,
        shared: &Shared<'_, R, K, H>,
        hand: &mut Hand,
    ) -> SessionCounts {
        let mut told = self.all;
        if self.durable < told.taken && !await_durable(shared, hand) {
            told.taken = self.durable;
        }
        told
    }
}

/// How an answered message counts.
fn served(awaited: Mode, answered: ExecOutcome) -> CountedMessage {
    match awaited {
        Mode::Line => CountedMessage::Line,
        Mode::Block if answered.accepted.is_some() => CountedMessage::Taken,
        Mode::Block => CountedMessage::Refused,
    }
}
