//! Messages that may be answered now.

use crate::Shared;
use kernel_shared::Kern;
use model::Moment;
use server_outgoing::Outgoing;
use server_places::{NoPlace, needs_place};
use session_received::Received;
use std::sync::Wait;

/// A message that may be answered now: its reply is not large, or its session has a place for it, or nobody needs one. Who has the kernel
/// answer a message gives this, so it doesn't do so without a look at the places.
#[derive(Drop)]
pub(crate) struct Answerable<'m> {
    received: Received<'m>,
}

impl<'m> Answerable<'m> {
    /// The message.
    pub(crate) fn into_received(self) -> Received<'m> {
        self.received
    }

    /// A message that needs no place, whatever the session has. `None` if this one does.
    pub(crate) fn without_place(received: Received<'m>) -> Option<Answerable<'m>> {
        if needs_place(&received) {
            None
        } else {
            Some(Answerable { received })
        }
    }

    /// A message of the session with this writer. One that needs a place takes one, if its session has none. A session that has one, and
    /// so holds a large reply, gets no other: it never waits for itself. Where no place is free, the message may be answered if its
    /// reply surely fits one release; otherwise its session waits for a place, and this is `None`.
    pub(crate) fn of<R: Wait, K: Kern, H>(
        shared: &Shared<'_, R, K, H>,
        writer: usize,
        outgoing: &mut Outgoing,
        received: Received<'m>,
        moment: Moment,
    ) -> Option<Answerable<'m>> {
        if outgoing.place.is_some() || !needs_place(&received) {
            return Some(Answerable { received });
        }
        let Shared {
            rt,
            kern,
            writers,
            ..
        } = shared;
        match writers.places.ask(*rt, writer, outgoing.guest) {
            Ok(place) => {
                outgoing.place = place;
                outgoing.asks = false;
            }
            Err(NoPlace) => {
                outgoing.asks = !kern.asks_for_few(*rt, &received, moment);
                if outgoing.asks {
                    return None;
                }
                writers.forget(*rt, writer);
            }
        }
        Some(Answerable { received })
    }
}
