//! The sessions that the operator ends.

ghost use Rattle.std.specs.Prelude.{◌↔◌, IsTrue, IfSome, IfNone};
ghost use Rattle.server_roster.specs.Chosen.{IsChosen, IsNamedBy, NamesNone};

use std::net::SocketAddr;
use text_names::number_of;
use text_networks::Network;

/// Some of the sessions.
#[derive(Clone, Copy)]
pub enum Chosen {
    /// The one with this number.
    Session(u64),
    /// Those whose callers are in a network.
    From(Network),
}

impl Chosen {
    /// The sessions that a word names: a number of 1 to 16 digits is that of a session, and an address or a network is read as
    /// `Network::read` does. `None` for any other word.
    pub fn read(word: &[u8]) -> Option<Chosen>
        ensures some { IfSome result (IsNamedBy word.now) }
        ensures none { IfNone result (NamesNone word.now) }
    {
        if let Some(number) = number_of(word) {
            return Some(Chosen::Session(number));
        }
        let Ok(text) = str::from_utf8(word) else {
            return None;
        };
        match Network::read(text) {
            Some(network) => Some(Chosen::From(network)),
            None => None,
        }
    }

    /// Whether a session is one of these, by its number and its caller's address.
    pub fn has(&self, session: u64, peer: SocketAddr) -> bool
        ensures { IsTrue result ↔ IsChosen self.now session peer }
    {
        match self {
            Chosen::Session(number) => *number == session,
            Chosen::From(network) => network.contains(peer.ip()),
        }
    }
}
