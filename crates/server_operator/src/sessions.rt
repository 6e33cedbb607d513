//! The sessions of the server, as the operator sees them and ends them.

ghost use Rattle.std.specs.Prelude.{◌≡◌, IfErr};

use crate::line_answer::Refused;
use server_releasing::Writers;
use server_roster::{Chosen, ListedSession, SessionState};
use std::alloc::{AllocError, Global};
use std::fmt::{self, Display, Formatter};
use std::sync::Wait;
use std::time::Clock;

/// The sessions at one moment.
#[derive(Drop)]
pub struct Listing {
    sessions: Vec<ListedSession>,
}

impl Listing {
    /// Looks at the sessions.
    pub(crate) fn of<R: Wait + Clock>(
        rt: &R,
        alloc: Global,
        writers: &Writers,
    ) -> Result<Listing, AllocError> {
        let mut sessions = Vec::new(alloc);
        for place in 0..writers.len() {
            if let Some(session) = session_at(rt, writers, place) {
                sessions.push(session)?;
            }
        }
        Ok(Listing { sessions })
    }
}

/// A line for each session, and then their number (docs/OPERATING.md).
impl Display for Listing {
    fn fmt<W: fmt::Write>(&self, f: &mut Formatter<W>) -> fmt::Result {
        for session in &self.sessions {
            writeln!(f, "{session}")?;
        }
        write!(f, "sessions {}", self.sessions.len())
    }
}

/// How many sessions wait for what.
#[derive(Clone, Copy)]
pub(crate) struct States {
    idle: u64,
    sending: u64,
    held: u64,
}

impl States {
    /// Counts the sessions by what they wait for.
    pub(crate) fn of<R: Wait + Clock>(rt: &R, writers: &Writers) -> States {
        let mut states = States {
            idle: 0,
            sending: 0,
            held: 0,
        };
        for place in 0..writers.len() {
            if let Some(session) = session_at(rt, writers, place) {
                states.count(session.state);
            }
        }
        states
    }

    fn count(&mut self, state: SessionState) {
        let counted = match state {
            SessionState::Idle => &mut self.idle,
            SessionState::Sending => &mut self.sending,
            SessionState::Held => &mut self.held,
        };
        *counted = counted.saturating_add(1);
    }
}

impl Display for States {
    fn fmt<W: fmt::Write>(&self, f: &mut Formatter<W>) -> fmt::Result {
        let States {
            idle,
            sending,
            held,
        } = *self;
        write!(f, "idle {idle} sending {sending} held {held}")
    }
}

/// The session of the writer at this place, if it has one.
fn session_at<R: Wait + Clock>(rt: &R, writers: &Writers, place: usize) -> Option<ListedSession> {
    writers.get(place)?.look(rt)
}

/// Ends these sessions, and answers how many there were. `NotFound` if there was none.
pub(crate) fn let_go<R: Wait>(rt: &R, writers: &Writers, chosen: &Chosen) -> Result<u64, Refused>
    ensures { IfErr result (λ error. error ≡ Refused.NotFound) }
{
    let mut ended = 0u64;
    for place in 0..writers.len() {
        if writers
            .get(place)
            .is_some_and(|writer| writer.let_go(rt, chosen))
        {
            ended = ended.saturating_add(1);
        }
    }
    if ended == 0 {
        return Err(Refused::NotFound);
    }
    Ok(ended)
}
