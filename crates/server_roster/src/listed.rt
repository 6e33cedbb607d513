//! A session as the operator sees it.

ghost use Rattle.std.specs.Prelude.{◌≡◌, Some};
ghost use Rattle.server_roster.specs.Listed.{state_of, state_text};

use model::Mode;
use server_logging::SessionCounts;
use std::fmt::{self, Display};
use std::net::SocketAddr;

/// What a session waits for.
#[derive(Clone, Copy, Debug, PartialEq, Eq)]
pub enum SessionState {
    /// A command of its caller.
    Idle,
    /// An article of its caller.
    Sending,
    /// A commit, without which replies of it cannot be released.
    Held,
}

impl SessionState {
    /// The state of a session that awaits a line or a block, and holds outputs until a commit or not.
    pub fn of(mode: Mode, is_held: bool) -> SessionState
        ensures { result ≡ state_of mode is_held }
    {
        match mode {
            _ if is_held => SessionState::Held,
            Mode::Line => SessionState::Idle,
            Mode::Block => SessionState::Sending,
        }
    }
}

impl Display for SessionState {
    ghost output = { λ state. Some (state_text state) };

    fn fmt<W: fmt::Write>(&self, f: &mut fmt::Formatter<W>) -> fmt::Result {
        f.write_str(match self {
            SessionState::Idle => "idle",
            SessionState::Sending => "sending",
            SessionState::Held => "held",
        })
    }
}

/// A session, as a line of the answer to `sessions` has it.
#[derive(Clone, Copy)]
pub struct ListedSession {
    /// The number of the session.
    pub session: u64,
    /// The caller's address.
    pub peer: SocketAddr,
    /// When it began, in seconds since 1970.
    pub since: u64,
    pub counts: SessionCounts,
    /// For so many seconds the caller has sent nothing.
    pub silent: u64,
    pub state: SessionState,
}

/// A line of names, each followed by its value (docs/OPERATING.md).
impl Display for ListedSession {
    fn fmt<W: fmt::Write>(&self, f: &mut fmt::Formatter<W>) -> fmt::Result {
        let ListedSession {
            session,
            peer,
            since,
            counts,
            silent,
            state,
        } = *self;
        let SessionCounts {
            messages,
            taken,
            refused,
            octets_in,
            octets_out,
        } = counts;
        write!(f, "session {session} peer {peer} since {since}")?;
        write!(f, " messages {messages} taken {taken} refused {refused}")?;
        write!(
            f,
            " in {octets_in} out {octets_out} silent {silent} state {state}"
        )
    }
}
