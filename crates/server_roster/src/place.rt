//! Who calls a session's thread, as long as somebody does.

use crate::{Chosen, ListedSession, SessionState};
use model::{Mode, Moment};
use server_logging::SessionCounts;
use std::alloc::Global;
use std::net::{Shutdown, SocketAddr, TcpStream};
use std::sync::{Arc, Mutex, Wait};
use std::time::{Clock, Instant};

/// A caller whose session begins.
#[derive(Drop)]
pub struct Guest {
    /// The number of the session.
    pub session: u64,
    pub peer: SocketAddr,
    pub since: Moment,
    pub socket: Arc<TcpStream, Global>,
}

/// The place of a session's thread. Its lock is held for a few instructions, and no other is taken under it.
#[derive(Drop)]
pub struct Place {
    present: Mutex<Option<Present>>,
}

/// A caller, and what is known of its session.
#[derive(Drop)]
struct Present {
    guest: Guest,
    counts: SessionCounts,
    /// What its caller sends next.
    mode: Mode,
    /// When the last octet of its caller came, or its session began. `None` where the clock cannot be read.
    heard: Option<Instant>,
    /// The operator ended the session.
    is_let_go: bool,
}

impl Place {
    /// A place without a caller.
    pub fn new() -> Place {
        Place {
            present: Mutex::new(None),
        }
    }

    /// A session begins. It awaits a command.
    pub fn begin<R: Wait + Clock>(&self, rt: &R, guest: Guest) {
        *self.present.lock(rt) = Some(Present {
            guest,
            counts: SessionCounts::new(),
            mode: Mode::Line,
            heard: Instant::now(rt).ok(),
            is_let_go: false,
        });
    }

    /// Octets of the caller have come, so many in all.
    pub fn note_heard<R: Wait + Clock>(&self, rt: &R, octets_in: u64) {
        let now = Instant::now(rt).ok();
        if let Some(present) = &mut *self.present.lock(rt) {
            present.heard = now;
            present.counts.octets_in = octets_in;
        }
    }

    /// What the session was served so far, and what it awaits next.
    pub fn note_served<R: Wait>(&self, rt: &R, counts: SessionCounts, mode: Mode) {
        if let Some(present) = &mut *self.present.lock(rt) {
            present.counts = counts;
            present.mode = mode;
        }
    }

    /// The session is over. Answers whether the operator ended it.
    pub fn end<R: Wait>(&self, rt: &R) -> bool {
        match self.present.lock(rt).take() {
            Some(present) => present.is_let_go,
            None => false,
        }
    }

    /// Whether the operator ended the session that there is.
    pub fn is_let_go<R: Wait>(&self, rt: &R) -> bool {
        match &*self.present.lock(rt) {
            Some(present) => present.is_let_go,
            None => false,
        }
    }

    /// Whether there is no caller.
    pub fn is_free<R: Wait>(&self, rt: &R) -> bool {
        self.present.lock(rt).is_none()
    }

    /// Shuts down the caller's socket, whichever thread reads from it or writes to it.
    pub fn shut_down<R: Wait>(&self, rt: &R, how: Shutdown) {
        if let Some(present) = &*self.present.lock(rt) {
            let _ = present.guest.socket.shutdown(how);
        }
    }

    /// Ends the session if it is one of these, and answers whether it is: nothing more is read from its caller or written to it.
    pub fn let_go<R: Wait>(&self, rt: &R, chosen: &Chosen) -> bool {
        let mut held = self.present.lock(rt);
        let Some(present) = &mut *held else {
            return false;
        };
        let Guest {
            session,
            peer,
            since: _,
            socket,
        } = &present.guest;
        if !chosen.has(*session, *peer) {
            return false;
        }
        present.is_let_go = true;
        let _ = socket.shutdown(Shutdown::Both);
        true
    }

    /// The session as it is now, if there is one, to which so many octets were written, and of which outputs are held or not.
    pub fn look<R: Wait + Clock>(
        &self,
        rt: &R,
        octets_out: u64,
        is_held: bool,
    ) -> Option<ListedSession> {
        let now = Instant::now(rt).ok();
        let held = self.present.lock(rt);
        let present = held.as_ref()?;
        let mut counts = present.counts;
        counts.octets_out = octets_out;
        Some(ListedSession {
            session: present.guest.session,
            peer: present.guest.peer,
            since: present.guest.since.seconds(),
            counts,
            silent: seconds_between(present.heard, now),
            state: SessionState::of(present.mode, is_held),
        })
    }
}

/// The whole seconds from one time to a later one; 0 where the clock could not be read.
fn seconds_between(from: Option<Instant>, to: Option<Instant>) -> u64 {
    match (from, to) {
        (Some(from), Some(to)) => to.duration_since(from).as_secs(),
        _ => 0,
    }
}
