//! The threads of the sessions. They are started as callers come, and stay for later callers.

use crate::threads::Hall;
use kernel_shared::{Hooks, Kern};
use server_accepting::Crew;
use server_answering::SessionThread;
use server_releasing::{Hand, ReplyWriter};
use std::sync::Wait;
use std::thread::Scope;
use std::time::Clock;

/// How many threads of each kind were started.
#[derive(Clone, Copy)]
pub(crate) struct Started {
    /// Those that finish writes. There is a writer for each.
    rests: usize,
    /// Those that read from callers, at most as many.
    sessions: usize,
}

impl Started {
    pub(crate) fn none() -> Started {
        Started {
            rests: 0,
            sessions: 0,
        }
    }
}

/// What an acceptor asks of the thread that starts others.
#[derive(Drop)]
pub(crate) enum Wanted {
    /// Threads for so many sessions.
    Sessions(usize),
    /// Nothing more.
    Nobody,
}

/// Asks for the threads of sessions.
pub(crate) struct Recruiter<'s, R, K, H> {
    pub(crate) hall: &'s Hall<'s, R, K, H>,
}

impl<'s, R, K, H> Drop for Recruiter<'s, R, K, H> {
    fn drop(self) {
        let Recruiter { hall: _ } = self;
    }
}

impl<'s, R: Wait, K, H> Crew for Recruiter<'s, R, K, H> {
    /// The thread that starts others is asked, where threads are missing. One acceptor at a time asks it.
    fn has_threads(&self, sessions: usize) -> bool {
        let Hall {
            shared,
            started,
            channels,
            asking,
            ..
        } = self.hall;
        let _turn = asking.lock(shared.rt);
        if sessions <= started.lock(shared.rt).sessions {
            return true;
        }
        let wanted = Wanted::Sessions(sessions);
        channels.wanted.send(shared.rt, wanted).is_ok() && channels.told.recv(shared.rt) == Ok(true)
    }
}

/// Starts the threads of sessions.
pub(crate) struct Staff<'s, E, R, K, H> {
    pub(crate) scope: &'s Scope<'s, E>,
    pub(crate) hall: &'s Hall<'s, R, K, H>,
}

impl<'s, E, R, K, H> Drop for Staff<'s, E, R, K, H> {
    fn drop(self) {
        let Staff { scope: _, hall: _ } = self;
    }
}

impl<'s, E, R: Wait + Clock + Sync, K: Kern + Sync, H: Hooks + Sync> Staff<'s, E, R, K, H> {
    /// Starts threads as acceptors ask for them, until nobody asks any more.
    pub(crate) fn start_as_asked(&self) {
        let (rt, channels) = (self.hall.shared.rt, self.hall.channels);
        for _ in rt.forever() {
            let Ok(Wanted::Sessions(sessions)) = channels.asked.recv(rt) else {
                return;
            };
            let is_staffed = self.start_up_to(sessions);
            if channels.staffed.send(rt, is_staffed).is_err() {
                return;
            }
        }
    }

    /// Has threads for so many sessions run. Answers false if the system cannot start them. A session has two threads: its
    /// own, and one that finishes its writes.
    pub(crate) fn start_up_to(&self, sessions: usize) -> bool {
        let mut started = self.hall.started.lock(self.hall.shared.rt);
        for _ in started.sessions..sessions {
            if !self.start_next(&mut started) {
                return false;
            }
        }
        true
    }

    /// Starts the two threads of one more session, or the second if the first was started before. Answers false if the
    /// system cannot start both.
    fn start_next(&self, started: &mut Started) -> bool {
        if started.rests <= started.sessions {
            if !self.start_rests(started.rests) {
                return false;
            }
            started.rests = started.rests.saturating_add(1);
        }
        if !self.start_session(started.sessions) {
            return false;
        }
        started.sessions = started.sessions.saturating_add(1);
        true
    }

    /// Starts the thread that finishes the writes of the writer at this place. The writer is made, if it is not there.
    fn start_rests(&self, place: usize) -> bool {
        let hall = self.hall;
        let Some(writer) = self.writer_at(place) else {
            return false;
        };
        self.scope
            .spawn(move || writer.write_rests(hall.shared))
            .is_ok()
    }

    /// The writer at this place, which is made if it is the next one.
    fn writer_at(&self, place: usize) -> Option<&'s ReplyWriter> {
        let writers = self.hall.shared.writers;
        match writers.get(place) {
            Some(writer) => Some(writer),
            None => writers.make(self.hall.shared.rt, self.hall.shared.alloc),
        }
    }

    /// Starts the thread of the session with the writer at this place.
    fn start_session(&self, place: usize) -> bool {
        let hall = self.hall;
        let Some(writer) = hall.shared.writers.get(place) else {
            return false;
        };
        let session = self.scope.spawn(move || {
            let mut thread = SessionThread {
                shared: hall.shared,
                writer,
                moments: hall.moments,
                log: hall.log,
                doors: hall.doors,
                partings: &hall.channels.parting,
                verdicts: hall.verdicts,
                pace: hall.pace,
                hand: Hand::new(),
            };
            thread.serve_calls(&hall.channels.calls)
        });
        session.is_ok()
    }
}
