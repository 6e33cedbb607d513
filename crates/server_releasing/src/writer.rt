//! The way of one session's replies from the kernel to its socket. Only the holder of the lock on a desk takes what is
//! ready, so the order on the socket is that of the kernel. The lock is taken before the kernel's, and no thread
//! holds two of these locks.

use crate::answerable::Answerable;
use crate::{Hand, Shared};
use kernel_outbox::RELEASE_ENTRIES;
use kernel_shared::{ExecError, ExecOutcome, Hooks, Kern, Look};
use model::Moment;
use server_outgoing::{Cut, Delivery, Desk, Outgoing, Patience, Turn};
use server_roster::{Chosen, Guest, ListedSession, Place};
use session_received::Received;
use std::alloc::{AllocError, Global};
use std::net::{Shutdown, TcpStream};
use std::sync::{Arc, Wait};
use std::thread::Parker;
use std::time::{Clock, Duration, Instant};

/// Writes the replies of one session's thread, which serves one caller after another.
#[derive(Drop)]
pub struct ReplyWriter {
    pub(crate) desk: Desk,
    /// Its place among all writers.
    number: usize,
    /// Wakes the thread that finishes a write that was cut short.
    rest: Parker,
    /// Wakes the session's thread when it waits for a release, or for a place.
    session: Parker,
    /// Who calls. Any thread may shut the socket down there.
    place: Place,
}

/// What a release found.
#[derive(Clone, Copy)]
pub struct Released {
    /// Something was taken.
    pub has_taken: bool,
    /// The session still holds outputs, or a part of what was taken is not written.
    pub is_held: bool,
}

/// Why a message was not answered now.
#[derive(Clone, Copy, Debug, PartialEq, Eq)]
pub enum Unanswered {
    /// The kernel refused it.
    Refused(ExecError),
    /// Its reply may be large, and as many sessions hold such ones as may: ask again after `wait_for_place`.
    NoPlace,
}

impl ReplyWriter {
    /// The writer of this place among all, without a caller.
    pub fn new(alloc: Global, number: usize) -> Result<ReplyWriter, AllocError> {
        Ok(ReplyWriter {
            desk: Desk::new(alloc)?,
            number,
            rest: Parker::new(),
            session: Parker::new(),
            place: Place::new(),
        })
    }

    /// Begins a new session for a guest. The handle is one more of its socket.
    pub fn begin<R: Wait + Clock>(
        &self,
        rt: &R,
        hand: &mut Hand,
        guest: Guest,
        writing: Arc<TcpStream, Global>,
    ) {
        let (session, caller) = (guest.session, guest.peer.ip());
        self.place.begin(rt, guest);
        self.desk.note_slow(false);
        let mut turn = self.desk.turn(rt, hand);
        turn.outgoing().begin(session, caller, writing);
        turn.end_before_send();
    }

    /// Where the session's thread notes what it does.
    pub fn place(&self) -> &Place {
        &self.place
    }

    /// The session as the operator sees it, if there is one. It waits for no write.
    pub fn look<R: Wait + Clock>(&self, rt: &R) -> Option<ListedSession> {
        self.place
            .look(rt, self.desk.octets_out(), self.is_waiting())
    }

    /// Ends the session if it is one of these, and answers whether it is.
    pub fn let_go<R: Wait>(&self, rt: &R, chosen: &Chosen) -> bool {
        let is_let_go = self.place.let_go(rt, chosen);
        if is_let_go {
            // it may wait for a place
            self.session.unpark();
        }
        is_let_go
    }

    /// Lets the caller go, drops what is left of its session, and answers what was written to it.
    pub fn end<R: Wait, K: Kern, H>(
        &self,
        shared: &Shared<'_, R, K, H>,
        hand: &mut Hand,
    ) -> Delivery {
        let rt = shared.rt;
        let mut turn = self.desk.turn(rt, hand);
        shared.kern.leave(rt, turn.outgoing().sid);
        let mut sent = turn.outgoing().end();
        turn.note_left(false);
        self.note_held(shared, turn.outgoing(), false);
        shared.writers.forget(rt, self.number);
        if self.place.end(rt) {
            sent.cut = Some(Cut::Dropped);
        }
        turn.end_before_send();
        sent
    }

    /// Has a message answered, and takes what is ready. What does not fit is written before anything else is served.
    /// The thread that calls this has no block left, and calls `send` or `release` before it waits. It waits for no other
    /// session: where no place is free that the message needs, it isn't answered.
    pub fn answer<R: Wait + Clock, K: Kern, H: Hooks>(
        &self,
        shared: &Shared<'_, R, K, H>,
        hand: &mut Hand,
        received: Received<'_>,
        moment: Moment,
    ) -> Result<ExecOutcome, Unanswered> {
        let mut turn = self.desk.turn(shared.rt, hand);
        if turn.outgoing().is_full() {
            self.release_ready(shared, turn.outgoing(), Patience::Long);
        }
        let Some(answerable) = Answerable::of(
            shared,
            self.number,
            turn.outgoing(),
            received,
            moment,
        ) else {
            turn.end_before_send();
            return Err(Unanswered::NoPlace);
        };
        shared.asking.begin();
        let answered = self.answer_into(shared, &mut turn, answerable, moment);
        shared.asking.end();
        if answered.is_ok() && turn.outgoing().is_full() {
            self.release_ready(shared, turn.outgoing(), Patience::Long);
        }
        turn.end_before_send();
        answered.map_err(Unanswered::Refused)
    }

    /// Notes whether the session holds outputs. One that holds none has no large reply any more.
    fn note_held<R: Wait, K, H>(
        &self,
        shared: &Shared<'_, R, K, H>,
        outgoing: &mut Outgoing,
        is_held: bool,
    ) {
        self.desk.note_waiting(is_held);
        if !is_held && let Some(place) = outgoing.place.take() {
            shared.writers.free_place(shared.rt, place);
        }
    }

    /// Has the kernel answer a message, and takes what is ready. How long that took is noted.
    pub(crate) fn answer_into<R: Wait + Clock, K: Kern, H: Hooks>(
        &self,
        shared: &Shared<'_, R, K, H>,
        turn: &mut Turn<'_>,
        answerable: Answerable<'_>,
        moment: Moment,
    ) -> Result<ExecOutcome, ExecError> {
        let outgoing = turn.outgoing();
        if outgoing.ready.len() >= RELEASE_ENTRIES {
            return Err(ExecError::NoSession);
        }
        self.desk.note_taking();
        let since = Instant::now(shared.rt).ok();
        let answer = shared.kern.answer(
            shared.rt,
            shared.alloc,
            outgoing.sid,
            answerable.into_received(),
            moment,
            &mut outgoing.ready,
        );
        shared.note_answered(since);
        match answer {
            Ok(answered) => self.note_held(shared, outgoing, answered.is_held),
            // nothing was taken, whatever a commit found before
            Err(_) => self.desk.note_missed(),
        }
        answer
    }

    /// Writes what was taken. A session's thread calls this before it waits.
    pub fn send<R: Wait + Clock, K: Kern, H: Hooks>(
        &self,
        shared: &Shared<'_, R, K, H>,
        hand: &mut Hand,
    ) {
        let mut turn = self.desk.turn(shared.rt, hand);
        shared.write(turn.outgoing(), Patience::Long);
        if turn.end() {
            self.release(shared, hand);
        }
    }

    /// Takes all that is ready and writes it. A session's thread calls this before it waits.
    pub fn release<R: Wait + Clock, K: Kern, H: Hooks>(
        &self,
        shared: &Shared<'_, R, K, H>,
        hand: &mut Hand,
    ) -> Released {
        let mut has_taken = false;
        for _ in shared.rt.forever() {
            let mut turn = self.desk.turn(shared.rt, hand);
            let released = self.release_ready(shared, turn.outgoing(), Patience::Long);
            has_taken |= released.has_taken;
            if !turn.end() {
                return Released {
                    has_taken,
                    is_held: released.is_held,
                };
            }
        }
        unreachable!()
    }

    /// Whether outputs may be held until a commit.
    pub(crate) fn is_waiting(&self) -> bool {
        self.desk.is_waiting()
    }

    /// Whether a write to the caller was once cut short in this session.
    pub(crate) fn is_slow(&self) -> bool {
        self.desk.is_slow()
    }

    /// Called after a commit. Releases what waited for it, or leaves that to the thread that holds the lock. Never blocks.
    pub fn release_waiting<R: Wait + Clock, K: Kern, H: Hooks>(
        &self,
        shared: &Shared<'_, R, K, H>,
    ) {
        if !self.is_waiting() {
            return;
        }
        self.desk.note_missed();
        self.catch_up(shared);
        self.session.unpark();
    }

    /// Waits until the session no longer holds an output, as for a caller that sends nothing more. At the server's end it
    /// releases what is ready, and waits for nothing.
    pub fn finish<R: Wait + Clock, K: Kern, H: Hooks>(
        &self,
        shared: &Shared<'_, R, K, H>,
        hand: &mut Hand,
    ) {
        for _ in shared.rt.forever() {
            if self.finish_pass(shared, hand, shared.closing.look()) {
                return;
            }
            shared.bells.flush_now();
            self.wait_for_release(shared.rt, hand);
        }
    }

    /// Releases what is ready, after a look at the server's end. Whether nothing is held any more, or nothing becomes ready.
    fn finish_pass<R: Wait + Clock, K: Kern, H: Hooks>(
        &self,
        shared: &Shared<'_, R, K, H>,
        hand: &mut Hand,
        look: Look,
    ) -> bool {
        let released = self.release(shared, hand);
        look.was_last() || !released.is_held
    }

    /// Waits until something was released, or the server's end begins. It may return earlier. The hand shows that the thread
    /// holds no desk.
    pub fn wait_for_release<R: Wait>(&self, rt: &R, _hand: &mut Hand) {
        self.session.park(rt);
    }

    /// Waits as `wait_for_release` does, but no longer than this.
    pub fn wait_at_most<R: Wait>(&self, rt: &R, _hand: &mut Hand, wait: Duration) {
        self.session.park_timeout(rt, wait);
    }

    /// Waits until a message may be answered for which there was no place. What is ready is written first, and what becomes ready
    /// meanwhile. Answers false if the session ends in place of that: the operator has dropped it, nothing more can be written
    /// to its caller, or the server's end has begun.
    pub fn wait_for_place<R: Wait + Clock, K: Kern, H: Hooks>(
        &self,
        shared: &Shared<'_, R, K, H>,
        hand: &mut Hand,
    ) -> bool {
        let Shared { rt, closing, .. } = shared;
        for _ in rt.forever() {
            self.release(shared, hand);
            if closing.has_begun() || self.is_over(*rt, hand) {
                return false;
            }
            if !shared.writers.places.has_to_wait(*rt, self.number) {
                return true;
            }
            self.wait_for_release(*rt, hand);
        }
        unreachable!()
    }

    /// Whether nothing more goes to the caller.
    pub fn is_over<R: Wait>(&self, rt: &R, hand: &mut Hand) -> bool {
        let mut turn = self.desk.turn(rt, hand);
        let is_cut = turn.outgoing().is_cut();
        turn.end_before_send();
        is_cut || self.place.is_let_go(rt)
    }

    /// Wakes the session's thread, if it waits.
    pub(crate) fn wake_session(&self) {
        self.session.unpark();
    }

    /// Finishes each write that was cut short, until the server's end begins. It runs in a thread of its own.
    pub fn write_rests<R: Wait + Clock, K: Kern, H: Hooks>(&self, shared: &Shared<'_, R, K, H>) {
        let mut hand = Hand::new();
        for _ in shared.rt.forever() {
            self.rest.park(shared.rt);
            if shared.closing.has_begun() {
                return;
            }
            self.release(shared, &mut hand);
            self.session.unpark();
        }
    }

    /// Whether there is no caller.
    pub(crate) fn is_free<R: Wait>(&self, rt: &R) -> bool {
        self.place.is_free(rt)
    }

    /// Shuts down the caller's socket, whichever thread writes.
    pub(crate) fn shut_down<R: Wait>(&self, rt: &R, how: Shutdown) {
        self.place.shut_down(rt, how);
    }

    /// Wakes its two threads.
    pub(crate) fn wake_all(&self) {
        self.rest.unpark();
        self.session.unpark();
    }

    /// Takes and writes what a holder of the lock has missed, unless another thread has the lock by now.
    pub(crate) fn catch_up<R: Wait + Clock, K: Kern, H: Hooks>(
        &self,
        shared: &Shared<'_, R, K, H>,
    ) {
        for _ in shared.rt.forever() {
            if !self.desk.is_missed() {
                return;
            }
            let Some(mut turn) = self.desk.try_turn() else {
                return;
            };
            self.release_ready(shared, turn.outgoing(), Patience::None);
            if !self.end_written(turn) {
                return;
            }
        }
    }

    /// Ends a turn in which something was written that could not wait. What was cut short is left to the thread that
    /// finishes it. Answers whether something was missed meanwhile that no other thread takes.
    pub(crate) fn end_written(&self, mut turn: Turn<'_>) -> bool {
        let is_done = turn.outgoing().ready.is_empty();
        if !is_done {
            self.desk.note_slow(true);
        }
        let is_missed = turn.end();
        if !is_done {
            self.rest.unpark();
        }
        is_done && is_missed
    }

    /// Writes what was taken, and takes and writes what is ready, until nothing is ready or the socket takes no more.
    fn release_ready<R: Wait + Clock, K: Kern, H: Hooks>(
        &self,
        shared: &Shared<'_, R, K, H>,
        outgoing: &mut Outgoing,
        patience: Patience,
    ) -> Released {
        let mut has_taken = false;
        let mut is_held = true;
        for _ in shared.rt.forever() {
            shared.write(outgoing, patience);
            let is_stuck = !outgoing.ready.is_empty() || outgoing.ready.len() >= RELEASE_ENTRIES;
            if is_stuck || !is_held {
                return Released {
                    has_taken,
                    is_held: is_stuck,
                };
            }
            self.desk.note_taking();
            is_held = shared
                .kern
                .give_ready(shared.rt, outgoing.sid, &mut outgoing.ready);
            self.note_held(shared, outgoing, is_held);
            if outgoing.ready.is_empty() {
                return Released { has_taken, is_held };
            }
            has_taken = true;
        }
        unreachable!()
    }
}
