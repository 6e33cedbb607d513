//! A session's thread: it reads the octets of one caller after another, and has each whole message answered.

ghost use Rattle.std.specs.Prelude.{◌≡◌, ◌<◌, IfErr, IfOk, None, OnOk, length};
ghost use Rattle.server_answering.specs.NextMessage.{HasEnded, HasNext};
ghost use Rattle.server_log_lines.specs.declared.log_events.Ending.TheVariants as ending;

use crate::caller_reading::{Incoming, Socket};
use crate::counts::Counted;
use crate::leaving::{Awaited, end_of};
use crossbeam_channel::{Receiver, Sender};
use kernel_shared::{Bells, ExecError, ExecOutcome, Hooks, Kern};
use model::{Message, Mode, Moment};
use server_accepting::{Caller, Doors, Parting, identify, part, see_off};
use server_attending::Verdicts;
use server_logging::{
    BegunSession, CountedMessage, EndedSession, Ending, Log, LogEvent, Moments, SessionCounts,
};
use server_pace::Pace;
use server_releasing::{Cut, Delivery, Hand, ReplyWriter, Shared, Unanswered};
use server_roster::Guest;
use session_received::Received;
use std::alloc::{AllocError, Global};
use std::net::{IpAddr, SocketAddr, TcpStream};
use std::sync::{Arc, Wait};
use std::time::Clock;
use text_framing::Reader;

/// The most octets that one read of a socket takes. They are on the stack of the session's thread.
const PIECE: usize = 16_384;

/// A session's thread.
pub struct SessionThread<'a, 'b, R, K, H> {
    pub shared: &'b Shared<'a, R, K, H>,
    pub writer: &'b ReplyWriter,
    pub moments: &'b Moments,
    pub log: &'b Log,
    pub doors: &'b Doors<'a>,
    pub partings: &'b Sender<Parting>,
    pub verdicts: Verdicts<'b>,
    /// How many articles are read from one address in a minute, if that is limited.
    pub pace: Option<&'b Pace>,
    /// The thread's own.
    pub hand: Hand,
}

impl<'a, 'b, R, K, H> Drop for SessionThread<'a, 'b, R, K, H> {
    fn drop(self) {
        let SessionThread {
            shared: _,
            writer: _,
            moments: _,
            log: _,
            doors: _,
            partings: _,
            verdicts: _,
            pace: _,
            hand: _,
        } = self;
    }
}

impl<'a, 'b, R: Wait + Clock, K: Kern, H: Hooks> SessionThread<'a, 'b, R, K, H> {
    /// Serves one caller after another, until no more come.
    pub fn serve_calls(&mut self, calls: &Receiver<Caller>) {
        for _ in self.shared.rt.forever() {
            let Ok(call) = calls.recv(self.shared.rt) else {
                return;
            };
            let Some(call) = identify(self.shared, self.doors, self.log, call) else {
                continue;
            };
            let seat = call.seat;
            self.serve_call(call);
            self.doors.free(self.shared.rt, seat);
        }
    }

    /// Serves a caller to its end, and notes that end. If memory for serving is refused, the session ends without a
    /// reply.
    fn serve_call(&mut self, call: Caller) {
        let Shared { rt, kern, .. } = self.shared;
        let Caller {
            sid,
            seat: _,
            way: _,
            peer,
            stream,
        } = call;
        let peer = peer.peer();
        let mut counts = Counted::new();
        let Ok((writing, ending)) = two_more(&stream) else {
            kern.leave(*rt, sid);
            self.note_end(sid, peer, counts.all, Ending::Memory);
            return;
        };
        self.begin(sid, peer, writing, ending);
        let stop = self.serve_messages(sid, peer.ip(), &stream, &mut counts);
        if may_release(stop) {
            self.writer.finish(self.shared, &mut self.hand);
        }
        let sent = self.writer.end(self.shared, &mut self.hand);
        let told = self.told(&counts, stop, sent);
        self.note_end(sid, peer, told, self.ending(stop, sent.cut));
        if matches!(stop, Ending::Quit | Ending::Stopped) && sent.cut.is_none() {
            self.let_go(stream);
        }
    }

    /// Lets a caller whose session was closed read its last reply, even if it sent more than was read. At the server's
    /// end, when no more callers come, this thread waits for that.
    fn let_go(&self, stream: Arc<TcpStream, Global>) {
        let Shared { rt, limits, .. } = self.shared;
        if self.is_ending() {
            see_off(*rt, stream, limits.linger);
        } else {
            part(*rt, self.partings, stream);
        }
    }

    /// What the log tells of a session that was served so much and ended so. Where all that it held was released, all that it was
    /// told is durable.
    fn told(&mut self, counts: &Counted, stop: Ending, sent: Delivery) -> SessionCounts {
        let is_released = may_release(stop)
            && sent.cut.is_none()
            && !self.shared.closing.has_begun();
        let mut told = if is_released {
            counts.all
        } else {
            counts.durable(self.shared, &mut self.hand)
        };
        told.octets_out = sent.octets;
        told
    }

    /// Why a session ended: if nothing more could be written to the caller, for that reason. At the server's end a
    /// caller that takes nothing is cut off, since the server ends.
    fn ending(&self, stop: Ending, cut: Option<Cut>) -> Ending {
        match cut {
            None => stop,
            Some(Cut::Dropped) => Ending::Dropped,
            Some(_) if self.shared.closing.has_begun() => Ending::Stopped,
            Some(Cut::Stalled) => Ending::Stalled,
            Some(Cut::Slow) => Ending::Slow,
            Some(Cut::Failed) => Ending::Failed,
        }
    }

    /// Begins a session. Both handles are of its caller's socket.
    fn begin(
        &mut self,
        session: u64,
        peer: SocketAddr,
        writing: Arc<TcpStream, Global>,
        socket: Arc<TcpStream, Global>,
    ) {
        let rt = self.shared.rt;
        let begun = BegunSession { peer, session };
        self.log.note(rt, LogEvent::Begin(begun));
        let guest = Guest {
            session,
            peer,
            since: self.moments.now(rt, self.log),
            socket,
        };
        self.writer.begin(rt, &mut self.hand, guest, writing);
    }

    fn note_end(&self, session: u64, peer: SocketAddr, counts: SessionCounts, why: Ending) {
        let ended = EndedSession {
            peer,
            session,
            counts,
            why,
        };
        self.log.note(self.shared.rt, LogEvent::End(ended));
    }

    /// Has a caller's messages answered, counts them, and answers why there are no more.
    fn serve_messages(
        &mut self,
        sid: u64,
        caller: IpAddr,
        stream: &TcpStream,
        counts: &mut Counted,
    ) -> Ending {
        let Shared {
            rt,
            alloc,
            kern,
            ..
        } = self.shared;
        let mut piece = [0; PIECE];
        let mut incoming = Incoming::new(*rt, stream, self.shared.limits);
        let mut reader = Reader::new(*alloc);
        let mut awaited = Awaited::at_start(sid, kern.mode(*rt, sid));
        self.writer.release(self.shared, &mut self.hand);
        'messages: for _ in rt.forever() {
            let Some(mode) = awaited.mode else {
                return Ending::Quit;
            };
            self.keep_pace(mode, caller);
            let next = self.next_message(&mut reader, mode, &mut incoming, &mut piece);
            counts.all.octets_in = incoming.octets();
            let settled = self.settle_left(awaited, counts);
            let served = match next {
                Ok(message) => self.serve_next(settled, message, reader.held() == 0, counts),
                Err(stop) => return end_of(settled, stop),
            };
            awaited = match served {
                Ok(served) => served,
                Err(stop) => return stop,
            };
            if let Some(mode) = awaited.mode {
                self.writer.place().note_served(*rt, counts.all, mode);
            }
        }
        unreachable!()
    }

    /// The next whole message of a stream, or why there is none: `Closed` only at its end. Sends pending replies before
    /// the first read; none can appear while it waits.
    fn next_message<S: Socket>(
        &mut self,
        reader: &mut Reader,
        mode: Mode,
        incoming: &mut Incoming<S>,
        piece: &mut [u8],
    ) -> Result<Message, Ending>
        requires { reader.old.awaits ≡ None }
        ensures awaits { OnOk result (reader.new.awaits ≡ None) }
        ensures next { IfOk result (λ message. HasNext mode reader.old.rest (S.remaining incoming.old.stream)
            (S.remaining incoming.new.stream) message reader.new.rest) }
        ensures closed { 0 < length piece.old → IfErr result (λ why. why ≡ ending.Closed
            → HasEnded mode reader.old.rest (S.remaining incoming.old.stream) (S.remaining incoming.new.stream)) }
    {
        let mut is_sent = false;
        'pieces: for _ in self.shared.rt.forever() {
            match reader.next(mode) {
                Ok(Some(message)) => return Ok(message),
                Ok(None) => {}
                Err(_) => return Err(Ending::Memory),
            }
            if !is_sent {
                self.writer.send(self.shared, &mut self.hand);
                incoming.await_message(reader.held());
                is_sent = true;
            }
            if self.is_ending() {
                return Err(Ending::Stopped);
            }
            let count = incoming.read(self.shared.rt, mode, piece)?;
            self.writer
                .place()
                .note_heard(self.shared.rt, incoming.octets());
            if count == 0 {
                return Err(self.end_of_stream());
            }
            let Ok(()) = reader.feed(&piece[..count]) else {
                return Err(Ending::Memory);
            };
        }
        unreachable!()
    }

    /// Whether nothing more is read from callers.
    pub(crate) fn is_ending(&self) -> bool {
        self.shared.closing.has_begun() || self.shared.bells.is_stopping()
    }

    /// Why a stream has ended: at the server's end the server ends it, and otherwise the caller.
    fn end_of_stream(&self) -> Ending {
        if self.is_ending() {
            Ending::Stopped
        } else {
            Ending::Closed
        }
    }

    /// Has a message answered, and tries again after each refusal that asks for that. Otherwise answers why the session ends.
    /// The message is read for each try.
    pub(crate) fn have_answered(&mut self, message: &Message) -> Result<ExecOutcome, Ending> {
        let Shared {
            rt,
            alloc,
            bells,
            ..
        } = self.shared;
        for _ in rt.forever() {
            let noted = bells.later.count();
            let moment = self.moments.now(*rt, self.log);
            let received = Received::of(*alloc, message);
            let answered = self
                .writer
                .answer(self.shared, &mut self.hand, received, moment);
            match answered {
                Ok(answered) => {
                    note(bells, message, answered.next);
                    return Ok(answered);
                }
                Err(Unanswered::NoPlace) => self.await_place()?,
                Err(Unanswered::Refused(error)) => {
                    if let Err(error) = self.put_off(error, noted) {
                        return Err(ending_of(error));
                    }
                }
            }
        }
        unreachable!()
    }

    /// Waits until the session has a place for a large reply. Otherwise answers why it ends.
    fn await_place(&mut self) -> Result<(), Ending> {
        let Shared { bells, closing, .. } = self.shared;
        bells.flush_now();
        if self.writer.wait_for_place(self.shared, &mut self.hand) {
            return Ok(());
        }
        Err(if closing.has_begun() {
            Ending::Stopped
        } else {
            Ending::Failed
        })
    }

    /// Waits until a message may be tried again. If too many blocks are dirty, that is after a batch was taken since
    /// the noted count; if too many octets of the session are held, after some of them were released. Other refusals
    /// are returned.
    fn put_off(&mut self, error: ExecError, noted: u64) -> Result<(), ExecError> {
        let Shared {
            rt,
            bells,
            closing,
            ..
        } = self.shared;
        if !matches!(error, ExecError::LaterDirty | ExecError::LaterOut) {
            return Err(error);
        }
        bells.flush_now();
        let released = self.writer.release(self.shared, &mut self.hand);
        if closing.has_begun() {
            return Err(error);
        }
        if matches!(error, ExecError::LaterDirty) {
            bells.later.wait_past(*rt, &mut self.hand, noted);
        } else if !released.has_taken && released.is_held {
            self.writer.wait_for_release(*rt, &mut self.hand);
        }
        Ok(())
    }
}

/// Two more handles of a socket: one to write to it, one to shut it down.
fn two_more(
    stream: &Arc<TcpStream, Global>,
) -> Result<(Arc<TcpStream, Global>, Arc<TcpStream, Global>), AllocError> {
    Ok((Arc::try_clone(stream)?, Arc::try_clone(stream)?))
}

/// Whether a caller may still read what its session holds.
fn may_release(stop: Ending) -> bool {
    matches!(stop, Ending::Quit | Ending::Closed | Ending::Stopped)
}

/// Why a session whose message was not served ends. At the server's end the message is not tried again, and a session
/// that no longer exists was left when its socket failed.
pub(crate) fn ending_of(error: ExecError) -> Ending {
    match error {
        ExecError::Memory => Ending::Memory,
        ExecError::NoSession => Ending::Failed,
        ExecError::LaterDirty | ExecError::LaterOut => Ending::Stopped,
    }
}

/// Tells the flusher that a POST or its article was served, so that it can judge whether more will come.
fn note(bells: &Bells, message: &Message, next: Option<Mode>) {
    match message {
        Message::Block(_) => bells.note_post(true),
        _ => {
            if let Some(Mode::Block) = next {
                bells.note_post(false);
            }
        }
    }
}
