//! The sessions and their outputs. `specs/Seats.antt` says what callers see of a session and what each call does to it,
//! `specs/Lined.antt` what a session holds before its lines are made, and `specs/Kept.antt` what the invariant of the
//! sessions is.
#![tactic(auto)]

ghost use Rattle.std.specs.Prelude.{Some, IfSome, IsNone, None, is_none, ℕ, find, not, slice_get, ◌==◌, ◌≡◌, ◌<◌, ◌≤◌, ◌+◌};
ghost use Rattle.std.specs.Prelude.{◌++◌, ◌∷◌, [], max, IfOk, OnErr, OnOk, length};
ghost use Rattle.kernel_seats.specs.Seats.{Seat as SeatView, given_of, holds, ready, ready_of, seat_given};
ghost use Rattle.kernel_seats.specs.Lined.{AllAreLined, LinedSeat, RiseAbove, SeatIsLined, all_seen, answered_with, begun, seen};
ghost use Rattle.kernel_seats.specs.Kept.{RiseFrom};
ghost use Rattle.kernel_seats.specs.Serving.{SeatServed};
ghost use Rattle.model.specs.Lawful.{IsLawfulSession};
ghost use Rattle.model.specs.Service.{mode_of};
ghost use Rattle.model.specs.Spool.{Spool as Changes};
ghost use Rattle.model.specs.Stream.{Octets};
ghost use Rattle.model.specs.declared.message.Message.{Message as MessageView};
ghost use Rattle.kernel_outbox.specs.Lines.{last_depends, octets_waiting, plain};
ghost use Rattle.kernel_outbox.specs.Queue.{entry_of};
ghost use Rattle.session_replies.specs.Answered.{reply_of};
ghost use Rattle.model.specs.Answer.{answer};

use kernel_outbox::{Outgoing, Queue, ReadyBuf, Source};
use model::{Awaits, Mark, Mode, Moment, Session};
use session::{Served, serve};
use session_lookups::ChangeSpool;
use session_posting::Refusal;
use session_received::Received;
use session_replies::{Answered, push_greeting, stopped};
use std::alloc::{AllocError, Global};
use std::marker::Model;

/// What a message's session gets besides its reply.
#[derive(Clone, Copy)]
pub struct Outcome {
    /// What the session sends next; `None` if it was closed.
    pub next: Option<Mode>,
    pub mark: Mark,
    /// Why the message's article is not filed. `None` if it is, or if the message has none.
    pub refusal: Option<Refusal>,
    /// Whether a change was accepted; it is the last one then.
    pub has_accepted: bool,
}

/// A session that exists.
pub struct Seat {
    number: u64,
    session: Session,
    queue: Queue,
}

// By hand: a caller that drops one would otherwise prove the derived one again, field by field.
impl Drop for Seat {
    fn drop(self) {
        let Seat {
            number: _,
            session: _,
            queue: _,
        } = self;
    }
}

impl Model for Seat {
    ghost use Rattle.kernel_seats.specs.Lined.{LinedSeat};

    ghost Value = { LinedSeat };

    ghost view = { λ s. record { number = s.number; session = s.session; given = s.queue.given; held = s.queue.held } };
}

impl Seat {
    /// A session that has just begun, with its greeting, which depends on nothing.
    pub fn new(alloc: Global, number: u64, host: &[u8]) -> Result<Seat, AllocError>
        ensures { IfOk result (λ seat. seat ≡ begun host.now number) }
    {
        let mut greeting = Vec::new(alloc);
        push_greeting(&mut greeting, host)?;
        let mut queue = Queue::new(alloc);
        queue.reserve(1)?;
        queue.push(Outgoing::whole(greeting), 0, false);
        Ok(Seat {
            number,
            session: Session {
                awaits: Awaits::Line,
                group: None,
                current: None,
            },
            queue,
        })
    }

    /// The number that the session was given when it joined.
    pub fn number(&self) -> u64
        ensures { result ≡ self.now.number }
    {
        self.number
    }

    /// What the session sends next; `None` if it was closed.
    pub fn mode(&self) -> Option<Mode>
        ensures { result ≡ mode_of self.now.session.awaits }
    {
        mode_of(&self.session.awaits)
    }

    /// The number of octets held, made or not.
    pub fn buffered(&self) -> u64
        ensures { result ≡ octets_waiting self.now.held }
    {
        self.queue.buffered()
    }

    /// Serves a message at the given moment over a spool that takes changes, and holds its reply. Answers what the
    /// session sends next, and the mark of the message. Refused only for want of memory, also if an allocation was
    /// refused as the message was read; then neither session nor spool changes.
    pub fn serve<S: ChangeSpool>(
        &mut self,
        alloc: Global,
        spool: &mut S,
        received: Received<'_>,
        moment: Moment,
    ) -> Result<Outcome, AllocError>
        requires session { IsLawfulSession (S.host_of spool.old) self.old.session }
        requires room { octets_waiting self.old.held < 1_048_576 }
        ensures ok { IfOk result (SeatServed (S.host_of spool.old) (S.changes spool.old) (S.lacks_room spool.old)
            (S.adds spool.old spool.new) (spool.new ≡ spool.old) (seen (S.octets_of spool.new) self.old)
            (seen (S.octets_of spool.new) self.new) received.entry moment) }
        ensures lined { OnOk result (SeatIsLined (S.keeps spool.new) self.old → SeatIsLined (S.keeps spool.new) self.new) }
        ensures seat { OnErr result (self.new ≡ self.old) }
        ensures spool { OnErr result (spool.new ≡ spool.old) }
    {
        self.queue.reserve(1)?;
        let Served {
            answered,
            mark,
            refusal,
            has_accepted,
        } = serve(alloc, spool, &self.session, received, moment)?;
        let next = adopt(&mut self.session, &mut self.queue, answered);
        Ok(Outcome {
            next,
            mark,
            refusal,
            has_accepted,
        })
    }

    /// Moves the outputs that depend on at most `durable` changes into the buffer, as this session's entry. The source
    /// makes their lines. Answers whether the session ends with them.
    pub fn give<S: Source>(&mut self, source: &S, durable: u64, into: &mut ReadyBuf) -> bool
        requires few { length into.old < 4096 }
        requires lined { SeatIsLined (S.keeps source.now) self.old }
        ensures ended { result ≡ (given_of durable into.old (seen (S.octets_of source.now) self.old)).ended }
        ensures entries { into.new ≡ into.old
            ++ entry_of self.old.number (given_of durable into.old (seen (S.octets_of source.now) self.old)) }
        ensures seat { seen (S.octets_of source.now) self.new ≡ seat_given (seen (S.octets_of source.now) self.old)
            (given_of durable into.old (seen (S.octets_of source.now) self.old)) }
        ensures lined { SeatIsLined (S.keeps source.now) self.new }
    {
        self.queue.give(source, self.number, durable, into)
    }

    /// Whether outputs are held.
    pub fn holds(&self) -> bool
        ensures { result ≡ not (length self.now.held == 0) }
    {
        !self.queue.is_empty()
    }

    /// Adds the reply that the service has stopped, whatever the session's message says, and closes the session.
    /// Refused only for want of memory; then nothing changes.
    pub fn stop(&mut self, alloc: Global) -> Result<(), AllocError>
        requires room { octets_waiting self.old.held < 1_048_576 }
        ensures ok { OnOk result ((host : Octets) (S : Changes) (m : MessageView) (t : ℕ)
            → self.new ≡ answered_with (plain (answer host S self.old.session m t Mark.Stopped).reply) host S m t Mark.Stopped
            self.old) }
        ensures seat { OnErr result (self.new ≡ self.old) }
    {
        self.queue.reserve(1)?;
        let answered = stopped(alloc, &self.session)?;
        adopt(&mut self.session, &mut self.queue, answered);
        Ok(())
    }
}

/// Lets a session go on as it was answered, and holds the reply after the others. Its dependency is the greater of what
/// the answer reads and the dependency of the reply before it. Answers what the session sends next.
fn adopt(session: &mut Session, queue: &mut Queue, answered: Answered) -> Option<Mode>
    requires room { 1 ≤ queue.old.room }
    requires countable { octets_waiting queue.old.held < 1_048_576 }
    ensures mode { result ≡ mode_of answered.answer.next.awaits }
    ensures session { session.new ≡ answered.answer.next }
    ensures given { queue.new.given ≡ queue.old.given }
    ensures held { queue.new.held ≡ queue.old.held ++ record {
      reply = reply_of answered;
      dependency = max (last_depends queue.old.given queue.old.held) answered.reads;
      ends = is_none (mode_of answered.answer.next.awaits);
    } ∷ [] }
{
    let (reply, next, reads) = answered.into_parts();
    // for the proof: a reply has fewer than 2^63 octets
    let _octets = reply.len();
    let mode = mode_of(&next.awaits);
    let dependency = queue.last_dependency().max(reads);
    queue.push(reply, dependency, mode.is_none());
    *session = next;
    mode
}

/// What is read next from a session's stream.
fn mode_of(awaits: &Awaits) -> Option<Mode>
    ensures { result ≡ mode_of awaits.now }
{
    match awaits {
        Awaits::Line => Some(Mode::Line),
        Awaits::PostBlock | Awaits::IhaveBlock(_) => Some(Mode::Block),
        Awaits::Nothing => None,
    }
}

/// The place of a session among all that exist, in rising number; `None` if it does not. It is found by halving.
pub fn position(seats: &[Seat], sid: u64) -> Option<usize>
    requires rising { RiseAbove 0 seats.now }
    ensures some { IfSome result (λ at. (seat : LinedSeat) × (slice_get seats.now at ≡ Some seat) × (seat.number ≡ sid)) }
    ensures none { IsNone result → find (λ (seat : LinedSeat). seat.number == sid) seats.now ≡ None }
{
    let mut low = 0;
    let mut high = seats.len();
    while low < high {
        let middle = low + (high - low) / 2;
        let number = seats[middle].number();
        if number == sid {
            return Some(middle);
        }
        if number < sid {
            low = middle + 1;
        } else {
            high = middle;
        }
    }
    None
}

/// Lets each session in order give what is ready, and drops those that end. The source makes their lines.
pub fn release<S: Source>(seats: &mut Vec<Seat>, source: &S, durable: u64, into: &mut ReadyBuf)
    requires few { length seats.old.items ≤ 4096 }
    requires empty { into.old ≡ [] }
    requires lined { AllAreLined (S.keeps source.now) seats.old.items }
    ensures given { into.new ≡ (ready durable 65536 (all_seen (S.octets_of source.now) seats.old.items)).entries }
    ensures kept { all_seen (S.octets_of source.now) seats.new.items
        ≡ (ready durable 65536 (all_seen (S.octets_of source.now) seats.old.items)).seats }
    ensures lined { AllAreLined (S.keeps source.now) seats.new.items }
{
    let mut at = 0;
    while at < seats.len() {
        let seat = &mut seats[at];
        if seat.give(source, durable, into) {
            seats.remove(at);
        } else {
            at += 1;
        }
    }
}

/// Lets one session give what is ready, after what the buffer holds, and drops the session if it ends. The source makes its
/// lines. Nothing happens if it does not exist. Answers whether it still holds outputs.
pub fn release_of<S: Source>(
    seats: &mut Vec<Seat>,
    source: &S,
    sid: u64,
    durable: u64,
    into: &mut ReadyBuf,
) -> bool
    requires rising { RiseFrom 0 (all_seen (S.octets_of source.now) seats.old.items) }
    requires room { length into.old < 4096 }
    requires lined { AllAreLined (S.keeps source.now) seats.old.items }
    ensures given { into.new ≡ into.old
        ++ (ready_of durable into.old sid (all_seen (S.octets_of source.now) seats.old.items)).entries }
    ensures kept { all_seen (S.octets_of source.now) seats.new.items
        ≡ (ready_of durable into.old sid (all_seen (S.octets_of source.now) seats.old.items)).seats }
    ensures lined { AllAreLined (S.keeps source.now) seats.new.items }
    ensures holds { result
        ≡ holds (find (λ (seat : SeatView). seat.number == sid) (all_seen (S.octets_of source.now) seats.new.items)) }
{
    let Some(place) = position(seats, sid) else {
        return false;
    };
    let seat = &mut seats[place];
    let ended = seat.give(source, durable, into);
    let holds = seat.holds();
    if ended {
        seats.remove(place);
        return false;
    }
    holds
}
