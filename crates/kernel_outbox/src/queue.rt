//! The outputs of one session.

ghost use Rattle.std.specs.Prelude.{◌≡◌, ◌+◌, ◌-◌, ◌^◌, ◌<◌, ◌≤◌, ◌∷◌, ◌++◌, [], length, take, nat_le, vec_len, vec_capacity, OnOk, OnErr};
ghost use Rattle.std.specs.Prelude.{◌==◌};
ghost use Rattle.std.specs.VecDeque.{deque_capacity};
ghost use Rattle.kernel_outbox.specs.Lines.{AllAreKept, IsKept, last_depends, octets_waiting, output_of, outputs_of, size, whole};
ghost use Rattle.kernel_outbox.specs.Queue.{cut_at, give, entry_of, octets_in};
ghost use Rattle.kernel_outbox.specs.Fields.{IsGiven};

use crate::RELEASE_OCTETS;
use crate::made_lines::Source;
use crate::outgoing::Outgoing;
use crate::ready::{ReadyBuf, end_entry};
use std::alloc::{AllocError, Global};
use std::collections::VecDeque;
use std::marker::Model;

/// An output that is still to be handed out.
#[derive(Drop)]
struct Output {
    reply: Outgoing,
    dependency: u64,
    ends: bool,
}

impl Model for Output {
    ghost use Rattle.kernel_outbox.specs.Lines.{HeldReply};

    ghost Value = { HeldReply };

    ghost view = { λ o. record { reply = o.reply; dependency = o.dependency; ends = o.ends } };
}

impl Output {
    fn new(reply: Outgoing, dependency: u64, ends: bool) -> Output
        ensures { result ≡ record { reply = reply; dependency = dependency; ends = ends } }
    {
        Output {
            reply,
            dependency,
            ends,
        }
    }

    fn dependency(&self) -> u64
        ensures { result ≡ self.now.dependency }
    {
        self.dependency
    }

    fn ends(&self) -> bool
        ensures { result ≡ self.now.ends }
    {
        self.ends
    }

    /// Moves the first octets into the buffer, until that has `RELEASE_OCTETS`. Answers whether none is left.
    fn move_into<S: Source>(&mut self, source: &S, into: &mut Vec<u8>) -> bool
        // Lines that the source has, and a buffer with room for a release.
        requires kept { IsKept (S.keeps source.now) self.old.reply }
        requires few { vec_len into.old ≤ 65_536 }
        requires room { 65_536 ≤ vec_capacity into.old }

        // The answer, the octets moved, and those left.
        ensures whole { result ≡ nat_le (length (whole (S.octets_of source.now) self.old.reply)) (65_536 - length into.old.items) }
        ensures moved { into.new.items ≡ into.old.items
            ++ take (65_536 - length into.old.items) (whole (S.octets_of source.now) self.old.reply) }
        ensures left { output_of (S.octets_of source.now) self.new
            ≡ cut_at (65_536 - length into.old.items) (output_of (S.octets_of source.now) self.old) }
        ensures kept { IsKept (S.keeps source.now) self.new.reply }

        // The buffer has no more than a release, and keeps room for one.
        ensures bound { vec_len into.new ≤ 65_536 }
        ensures capacity { 65_536 ≤ vec_capacity into.new }
    {
        self.reply.move_into(source, into)
    }
}

/// The outputs of one session that are not yet handed out whole, in order, and the dependency of the last one that was.
#[derive(Drop)]
pub struct Queue {
    given: u64,
    outputs: VecDeque<Output>,
    /// The number of octets still to be handed out.
    buffered: u64,
}

impl Model for Queue {
    ghost use Rattle.kernel_outbox.specs.Lines.{QueueView};

    ghost Value = { QueueView };

    ghost use Rattle.kernel_outbox.specs.Fields.{queue_of, IsSoundQueue};

    ghost view = { queue_of };

    ghost invariant = { IsSoundQueue };
}

impl Queue {
    /// The queue of a session that has no output yet. It takes no memory.
    pub fn new(alloc: Global) -> Queue
        ensures given { result.given ≡ 0 }
        ensures held { result.held ≡ [] }
    {
        Queue {
            given: 0,
            outputs: VecDeque::new(alloc),
            buffered: 0,
        }
    }

    /// Makes room for n more outputs. Refused only for want of memory, if room is missing; then the outputs are as they
    /// were.
    pub fn reserve(&mut self, n: usize) -> Result<(), AllocError>
        ensures given { self.new.given ≡ self.old.given }
        ensures held { self.new.held ≡ self.old.held }
        ensures room { self.old.room ≤ self.new.room }
        ensures ok { OnOk result (n ≤ self.new.room) }
        ensures full { OnErr result (self.old.room < n) }
    {
        self.outputs.reserve(n)
    }

    /// Puts an output after the others. It takes no memory.
    pub fn push(&mut self, reply: Outgoing, dependency: u64, ends: bool)
        requires room { 1 ≤ self.old.room }
        requires countable { octets_waiting self.old.held + size reply < 2 ^ 64 }
        ensures given { self.new.given ≡ self.old.given }
        ensures held { self.new.held ≡ self.old.held ++ record { reply = reply; dependency = dependency; ends = ends } ∷ [] }
        ensures room { self.new.room + 1 ≡ self.old.room }
    {
        self.buffered += reply.len();
        self.outputs
            .push_back_reserved(Output::new(reply, dependency, ends));
    }

    /// The number of octets still to be handed out, made or not.
    pub fn buffered(&self) -> u64
        ensures { result ≡ octets_waiting self.now.held }
    {
        self.buffered
    }

    /// The dependency of the last output, even if that was handed out; 0 if there was none.
    pub fn last_dependency(&self) -> u64
        ensures { result ≡ last_depends self.now.given self.now.held }
    {
        match self.outputs.back() {
            Some(last) => last.dependency(),
            None => self.given,
        }
    }

    /// Whether no output is held.
    pub fn is_empty(&self) -> bool
        ensures { result ≡ (length self.now.held == 0) }
    {
        self.outputs.is_empty()
    }

    /// Moves the first outputs that depend on at most `durable` changes into the buffer, in order and as this session's
    /// entry, until the buffer has no more room for octets. The last output may be cut. The source makes their lines.
    /// Answers whether the session ends. It takes no memory.
    pub fn give<S: Source>(
        &mut self,
        source: &S,
        number: u64,
        durable: u64,
        into: &mut ReadyBuf,
    ) -> bool
        // Room for an entry, and lines that the source has.
        requires few { length into.old < 4096 }
        requires kept { AllAreKept (S.keeps source.now) self.old.held }

        // What is given and what stays, as the definition `give` says.
        ensures ended { result ≡ (give durable (65_536 - octets_in into.old) self.old.given
            (outputs_of (S.octets_of source.now) self.old.held)).ended }
        ensures entries { into.new ≡ into.old ++ entry_of number (give durable (65_536 - octets_in into.old) self.old.given
            (outputs_of (S.octets_of source.now) self.old.held)) }
        ensures given { self.new.given ≡ (give durable (65_536 - octets_in into.old) self.old.given
            (outputs_of (S.octets_of source.now) self.old.held)).given }
        ensures held { outputs_of (S.octets_of source.now) self.new.held
            ≡ (give durable (65_536 - octets_in into.old) self.old.given (outputs_of (S.octets_of source.now) self.old.held)).held }

        // The source has the lines that are left, and no room is lost.
        ensures kept { AllAreKept (S.keeps source.now) self.new.held }
        ensures room { self.new.room + length self.new.held ≡ self.old.room + length self.old.held }
    {
        let start = into.octets.len();
        let ended = give_front(
            source,
            &mut self.outputs,
            &mut self.given,
            durable,
            &mut into.octets,
        );
        let end = into.octets.len();
        self.buffered -= (end - start) as u64;
        end_entry(&mut into.slots, number, start, end, ended);
        ended
    }
}

/// Appends the octets of the first outputs that depend on at most `durable` changes, until there are `RELEASE_OCTETS`.
/// It keeps the dependency of the last output that was moved whole, and answers whether that one ends the session.
fn give_front<S: Source>(
    source: &S,
    outputs: &mut VecDeque<Output>,
    given: &mut u64,
    durable: u64,
    octets: &mut Vec<u8>,
) -> bool
    // Lines that the source has, and a buffer with room for a release.
    requires kept { AllAreKept (S.keeps source.now) outputs.old.items }
    requires few { vec_len octets.old ≤ 65_536 }
    requires room { 65_536 ≤ vec_capacity octets.old }

    // What is given and what stays, as the definition `give` says.
    ensures gives { IsGiven (give durable (65_536 - length octets.old.items) given.old
        (outputs_of (S.octets_of source.now) outputs.old.items)) result given.new
        (outputs_of (S.octets_of source.now) outputs.new.items) octets.old.items octets.new.items }
    ensures kept { AllAreKept (S.keeps source.now) outputs.new.items }

    // The buffer has no more than a release, and no room is lost.
    ensures bound { vec_len octets.new ≤ 65_536 }
    ensures room { 65_536 ≤ vec_capacity octets.new }
    ensures capacity { deque_capacity outputs.new ≡ deque_capacity outputs.old }
{
    let mut ended = false;
    while let Some(front) = outputs.front() {
        let dependency = front.dependency();
        let ends = front.ends();
        if dependency > durable || octets.len() == RELEASE_OCTETS {
            break;
        }
        if !outputs[0].move_into(source, octets) {
            break;
        }
        *given = dependency;
        ended = ended || ends;
        outputs.pop_front();
    }
    ended
}
