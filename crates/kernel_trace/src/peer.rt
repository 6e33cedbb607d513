//! What each session sent and was sent, by its number.

ghost use Rattle.std.specs.Prelude.{◌≡◌, ◌+◌, ◌++◌, ◌≤◌, ◌<◌, [], ℕ, List, Some, None, IfOk, OnOk, OnErr, MatchOption, true, ◌==◌};
ghost use Rattle.std.specs.Prelude.{slice_get, if◌then◌else◌, length};
ghost use Rattle.model.specs.declared.message.Mode.{Mode as ItsMode};
ghost use Rattle.kernel_trace.specs.Events.{with_released};
ghost use Rattle.kernel_seats.specs.Seats.{Seat};
ghost use Rattle.kernel_trace.specs.Fields.{AreKnown, Becomes, HasRoom, HaveRoom, given_in, inputs, sent_of, sents};
ghost use Rattle.kernel_trace.specs.Input.{Found, MayAsk, Waits};
ghost use Rattle.kernel_trace.specs.Traced.{nobody, numbered, sent_at, with_numbered};
ghost use Rattle.kernel_trace.specs.declared.input.Input.{Input as ItsInput};

use crate::input::Input;
use kernel::Kernel;
use kernel_outbox::{RELEASE_OCTETS, ReadyBuf};
use model::{Message, Mode};
use std::alloc::{AllocError, Global};

/// What a session sent, and what was released to it.
#[derive(Drop)]
pub struct Peer {
    pub(crate) arrived: Vec<u8>,
    pub(crate) released: Vec<u8>,
    pub(crate) left: bool,
    pub(crate) input: Input,
}

impl Peer {
    pub(crate) fn new(alloc: Global) -> Peer
        ensures sent { sent_of result ≡ nobody }
        ensures input { (mode : ItsMode) → Waits result.input mode [] }
    {
        Peer {
            arrived: Vec::new(alloc),
            released: Vec::new(alloc),
            left: false,
            input: Input::new(alloc),
        }
    }

    /// Takes further octets. Refused only for want of memory; then what was sent is as it was.
    fn hear(&mut self, octets: &[u8]) -> Result<(), AllocError>
        ensures sent { OnOk result (sent_of self.new ≡ record {
          arrived = self.old.arrived.items ++ octets.now;
          released = self.old.released.items;
          left = self.old.left;
        }) }
        ensures input { OnOk result ((mode : ItsMode) (stream : List ℕ) → Waits self.old.input mode stream
            → Waits self.new.input mode (stream ++ octets.now)) }
        ensures err_sent { OnErr result (sent_of self.new ≡ sent_of self.old) }
        ensures err_input { OnErr result (self.new.input ≡ self.old.input) }
    {
        self.arrived.reserve(octets.len())?;
        self.input.feed(octets)?;
        self.arrived.extend_from_slice(octets)
    }
}

/// Notes that the session left.
pub(crate) fn leave(peers: &mut Vec<Peer>, number: u64)
    requires some { 1 ≤ number }
    requires within { number ≤ length peers.old.items }
    ensures sent { sents peers.new.items ≡ with_numbered (sents peers.old.items) number
        (record (sent_at (sents peers.old.items) number) { left = true }) }
    ensures input { inputs peers.new.items ≡ inputs peers.old.items }
{
    peers[(number - 1) as usize].left = true;
}

/// Takes octets that arrive for the session.
pub(crate) fn hear(peers: &mut Vec<Peer>, number: u64, octets: &[u8]) -> Result<(), AllocError>
    requires some { 1 ≤ number }
    requires within { number ≤ length peers.old.items }
    ensures sent { OnOk result (sents peers.new.items ≡ with_numbered (sents peers.old.items) number
        (record (sent_at (sents peers.old.items) number) { arrived = (sent_at (sents peers.old.items) number).arrived ++ octets.now })) }
    ensures input { OnOk result (Becomes (inputs peers.old.items) (inputs peers.new.items) number
        (λ before after. (mode : ItsMode) (stream : List ℕ) → Waits before mode stream → Waits after mode (stream ++ octets.now))) }
    ensures err_sent { OnErr result (sents peers.new.items ≡ sents peers.old.items) }
    ensures err_input { OnErr result (inputs peers.new.items ≡ inputs peers.old.items) }
{
    peers[(number - 1) as usize].hear(octets)
}

/// Whether the session's next message has arrived whole.
pub(crate) fn find(peers: &mut Vec<Peer>, number: u64, mode: Mode) -> Result<bool, AllocError>
    requires some { 1 ≤ number }
    requires within { number ≤ length peers.old.items }
    requires may { (input : ItsInput) → numbered (inputs peers.old.items) number ≡ Some input → MayAsk input mode }
    ensures sent { sents peers.new.items ≡ sents peers.old.items }
    ensures input { IfOk result (λ found. Becomes (inputs peers.old.items) (inputs peers.new.items) number
        (λ before after. (stream : List ℕ) → Waits before mode stream → Found found after mode stream)) }
    ensures err_input { OnErr result (inputs peers.new.items ≡ inputs peers.old.items) }
{
    peers[(number - 1) as usize].input.find(mode)
}

/// The session's next message, if it was found.
pub(crate) fn found(peers: &Vec<Peer>, number: u64) -> Option<&Message>
    requires some { 1 ≤ number }
    requires within { number ≤ length peers.now.items }
    ensures { (input : ItsInput) → numbered (inputs peers.now.items) number ≡ Some input
        → MatchOption result (input.message ≡ None) (λ message. input.message ≡ Some message.now) }
{
    peers[(number - 1) as usize].input.message.as_ref()
}

/// Notes that the session's next message was served.
pub(crate) fn forget(peers: &mut Vec<Peer>, number: u64)
    requires some { 1 ≤ number }
    requires within { number ≤ length peers.old.items }
    ensures sent { sents peers.new.items ≡ sents peers.old.items }
    ensures input { Becomes (inputs peers.old.items) (inputs peers.new.items) number
        (λ before after. after ≡ record { reader = before.reader; message = None }) }
{
    peers[(number - 1) as usize].input.message = None;
}

/// Makes room for what one release hands out, for each session that exists.
pub(crate) fn make_room(kernel: &Kernel, peers: &mut Vec<Peer>) -> Result<(), AllocError>
    requires { (k : ℕ) (seat : Seat) → slice_get kernel.now.seats k ≡ Some seat
        → (1 ≤ seat.number) × (seat.number ≤ length peers.old.items) }
    ensures sent { sents peers.new.items ≡ sents peers.old.items }
    ensures input { inputs peers.new.items ≡ inputs peers.old.items }
    ensures room { OnOk result ((k : ℕ) (seat : Seat) → slice_get kernel.now.seats k ≡ Some seat
        → HasRoom peers.new.items seat.number 65536) }
{
    for place in 0..kernel.session_count() {
        match kernel.session(place) {
            Some(number) => reserve(peers, number)?,
            None => return Ok(()),
        }
    }
    Ok(())
}

/// Makes room for what one release hands out, for this session.
fn reserve(peers: &mut Vec<Peer>, number: u64) -> Result<(), AllocError>
    requires some { 1 ≤ number }
    requires within { number ≤ length peers.old.items }
    ensures sent { sents peers.new.items ≡ sents peers.old.items }
    ensures input { inputs peers.new.items ≡ inputs peers.old.items }
    ensures room { OnOk result (HasRoom peers.new.items number 65536) }
    ensures others { (k needed : ℕ) → HasRoom peers.old.items k needed → HasRoom peers.new.items k needed }
{
    peers[(number - 1) as usize]
        .released
        .reserve(RELEASE_OCTETS)
}

/// Counts what was handed out as released, each entry's octets to its session.
pub(crate) fn file(peers: &mut Vec<Peer>, ready: &ReadyBuf)
    requires known { AreKnown (sents peers.old.items) ready.now }
    requires room { HaveRoom peers.old.items (λ number. length (given_in number ready.now)) }
    ensures sent { sents peers.new.items ≡ with_released (sents peers.old.items) ready.now }
    ensures input { inputs peers.new.items ≡ inputs peers.old.items }
{
    for index in 0..ready.len() {
        let (number, octets, _) = ready.entry(index);
        file_one(peers, number, octets);
    }
}

/// Counts these octets as released to this session.
fn file_one(peers: &mut Vec<Peer>, number: u64, octets: &[u8])
    requires some { 1 ≤ number }
    requires within { number ≤ length peers.old.items }
    requires room { HasRoom peers.old.items number (length octets.now) }
    ensures sent { sents peers.new.items ≡ with_numbered (sents peers.old.items) number
        (record (sent_at (sents peers.old.items) number) { released = (sent_at (sents peers.old.items) number).released ++ octets.now }) }
    ensures input { inputs peers.new.items ≡ inputs peers.old.items }
    ensures room { (needed : ℕ → ℕ) → HaveRoom peers.old.items (λ k. (if number == k then length octets.now else 0) + needed k)
        → HaveRoom peers.new.items needed }
{
    let _ = peers[(number - 1) as usize]
        .released
        .extend_from_slice(octets);
}

/// The octets that arrived for this session.
pub(crate) fn arrived(peers: &Vec<Peer>, number: u64) -> &[u8]
    ensures { result.now ≡ (sent_at (sents peers.now.items) number).arrived }
{
    if number == 0 {
        return &[];
    }
    if (peers.len() as u64) < number {
        return &[];
    }
    peers[(number - 1) as usize].arrived.as_slice()
}

/// The octets that were released to this session.
pub(crate) fn released(peers: &Vec<Peer>, number: u64) -> &[u8]
    ensures { result.now ≡ (sent_at (sents peers.now.items) number).released }
{
    if number == 0 {
        return &[];
    }
    if (peers.len() as u64) < number {
        return &[];
    }
    peers[(number - 1) as usize].released.as_slice()
}
