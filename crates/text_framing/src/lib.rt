//! Messages from a stream of octets, however it is cut into pieces, and the block that sends a text.
#![tactic(auto)]

ghost use Rattle.std.specs.Prelude.{◌≡◌, ◌+◌, ◌*◌, ◌<◌, ◌≤◌, ◌++◌, [], ◌∷◌, vec_len, length, take, drop, true, Some, None, ◌==◌};
ghost use Rattle.std.specs.Prelude.{if◌then◌else◌, IfOk, OnOk, OnErr, IfSome, IfNone, MatchOption};
ghost use Rattle.model.specs.Stream.{ends_message, lines, message_of, next, stuffed, stuffed_line, unstuffed, unstuffed_line, ReadsAlike};
ghost use Rattle.model.specs.declared.message.Mode.TheVariants as mode;
ghost use Rattle.model.specs.declared.message.Message.TheVariants.{TooLong};
ghost use Rattle.text_framing.specs.Held.{EndsFirst, NoneEnds, Sheds, StandsWhenFed, StandsWhenFound, StandsWhenNone};

use memchr::memchr;
use model::Text;
pub use model::{Message, Mode};
use std::alloc::{AllocError, Global};
use std::cmp::max;
use std::marker::Model;

/// The octets of the longest command line, including CRLF.
pub const LINE_LIMIT: usize = 512;

/// The octets of the longest text of a block.
pub const BLOCK_LIMIT: usize = 262_144;

/// A message with more octets than this is too long, however many dots are removed from it.
const HOLD_LIMIT: usize = 350_000;

/// A stream of octets that arrives in pieces.
#[derive(Drop)]
pub struct Reader {
    octets: Vec<u8>,
    alloc: Global,
    /// The number of octets that were handed out.
    start: usize,
    /// The number of octets after `start` that were searched in vain for the end of a message.
    searched: usize,
    /// How many octets stand for those of the next message that were dropped because it is too long; 0 if none were.
    dropped: usize,
    awaits: Option<Mode>,
}

impl Model for Reader {
    ghost use Rattle.std.specs.Prelude.{◌++◌, drop, vec_len};
    ghost use Rattle.text_framing.specs.Held.{HeldInput};

    ghost Value = { HeldInput };

    ghost use Rattle.text_framing.specs.Fields.{held_of, IsSound};

    ghost view = { held_of };

    ghost invariant = { IsSound };
}

impl Reader {
    /// A reader of an empty stream.
    pub fn new(alloc: Global) -> Reader
        ensures rest { result.rest ≡ [] }
        ensures awaits { result.awaits ≡ None }
        ensures held { result.size ≡ 0 }
    {
        Reader {
            octets: Vec::new(alloc),
            alloc,
            start: 0,
            searched: 0,
            dropped: 0,
            awaits: None,
        }
    }

    /// The number of octets of the stream that are in memory: at most twice those still to be handed out.
    pub fn held(&self) -> usize
        ensures size { result ≡ self.now.size }
        ensures bound { result ≤ 2 * length self.now.rest }
    {
        self.octets.len()
    }

    /// Takes the next piece of the stream. Refused only for want of memory; then nothing is taken.
    pub fn feed(&mut self, piece: &[u8]) -> Result<(), AllocError>
        ensures rest { OnOk result (self.new.rest ≡ self.old.rest ++ piece.now) }
        ensures awaits { OnOk result (self.new.awaits ≡ self.old.awaits) }
        ensures held { OnOk result (self.new.size ≡ self.old.size + length piece.now) }
        ensures err { OnErr result (self.new ≡ self.old) }
    {
        self.octets.extend_from_slice(piece)?;
        Ok(())
    }

    /// The next message, if its end has arrived. After `None` the next call must be in the same mode. Refused only for
    /// want of memory; then nothing changes.
    pub fn next(&mut self, mode: Mode) -> Result<Option<Message>, AllocError>
        requires { IfSome self.old.awaits (λ awaited. awaited ≡ mode) }
        ensures message { IfOk result (λ found. IfSome found (λ message. next mode self.old.rest ≡ Some (message, self.new.rest))) }
        ensures done { IfOk result (λ found. IfSome found (λ message. self.new.awaits ≡ None)) }

        // There is no whole message yet, and however the stream continues, the next messages are the same.
        ensures none { IfOk result (λ found. IfNone found (next mode self.old.rest ≡ None)) }
        ensures alike { IfOk result (λ found. IfNone found (ReadsAlike mode self.old.rest self.new.rest)) }
        ensures awaits { IfOk result (λ found. IfNone found (self.new.awaits ≡ Some mode)) }
        ensures held { IfOk result (λ found. IfNone found (self.new.size ≤ 400_000)) }

        ensures err { OnErr result (self.new ≡ self.old) }
    {
        let unread = &self.octets[self.start..];
        match find_end(mode, unread, self.searched) {
            Some(end) => {
                let message = found_message(self.alloc, mode, self.dropped, &unread[..end])?;
                self.start = forget_read(&mut self.octets, self.start + end);
                self.searched = 0;
                self.dropped = 0;
                self.awaits = None;
                Ok(Some(message))
            }
            None => {
                forget_front(&mut self.octets, self.start);
                self.start = 0;
                self.dropped = shed(&mut self.octets, self.dropped);
                self.searched = self.octets.len();
                self.awaits = Some(mode);
                Ok(None)
            }
        }
    }
}

/// What a reader holds stands for the stream, whatever is fed to it and asked of it. This follows from the clauses of
/// `feed` and `next`.
pub fn stands_for_the_stream()
    ensures fed { StandsWhenFed }
    ensures found { StandsWhenFound }
    ensures none { StandsWhenNone }
{}

/// Whether a prefix of the stream ends a message.
fn ends(mode: Mode, front: &[u8]) -> bool
    ensures { result ≡ ends_message mode front.now }
{
    match mode {
        Mode::Line => front.ends_with(b"\r\n"),
        Mode::Block => front == b".\r\n".as_slice() || front.ends_with(b"\r\n.\r\n"),
    }
}

/// The length of the shortest prefix with more than `searched` octets that ends a message.
fn find_end(mode: Mode, stream: &[u8], searched: usize) -> Option<usize>
    requires { searched ≤ length stream.now }
    ensures { MatchOption result (NoneEnds mode stream.now searched (length stream.now)) (EndsFirst mode stream.now searched) }
{
    let mut at = searched;
    while let Some(step) = memchr(b'\n', &stream[at..]) {
        at += step + 1;
        if ends(mode, &stream[..at]) {
            return Some(at);
        }
    }
    None
}

/// The length of a text's first line, with its CRLF if it has one.
pub fn line_length(text: &[u8]) -> usize
    requires { 0 < length text.now }
    ensures some { 0 < result }
    ensures within { result ≤ length text.now }
    ensures first { lines text.now ≡ take result text.now ∷ lines (drop result text.now) }
{
    match find_end(Mode::Line, text, 0) {
        Some(length) => length,
        None => text.len(),
    }
}

/// Appends a line without its leading dot, if it has one.
fn push_unstuffed(text: &mut Vec<u8>, line: &[u8]) -> Result<(), AllocError>
    ensures { OnOk result (text.new.items ≡ text.old.items ++ unstuffed_line line.now) }
{
    match line {
        [b'.', rest @ ..] => text.extend_from_slice(rest),
        _ => text.extend_from_slice(line),
    }
}

/// Appends a line, with another dot before it if it begins with one.
fn push_stuffed(block: &mut Vec<u8>, line: &[u8]) -> Result<(), AllocError>
    ensures { OnOk result (block.new.items ≡ block.old.items ++ stuffed_line line.now) }
{
    if let [b'.', ..] = line {
        block.push(b'.')?;
    }
    block.extend_from_slice(line)
}

/// The text that a block sends: its lines without their stuffing.
fn unstuff(alloc: Global, block: &[u8]) -> Result<Vec<u8>, AllocError>
    ensures { IfOk result (λ text. text.items ≡ unstuffed block.now) }
{
    let mut text = Vec::new(alloc);
    let mut rest = block;
    while !rest.is_empty() {
        let (line, later) = rest.split_at(line_length(rest));
        push_unstuffed(&mut text, line)?;
        rest = later;
    }
    Ok(text)
}

/// The block that sends a text: its lines dot-stuffed, and the line that ends it.
pub fn stuff(alloc: Global, text: &[u8]) -> Result<Vec<u8>, AllocError>
    ensures { IfOk result (λ block. block.items ≡ stuffed text.now) }
{
    let mut block = Vec::new(alloc);
    let mut rest = text;
    while !rest.is_empty() {
        let (line, later) = rest.split_at(line_length(rest));
        push_stuffed(&mut block, line)?;
        rest = later;
    }
    block.extend_from_slice(b".\r\n")?;
    Ok(block)
}

/// A copy of the octets on the heap.
fn copied(alloc: Global, octets: &[u8]) -> Result<Vec<u8>, AllocError>
    ensures { IfOk result (λ copy. copy.items ≡ octets.now) }
{
    let mut copy = Vec::new(alloc);
    copy.extend_from_slice(octets)?;
    Ok(copy)
}

/// The message that these octets make up.
fn read_message(alloc: Global, mode: Mode, front: &[u8]) -> Result<Message, AllocError>
    requires { ends_message mode front.now ≡ true }
    ensures { IfOk result (λ message. message ≡ message_of mode front.now) }
{
    match mode {
        Mode::Line => line_message(alloc, front),
        Mode::Block => block_message(alloc, front),
    }
}

fn line_message(alloc: Global, front: &[u8]) -> Result<Message, AllocError>
    requires { 2 ≤ length front.now }
    ensures { IfOk result (λ message. message ≡ message_of mode.Line front.now) }
{
    if front.len() > LINE_LIMIT {
        return Ok(Message::TooLong);
    }
    let text = copied(alloc, &front[..front.len() - 2])?;
    Ok(Message::Line(Text::new(text)))
}

fn block_message(alloc: Global, front: &[u8]) -> Result<Message, AllocError>
    requires { 3 ≤ length front.now }
    ensures { IfOk result (λ message. message ≡ message_of mode.Block front.now) }
{
    let text = unstuff(alloc, &front[..front.len() - 3])?;
    if text.len() > BLOCK_LIMIT {
        return Ok(Message::TooLong);
    }
    Ok(Message::Block(Text::new(text)))
}

/// Removes the octets that were handed out once they are more than half of all, so that each octet is moved at most
/// once on average. Answers how many of the octets handed out are still in memory.
fn forget_read(octets: &mut Vec<u8>, read: usize) -> usize
    requires { read ≤ vec_len octets.old }
    ensures rest { drop result octets.new.items ≡ drop read octets.old.items }
    ensures half { 2 * result ≤ vec_len octets.new }
{
    if read <= octets.len() / 2 {
        return read;
    }
    forget_front(octets, read);
    0
}

/// Removes the first n octets.
fn forget_front(octets: &mut Vec<u8>, n: usize)
    requires { n ≤ vec_len octets.old }
    ensures { octets.new.items ≡ drop n octets.old.items }
{
    if n == 0 {
        return;
    }
    let left = octets.len() - n;
    octets.copy_within(n.., 0);
    octets.truncate(left);
}

/// Drops all but the last four octets of a message that is already too long, and answers how many octets stand for
/// those that were dropped.
fn shed(octets: &mut Vec<u8>, dropped: usize) -> usize
    ensures { Sheds dropped octets.old.items result octets.new.items }
{
    if octets.len() <= HOLD_LIMIT {
        return dropped;
    }
    let excess = octets.len() - 4;
    forget_front(octets, excess);
    max(dropped, excess)
}

/// The message that ends with these octets. It is too long if any of its octets were dropped.
fn found_message(
    alloc: Global,
    mode: Mode,
    dropped: usize,
    front: &[u8],
) -> Result<Message, AllocError>
    requires { ends_message mode front.now ≡ true }
    ensures { IfOk result (λ message. message ≡ (if dropped == 0 then message_of mode front.now else TooLong)) }
{
    if dropped == 0 {
        read_message(alloc, mode, front)
    } else {
        Ok(Message::TooLong)
    }
}
