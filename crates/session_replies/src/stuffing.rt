//! Dot-stuffing of a text that arrives in pieces (RFC 3977, section 3.1.1).

ghost use Rattle.std.specs.Prelude.{◌≡◌, ◌++◌, true, false, MatchOption, OnOk};
ghost use Rattle.memchr.specs.Find.{IsFirstByte, is_byte};
ghost use Rattle.session_replies.specs.Pieces.{PiecesFollow, PiecesMakeTheText};

use memchr::memchr;
use std::alloc::AllocError;

/// The number of octets that are looked at one by one before a search by vectors, which takes as long as these.
const NEAR: usize = 8;

/// The state of the stuffing after the pieces so far.
#[derive(Clone, Copy)]
pub struct Stuffing {
    /// the next octet begins a line
    fresh: bool,
    /// the last octet is CR
    after_cr: bool,
}

impl Stuffing {
    ghost use Rattle.session_replies.specs.Stuffing.{IsFirstDoubled, after, step, stuffed_from};

    /// The state before the first piece of a text.
    pub fn new() -> Stuffing
        ensures { result ≡ record { fresh = true; after_cr = false } }
    {
        Stuffing {
            fresh: true,
            after_cr: false,
        }
    }

    /// Appends the next piece of the text, with another dot before each dot that begins a line. Refused only for want
    /// of memory; then the reply may hold any octets, and the caller discards it.
    pub fn push(&mut self, reply: &mut Vec<u8>, piece: &[u8]) -> Result<(), AllocError>
        ensures sent { OnOk result (reply.new.items ≡ reply.old.items ++ stuffed_from self.old piece.now) }
        ensures state { OnOk result (self.new ≡ after self.old piece.now) }
    {
        let mut state = *self;
        let mut rest = piece;
        while let Some(place) = state.line_dot(rest) {
            let (sent, later) = rest.split_at(place + 1);
            reply.extend_from_slice(sent)?;
            reply.push(b'.')?;
            state = Stuffing {
                fresh: false,
                after_cr: false,
            };
            rest = later;
        }
        reply.extend_from_slice(rest)?;
        *self = state.past(rest);
        Ok(())
    }

    /// The place of the first dot that begins a line. It looks for a dot, and goes on at the next line where that one
    /// stands inside a line: so a line takes three searches at most, however many dots it has.
    fn line_dot(self, octets: &[u8]) -> Option<usize>
        ensures { MatchOption result (stuffed_from self octets.now ≡ octets.now) (λ at. IsFirstDoubled self octets.now at) }
    {
        let mut at = 0;
        while let Some(ahead) = first_place(b'.', &octets[at..]) {
            let dot = at + ahead;
            if self.past(&octets[..dot]).fresh {
                return Some(dot);
            }
            let ending = first_place(b'\n', &octets[dot..])?;
            at = dot + ending + 1;
        }
        None
    }

    /// The state after some more octets. The last two decide it, so the others are not looked at.
    fn past(self, octets: &[u8]) -> Stuffing
        ensures { result ≡ after self octets.now }
    {
        match octets {
            [] => self,
            [octet] => self.next(*octet),
            [.., before, last] => self.next(*before).next(*last),
        }
    }

    /// The state after one more octet.
    fn next(self, octet: u8) -> Stuffing
        ensures { result ≡ step self octet }
    {
        Stuffing {
            fresh: self.after_cr && octet == b'\n',
            after_cr: octet == b'\r',
        }
    }
}

/// The place of the first such octet. It is often near.
fn first_place(octet: u8, octets: &[u8]) -> Option<usize>
    ensures { IsFirstByte (is_byte octet) octets.now result }
{
    let near = octets.len().min(NEAR);
    for place in 0..near {
        if octets[place] == octet {
            return Some(place);
        }
    }
    let far = memchr(octet, &octets[near..])?;
    Some(near + far)
}

/// Pieces that are pushed one after the other give the block that sends their text, except the line that ends it.
pub fn pieces_make_the_text()
    ensures text { PiecesMakeTheText }
    ensures follow { PiecesFollow }
{}
