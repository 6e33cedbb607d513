//! A reply on its way: octets that are made, and what is still to be made.

ghost use Rattle.std.specs.Prelude.{◌≡◌, ◌+◌, ◌-◌, ◌<◌, ◌≤◌, ◌^◌, ◌++◌, IfOk, Some, drop, take, length, nat_le, vec_len, vec_capacity};
ghost use Rattle.kernel_outbox.specs.Lines.{IsKept, plain, size, whole};
ghost use Rattle.kernel_outbox.specs.Numbers.{last_line, number_lines};
ghost use Rattle.kernel_outbox.specs.Outgoing.{IsSound, IsStocked, outgoing};

use crate::appending::append;
use crate::made_lines::{Lines, Source};
use crate::number_lines::{MADE_AT_ONCE, Numbers};
use crate::{LONGEST_LINE, RELEASE_OCTETS};
use std::alloc::AllocError;
use std::marker::Model;

/// The room for made octets of a reply with numbers: more than a release hands out, and what is made at once.
const NUMBERS_ROOM: usize = RELEASE_OCTETS + MADE_AT_ONCE;

/// The room for made octets of a reply with a source's lines: what a release hands out, and one line more.
const LINES_ROOM: u64 = (RELEASE_OCTETS + LONGEST_LINE) as u64;

/// The most octets that a reply has, as a `Vec`.
const MOST_OCTETS: u128 = (1 << 63) - 1;

/// What is still to be made of a reply.
#[derive(Clone, Copy)]
pub(crate) enum Rest {
    Nothing,
    Numbers(Numbers),
    /// by a source
    Lines(Lines),
}

/// The octets of a reply that are still to be handed out, and what is still to be made of it. A reply that isn't made
/// whole has room for a part of it, or for all of its octets.
#[derive(Drop)]
pub struct Outgoing {
    octets: Vec<u8>,
    /// the first octet that is still to be handed out
    start: usize,
    rest: Rest,
}

impl Model for Outgoing {
    ghost use Rattle.kernel_outbox.specs.Lines.{Reply};

    ghost Value = { Reply };

    ghost use Rattle.kernel_outbox.specs.Fields.{reply_in, IsSoundReply};

    ghost view = { reply_in };

    ghost invariant = { IsSoundReply };
}

impl Outgoing {
    /// A reply that is made whole.
    pub fn whole(octets: Vec<u8>) -> Outgoing
        ensures { result ≡ plain octets.items }
    {
        Outgoing {
            octets,
            start: 0,
            rest: Rest::Nothing,
        }
    }

    /// A reply of these octets, a line for each of `count` consecutive numbers, and the line that ends a block. The lines
    /// are made as they are handed out; memory is taken now, for a part of them. Refused only for want of memory, or if
    /// the reply had 2^63 octets or more.
    pub fn numbered(mut octets: Vec<u8>, first: u64, count: u64) -> Result<Outgoing, AllocError>
        requires first { 1 ≤ first }
        requires last { first + count ≤ 2 ^ 64 }
        ensures { IfOk result (λ reply. reply ≡ plain (octets.items ++ (number_lines first count ++ last_line))) }
    {
        let numbers = Numbers {
            next: first,
            left: count,
        };
        let more = numbers.len();
        if octets.len() as u128 + more > MOST_OCTETS {
            return Err(AllocError);
        }
        octets.reserve(NUMBERS_ROOM.min(more as usize))?;
        Ok(Outgoing {
            octets,
            start: 0,
            rest: Rest::Numbers(numbers),
        })
    }

    /// A reply of these octets and then these lines of a source. The lines are made as they are handed out; memory is
    /// taken now, for a part of them. Refused only for want of memory, or if the reply had 2^63 octets or more.
    pub fn lined(mut octets: Vec<u8>, lines: Lines) -> Result<Outgoing, AllocError>
        ensures { IfOk result (λ reply. reply ≡ record { octets = octets.items; lines = Some lines }) }
    {
        if octets.len() as u128 + u128::from(lines.octets) > MOST_OCTETS {
            return Err(AllocError);
        }
        octets.reserve(LINES_ROOM.min(lines.octets) as usize)?;
        Ok(Outgoing {
            octets,
            start: 0,
            rest: Rest::Lines(lines),
        })
    }

    /// The number of octets still to be handed out, made or not.
    pub fn len(&self) -> u64
        ensures len { result ≡ size self.now }
        ensures short { size self.now < 2 ^ 63 }
    {
        let made = (self.octets.len() - self.start) as u64;
        match self.rest {
            Rest::Nothing => made,
            Rest::Numbers(numbers) => made + numbers.len() as u64,
            Rest::Lines(lines) => made + lines.octets,
        }
    }

    /// Moves the first octets into the buffer, until that has `RELEASE_OCTETS`, and makes what is missing. Answers whether
    /// none is left. It takes no memory.
    pub(crate) fn move_into<S: Source>(&mut self, source: &S, into: &mut Vec<u8>) -> bool
        // Lines that the source has, and a buffer with room for a release.
        requires kept { IsKept (S.keeps source.now) self.old }
        requires few { vec_len into.old ≤ 65_536 }
        requires room { 65_536 ≤ vec_capacity into.old }

        // The answer, the octets moved, and those left.
        ensures whole { result ≡ nat_le (length (whole (S.octets_of source.now) self.old)) (65_536 - length into.old.items) }
        ensures moved { into.new.items ≡ into.old.items
            ++ take (65_536 - length into.old.items) (whole (S.octets_of source.now) self.old) }
        ensures left { whole (S.octets_of source.now) self.new
            ≡ drop (65_536 - length into.old.items) (whole (S.octets_of source.now) self.old) }
        ensures kept { IsKept (S.keeps source.now) self.new }

        // The buffer has no more than a release, and keeps room for one.
        ensures bound { vec_len into.new ≤ 65_536 }
        ensures capacity { 65_536 ≤ vec_capacity into.new }
    {
        let room = RELEASE_OCTETS - into.len();
        stock(source, &mut self.octets, &mut self.start, &mut self.rest);
        let made = &self.octets[self.start..];
        if made.len() > room {
            append(into, &made[..room]);
            self.start += room;
            return false;
        }
        append(into, made);
        self.start = self.octets.len();
        true
    }
}

/// Makes more octets of a reply, until there are more than a release hands out or none is left to be made. It takes no
/// memory.
fn stock<S: Source>(source: &S, octets: &mut Vec<u8>, start: &mut usize, rest: &mut Rest)
    requires sound { IsSound (vec_capacity octets.old) octets.old.items start.old rest.old }
    requires kept { IsKept (S.keeps source.now) (outgoing octets.old.items start.old rest.old) }
    ensures same { whole (S.octets_of source.now) (outgoing octets.new.items start.new rest.new)
        ≡ whole (S.octets_of source.now) (outgoing octets.old.items start.old rest.old) }
    ensures sound { IsSound (vec_capacity octets.new) octets.new.items start.new rest.new }
    ensures kept { IsKept (S.keeps source.now) (outgoing octets.new.items start.new rest.new) }
    ensures stocked { IsStocked octets.new.items start.new rest.new }
{
    if octets.len() - *start > RELEASE_OCTETS {
        return;
    }
    match *rest {
        Rest::Nothing => {}
        Rest::Numbers(numbers) => {
            to_front(octets, start);
            *rest = match numbers.stock(octets) {
                Some(numbers) => Rest::Numbers(numbers),
                None => Rest::Nothing,
            };
        }
        Rest::Lines(lines) => {
            to_front(octets, start);
            *rest = match source.make_some(lines, octets) {
                Some(lines) => Rest::Lines(lines),
                None => Rest::Nothing,
            };
        }
    }
}

/// Moves the octets from `start` on to the front, and drops those before them.
fn to_front(octets: &mut Vec<u8>, start: &mut usize)
    requires { start.old ≤ vec_len octets.old }
    ensures items { octets.new.items ≡ drop start.old octets.old.items }
    ensures start { start.new ≡ 0 }
    ensures capacity { vec_capacity octets.new ≡ vec_capacity octets.old }
{
    let left = octets.len() - *start;
    octets.copy_within(*start.., 0);
    octets.truncate(left);
    *start = 0;
}
