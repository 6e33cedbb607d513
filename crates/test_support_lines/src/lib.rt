//! A source of lines for tests of queues: it has any lines, and all their octets are alike.
#![tactic(auto)]

ghost use Rattle.std.specs.Prelude.{◌≡◌, ◌+◌, ◌≤◌, ◌<◌, ◌++◌, length, replicate, vec_len, vec_capacity};

use kernel_outbox::{Lines, Queue, RELEASE_OCTETS, ReadyBuf, Source};

/// The octet that lines are made of.
const OCTET: u8 = b'l';

/// It has any lines. They are so many octets `l`, as they say.
pub struct Alike;

impl Source for Alike {
    ghost use Rattle.std.proofs.Common.{sym};
    ghost use Rattle.std.proofs.lemmas.List.{length-replicate};

    ghost octets_of = { λ s lines. replicate lines.octets 108 };

    ghost keeps = { λ s lines. Unit {0} };

    fn make_some(&self, lines: Lines, octets: &mut Vec<u8>) -> Option<Lines> {
        let room = (RELEASE_OCTETS + 1 - octets.len()) as u64;
        let some = lines.octets.min(room);
        push_alike(octets, some);
        if some == lines.octets {
            return None;
        }
        Some(Lines {
            octets: lines.octets - some,
            ..lines
        })
    }

    ghost counted = { λ s lines kept. sym (length-replicate lines.octets 108) };
}

/// Appends so many octets, for which there is room.
fn push_alike(octets: &mut Vec<u8>, count: u64)
    requires room { vec_len octets.old + count ≤ vec_capacity octets.old }
    ensures items { octets.new.items ≡ octets.old.items ++ replicate count 108 }
    ensures len { vec_len octets.new ≡ vec_len octets.old + count }
    ensures capacity { vec_capacity octets.new ≡ vec_capacity octets.old }
{
    for _ in 0..count {
        octets.push_reserved(OCTET);
    }
}

/// Hands out of a queue, whose lines this source makes. Answers whether the session ends.
pub fn give(queue: &mut Queue, number: u64, durable: u64, into: &mut ReadyBuf) -> bool
    requires { length into.old < 4096 }
{
    queue.give(&Alike, number, durable, into)
}
