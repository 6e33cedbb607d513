//! The buffer that a release fills: the sessions' octets one after the other, and where each session's octets are.

ghost use Rattle.std.specs.Prelude.{◌≡◌, ◌<◌, ◌≤◌, ◌==◌, ◌++◌, [], length, vec_len, vec_capacity, Some, IfOk, slice_get};
ghost use Rattle.kernel_outbox.specs.Queue.{octets_along, octets_in};
ghost use Rattle.kernel_outbox.specs.Slots.{slots_of};

use crate::{RELEASE_ENTRIES, RELEASE_OCTETS};
use std::alloc::{AllocError, Global};
use std::marker::Model;

/// Where a session's octets are, and whether it ends after them.
#[derive(Drop)]
pub(crate) struct Slot {
    pub(crate) number: u64,
    pub(crate) start: usize,
    pub(crate) end: usize,
    pub(crate) ends: bool,
}

/// What one release hands out, in order: for each session that gets something its number, its octets and whether it
/// ends. It has room for `RELEASE_ENTRIES` entries with `RELEASE_OCTETS` octets in all.
#[derive(Drop)]
pub struct ReadyBuf {
    pub(crate) octets: Vec<u8>,
    pub(crate) slots: Vec<Slot>,
}

impl Model for ReadyBuf {
    ghost use Rattle.std.specs.Prelude.{List};
    ghost use Rattle.kernel_outbox.specs.Queue.{ReadyEntry};

    ghost Value = { List ReadyEntry };

    ghost use Rattle.kernel_outbox.specs.Fields.{entries_of, IsSoundBuffer};

    ghost view = { entries_of };

    ghost invariant = { IsSoundBuffer };
}

impl ReadyBuf {
    /// An empty buffer with all its room.
    pub fn new(alloc: Global) -> Result<ReadyBuf, AllocError>
        ensures { IfOk result (λ buffer. buffer ≡ []) }
    {
        let octets = Vec::with_capacity(alloc, RELEASE_OCTETS)?;
        let slots = Vec::with_capacity(alloc, RELEASE_ENTRIES)?;
        Ok(ReadyBuf { octets, slots })
    }

    /// Drops all entries, and keeps the room.
    pub fn clear(&mut self)
        ensures { self.new ≡ [] }
    {
        self.slots.clear();
        self.octets.clear();
    }

    /// The number of entries. They and their octets never exceed the room.
    pub fn len(&self) -> usize
        ensures len { result ≡ length self.now }
        ensures few { length self.now ≤ 4096 }
        ensures short { octets_in self.now ≤ 65_536 }
    {
        self.slots.len()
    }

    /// Whether there is no entry.
    pub fn is_empty(&self) -> bool
        ensures { result ≡ (length self.now == 0) }
    {
        self.slots.is_empty()
    }

    /// The session of an entry, its octets, and whether it ends after them.
    pub fn entry(&self, index: usize) -> (u64, &[u8], bool)
        requires { index < length self.now }
        ensures { slice_get self.now index ≡ Some (result.0, result.1.now, result.2) }
    {
        let slot = &self.slots[index];
        (slot.number, &self.octets[slot.start..slot.end], slot.ends)
    }

    /// The octets of all entries, in order.
    pub fn octets(&self) -> &[u8]
        ensures { result.now ≡ octets_along self.now }
    {
        self.octets.as_slice()
    }
}

/// Notes that the octets from `start` to `end` are the session's, unless there are none and it does not end.
pub(crate) fn end_entry(slots: &mut Vec<Slot>, number: u64, start: usize, end: usize, ends: bool)
    requires { vec_len slots.old < vec_capacity slots.old }
    ensures items { slots.new.items ≡ slots.old.items ++ slots_of number start end ends }
    ensures capacity { vec_capacity slots.new ≡ vec_capacity slots.old }
{
    if start == end && !ends {
        return;
    }
    slots.push_reserved(Slot {
        number,
        start,
        end,
        ends,
    });
}
