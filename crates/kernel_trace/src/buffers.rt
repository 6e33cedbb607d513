//! A release into a buffer that has less room than a new one.

ghost use Rattle.std.specs.Prelude.{◌≡◌, ◌≤◌, [], IfOk, drop, length, vec_capacity, vec_len};
ghost use Rattle.kernel_outbox.specs.Queue.{octets_in};
ghost use Rattle.kernel_trace.specs.Fields.{GivesOne};

use kernel_outbox::{NoLines, Outgoing, Queue, RELEASE_OCTETS, ReadyBuf};
use std::alloc::{AllocError, Global};

/// A buffer that holds so many octets already.
pub(crate) fn filled(alloc: Global, count: usize) -> Result<ReadyBuf, AllocError>
    requires { count ≤ 65_536 }
    ensures octets { IfOk result (λ buffer. octets_in buffer ≡ count) }
    ensures few { IfOk result (λ buffer. length buffer ≤ 1) }
{
    let octets = vec![in alloc; 0; count]?;
    let mut spare = Spare::new(alloc)?;
    let mut buffer = ReadyBuf::new(alloc)?;
    spare.queue.push(Outgoing::whole(octets), 0, false);
    spare.queue.give(&NoLines, 0, 0, &mut buffer);
    Ok(buffer)
}

/// Memory for one entry of a buffer.
#[derive(Drop)]
pub(crate) struct Spare {
    octets: Vec<u8>,
    queue: Queue,
}

impl Spare {
    /// Refused only for want of memory.
    pub(crate) fn new(alloc: Global) -> Result<Spare, AllocError>
        ensures empty { IfOk result (λ spare. spare.octets.items ≡ []) }
        ensures len { IfOk result (λ spare. vec_len spare.octets ≡ 0) }
        ensures capacity { IfOk result (λ spare. 65_536 ≤ vec_capacity spare.octets) }
        ensures held { IfOk result (λ spare. spare.queue.held ≡ []) }
        ensures room { IfOk result (λ spare. 1 ≤ spare.queue.room) }
    {
        let octets = Vec::with_capacity(alloc, RELEASE_OCTETS)?;
        let mut queue = Queue::new(alloc);
        queue.reserve(1)?;
        Ok(Spare { octets, queue })
    }
}

/// Makes the content of a buffer the entry at this place of another, if that has one there. It takes no memory.
pub(crate) fn copy_entry(from: &ReadyBuf, place: usize, spare: Spare, into: &mut ReadyBuf)
    requires empty { spare.octets.items ≡ [] }
    requires len { vec_len spare.octets ≡ 0 }
    requires capacity { 65_536 ≤ vec_capacity spare.octets }
    requires held { spare.queue.held ≡ [] }
    requires room { 1 ≤ spare.queue.room }
    requires place { place ≤ length from.now }
    requires one { GivesOne (drop place from.now) }
    ensures { into.new ≡ drop place from.now }
{
    into.clear();
    if from.len() == place {
        return;
    }
    let Spare {
        mut octets,
        mut queue,
    } = spare;
    let (number, piece, ends) = from.entry(place);
    let _ = octets.extend_from_slice(piece);
    queue.push(Outgoing::whole(octets), 0, ends);
    queue.give(&NoLines, number, 0, into);
}
