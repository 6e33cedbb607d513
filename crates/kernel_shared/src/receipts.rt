//! The values by which the steps of a flusher's turn follow one another. Each is made by one function, and a later step
//! asks for it. So a turn that leaves a step out, or takes it too early, has nothing to give.

ghost use Rattle.std.specs.Prelude.{◌≡◌, IfOk, false, length};
ghost use Rattle.journal.specs.Journal.{sizes};
ghost use Rattle.journal.specs.Order.{following};
ghost use Rattle.journal.specs.declared.Next.{Next};

use crate::{Kern, Stale, Ticket};
use disk::Disk;
use journal::Journal;
use std::sync::Wait;

/// The sync that commits the batch with this last serial has answered.
#[derive(Clone, Copy)]
pub struct Receipt {
    last: u64,
}

impl Receipt {
    /// The receipt of a journal whose last call was the sync that commits.
    pub fn of<D: Disk>(journal: &Journal<D>, last: u64) -> Receipt
        requires running { journal.now.halted ≡ false }
        requires committed { journal.now.next ≡ following (length journal.now.numbers) (sizes journal.now) Next.Commit }
        requires last { journal.now.last ≡ last }
        ensures { result.last ≡ last }
    {
        let _ = journal;
        Receipt { last }
    }
}

/// A kernel was told that this many changes are durable.
#[derive(Drop)]
pub struct Told {
    last: u64,
}

impl Told {
    /// The number of changes.
    pub fn last(&self) -> u64
        ensures { result ≡ self.now.last }
    {
        self.last
    }
}

/// Tells a kernel that the batch of a ticket is on disk (`Kern::committed`). `Stale` (E13) as that call says.
pub fn tell<R: Wait, K: Kern>(
    rt: &R,
    kern: &K,
    ticket: Ticket,
    receipt: Receipt,
) -> Result<Told, Stale>
    requires { receipt.last ≡ ticket.last }
    ensures { IfOk result (λ told. told.last ≡ ticket.last) }
{
    kern.committed(rt, ticket, receipt)?;
    Ok(Told {
        last: ticket.last(),
    })
}

/// A kernel was asked to halt.
#[derive(Drop)]
pub struct Halted(());

/// Halts a kernel for good (`Kern::halt`).
pub fn halt<R: Wait, K: Kern>(rt: &R, kern: &K) -> Halted {
    kern.halt(rt);
    Halted(())
}

/// Halts a kernel if every accepted change is durable (`Kern::halt_if_clean`). `None` if one isn't.
pub fn halt_if_clean<R: Wait, K: Kern>(rt: &R, kern: &K) -> Option<Halted> {
    if kern.halt_if_clean(rt) {
        Some(Halted(()))
    } else {
        None
    }
}
