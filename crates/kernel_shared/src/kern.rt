//! The calls of the kernel that threads make.

ghost use Rattle.std.specs.Prelude.{◌≡◌, ◌<◌, IfOk, length};

use crate::{
    AdminError, Admitted, ExecError, ExpireError, Expired, JoinError, Receipt, Stale, Ticket,
};
use copy_portions::Portion;
use journal_volume::BatchBuf;
use kernel_expiring::{AgedGroup, GonePart};
use kernel_outbox::ReadyBuf;
use model::{Mark, Mode, Moment};
use session_posting::Refusal;
use session_received::Received;
use std::alloc::Global;
use std::sync::Wait;
use text_names::{GroupName, GroupRequest, Wildmat};

/// The most sessions at a time, unless a server is told otherwise.
pub const SESSIONS: usize = 64;

/// The most sessions that a server can be told to have at a time.
pub const MOST_SESSIONS: usize = 4_096;

/// The outcome of a message that was served.
#[derive(Clone, Copy)]
pub struct ExecOutcome {
    /// What the session sends next; `None` if it was closed.
    pub next: Option<Mode>,
    pub mark: Mark,
    /// Why the message's article is not filed. `None` if it is, or if the message has none.
    pub refusal: Option<Refusal>,
    /// The serial of the message's change, if one was accepted. The change is durable once so many are.
    pub accepted: Option<u64>,
    /// Outputs of the session are still held.
    pub is_held: bool,
}

/// What a kernel holds at one moment.
#[derive(Clone, Copy, Debug, PartialEq, Eq)]
pub struct KernelCounts {
    /// The sessions that exist.
    pub sessions: usize,
    /// The inodes that the files of the accepted changes use.
    pub inodes: u64,
    /// The accepted changes.
    pub accepted: u64,
    /// The changes that are known to be durable.
    pub durable: u64,
}

/// A kernel that threads share. Each call may wait for the lock, and answers what the kernel answers.
pub trait Kern {
    ghost use Rattle.std.specs.Prelude.{ℕ, List};
    ghost use Rattle.kernel_expiring.specs.declared.AgedGroup.{AgedGroup};

    /// What an expiry by age finds at a place, with a wildmat and a moment.
    ghost found: { Self → ℕ → List ℕ → ℕ → AgedGroup → Type 0 };

    /// Begins a session and answers its number (`Kernel::join`).
    fn join<R: Wait>(&self, rt: &R, alloc: Global) -> Result<u64, JoinError>;

    /// What a session sends next; `None` if no session has this number, or it was closed (`Kernel::mode`).
    fn mode<R: Wait>(&self, rt: &R, sid: u64) -> Option<Mode>;

    /// Answers a message (`Kernel::exec_received`). If it was served, what is ready of its session is put after the content of the buffer,
    /// under the same lock. If it was not served, the buffer stays as it was.
    fn answer<R: Wait>(
        &self,
        rt: &R,
        alloc: Global,
        sid: u64,
        received: Received<'_>,
        moment: Moment,
        into: &mut ReadyBuf,
    ) -> Result<ExecOutcome, ExecError>
        requires { length into.old < 4096 };

    /// Whether the answer to a line that asks for new articles at this moment surely fits one release, if it is answered now.
    /// Nothing changes.
    fn asks_for_few<R: Wait>(&self, rt: &R, received: &Received<'_>, moment: Moment) -> bool;

    /// Puts what is ready of a session after the content of the buffer. Answers whether the session still holds
    /// outputs.
    fn give_ready<R: Wait>(&self, rt: &R, sid: u64, into: &mut ReadyBuf) -> bool
        requires { length into.old < 4096 };

    /// Makes a group for the operator, and answers it with its serial, which says nothing about durability (`Kernel::admin`).
    fn admin<'g, R: Wait>(
        &self,
        rt: &R,
        alloc: Global,
        group: &'g GroupRequest,
    ) -> Result<Admitted<'g>, AdminError>
        ensures { IfOk result (λ admitted. admitted.group.now ≡ group.now) };

    /// Removes the articles of a group up to a number for the operator, and answers that expiry with its serial, which says
    /// nothing about durability (`Kernel::expire`).
    fn expire<'n, R: Wait>(
        &self,
        rt: &R,
        name: &'n GroupName,
        number: u32,
    ) -> Result<Expired<'n>, ExpireError>
        ensures { IfOk result (λ expired. (expired.name.now ≡ name.now) × (expired.number ≡ number)) };

    /// What an expiry by age takes out of the group at this place now, from 0, in rising serial: the articles before its
    /// first one that was filed at `since` or later, in seconds since 1970 (`kernel_expiring::aged_group`). Nothing changes.
    fn aged<R: Wait>(&self, rt: &R, place: usize, wildmat: &Wildmat, since: u64) -> AgedGroup
        ensures { found self.now place wildmat.now since result };

    /// How many articles are in none of their groups any more, among the changes from this serial on. One part of them is
    /// looked at, and its answer says where the next one begins, so that the lock is never held for long
    /// (`kernel_expiring::gone_part`). Nothing changes.
    fn gone_part<R: Wait>(&self, rt: &R, first: u64) -> GonePart;

    /// Drops a session and its held outputs; does nothing if it does not exist (`Kernel::leave`).
    fn leave<R: Wait>(&self, rt: &R, sid: u64);

    /// Copies the dirty blocks into the buffer as the batch in flight. `None` if there is nothing to take
    /// (`Kernel::take_batch`).
    fn take_batch<R: Wait>(&self, rt: &R, into: &mut BatchBuf) -> Option<Ticket>;

    /// Puts those of these blocks into a portion that no change has written since the last batch was taken, in this order, as far as
    /// there is room (`Kernel::clean_block`).
    fn copy_clean<R: Wait>(&self, rt: &R, numbers: &[u32], into: &mut Portion);

    /// Notes that the batch in flight is on disk, of which its journal gave a receipt. `Stale` (E13) if the ticket is not
    /// that of the batch in flight or the kernel is halted (`Kernel::committed`).
    fn committed<R: Wait>(&self, rt: &R, ticket: Ticket, receipt: Receipt) -> Result<(), Stale>
        requires { receipt.last ≡ ticket.last };

    /// Halts the kernel for good (`Kernel::halt`).
    fn halt<R: Wait>(&self, rt: &R);

    /// Halts if every accepted change is durable, and answers whether it did. So no change is accepted between the last
    /// batch and the halt. Otherwise nothing changes.
    fn halt_if_clean<R: Wait>(&self, rt: &R) -> bool;

    /// What the kernel holds, counted under one lock.
    fn counts<R: Wait>(&self, rt: &R) -> KernelCounts;
}
