//! The kernel together with the plain server: what each session sent and was sent since the opening, and the trace of
//! what was served. `specs/Traced.antt` says what callers see and what ties the two, `specs/Events.antt` what each call
//! does.
#![tactic(auto)]

ghost use Rattle.std.specs.Prelude.{◌≡◌, ◌≢◌, ◌⊎◌, ◌↔◌, ◌+◌, ◌*◌, [], Option, Some, None, Ok, IsTrue, IsSome, IsNone, IfOk};
ghost use Rattle.std.specs.Prelude.{IfSome, OnOk, OnErr, List, length, true, false, is_none, ℕ, ◌-◌};
ghost use Rattle.kernel.specs.Errors.{of_join, of_admin, of_expire};
ghost use Rattle.kernel_trace.specs.Errors.{of_arrive};
ghost use Rattle.kernel.specs.Kept.{IsKept};
ghost use Rattle.kernel.specs.Kernel.{Takes, Tested, TestedOrMemory, admin_refusal_of, early_refusal, expire_refusal_of, halted_for_good};
ghost use Rattle.kernel.specs.Kernel.{KernelView, has_batch, join_refusal, made_durable, mode_at, released_of};
ghost use Rattle.model.specs.Volume.{blocks_from};
ghost use Rattle.model.specs.declared.change.Change.TheVariants.{Expire, Group};
ghost use Rattle.text_names.specs.Requests.{group_of};
ghost use Rattle.kernel_outbox.specs.Queue.{ReadyEntry, octets_in};
ghost use Rattle.kernel_seats.specs.Seats.{ready_of};
ghost use Rattle.kernel_trace.specs.Events.{DidExec, Makes, arrive_refusal, arrives, joins};
ghost use Rattle.kernel_trace.specs.Events.{given_within, leaves, opens, releases, releases_of, with_kernel};
ghost use Rattle.synchrony.specs.Server.{Admin};
ghost use Rattle.kernel_trace.specs.Marks.{AreMarked};
ghost use Rattle.kernel_trace.specs.Traced.{FollowsPlain, IsServed, TracedView, arrived_at, next_of, released_at};

mod buffers;
mod entry;
mod errors;
mod input;
mod peer;

use buffers::Spare;
pub use entry::{Entry, Happened};
pub use errors::ArriveError;
pub use input::Input;
use kernel::{BatchBuf, Kernel, Outcome, Spool};
use kernel_outbox::{RELEASE_OCTETS, ReadyBuf};
use kernel_shared::{AdminError, ExecError, ExpireError, JoinError, Stale, Ticket};
use model::{Change, Expiry, Moment, NewGroup, Text};
pub use peer::Peer;
use std::alloc::{AllocError, Global};
use std::marker::Model;
use text_names::{GroupName, GroupRequest};

/// The most octets that one release hands out, as a number of any room.
const MOST_ROOM: u64 = RELEASE_OCTETS as u64;

/// The kernel, with what its sessions sent and were sent, and the trace.
pub struct TracedKernel {
    kernel: Kernel,
    first: u64,
    // Session n is at place n - 1.
    peers: Vec<Peer>,
    trace: Vec<Entry>,
    ready: ReadyBuf,
}

// By hand: a caller that drops one would otherwise prove the derived one again, field by field.
impl Drop for TracedKernel {
    fn drop(self) {
        let TracedKernel {
            kernel: _,
            first: _,
            peers: _,
            trace: _,
            ready: _,
        } = self;
    }
}

impl Model for TracedKernel {
    ghost use Rattle.kernel_trace.specs.Traced.{TracedView};

    ghost Value = { TracedView };

    ghost use Rattle.kernel_trace.specs.Fields.{IsSound, inputs, seen};

    ghost view = { seen };

    ghost invariant = { λ s. IsSound (seen s) (inputs s.peers.items) };
}

impl TracedKernel {
    /// Takes a kernel that was just opened: all its changes are durable, and no session has joined.
    pub fn new(alloc: Global, kernel: Kernel) -> Result<TracedKernel, AllocError>
        requires durable { kernel.durable ≡ length kernel.spool }
        requires joined { kernel.joined ≡ 0 }
        requires nobody { kernel.seats ≡ [] }
        ensures { IfOk result (λ served. served ≡ opens kernel) }
    {
        let first = kernel.len();
        Ok(TracedKernel {
            kernel,
            first,
            peers: Vec::new(alloc),
            trace: Vec::new(alloc),
            ready: ReadyBuf::new(alloc)?,
        })
    }

    /// Proof only: makes the invariant known to the caller. The kernel agrees with the plain server, and keeps what its
    /// lock keeps. The trace has the marks that it gives, and moments before the year 10000.
    #[tactic(auto, using(crate::proofs::Plain::follows_plain))]
    pub fn kept(&self)
        ensures served { IsServed self.now }
        ensures plain { FollowsPlain self.now }
        ensures kernel { IsKept self.now.kernel }
        ensures marks { AreMarked self.now }
    {
        self.kernel.kept();
    }

    /// A session joins. Refused as by the kernel, in the same order; a refusal changes nothing.
    pub fn join(&mut self, alloc: Global) -> Result<u64, JoinError>
        ensures { Tested of_join JoinError.Memory (join_refusal self.old.kernel) self.old self.new result
            (λ number. (number ≡ self.old.kernel.joined + 1) × (self.new ≡ joins self.old)) }
    {
        self.kernel.may_join()?;
        if self.peers.reserve(1).is_err() {
            return Err(JoinError::Memory);
        }
        let number = self.kernel.join(alloc)?;
        self.peers.push_reserved(Peer::new(alloc));
        Ok(number)
    }

    /// A session leaves; nothing happens if it does not exist.
    pub fn leave(&mut self, number: u64)
        ensures { self.new ≡ leaves self.old number }
    {
        if !self.kernel.has(number) {
            return;
        }
        peer::leave(&mut self.peers, number);
        self.kernel.leave(number);
    }

    /// Octets arrive for a session. Refused as `NoSession` (E10) if it does not exist or was closed, or `Memory` (E2),
    /// tested in that order; a refusal changes nothing.
    pub fn arrive(&mut self, number: u64, octets: &[u8]) -> Result<(), ArriveError>
        ensures { Tested of_arrive ArriveError.Memory (arrive_refusal self.old.kernel number) self.old self.new result
            (λ done. self.new ≡ arrives self.old number octets.now) }
    {
        if self.kernel.mode(number).is_none() {
            return Err(ArriveError::NoSession);
        }
        if peer::hear(&mut self.peers, number, octets).is_err() {
            return Err(ArriveError::Memory);
        }
        Ok(())
    }

    /// Serves a session's next whole message at the given moment; `None` if no message has arrived whole. Refused as by
    /// the kernel, but `Memory` may come before any refusal except `NoSession`. A refusal changes nothing, and the message
    /// is still the session's next one.
    pub fn exec(
        &mut self,
        alloc: Global,
        number: u64,
        moment: Moment,
    ) -> Result<Option<Outcome>, ExecError>
        ensures { DidExec self.old number moment (mode_at self.old.kernel number) (next_of self.old number) result self.new }
    {
        let Some(mode) = self.kernel.mode(number) else {
            return Err(ExecError::NoSession);
        };
        let Ok(is_found) = peer::find(&mut self.peers, number, mode) else {
            return Err(ExecError::Memory);
        };
        if !is_found {
            return Ok(None);
        }
        if self.trace.reserve(1).is_err() {
            return Err(ExecError::Memory);
        }
        let Some(message) = peer::found(&self.peers, number) else {
            return Ok(None);
        };
        let outcome = self.kernel.exec(alloc, number, message, moment)?;
        // for the proof: the moment is before the year 10000
        let _seconds = moment.seconds();
        peer::forget(&mut self.peers, number);
        self.trace.push_reserved(Entry::new(Happened::Command(number, moment, outcome.mark)));
        Ok(Some(outcome))
    }

    /// Makes a group for the operator, and answers its serial. Refused as by the kernel, in the same order, but
    /// `Memory` may come at any growth, which is never before `Halted` and `LaterDirty`; a refusal changes nothing.
    pub fn admin(&mut self, alloc: Global, group: &GroupRequest) -> Result<u64, AdminError>
        ensures { let change = Group (group_of group.now) in
            TestedOrMemory of_admin AdminError.Memory (early_refusal self.old.kernel) (admin_refusal_of self.old.kernel change)
            self.old self.new result (Makes self.old self.new change) }
    {
        self.kernel.may_administer()?;
        let Ok(entry) = group_entry(alloc, group) else {
            return Err(AdminError::Memory);
        };
        if self.trace.reserve(1).is_err() {
            return Err(AdminError::Memory);
        }
        let serial = self.kernel.admin(alloc, group)?;
        self.trace.push_reserved(entry);
        Ok(serial)
    }

    /// Removes the articles of a group up to a number for the operator, and answers the serial of that change. Refused
    /// as by the kernel, in the same order, but `Memory` may come at any growth, which is never before `Halted` and
    /// `LaterDirty`; a refusal changes nothing.
    pub fn expire(
        &mut self,
        alloc: Global,
        name: &GroupName,
        number: u32,
    ) -> Result<u64, ExpireError>
        ensures { let change = Expire (record { group = name.now; number = number }) in
            TestedOrMemory of_expire ExpireError.Memory (early_refusal self.old.kernel) (expire_refusal_of self.old.kernel change)
            self.old self.new result (Makes self.old self.new change) }
    {
        self.kernel.may_expire()?;
        let Ok(expiry) = expiry_entry(alloc, name, number) else {
            return Err(ExpireError::Memory);
        };
        if self.trace.reserve(1).is_err() {
            return Err(ExpireError::Memory);
        }
        let serial = self.kernel.expire(name, number)?;
        self.trace.push_reserved(expiry);
        Ok(serial)
    }

    /// Hands out what is ready, which then counts as released: `ready` returns it. Refused only for want of memory,
    /// with nothing changed.
    pub fn release(&mut self) -> Result<(), AllocError>
        ensures ok { OnOk result (self.new ≡ releases self.old) }
        ensures err { OnErr result (self.new ≡ self.old) }
    {
        self.kernel.kept();
        peer::make_room(&self.kernel, &mut self.peers)?;
        self.kernel.take_ready(&mut self.ready);
        peer::file(&mut self.peers, &self.ready);
        Ok(())
    }

    /// Hands out what is ready of one session, as far as there is room for so many octets, and for 65,536 at most; it
    /// then counts as released: `ready` returns it. Nothing is handed out if the session does not exist. Refused only for
    /// want of memory, with nothing changed.
    pub fn release_of(&mut self, alloc: Global, number: u64, room: u64) -> Result<(), AllocError>
        ensures ok { OnOk result (self.new ≡ releases_of self.old number room) }
        ensures err { OnErr result (self.new ≡ self.old) }
    {
        self.kernel.kept();
        peer::make_room(&self.kernel, &mut self.peers)?;
        // the kernel asks a buffer itself for its room
        let mut buffer = buffers::filled(alloc, RELEASE_OCTETS - room.min(MOST_ROOM) as usize)?;
        let place = buffer.len();
        let spare = Spare::new(alloc)?;
        self.kernel.give_ready(number, &mut buffer);
        let ready = &mut self.ready;
        buffers::copy_entry(&buffer, place, spare, ready);
        peer::file(&mut self.peers, ready);
        Ok(())
    }

    /// The number of changes at the opening.
    pub fn opened(&self) -> u64
        ensures { result ≡ self.now.first }
    {
        self.first
    }

    /// The entries that were served, in order.
    pub fn trace(&self) -> &[Entry]
        ensures { result.now ≡ self.now.trace }
    {
        self.trace.as_slice()
    }

    /// The octets that arrived for a session; empty for one that never joined.
    pub fn arrived(&self, number: u64) -> &[u8]
        ensures { result.now ≡ arrived_at self.now number }
    {
        peer::arrived(&self.peers, number)
    }

    /// The octets that were released to a session; empty for one that never joined.
    pub fn released(&self, number: u64) -> &[u8]
        ensures { result.now ≡ released_at self.now number }
    {
        peer::released(&self.peers, number)
    }

    /// What the last release handed out.
    pub fn ready(&self) -> &ReadyBuf
        ensures { result.now ≡ self.now.ready }
    {
        &self.ready
    }

    /// The number of durable changes.
    pub fn durable(&self) -> u64
        ensures { result ≡ self.now.kernel.durable }
    {
        self.kernel.durable()
    }

    /// The accepted changes.
    pub fn spool(&self) -> &Spool
        ensures { result.now.changes ≡ self.now.kernel.spool }
    {
        self.kernel.spool()
    }

    /// Takes the kernel's dirty blocks as the batch in flight; `None` exactly if the kernel has none.
    pub fn take_batch(&mut self, into: &mut BatchBuf) -> Option<Ticket>
        ensures when { IsSome result ↔ IsTrue (has_batch self.old.kernel) }
        ensures nothing { IsNone result → (self.new ≡ self.old) × (into.new ≡ into.old) }
        ensures takes { IfSome result (λ ticket. Takes self.old.kernel self.new.kernel into.new.numbers
            (blocks_from 0 (length into.new.numbers) into.new.images) ticket.last) }
        ensures size { IsSome result → length into.new.images ≡ 4096 * length into.new.numbers }
        ensures same { IsSome result → self.new ≡ with_kernel self.old self.new.kernel }
    {
        self.kernel.take_batch(into)
    }

    /// Notes that the batch in flight is on disk: its changes are durable. `Stale` (E13) exactly if the ticket is not
    /// that of the batch in flight or the kernel is halted; then nothing changes.
    pub fn committed(&mut self, ticket: Ticket) -> Result<(), Stale>
        ensures ok { IfOk result (λ done. (self.old.kernel.in_flight ≡ Some ticket.last) × (self.old.kernel.halted ≡ false)
            × (self.new ≡ with_kernel self.old (made_durable self.old.kernel ticket.last))) }
        ensures stale { OnErr result (((self.old.kernel.in_flight ≢ Some ticket.last) ⊎ (self.old.kernel.halted ≡ true))
            × (self.new ≡ self.old)) }
    {
        self.kernel.kept();
        self.kernel.committed(ticket)
    }

    /// The kernel halts for good.
    pub fn halt(&mut self)
        ensures { self.new ≡ with_kernel self.old (halted_for_good self.old.kernel) }
    {
        self.kernel.halt();
    }

    /// The kernel halts for good if every accepted change is durable, and the answer is whether it did. Otherwise nothing
    /// changes.
    pub fn stop(&mut self) -> bool
        ensures when { IsTrue result ↔ (self.old.kernel.durable ≡ length self.old.kernel.spool) }
        ensures stops { result ≡ true → self.new ≡ with_kernel self.old (halted_for_good self.old.kernel) }
        ensures goes_on { result ≡ false → self.new ≡ self.old }
    {
        if self.kernel.durable() != self.kernel.len() {
            return false;
        }
        self.kernel.halt();
        true
    }
}

/// A release of one session into a buffer that holds entries hands out what one does with the room that these leave, and
/// leaves the same of the kernel. The function does nothing.
pub fn a_buffer_leaves_room()
    ensures given { (kernel : KernelView) (entries : List ReadyEntry) (number : ℕ)
        → ready_of kernel.durable entries number kernel.seats ≡ given_within kernel (65_536 - octets_in entries) number }
    ensures kept { (kernel : KernelView) (entries : List ReadyEntry) (number : ℕ)
        → released_of kernel entries number
        ≡ record kernel { seats = (given_within kernel (65_536 - octets_in entries) number).seats } }
{}

/// The entry of a group that the operator makes.
fn group_entry(alloc: Global, group: &GroupRequest) -> Result<Entry, AllocError>
    ensures { IfOk result (λ entry. entry ≡ Admin (Group (group_of group.now))) }
{
    Ok(Entry::new(Happened::Admin(Change::Group(NewGroup {
        name: Text::new(group.name.as_slice().to_vec(alloc)?),
        status: group.status,
        description: Text::new(group.description.as_slice().to_vec(alloc)?),
        moment: group.moment,
    }))))
}

/// The entry for the articles that the operator removes from a group.
fn expiry_entry(alloc: Global, name: &GroupName, number: u32) -> Result<Entry, AllocError>
    ensures { IfOk result (λ entry. entry ≡ Admin (Expire (record { group = name.now; number = number }))) }
{
    Ok(Entry::new(Happened::Admin(Change::Expire(Expiry {
        group: Text::new(name.as_slice().to_vec(alloc)?),
        number: u64::from(number),
    }))))
}
