//! The kernel: the value under the lock. It answers each command at once in memory, and holds each reply until what it
//! depends on is durable. `specs/Kernel.antt` says what callers see of it and what each call does, `specs/Kept.antt`
//! what its invariant is. `open` opens a device: its journal, and the kernel in the journal's logical blocks, by the label that
//! `read_label` reads.
#![tactic(auto)]

ghost use Rattle.std.specs.Prelude.{[], None, ◌≤◌, ◌++◌, ◌&&◌, nat_lt, ◌≡◌, ◌≢◌, ◌⊎◌, ◌↔◌, ◌+◌, ◌*◌, ◌<◌, Some, IsSome, IsNone, IsTrue};
ghost use Rattle.std.specs.Prelude.{IfOk, IfSome, OnErr, length, true, false, is_some, min, option_map, slice_get};
ghost use Rattle.kernel.specs.Errors.{of_join, of_exec, of_admin, of_expire};
ghost use Rattle.kernel.specs.Kept.{IsKept};
ghost use Rattle.kernel.specs.Kernel.{Administers, Execs, FitsMode, Takes, Tested, TestedOrMemory, admin_refusal_of, early_refusal};
ghost use Rattle.kernel.specs.Kernel.{IsClean, exec_refusal, expire_refusal_of, has_batch, halted_for_good, is_block, is_clean};
ghost use Rattle.kernel.specs.Kernel.{join_refusal, joined, left};
ghost use Rattle.kernel.specs.Kernel.{made_durable, mode_at, most_dirty, only_tested, released, released_of, seat_of};
ghost use Rattle.kernel_seats.specs.Seats.{holds, ready, ready_of, Seat as SeatView};
ghost use Rattle.model.specs.Files.{free_inodes};
ghost use Rattle.model.specs.Volume.{blocks_from};
ghost use Rattle.model.specs.declared.change.Change.TheVariants.{Group, Expire};
ghost use Rattle.kernel.specs.Stored.{kernel_of};
ghost use Rattle.text_names.specs.Requests.{group_of};

mod device_opening;
mod kernel_opening;
mod label;

pub use device_opening::{Opened, OpenedSpool, Refused, open, open_journal, open_with_spool};
use fs_layout::inodes::bitmap_blocks;
use journal_volume::BATCH_BLOCKS;
pub use journal_volume::BatchBuf;
pub use kernel_opening::{LoadedBlocks, OpenError, load_blocks};
use kernel_outbox::ReadyBuf;
pub use kernel_seats::Outcome;
use kernel_seats::{Seat, position, release, release_of};
use kernel_shared::{AdminError, ExecError, ExpireError, JoinError, MOST_SESSIONS, Stale, Ticket};
pub use label::{Label, read_label};
use model::{Mark, Message, Mode, Moment};
use session_lookups::LookUps;
use session_posting::Refusal;
use session_received::Received;
use spool::AddError;
pub use spool::Spool;
use std::alloc::Global;
use std::marker::Model;
use text_names::{GroupName, GroupRequest};

/// A session with this many buffered octets is not served again until some are released.
pub const MOST_BUFFERED: u64 = 1_048_576;

/// The most blocks that one change makes dirty, beside those of the bitmap.
const MOST_CHANGED: usize = 254;

/// The number of dirty blocks with more than which no article, group or expiry is accepted until a batch is taken. A
/// batch has at most 512 blocks, and a change dirties at most 254 and those of the bitmap.
pub fn most_dirty(blocks: u32) -> usize
    ensures { result ≡ most_dirty blocks }
{
    (BATCH_BLOCKS - MOST_CHANGED).saturating_sub(bitmap_blocks(blocks) as usize)
}

/// The value under the lock.
pub struct Kernel {
    spool: Spool,
    durable: u64,
    in_flight: Option<u64>,
    halted: bool,
    most: usize,
    joined: u64,
    seats: Vec<Seat>,
}

// By hand: a caller that drops one would otherwise prove the derived one again, field by field.
impl Drop for Kernel {
    fn drop(self) {
        let Kernel {
            spool: _,
            durable: _,
            in_flight: _,
            halted: _,
            most: _,
            joined: _,
            seats: _,
        } = self;
    }
}

impl Model for Kernel {
    ghost use Rattle.kernel.specs.Kernel.{KernelView};

    ghost Value = { KernelView };

    ghost use Rattle.kernel.specs.Stored.{AreKept, seen_kernel};

    ghost view = { λ k. seen_kernel k.spool k.durable k.in_flight k.halted k.most k.joined k.seats.items };

    ghost invariant = { λ k. AreKept k.spool k.durable k.in_flight k.halted k.most k.joined k.seats.items };
}

impl Kernel {
    /// The kernel of a spool that is on disk: all its changes are durable, and there is no session. It may have so many, and
    /// `MOST_SESSIONS` at most.
    pub fn new(alloc: Global, spool: Spool, most: usize) -> Kernel
        requires clean { spool.dirty ≡ [] }
        ensures { result ≡ kernel_of spool (length spool.changes) None false (min most 4096) 0 [] }
    {
        Kernel {
            durable: spool.len(),
            spool,
            in_flight: None,
            halted: false,
            most: most.min(MOST_SESSIONS),
            joined: 0,
            seats: Vec::new(alloc),
        }
    }

    /// Proof only: makes the kernel's invariant known to the caller, whichever thread took the lock. Each held output is the plain
    /// server's reply on a prefix of the spool, with its dependency, and the cached blocks hold the spool.
    pub fn kept(&self)
        ensures { IsKept self.now }
    {
        let _ = &self.durable;
    }

    /// What a session sends next; `None` if no session of this number exists, or it was closed.
    pub fn mode(&self, sid: u64) -> Option<Mode>
        ensures { result ≡ mode_at self.now sid }
    {
        let at = position(&self.seats, sid)?;
        self.seats[at].mode()
    }

    /// Whether a session may join now: if not, `Halted` (E4), or `TooManySessions` (E7) if there are as many as there may be or
    /// the numbers have run out, tested in that order.
    pub fn may_join(&self) -> Result<(), JoinError>
        ensures { result ≡ only_tested of_join (join_refusal self.now) }
    {
        if self.halted {
            return Err(JoinError::Halted);
        }
        if self.seats.len() >= self.most || self.joined == u64::MAX {
            return Err(JoinError::TooManySessions);
        }
        Ok(())
    }

    /// Begins a session and answers its number; its greeting depends on nothing. Sessions are numbered 1, 2, .. and a
    /// number is never used again. Refused as `Halted` (E4), `TooManySessions` (E7) or `Memory` (E2), tested in that
    /// order; a refusal changes nothing.
    pub fn join(&mut self, alloc: Global) -> Result<u64, JoinError>
        ensures { Tested of_join JoinError.Memory (join_refusal self.old) self.old self.new result
            (λ sid. (sid ≡ self.new.joined) × (self.new ≡ joined self.old)) }
    {
        self.may_join()?;
        let number = self.joined + 1;
        let seat = match Seat::new(alloc, number, self.spool.host()) {
            Ok(seat) => seat,
            Err(_) => return Err(JoinError::Memory),
        };
        match self.seats.push(seat) {
            Ok(()) => {
                self.joined = number;
                Ok(number)
            }
            Err(_) => Err(JoinError::Memory),
        }
    }

    /// Answers a message at once: its reply is held with its dependency, and its change is accepted at the given moment.
    /// The result is what the session sends next, which is `None` if it sends nothing more, the mark of the message, and why its article
    /// is not filed.
    /// Refused as `NoSession` (E10), `LaterOut` (E9), `LaterDirty` (E8, only while the kernel is not halted) or `Memory`
    /// (E2), tested in that order; a refusal changes nothing. This reads the message and then makes the call
    /// of `exec_received`.
    pub fn exec(
        &mut self,
        alloc: Global,
        sid: u64,
        message: &Message,
        moment: Moment,
    ) -> Result<Outcome, ExecError>
        requires { FitsMode (mode_at self.old sid) message.now }
        ensures { Tested of_exec ExecError.Memory (exec_refusal self.old sid message.now) self.old self.new result
            (Execs self.old self.new sid message.now moment) }
    {
        let received = Received::of(alloc, message);
        self.exec_received(alloc, sid, received, moment)
    }

    /// Answers a message as `exec` does. It was read before, and is not read again. If an allocation was refused
    /// as it was read, the call is refused as `Memory` (E2) where no other refusal is due, unless the kernel is halted.
    pub fn exec_received(
        &mut self,
        alloc: Global,
        sid: u64,
        received: Received<'_>,
        moment: Moment,
    ) -> Result<Outcome, ExecError>
        requires { FitsMode (mode_at self.old sid) received }
        ensures { Tested of_exec ExecError.Memory (exec_refusal self.old sid received.entry) self.old self.new result
            (Execs self.old self.new sid received.entry moment) }
    {
        let Some(at) = position(&self.seats, sid) else {
            return Err(ExecError::NoSession);
        };
        let seat = &mut self.seats[at];
        if seat.mode().is_none() {
            return Err(ExecError::NoSession);
        }
        if seat.buffered() >= MOST_BUFFERED {
            return Err(ExecError::LaterOut);
        }
        if self.halted {
            let Ok(()) = seat.stop(alloc) else {
                return Err(ExecError::Memory);
            };
            return Ok(Outcome {
                next: None,
                mark: Mark::Stopped,
                refusal: Some(Refusal::Stopped),
                has_accepted: false,
            });
        }
        if is_late(
            received.message(),
            self.spool.blocks(),
            self.spool.dirty_len(),
        ) {
            return Err(ExecError::LaterDirty);
        }
        let Ok(outcome) = seat.serve(alloc, &mut self.spool, received, moment) else {
            return Err(ExecError::Memory);
        };
        self.spool.kept();
        Ok(outcome)
    }

    /// Whether the operator may make a group now: if not, `Halted` (E4) or `LaterDirty` (E8), tested in that order.
    pub fn may_administer(&self) -> Result<(), AdminError>
        ensures { result ≡ only_tested of_admin (early_refusal self.now) }
    {
        if self.halted {
            return Err(AdminError::Halted);
        }
        if self.spool.dirty_len() > most_dirty(self.spool.blocks()) {
            return Err(AdminError::LaterDirty);
        }
        Ok(())
    }

    /// Makes a group for the operator and answers its serial, which says nothing about durability. Refused as `Halted`
    /// (E4), `LaterDirty` (E8), `Exists` (E11), `Full` (E6) or `Memory` (E2), tested in that order; a refusal changes
    /// nothing.
    pub fn admin(&mut self, alloc: Global, group: &GroupRequest) -> Result<u64, AdminError>
        ensures { let change = Group (group_of group.now) in
            TestedOrMemory of_admin AdminError.Memory (admin_refusal_of self.old change) (admin_refusal_of self.old change)
            self.old self.new result (Administers self.old self.new change) }
    {
        self.may_administer()?;
        let serial = match self.spool.add_group(group) {
            Ok(serial) => serial,
            Err(AddError::Exists) => return Err(AdminError::Exists),
            Err(AddError::Full) => return Err(AdminError::Full),
            Err(AddError::Memory) => return Err(AdminError::Memory),
        };
        self.spool.kept();
        Ok(serial)
    }

    /// Whether the operator may remove articles from a group now: if not, `Halted` (E4) or `LaterDirty` (E8), tested in
    /// that order.
    pub fn may_expire(&self) -> Result<(), ExpireError>
        ensures { result ≡ only_tested of_expire (early_refusal self.now) }
    {
        if self.halted {
            return Err(ExpireError::Halted);
        }
        if self.spool.dirty_len() > most_dirty(self.spool.blocks()) {
            return Err(ExpireError::LaterDirty);
        }
        Ok(())
    }

    /// Removes the articles of a group up to a number for the operator, and answers the serial of that change, which
    /// says nothing about durability. Numbers are never used again. Refused as `Halted` (E4), `LaterDirty` (E8),
    /// `NotFound` (E12) if the group does not exist or the number is below its lowest or above its highest, `Full` (E6)
    /// or `Memory` (E2), tested in that order; a refusal changes nothing.
    pub fn expire(&mut self, name: &GroupName, number: u32) -> Result<u64, ExpireError>
        ensures { let change = Expire (record { group = name.now; number = number }) in
            TestedOrMemory of_expire ExpireError.Memory (expire_refusal_of self.old change) (expire_refusal_of self.old change)
            self.old self.new result (Administers self.old self.new change) }
    {
        self.may_expire()?;
        let serial = match self.spool.expire(name.as_slice(), number) {
            Ok(serial) => serial,
            Err(spool::ExpireError::NotFound) => return Err(ExpireError::NotFound),
            Err(spool::ExpireError::Full) => return Err(ExpireError::Full),
            Err(spool::ExpireError::Memory) => return Err(ExpireError::Memory),
        };
        self.spool.kept();
        Ok(serial)
    }

    /// Copies the dirty blocks as the batch in flight. `None` exactly if nothing is dirty, a batch is in flight, or the
    /// kernel is halted; then nothing changes. It takes no memory.
    pub fn take_batch(&mut self, into: &mut BatchBuf) -> Option<Ticket>
        ensures when { IsSome result ↔ IsTrue (has_batch self.old) }
        ensures nothing { IsNone result → (self.new ≡ self.old) × (into.new ≡ into.old) }
        ensures takes { IfSome result (λ ticket. Takes self.old self.new into.new.numbers
            (blocks_from 0 (length into.new.numbers) into.new.images) ticket.last) }
        ensures size { IsSome result → length into.new.images ≡ 4096 * length into.new.numbers }
    {
        if self.halted || self.in_flight.is_some() || self.spool.dirty_len() == 0 {
            return None;
        }
        let last = self.spool.len();
        self.spool.kept();
        self.spool.copy_dirty(into);
        self.in_flight = Some(last);
        Some(Ticket::new(last))
    }

    /// The octets of a block that no change has written since the last batch was taken. `None` if one has, or if there is no such block.
    pub fn clean_block(&self, number: u32) -> Option<&[u8]>
        ensures clean { IfSome result (λ octets. IsClean self.now number octets.now) }
        ensures when { IsSome result ↔ IsTrue (is_clean self.now number) }
    {
        self.spool.clean_block(number)
    }

    /// Notes that the batch in flight is on disk: its changes are durable. `Stale` (E13) exactly if the ticket is not
    /// that of the batch in flight or the kernel is halted; then nothing changes. It takes no memory.
    pub fn committed(&mut self, ticket: Ticket) -> Result<(), Stale>
        ensures ok { IfOk result (λ done. (self.old.in_flight ≡ Some ticket.last) × (self.old.halted ≡ false)
            × (self.new ≡ made_durable self.old ticket.last)) }
        ensures stale { OnErr result (((self.old.in_flight ≢ Some ticket.last) ⊎ (self.old.halted ≡ true)) × (self.new ≡ self.old)) }
    {
        if self.halted || self.in_flight != Some(ticket.last()) {
            return Err(Stale);
        }
        self.durable = ticket.last();
        self.in_flight = None;
        Ok(())
    }

    /// Halts for good. A batch in flight stays in flight. It takes no memory.
    pub fn halt(&mut self)
        ensures { self.new ≡ halted_for_good self.old }
    {
        self.halted = true;
    }

    /// Moves the outputs whose dependency is durable into the buffer, in place of its content: the sessions in rising
    /// number, each session's outputs in order, until 65,536 octets are used. The last output may be cut. A session is
    /// dropped once its end was handed out. It takes no memory.
    pub fn take_ready(&mut self, into: &mut ReadyBuf)
        ensures given { into.new ≡ (ready self.old.durable 65536 self.old.seats).entries }
        ensures kept { self.new ≡ released self.old }
    {
        into.clear();
        release(&mut self.seats, &self.spool, self.durable, into);
    }

    /// Moves the outputs of one session whose dependency is durable into the buffer, after its content: in order, until
    /// 65,536 octets are used in all. The last output may be cut. The session is dropped once its end was handed out;
    /// one that does not exist gives nothing. Answers whether it still holds outputs. It takes no memory.
    pub fn give_ready(&mut self, sid: u64, into: &mut ReadyBuf) -> bool
        requires room { length into.old < 4096 }
        ensures given { into.new ≡ into.old ++ (ready_of self.old.durable into.old sid self.old.seats).entries }
        ensures kept { self.new ≡ released_of self.old into.old sid }
        ensures holds { result ≡ holds (seat_of self.new sid) }
    {
        release_of(&mut self.seats, &self.spool, sid, self.durable, into)
    }

    /// Drops a session and its held outputs; does nothing if it does not exist. It takes no memory.
    pub fn leave(&mut self, sid: u64)
        ensures { self.new ≡ left self.old sid }
    {
        if let Some(at) = position(&self.seats, sid) {
            self.seats.remove(at);
        }
    }

    /// Whether the session exists; it may be closed.
    pub fn has(&self, sid: u64) -> bool
        ensures { result ≡ is_some (seat_of self.now sid) }
    {
        match position(&self.seats, sid) {
            Some(_at) => true,
            None => false,
        }
    }

    /// The number of the session at this place, in rising number; `None` after the last one.
    pub fn session(&self, place: usize) -> Option<u64>
        ensures { result ≡ option_map (λ (seat : SeatView). seat.number) (slice_get self.now.seats place) }
    {
        if place < self.seats.len() {
            Some(self.seats[place].number())
        } else {
            None
        }
    }

    /// The number of sessions that exist.
    pub fn session_count(&self) -> usize
        ensures { result ≡ length self.now.seats }
    {
        self.seats.len()
    }

    /// The number of durable changes.
    pub fn durable(&self) -> u64
        ensures { result ≡ self.now.durable }
    {
        self.durable
    }

    /// The accepted changes.
    pub fn spool(&self) -> &Spool
        ensures { result.now.changes ≡ self.now.spool }
    {
        &self.spool
    }

    /// The number of inodes with a file.
    pub fn used_inodes(&self) -> u32
        ensures { result + free_inodes self.now.inodes self.now.blocks ≡ self.now.inodes }
    {
        self.spool.used_inodes()
    }

    /// The number of accepted changes.
    pub fn len(&self) -> u64
        ensures { result ≡ length self.now.spool }
    {
        self.spool.len()
    }
}

/// Whether a message must wait until a batch is taken: an article must, while too many blocks are dirty.
fn is_late(message: &Message, blocks: u32, dirty: usize) -> bool
    ensures { result ≡ (is_block message.now && nat_lt (most_dirty blocks) dirty) }
{
    matches!(message, Message::Block(_)) && dirty > most_dirty(blocks)
}
