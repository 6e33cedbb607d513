//! The whole system under any list of events. At each moment, even within a device call, a crash leaves a disk that is
//! externally synchronous with what was released. `specs/Images.antt` says what that is, `specs/Reading.antt` how what was
//! released is read, `specs/Events.antt` what each event does, `specs/Tied.antt` what the system's invariant is.
#![tactic(auto)]

ghost use Rattle.std.specs.Prelude.{IfOk, IfErr, List, ◌≡◌, ◌⊎◌, ◌≤◌, ℕ, Some, Ok, Err, true, [], MatchOption, ◌||◌};
ghost use Rattle.std.specs.Prelude.{IsTrue, length, MatchResult, min};
ghost use Rattle.kernel.specs.Kernel.{Tested, TestedOrMemory, admin_refusal_of, early_refusal, expire_refusal_of, mode_at};
ghost use Rattle.model.specs.declared.change.Change.TheVariants.{Expire, Group};
ghost use Rattle.text_names.specs.Requests.{group_of};
ghost use Rattle.kernel_trace.specs.Events.{Makes, arrive_refusal, arrives, leaves};
ghost use Rattle.kernel_trace.specs.Traced.{arrived_at, next_of, released_at};
ghost use Rattle.world.specs.Events.{Did, DidDev, DidExec, DidStop, DidTake, Passed, Ran, commits, dev_answer, exec_answer, fails};
ghost use Rattle.world.specs.Events.{for_memory, of_admin_error, of_arrive_error, of_expire_error, of_join_error, of_kernel, told};
ghost use Rattle.world.specs.Fields.{durable_news};
ghost use Rattle.journal.specs.Journal.{IsReady};
ghost use Rattle.model_lives.specs.Lives.{Life};
ghost use Rattle.model.specs.News.{Stands};
ghost use Rattle.kernel.specs.Standing.{LeavesOpened, LeavesRefused};
ghost use Rattle.world.specs.Images.{EachNow, EachSince, Fits, KeepsSpools, LeftFits, StandsForNone};
ghost use Rattle.world.specs.Lives.{AreOneLife, Lived};
ghost use Rattle.world.specs.Opening.{IsNew};
ghost use Rattle.world.specs.Copying.{MayBeCopied};
ghost use Rattle.world.specs.Reading.{AreRead};
ghost use Rattle.world.specs.Tied.{IsWorld};
ghost use Rattle.world.specs.World.{WorldView, kernel_of, with_served};

mod draining;
mod events;

use disk::{Disk, DiskCall, Faults};
pub use events::{Event, StepAnswer, StepError};
use journal::{Journal, JournalError, Progress};
use kernel::{BatchBuf, Opened};
pub use kernel::{OpenError, Outcome, Refused, Spool};
use kernel_outbox::ReadyBuf;
use kernel_shared::{AdminError, ExecError, ExpireError, JoinError, Ticket};
use kernel_trace::{ArriveError, TracedKernel};
pub use kernel_trace::{Entry, Happened};
use model::{Change, Mark, Message, Moment, Session, images_stand_for_one_spool};
use model_lives::many_lives_are_one;
use std::alloc::Global;
use std::marker::Model;
use text_names::{GroupName, GroupRequest};

/// A journal over a device, and what is served.
pub struct World<D: Disk> {
    journal: Journal<D>,
    served: TracedKernel,
    batch: BatchBuf,
    // The batch in flight.
    ticket: Option<Ticket>,
    // The batch in flight is on disk, and the kernel has not yet learned it.
    is_committed: bool,
    // The device failed, and the kernel has not yet learned it.
    has_failed: bool,
}

// By hand: a caller that drops one would otherwise prove the derived one again, field by field.
impl<D: Disk + Drop> Drop for World<D> {
    fn drop(self) {
        let World {
            journal: _,
            served: _,
            batch: _,
            ticket: _,
            is_committed: _,
            has_failed: _,
        } = self;
    }
}

impl<D: Disk> Model for World<D> {
    ghost use Rattle.world.specs.World.{WorldView};

    ghost Value = { WorldView D };

    ghost use Rattle.world.specs.Fields.{IsSound, news_in};

    ghost view = { λ w. record { journal = w.journal; served = w.served; untold = news_in w.ticket w.is_committed w.has_failed } };

    ghost invariant = { λ w. IsSound (D.device w.journal.disk).tells
        (record { journal = w.journal; served = w.served; untold = news_in w.ticket w.is_committed w.has_failed }) w.ticket };
}

impl<D: Disk> World<D> {
    /// Proof only: makes the invariant of the whole system known to the caller.
    pub fn kept(&self)
        ensures { IsWorld D.device self.now }
    {
        self.served.kept();
        let _ = self.journal.is_idle();
    }

    /// Proof only: makes known to the caller how what was released is read.
    pub fn is_read(&self)
        ensures { AreRead self.now.served }
    {
        self.served.kept();
    }

    /// Proof only: makes known to the caller what a copy of the device's blocks is that is made between two batches.
    pub fn is_copied(&self)
        ensures { MayBeCopied (D.device self.now.journal.disk).tells self.now }
    {
        self.kept();
    }

    /// Opens the device: all its changes are durable, and nothing has happened yet. So many sessions may exist at a time, and 4,096
    /// at most. A crash during the opening leaves a disk that stands for the spool of an image that a crash at the start might have
    /// left. The first good sync comes before every write. After it a crash leaves the volume that a read gives, with its label and
    /// its logical blocks, whatever they contain. A volume of format 1 or 2 is checked as one and then made one of format 3; a crash
    /// during that leaves it in the format that was or in format 3.
    ///
    /// A refusal keeps to this too, so it overwrites no disk, and it returns the device. `Fault` (E1) if the device
    /// failed. `Memory` (E2) if it did not, and an allocation was refused; then a read gives what it gave before, or
    /// the same volume. `NotAVolume` (E3) if the device holds no volume with a label of its size. `Damaged` (E5) if it
    /// holds one, but no lawful spool of the label's host in the files of its format.
    pub fn open(alloc: Global, disk: D, most: usize) -> Result<World<D>, Refused<D>>
        // The spool that stands on the device, all of it durable, and a system that steps can follow.
        ensures new { IfOk result (λ w. IsNew w) }
        ensures most { IfOk result (λ w. (kernel_of w).most ≡ min most 4096) }
        ensures spool { IsTrue (D.device disk).tells
            → IfOk result (λ w. Stands (kernel_of w).host (D.device disk).content (kernel_of w).spool) }
        ensures keeps { IfOk result (λ w. IsWorld D.device w) }
        ensures now { IfOk result (λ w. EachNow (D.device w.journal.disk) (Fits w)) }
        ensures idle { IfOk result (λ w. IsReady w.journal) }

        // What an opening leaves of the device.
        ensures opening { IfOk result (λ w. LeavesOpened D.device disk w.journal.disk) }
        ensures refusal { IfErr result (λ refused. LeavesRefused D.device disk refused.disk refused.error) }

        // The spools that a crash during it keeps, and that a disk which is refused for its content has none.
        ensures during { MatchResult result (λ w. KeepsSpools (D.device disk) (D.device w.journal.disk))
            (λ refused. KeepsSpools (D.device disk) (D.device refused.disk)) }
        ensures no_spool { IfErr result (λ refused. (refused.error ≡ OpenError.NotAVolume) ⊎ (refused.error ≡ OpenError.Damaged)
            → IsTrue (D.device disk).tells → StandsForNone (D.device disk).content) }
    {
        let Opened { journal, kernel } = match kernel::open(alloc, disk, most) {
            Ok(opened) => opened,
            Err(refused) => return Err(refused),
        };
        let Ok(served) = TracedKernel::new(alloc, kernel) else {
            return Err(Refused {
                disk: journal.into_disk(),
                error: OpenError::Memory,
            });
        };
        let Ok(batch) = BatchBuf::new(alloc) else {
            return Err(Refused {
                disk: journal.into_disk(),
                error: OpenError::Memory,
            });
        };
        let world = World {
            journal,
            served,
            batch,
            ticket: None,
            is_committed: false,
            has_failed: false,
        };
        world.kept();
        Ok(world)
    }

    /// Makes one event happen. A crash at any moment of the event, even within a device call, leaves a disk that is
    /// externally synchronous with the trace and the released octets at its start. A crash afterwards leaves one that
    /// is synchronous with those at its end. `did` says what the event does by its answer (`Did` in
    /// `specs/Events.antt`). `read` says how a client that knows RFC 3977 alone reads what was released (`IsRead` in
    /// `specs/Reading.antt`). `keeps` says that the system's invariant holds again afterwards (`IsWorld` in
    /// `specs/Tied.antt`).
    pub fn step(&mut self, alloc: Global, event: &Event) -> Result<StepAnswer, StepError>
        ensures did { Did D.device D.write_grows D.sync_grows self.old event.now result self.new }
        ensures during { EachSince (D.device self.old.journal.disk) (D.device self.new.journal.disk) (Fits self.old) }
        ensures now { EachNow (D.device self.new.journal.disk) (Fits self.new) }
        ensures since { LeftFits (D.device self.old.journal.disk) (D.device self.new.journal.disk) (Fits self.old) }
        ensures read { AreRead self.new.served }
        ensures keeps { IsWorld D.device self.new }
    {
        self.kept();
        let result = self.happen(alloc, event);
        self.kept();
        self.is_read();
        result
    }

    /// Makes the events happen one after another. Events that are refused are skipped; only if one is refused for
    /// memory does it stop, before that event. Answers the number of events that it went through. A crash at any moment
    /// leaves a disk that is externally synchronous with the state after some of them. A crash after the last one
    /// leaves one that is synchronous with the state at the end.
    pub fn run(&mut self, alloc: Global, events: &[Event]) -> u64
        ensures count { result ≤ length events.now }
        ensures went { Ran D.device D.write_grows D.sync_grows self.old events.now result self.new }
        ensures during { EachSince (D.device self.old.journal.disk) (D.device self.new.journal.disk)
            (λ image. (j : ℕ) × (middle : WorldView D)
            × Passed D.device D.write_grows D.sync_grows self.old events.now result self.new j middle × Fits middle image) }
        ensures since { LeftFits (D.device self.old.journal.disk) (D.device self.new.journal.disk)
            (λ image. (j : ℕ) × (middle : WorldView D)
            × Passed D.device D.write_grows D.sync_grows self.old events.now result self.new j middle × Fits middle image) }
        ensures now { EachNow (D.device self.new.journal.disk) (Fits self.new) }
        ensures read { AreRead self.new.served }
        ensures keeps { IsWorld D.device self.new }
    {
        self.kept();
        for place in 0..events.len() {
            let result = self.step(alloc, &events[place]);
            if is_for_memory(&result) {
                self.is_read();
                return place as u64;
            }
        }
        self.is_read();
        events.len() as u64
    }

    /// The number of changes at the opening.
    pub fn opened(&self) -> u64
        ensures { result ≡ self.now.served.first }
    {
        self.served.opened()
    }

    /// The number of durable changes.
    pub fn durable(&self) -> u64
        ensures { result ≡ (kernel_of self.now).durable }
    {
        self.served.durable()
    }

    /// The entries that were served since the opening, in order.
    pub fn trace(&self) -> &[Entry]
        ensures { result.now ≡ self.now.served.trace }
    {
        self.served.trace()
    }

    /// What the last release handed out.
    pub fn ready(&self) -> &ReadyBuf
        ensures { result.now ≡ self.now.served.ready }
    {
        self.served.ready()
    }

    /// The octets that arrived for a session.
    pub fn arrived(&self, number: u64) -> &[u8]
        ensures { result.now ≡ arrived_at self.now.served number }
    {
        self.served.arrived(number)
    }

    /// The octets that were released to a session.
    pub fn released(&self, number: u64) -> &[u8]
        ensures { result.now ≡ released_at self.now.served number }
    {
        self.served.released(number)
    }

    /// The accepted changes.
    pub fn spool(&self) -> &Spool
        ensures { result.now.changes ≡ (kernel_of self.now).spool }
    {
        self.served.spool()
    }

    /// Returns the device.
    pub fn into_disk(self) -> D
        ensures { result ≡ self.journal.disk }
    {
        let World {
            journal,
            served: _,
            batch: _,
            ticket: _,
            is_committed: _,
            has_failed: _,
        } = self;
        journal.into_disk()
    }

    fn happen(&mut self, alloc: Global, event: &Event) -> Result<StepAnswer, StepError>
        ensures { Did D.device D.write_grows D.sync_grows self.old event.now result self.new }
    {
        match event {
            Event::Join => self.join(alloc),
            Event::Leave(number) => self.leave(*number),
            Event::Arrive(number, octets) => self.arrive(*number, octets.as_slice()),
            Event::Exec(number, moment) => self.exec(alloc, *number, *moment),
            Event::Admin(group) => self.admin(alloc, group),
            Event::Expire { name, number } => self.expire(alloc, name, *number),
            Event::Take => self.take(),
            Event::Dev => self.dev(),
            Event::Told => self.told(),
            Event::Release => self.release(),
            Event::ReleaseOf { number, room } => self.release_of(alloc, *number, *room),
            Event::Stop => self.stop(),
        }
    }

    fn join(&mut self, alloc: Global) -> Result<StepAnswer, StepError>
        ensures { Did D.device D.write_grows D.sync_grows self.old Event.Join result self.new }
    {
        self.served.kept();
        match self.served.join(alloc) {
            Ok(number) => Ok(StepAnswer::Joined(number)),
            Err(error) => Err(join_error(error)),
        }
    }

    fn leave(&mut self, number: u64) -> Result<StepAnswer, StepError>
        ensures { Did D.device D.write_grows D.sync_grows self.old (Event.Leave number) result self.new }
    {
        self.served.kept();
        self.served.leave(number);
        Ok(StepAnswer::Done)
    }

    fn arrive(&mut self, number: u64, octets: &[u8]) -> Result<StepAnswer, StepError>
        ensures { Tested of_kernel StepError.Memory (arrive_refusal (kernel_of self.old) number) self.old self.new result
            (λ a. (a ≡ StepAnswer.Done) × (self.new ≡ with_served self.old (arrives self.old.served number octets.now))) }
    {
        self.served.kept();
        match self.served.arrive(number, octets) {
            Ok(()) => Ok(StepAnswer::Done),
            Err(error) => Err(arrive_error(error)),
        }
    }

    fn exec(&mut self, alloc: Global, number: u64, moment: Moment) -> Result<StepAnswer, StepError>
        ensures { DidExec self.old number moment (mode_at (kernel_of self.old) number) (next_of self.old.served number) result self.new }
    {
        self.served.kept();
        exec_answer(self.served.exec(alloc, number, moment))
    }

    fn admin(&mut self, alloc: Global, group: &GroupRequest) -> Result<StepAnswer, StepError>
        ensures { TestedOrMemory of_kernel StepError.Memory (early_refusal (kernel_of self.old))
            (admin_refusal_of (kernel_of self.old) (Group (group_of group.now))) self.old self.new result
            (λ a. (serial : ℕ) × (a ≡ StepAnswer.Made serial) × Makes self.old.served self.new.served (Group (group_of group.now)) serial
            × (self.new ≡ with_served self.old self.new.served)) }
    {
        self.served.kept();
        match self.served.admin(alloc, group) {
            Ok(serial) => Ok(StepAnswer::Made(serial)),
            Err(error) => Err(admin_error(error)),
        }
    }

    fn expire(
        &mut self,
        alloc: Global,
        name: &GroupName,
        number: u32,
    ) -> Result<StepAnswer, StepError>
        ensures { TestedOrMemory of_kernel StepError.Memory (early_refusal (kernel_of self.old))
            (expire_refusal_of (kernel_of self.old) (Expire (record { group = name.now; number = number }))) self.old self.new result
            (λ a. (serial : ℕ) × (a ≡ StepAnswer.Made serial)
            × Makes self.old.served self.new.served (Expire (record { group = name.now; number = number })) serial
            × (self.new ≡ with_served self.old self.new.served)) }
    {
        self.served.kept();
        match self.served.expire(alloc, name, number) {
            Ok(serial) => Ok(StepAnswer::Made(serial)),
            Err(error) => Err(expire_error(error)),
        }
    }

    fn take(&mut self) -> Result<StepAnswer, StepError>
        ensures { DidTake self.old result self.new }
    {
        self.served.kept();
        if !self.journal.is_idle() {
            return Ok(StepAnswer::Took(None));
        }
        let Some(ticket) = self.served.take_batch(&mut self.batch) else {
            return Ok(StepAnswer::Took(None));
        };
        self.journal
            .begin(ticket.last(), self.batch.numbers(), self.batch.images());
        self.ticket = Some(ticket);
        self.is_committed = false;
        Ok(StepAnswer::Took(Some(ticket.last())))
    }

    fn dev(&mut self) -> Result<StepAnswer, StepError>
        ensures { DidDev D.device D.write_grows D.sync_grows self.old result self.new }
    {
        let answered = self.journal.step();
        self.is_committed = commits_too(self.is_committed, &answered);
        self.has_failed = fails_too(self.has_failed, &answered);
        dev_answer(answered)
    }

    fn told(&mut self) -> Result<StepAnswer, StepError>
        ensures { Did D.device D.write_grows D.sync_grows self.old Event.Told result self.new }
    {
        let Some(ticket) = committed_ticket(self.ticket, self.is_committed) else {
            if !self.has_failed {
                return Ok(StepAnswer::Done);
            }
            self.served.halt();
            self.has_failed = false;
            return Ok(StepAnswer::Done);
        };
        let _ = self.served.committed(ticket);
        self.ticket = None;
        self.is_committed = false;
        Ok(StepAnswer::Done)
    }

    fn release(&mut self) -> Result<StepAnswer, StepError>
        ensures { Did D.device D.write_grows D.sync_grows self.old Event.Release result self.new }
    {
        self.served.kept();
        match self.served.release() {
            Ok(()) => Ok(StepAnswer::Done),
            Err(_) => Err(StepError::Memory),
        }
    }

    fn release_of(&mut self, alloc: Global, number: u64, room: u64) -> Result<StepAnswer, StepError>
        ensures { Did D.device D.write_grows D.sync_grows self.old (Event.ReleaseOf number room) result self.new }
    {
        self.served.kept();
        match self.served.release_of(alloc, number, room) {
            Ok(()) => Ok(StepAnswer::Done),
            Err(_) => Err(StepError::Memory),
        }
    }

    fn stop(&mut self) -> Result<StepAnswer, StepError>
        ensures { DidStop self.old result self.new }
    {
        self.served.kept();
        Ok(StepAnswer::Stopped(self.served.stop()))
    }
}

impl<D: Faults> World<D> {
    ghost use Rattle.disk.specs.Device.{IsUnchanged};

    /// Makes the n-th call of the device from now on, counted from 1, answer `Fault`; 0 cancels an earlier plan.
    /// Everything else stays as it was.
    pub fn fail_at(&mut self, n: u64)
        ensures view { self.new ≡ record self.old { journal = record self.old.journal { disk = self.new.journal.disk } } }
        ensures device { IsUnchanged (D.device self.old.journal.disk) (D.device self.new.journal.disk) }
        ensures plan { D.plans n self.old.journal.disk self.new.journal.disk }
    {
        self.journal.fail_at(n);
    }

    /// Does the same for the n-th call of that kind.
    pub fn fail_kind(&mut self, kind: DiskCall, n: u64)
        ensures view { self.new ≡ record self.old { journal = record self.old.journal { disk = self.new.journal.disk } } }
        ensures device { IsUnchanged (D.device self.old.journal.disk) (D.device self.new.journal.disk) }
        ensures plan { D.plans_kind kind n self.old.journal.disk self.new.journal.disk }
    {
        self.journal.fail_kind(kind, n);
    }
}

/// However often a disk's system crashes and is opened again, what was released in any life begins the replies of one
/// server that lives through all of them and commits before it replies. Nothing that an opening found is undone later.
/// The function does nothing.
pub fn lives_are_one<D: Disk>()
    ensures one { (opened now : WorldView D) (lives : List (Life Change Mark)) → Lived D.device D.write_grows D.sync_grows opened lives now
        → AreOneLife opened lives now }
{
    images_stand_for_one_spool();
    many_lives_are_one::<Message, Session, Change, Mark>();
}

fn join_error(error: JoinError) -> StepError
    ensures { result ≡ of_join_error error }
{
    match error {
        JoinError::Halted => StepError::Halted,
        JoinError::TooManySessions => StepError::TooManySessions,
        JoinError::Memory => StepError::Memory,
    }
}

fn arrive_error(error: ArriveError) -> StepError
    ensures { result ≡ of_arrive_error error }
{
    match error {
        ArriveError::NoSession => StepError::NoSession,
        ArriveError::Memory => StepError::Memory,
    }
}

/// The answer to an exec.
fn exec_answer(served: Result<Option<Outcome>, ExecError>) -> Result<StepAnswer, StepError>
    ensures { result ≡ exec_answer served }
{
    match served {
        Ok(answered) => Ok(StepAnswer::Served(answered)),
        Err(ExecError::NoSession) => Err(StepError::NoSession),
        Err(ExecError::LaterOut) => Err(StepError::LaterOut),
        Err(ExecError::LaterDirty) => Err(StepError::LaterDirty),
        Err(ExecError::Memory) => Err(StepError::Memory),
    }
}

/// Whether the kernel has yet to learn of a commit, after this answer of the journal.
fn commits_too(committed: bool, answered: &Result<Progress, JournalError>) -> bool
    ensures { result ≡ (committed || commits answered.now) }
{
    match answered {
        Ok(Progress::Committed(_)) => true,
        _ => committed,
    }
}

/// Whether the kernel has yet to learn of a fault, after this answer of the journal.
fn fails_too(failed: bool, answered: &Result<Progress, JournalError>) -> bool
    ensures { result ≡ (failed || fails answered.now) }
{
    match answered {
        Err(JournalError::Fault) => true,
        _ => failed,
    }
}

/// The answer to a device call.
fn dev_answer(answered: Result<Progress, JournalError>) -> Result<StepAnswer, StepError>
    ensures { result ≡ dev_answer answered }
{
    match answered {
        Ok(progress) => Ok(StepAnswer::Progressed(progress)),
        Err(JournalError::Fault) => Err(StepError::Fault),
        Err(JournalError::Memory) => Err(StepError::Memory),
        Err(_) => Err(StepError::Halted),
    }
}

fn admin_error(error: AdminError) -> StepError
    ensures { result ≡ of_admin_error error }
{
    match error {
        AdminError::Halted => StepError::Halted,
        AdminError::LaterDirty => StepError::LaterDirty,
        AdminError::Exists => StepError::Exists,
        AdminError::Full => StepError::Full,
        AdminError::Memory => StepError::Memory,
    }
}

fn expire_error(error: ExpireError) -> StepError
    ensures { result ≡ of_expire_error error }
{
    match error {
        ExpireError::Halted => StepError::Halted,
        ExpireError::LaterDirty => StepError::LaterDirty,
        ExpireError::NotFound => StepError::NotFound,
        ExpireError::Full => StepError::Full,
        ExpireError::Memory => StepError::Memory,
    }
}

/// The ticket of a batch that is committed.
fn committed_ticket(ticket: Option<Ticket>, committed: bool) -> Option<Ticket>
    ensures { MatchOption result (durable_news ticket committed ≡ []) (λ t. (ticket ≡ Some t) × (committed ≡ true)) }
{
    if committed { ticket } else { None }
}

/// Whether an event was refused for memory.
fn is_for_memory(answered: &Result<StepAnswer, StepError>) -> bool
    ensures { result ≡ for_memory answered.now }
{
    matches!(answered, Err(StepError::Memory))
}
