//! The kernel under one lock. A clause cannot speak of a value behind a lock. So each method locks and calls one
//! function below, or one of the kernel's own, whose contract says what happens. That a method passes its own arguments
//! is tested; it is proved only where its answer names them.

ghost use Rattle.std.specs.Prelude.{◌≡◌, ◌<◌, ◌↔◌, Err, IfOk, IsTrue, OnErr, false, length, true};
ghost use Rattle.kernel.specs.Errors.{of_admin, of_exec, of_expire};
ghost use Rattle.kernel.specs.Kernel.{Administers, FitsMode, Tested, TestedOrMemory, admin_refusal_of, exec_refusal, expire_refusal_of};
ghost use Rattle.kernel.specs.Kernel.{halted_for_good, left, mode_at};
ghost use Rattle.kernel_expiring.specs.Ages.{IsAgedGroup};
ghost use Rattle.model.specs.declared.change.Change.TheVariants.{Expire, Group};
ghost use Rattle.text_names.specs.Requests.{group_of};
ghost use Rattle.kernel_locked.specs.Locked.{Answers, Copies, Gives, IsCounted, IsFoundAt};

use crate::few::{are_few, asked_since};
use crate::turns::Turns;
use copy_portions::Portion;
use journal_volume::BatchBuf;
use kernel::{Kernel, Outcome};
use kernel_expiring::{AgedGroup, GonePart, aged_group, gone_part};
use kernel_outbox::ReadyBuf;
use kernel_shared::{
    AdminError, Admitted, ExecError, ExecOutcome, ExpireError, Expired, JoinError, Kern,
    KernelCounts, Receipt, Stale, Ticket,
};
use model::{Command, Message, Mode, Moment};
use session_lookups::LookUps;
use session_received::Received;
use std::alloc::Global;
use std::sync::{Mutex, Wait};
use text_framing::{BLOCK_LIMIT, LINE_LIMIT};
use text_names::{GroupName, GroupRequest, Wildmat};

/// The longest text of a line, as the reader of a stream hands it out: without its CRLF, in octets.
const LINE_TEXT: usize = LINE_LIMIT - 2;

/// A kernel under its lock.
#[derive(Drop)]
pub struct Locked {
    kernel: Mutex<Kernel>,
    /// Held while a block is served, which takes longer than a line: so lines compete for the kernel with one block at
    /// a time.
    block: Mutex<()>,
    /// Those of lines whose answers may be long and are made whole: so other lines compete for the kernel with one such
    /// line at a time.
    long: Turns,
    /// Held while what is ready of a session is handed out, of which a part may be made now: so lines compete for the kernel
    /// with one such release at a time.
    giving: Mutex<()>,
}

impl Locked {
    /// Puts a kernel under a lock that nobody holds.
    pub fn new(kernel: Kernel) -> Locked {
        Locked {
            kernel: Mutex::new(kernel),
            block: Mutex::new(()),
            long: Turns::new(),
            giving: Mutex::new(()),
        }
    }

    /// What is held while a block is answered, besides the kernel's lock. It is taken first.
    fn turn_of(&self, message: &Message) -> Option<&Mutex<()>> {
        match message {
            Message::Block(_) => Some(&self.block),
            Message::Line(_) | Message::TooLong => None,
        }
    }
}

/// Whether the answer to a message may be long and is made whole: it grows with the groups or the spool. What this says decides only who
/// waits for whom.
fn may_be_long(received: &Received<'_>) -> bool {
    matches!(
        received.command(),
        Some(Command::List(..) | Command::NewGroups { .. } | Command::NewNews { .. })
    )
}

/// Whether a message is one that a session in this mode may send.
fn fits(mode: Option<Mode>, message: &Message) -> bool
    ensures { IsTrue result ↔ FitsMode mode message.now }
{
    match (mode, message) {
        (Some(Mode::Line), Message::Line(line)) => line.as_slice().len() <= LINE_TEXT,
        (Some(Mode::Block), Message::Block(text)) => text.as_slice().len() <= BLOCK_LIMIT,
        (Some(_), Message::TooLong) => true,
        (None, _) => true,
        (Some(_), _) => false,
    }
}

/// Lets the kernel answer a message. If it was served, what is ready of its session is put after the content of the
/// buffer. A message that the session cannot send in its mode is refused as `NoSession` (E10), any other exactly if the
/// kernel's `exec_received` refuses it. A refusal changes neither the kernel nor the buffer.
fn answer_in(
    kernel: &mut Kernel,
    alloc: Global,
    sid: u64,
    received: Received<'_>,
    moment: Moment,
    into: &mut ReadyBuf,
) -> Result<ExecOutcome, ExecError>
    requires { length into.old < 4096 }
    ensures fits { FitsMode (mode_at kernel.old sid) received.entry
        → Tested of_exec ExecError.Memory (exec_refusal kernel.old sid received.entry) kernel.old kernel.new result
        (Answers kernel.old kernel.new sid received.entry moment into.old into.new) }
    ensures unfit { (FitsMode (mode_at kernel.old sid) received.entry → ⊥)
        → (result ≡ Err ExecError.NoSession) × (kernel.new ≡ kernel.old) }
    ensures refused { OnErr result (into.new ≡ into.old) }
{
    if !fits(kernel.mode(sid), received.message()) {
        return Err(ExecError::NoSession);
    }
    let Outcome {
        next,
        mark,
        refusal,
        has_accepted,
    } = kernel.exec_received(alloc, sid, received, moment)?;
    let accepted = if has_accepted {
        Some(kernel.len())
    } else {
        None
    };
    let is_held = give_ready_in(kernel, sid, into);
    Ok(ExecOutcome {
        next,
        mark,
        refusal,
        accepted,
        is_held,
    })
}

/// Puts what is ready of a session after the content of the buffer. Answers whether the session still holds outputs.
fn give_ready_in(kernel: &mut Kernel, sid: u64, into: &mut ReadyBuf) -> bool
    requires { length into.old < 4096 }
    ensures { Gives kernel.old kernel.new sid into.old into.new result }
{
    kernel.give_ready(sid, into)
}

/// Makes a group, and answers it with its serial. Refused as the kernel's `admin` is; a refusal changes nothing.
fn admin_in<'g>(
    kernel: &mut Kernel,
    alloc: Global,
    group: &'g GroupRequest,
) -> Result<Admitted<'g>, AdminError>
    ensures done { let change = Group (group_of group.now) in
        TestedOrMemory of_admin AdminError.Memory (admin_refusal_of kernel.old change) (admin_refusal_of kernel.old change)
        kernel.old kernel.new result (λ admitted. Administers kernel.old kernel.new change admitted.serial) }
    ensures says { IfOk result (λ admitted. admitted.group.now ≡ group.now) }
{
    match kernel.admin(alloc, group) {
        Ok(serial) => Ok(Admitted::new(group, serial)),
        Err(error) => Err(error),
    }
}

/// Removes the articles of a group up to a number, and answers that expiry with its serial. Refused as the kernel's `expire`
/// is; a refusal changes nothing.
fn expire_in<'n>(
    kernel: &mut Kernel,
    name: &'n GroupName,
    number: u32,
) -> Result<Expired<'n>, ExpireError>
    ensures done { let change = Expire (record { group = name.now; number = number }) in
        TestedOrMemory of_expire ExpireError.Memory (expire_refusal_of kernel.old change) (expire_refusal_of kernel.old change)
        kernel.old kernel.new result (λ expired. Administers kernel.old kernel.new change expired.serial) }
    ensures says { IfOk result (λ expired. (expired.name.now ≡ name.now) × (expired.number ≡ number)) }
{
    match kernel.expire(name, number) {
        Ok(serial) => Ok(Expired::new(name, number, serial)),
        Err(error) => Err(error),
    }
}

/// What an expiry by age does to the group at a place.
fn aged_in(kernel: &Kernel, place: usize, wildmat: &Wildmat, since: u64) -> AgedGroup
    ensures now { IsAgedGroup kernel.now.spool place wildmat.now since result }
    ensures found { IsFoundAt place wildmat.now since result }
{
    // for the proof: the changes are lawful
    kernel.kept();
    aged_group(kernel.spool(), place, wildmat, since)
}

/// Puts those of these blocks into a portion that are clean, in this order, as far as there is room.
fn copy_clean_in(kernel: &Kernel, numbers: &[u32], into: &mut Portion)
    ensures { Copies kernel.now numbers.now into.old into.new }
{
    for number in numbers {
        if into.is_full() {
            return;
        }
        if let Some(octets) = kernel.clean_block(*number) {
            into.push(*number, octets);
        }
    }
}

/// Drops a session and its held outputs; does nothing if it does not exist.
fn leave_in(kernel: &mut Kernel, sid: u64)
    ensures { kernel.new ≡ left kernel.old sid }
{
    kernel.leave(sid);
}

/// Halts the kernel if every accepted change is durable, and answers whether it did. Otherwise nothing changes.
fn halt_if_clean_in(kernel: &mut Kernel) -> bool
    ensures when { IsTrue result ↔ (kernel.old.durable ≡ length kernel.old.spool) }
    ensures halts { result ≡ true → kernel.new ≡ halted_for_good kernel.old }
    ensures waits { result ≡ false → kernel.new ≡ kernel.old }
{
    if kernel.durable() != kernel.len() {
        return false;
    }
    kernel.halt();
    true
}

/// What the kernel holds.
fn counts_of(kernel: &Kernel) -> KernelCounts
    ensures { IsCounted kernel.now result }
{
    KernelCounts {
        sessions: kernel.session_count(),
        inodes: u64::from(kernel.used_inodes()),
        accepted: kernel.len(),
        durable: kernel.durable(),
    }
}

impl Kern for Locked {
    ghost use Rattle.kernel_locked.specs.Locked.{IsFoundAt};

    ghost found = { λ _ place wildmat since group. IsFoundAt place wildmat since group };

    fn join<R: Wait>(&self, rt: &R, alloc: Global) -> Result<u64, JoinError> {
        self.kernel.lock(rt).join(alloc)
    }

    fn mode<R: Wait>(&self, rt: &R, sid: u64) -> Option<Mode> {
        self.kernel.lock(rt).mode(sid)
    }

    /// A message that its session cannot send is answered as if the session did not exist. None is sent: each session's messages come
    /// from one thread, which asks for them in the session's mode.
    fn answer<R: Wait>(
        &self,
        rt: &R,
        alloc: Global,
        sid: u64,
        received: Received<'_>,
        moment: Moment,
        into: &mut ReadyBuf,
    ) -> Result<ExecOutcome, ExecError> {
        let is_long = may_be_long(&received);
        if is_long {
            self.long.begin(rt);
        }
        let answered = {
            let _turn = match self.turn_of(received.message()) {
                Some(turn) => Some(turn.lock(rt)),
                None => None,
            };
            let mut kernel = self.kernel.lock(rt);
            answer_in(&mut kernel, alloc, sid, received, moment, into)
        };
        if is_long {
            self.long.end(rt);
        }
        answered
    }

    fn asks_for_few<R: Wait>(&self, rt: &R, received: &Received<'_>, moment: Moment) -> bool {
        match asked_since(received, moment) {
            Some(from) => are_few(self.kernel.lock(rt).spool(), from),
            None => false,
        }
    }

    fn give_ready<R: Wait>(&self, rt: &R, sid: u64, into: &mut ReadyBuf) -> bool {
        let _turn = self.giving.lock(rt);
        give_ready_in(&mut self.kernel.lock(rt), sid, into)
    }

    fn admin<'g, R: Wait>(
        &self,
        rt: &R,
        alloc: Global,
        group: &'g GroupRequest,
    ) -> Result<Admitted<'g>, AdminError> {
        admin_in(&mut self.kernel.lock(rt), alloc, group)
    }

    fn expire<'n, R: Wait>(
        &self,
        rt: &R,
        name: &'n GroupName,
        number: u32,
    ) -> Result<Expired<'n>, ExpireError> {
        expire_in(&mut self.kernel.lock(rt), name, number)
    }

    fn aged<R: Wait>(&self, rt: &R, place: usize, wildmat: &Wildmat, since: u64) -> AgedGroup {
        aged_in(&self.kernel.lock(rt), place, wildmat, since)
    }

    fn gone_part<R: Wait>(&self, rt: &R, first: u64) -> GonePart {
        gone_part(self.kernel.lock(rt).spool(), first)
    }

    fn leave<R: Wait>(&self, rt: &R, sid: u64) {
        leave_in(&mut self.kernel.lock(rt), sid);
    }

    fn take_batch<R: Wait>(&self, rt: &R, into: &mut BatchBuf) -> Option<Ticket> {
        self.kernel.lock(rt).take_batch(into)
    }

    fn copy_clean<R: Wait>(&self, rt: &R, numbers: &[u32], into: &mut Portion) {
        copy_clean_in(&self.kernel.lock(rt), numbers, into);
    }

    fn committed<R: Wait>(&self, rt: &R, ticket: Ticket, _: Receipt) -> Result<(), Stale> {
        self.kernel.lock(rt).committed(ticket)
    }

    fn halt<R: Wait>(&self, rt: &R) {
        self.kernel.lock(rt).halt();
    }

    fn halt_if_clean<R: Wait>(&self, rt: &R) -> bool {
        halt_if_clean_in(&mut self.kernel.lock(rt))
    }

    fn counts<R: Wait>(&self, rt: &R) -> KernelCounts {
        counts_of(&self.kernel.lock(rt))
    }
}
