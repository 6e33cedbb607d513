//! A kernel two of whose calls a test can refuse.

use copy_portions::Portion;
use journal_volume::BatchBuf;
use kernel::Kernel;
use kernel_expiring::{AgedGroup, GonePart};
use kernel_locked::Locked;
use kernel_outbox::ReadyBuf;
use kernel_shared::{
    AdminError, Admitted, ExecError, ExecOutcome, ExpireError, Expired, JoinError, Kern,
    KernelCounts, Receipt, Stale, Ticket,
};
use model::{Message, Mode, Moment};
use session_received::Received;
use std::alloc::Global;
use std::sync::Wait;
use text_names::{GroupName, GroupRequest, Wildmat};

/// What a test has a kernel refuse.
pub trait Hooks {
    /// Why a message is refused before the kernel sees it. `None` if the kernel answers it.
    fn refusal_of(&self, _message: &Message) -> Option<ExecError> {
        None
    }

    /// Whether the kernel learns that the changes up to this number are committed. Otherwise their ticket is refused.
    fn lets_commit<R: Wait>(&self, _rt: &R, _last: u64) -> bool {
        true
    }
}

/// A kernel under its lock, and what is refused in its place.
pub struct Hooked<H> {
    inner: Locked,
    hooks: H,
}

// By hand: a crate of tests that drops one would otherwise prove the derived one again, field by field.
impl<H: Drop> Drop for Hooked<H> {
    fn drop(self) {
        let Hooked { inner: _, hooks: _ } = self;
    }
}

impl<H> Hooked<H> {
    pub fn new(kernel: Kernel, hooks: H) -> Hooked<H> {
        Hooked {
            inner: Locked::new(kernel),
            hooks,
        }
    }
}

impl<H: Hooks> Kern for Hooked<H> {
    ghost use Rattle.kernel_locked.specs.Locked.{IsFoundAt};

    ghost found = { λ _ place wildmat since group. IsFoundAt place wildmat since group };

    fn join<R: Wait>(&self, rt: &R, alloc: Global) -> Result<u64, JoinError> {
        self.inner.join(rt, alloc)
    }

    fn mode<R: Wait>(&self, rt: &R, sid: u64) -> Option<Mode> {
        self.inner.mode(rt, sid)
    }

    fn answer<R: Wait>(
        &self,
        rt: &R,
        alloc: Global,
        sid: u64,
        received: Received<'_>,
        moment: Moment,
        into: &mut ReadyBuf,
    ) -> Result<ExecOutcome, ExecError> {
        match self.hooks.refusal_of(received.message()) {
            Some(error) => Err(error),
            None => self.inner.answer(rt, alloc, sid, received, moment, into),
        }
    }

    fn asks_for_few<R: Wait>(&self, rt: &R, received: &Received<'_>, moment: Moment) -> bool {
        self.inner.asks_for_few(rt, received, moment)
    }

    fn give_ready<R: Wait>(&self, rt: &R, sid: u64, into: &mut ReadyBuf) -> bool {
        self.inner.give_ready(rt, sid, into)
    }

    fn admin<'g, R: Wait>(
        &self,
        rt: &R,
        alloc: Global,
        group: &'g GroupRequest,
    ) -> Result<Admitted<'g>, AdminError> {
        self.inner.admin(rt, alloc, group)
    }

    fn expire<'n, R: Wait>(
        &self,
        rt: &R,
        name: &'n GroupName,
        number: u32,
    ) -> Result<Expired<'n>, ExpireError> {
        self.inner.expire(rt, name, number)
    }

    fn aged<R: Wait>(&self, rt: &R, place: usize, wildmat: &Wildmat, since: u64) -> AgedGroup {
        self.inner.aged(rt, place, wildmat, since)
    }

    fn gone_part<R: Wait>(&self, rt: &R, first: u64) -> GonePart {
        self.inner.gone_part(rt, first)
    }

    fn leave<R: Wait>(&self, rt: &R, sid: u64) {
        self.inner.leave(rt, sid);
    }

    fn take_batch<R: Wait>(&self, rt: &R, into: &mut BatchBuf) -> Option<Ticket> {
        self.inner.take_batch(rt, into)
    }

    fn copy_clean<R: Wait>(&self, rt: &R, numbers: &[u32], into: &mut Portion) {
        self.inner.copy_clean(rt, numbers, into);
    }

    fn committed<R: Wait>(&self, rt: &R, ticket: Ticket, receipt: Receipt) -> Result<(), Stale> {
        if !self.hooks.lets_commit(rt, ticket.last()) {
            return Err(Stale);
        }
        self.inner.committed(rt, ticket, receipt)
    }

    fn halt<R: Wait>(&self, rt: &R) {
        self.inner.halt(rt);
    }

    fn halt_if_clean<R: Wait>(&self, rt: &R) -> bool {
        self.inner.halt_if_clean(rt)
    }

    fn counts<R: Wait>(&self, rt: &R) -> KernelCounts {
        self.inner.counts(rt)
    }
}
