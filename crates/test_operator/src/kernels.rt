//! A kernel that counts the groups and the expiries that it is asked for, and makes none.

use copy_portions::Portion;
use journal_volume::BatchBuf;
use kernel_expiring::{AgedArticles, AgedGroup, GonePart};
use kernel_outbox::ReadyBuf;
use kernel_shared::{
    AdminError, Admitted, ExecError, ExecOutcome, ExpireError, Expired, JoinError, Kern,
    KernelCounts, Receipt, Stale, Ticket,
};
use model::{Mode, Moment};
use session_received::Received;
use std::alloc::Global;
use std::sync::Wait;
use std::sync::atomic::{AtomicBool, AtomicU64, Ordering};
use text_names::{GroupName, GroupRequest, Wildmat};

/// A group of the kernel: up to which number its articles are old, and how many these are.
struct OldGroup {
    name: &'static [u8],
    number: u32,
    articles: u64,
}

/// The groups of the kernel, with articles that are older than any moment behind 1970.
const GROUPS: [OldGroup; 3] = [
    OldGroup {
        name: b"x.old",
        number: 7,
        articles: 5,
    },
    OldGroup {
        name: b"x.new",
        number: 0,
        articles: 0,
    },
    OldGroup {
        name: b"x.older",
        number: 40,
        articles: 33,
    },
];

/// What was asked of the kernel.
#[derive(Drop)]
pub(crate) struct Counting {
    /// The number of groups and expiries that it was asked for while it was not halted.
    pub(crate) groups: AtomicU64,
    /// The number of changes that its sessions made.
    posts: u64,
    is_halted: AtomicBool,
}

impl Counting {
    pub(crate) fn new(posts: u64) -> Counting {
        Counting {
            groups: AtomicU64::new(0),
            posts,
            is_halted: AtomicBool::new(false),
        }
    }

    /// Counts a change, and answers how many were asked for.
    fn count(&self) -> u64 {
        self.groups.fetch_add(1, Ordering::SeqCst).wrapping_add(1)
    }
}

impl Kern for Counting {
    ghost found = { λ _ _ _ _ _. Unit {0} };

    fn join<R: Wait>(&self, _rt: &R, _alloc: Global) -> Result<u64, JoinError> {
        Err(JoinError::TooManySessions)
    }

    fn mode<R: Wait>(&self, _rt: &R, _sid: u64) -> Option<Mode> {
        None
    }

    fn answer<R: Wait>(
        &self,
        _rt: &R,
        _alloc: Global,
        _sid: u64,
        _received: Received<'_>,
        _moment: Moment,
        _into: &mut ReadyBuf,
    ) -> Result<ExecOutcome, ExecError> {
        Err(ExecError::NoSession)
    }

    fn asks_for_few<R: Wait>(&self, _rt: &R, _received: &Received<'_>, _moment: Moment) -> bool {
        false
    }

    fn give_ready<R: Wait>(&self, _rt: &R, _sid: u64, _into: &mut ReadyBuf) -> bool {
        false
    }

    fn admin<'g, R: Wait>(
        &self,
        _rt: &R,
        _alloc: Global,
        group: &'g GroupRequest,
    ) -> Result<Admitted<'g>, AdminError> {
        if self.is_halted.load(Ordering::SeqCst) {
            return Err(AdminError::Halted);
        }
        Ok(Admitted::new(group, self.count()))
    }

    fn expire<'n, R: Wait>(
        &self,
        _rt: &R,
        name: &'n GroupName,
        number: u32,
    ) -> Result<Expired<'n>, ExpireError> {
        let is_asked = |group: &OldGroup| group.name == name.as_slice() && group.number == number;
        if !GROUPS.iter().any(is_asked) {
            return Err(ExpireError::NotFound);
        }
        if self.is_halted.load(Ordering::SeqCst) {
            return Err(ExpireError::Halted);
        }
        Ok(Expired::new(name, number, self.count()))
    }

    fn aged<R: Wait>(&self, _rt: &R, place: usize, wildmat: &Wildmat, since: u64) -> AgedGroup {
        let Some(group) = GROUPS.get(place) else {
            return AgedGroup::Missing;
        };
        let Ok(name) = GroupName::read(group.name) else {
            return AgedGroup::Missing;
        };
        if since == 0 || group.articles == 0 || !wildmat.matches(&name) {
            return AgedGroup::Spared;
        }
        AgedGroup::Aged(AgedArticles {
            name,
            number: group.number,
            articles: group.articles,
        })
    }

    fn gone_part<R: Wait>(&self, _rt: &R, _first: u64) -> GonePart {
        GonePart {
            articles: 0,
            next: None,
        }
    }

    fn leave<R: Wait>(&self, _rt: &R, _sid: u64) {}

    fn take_batch<R: Wait>(&self, _rt: &R, _into: &mut BatchBuf) -> Option<Ticket> {
        None
    }

    fn copy_clean<R: Wait>(&self, _rt: &R, _numbers: &[u32], _into: &mut Portion) {}

    fn committed<R: Wait>(&self, _rt: &R, _ticket: Ticket, _receipt: Receipt) -> Result<(), Stale> {
        Err(Stale)
    }

    fn halt<R: Wait>(&self, _rt: &R) {
        self.is_halted.store(true, Ordering::SeqCst);
    }

    fn halt_if_clean<R: Wait>(&self, _rt: &R) -> bool {
        self.is_halted.store(true, Ordering::SeqCst);
        true
    }

    fn counts<R: Wait>(&self, _rt: &R) -> KernelCounts {
        let groups = self.groups.load(Ordering::SeqCst);
        KernelCounts {
            sessions: 3,
            inodes: 310,
            accepted: groups.wrapping_add(self.posts),
            durable: 118,
        }
    }
}
