//! Copies the changes of a spool into a new volume.

ghost use Rattle.std.specs.Prelude.{◌≡◌, ◌+◌, ◌≤◌, IfErr, IsTrue, OnOk, bytes_eq, length};
ghost use Rattle.kernel.specs.Kernel.{most_dirty};
ghost use Rattle.model.specs.Lawful.{MayFollow};
ghost use Rattle.model_renewed.specs.Renewed.{renewed};
ghost use Rattle.volume_renewing.specs.Renewing.{IsFront, IsNew, IsOnTheWay, IsUnharmed};
ghost use Rattle.volume_renewing.specs.Stopping.{IsStopped};
ghost use Rattle.volume_store.specs.Adding.{IsAdded};
ghost use Rattle.volume_store.specs.Saved.{IsSaved};

use crate::errors::RenewalError;
use crate::left::left_of;
use disk::Disk;
use model::Change;
use session_lookups::{FilingError, LookUps};
use spool::Spool;
use std::alloc::Global;
use volume_store::Store;

/// The number of changes of each kind that were copied.
#[derive(Clone, Copy, Debug, Drop, PartialEq, Eq)]
pub struct RenewalCounts {
    pub groups: u64,
    /// The articles of which all is left.
    pub kept: u64,
    /// Those that are in none of their groups any more.
    pub husks: u64,
    pub expiries: u64,
}

impl RenewalCounts {
    /// No change yet.
    const NONE: RenewalCounts = RenewalCounts {
        groups: 0,
        kept: 0,
        husks: 0,
        expiries: 0,
    };

    /// The number of changes.
    pub fn all(&self) -> u64 {
        self.groups
            .saturating_add(self.kept)
            .saturating_add(self.husks)
            .saturating_add(self.expiries)
    }

    /// Counts a change that was copied.
    fn add(&mut self, kind: Kind) {
        let count = match kind {
            Kind::Group => &mut self.groups,
            Kind::Kept => &mut self.kept,
            Kind::Husk => &mut self.husks,
            Kind::Expiry => &mut self.expiries,
        };
        *count = count.saturating_add(1);
    }
}

/// What is left of a change, as a renewal counts it.
#[derive(Clone, Copy)]
enum Kind {
    Group,
    Kept,
    Husk,
    Expiry,
}

/// Learns how far a renewal is.
pub trait Watcher {
    /// These changes were copied, and there are so many in all.
    fn progress(&mut self, counts: &RenewalCounts, all: u64);
}

/// Copies the changes of a spool into a new volume of the same host, in order: of each article that is gone the husk, of any
/// other change all of it. Afterwards all are durable. It takes batches as an import does, and reads each change once.
///
/// `NotNew` exactly if the new volume has changes already, or another host; then nothing changes. `Full` if there is no room
/// for a change; those before it are durable then, and `shortage_for` says what is lacking. `Memory` (E2) if an allocation was
/// refused, `Device` with `Fault` (E1) if the device failed, with `Halted` (E4) if it had failed before. A crash at any moment
/// of the call leaves what a crash before it might have left, or the first changes of the renewed spool.
pub fn renew<D: Disk, W: Watcher>(
    alloc: Global,
    old: &Spool,
    new: &mut Store<D>,
    watcher: &mut W,
) -> Result<RenewalCounts, RenewalError>
    ensures ok { OnOk result (IsSaved D.device new.new × (new.new.spool.changes ≡ renewed old.now.changes)) }
    ensures way { IsNew old.now new.old → IsOnTheWay D.device old.now.changes new.old new.new }
    ensures stopped { IfErr result (λ error. IsNew old.now new.old → IsStopped D.device old.now.changes new.old new.new error) }
    ensures not_new { (IsNew old.now new.old → ⊥) → (result ≡ Err RenewalError.NotNew) × (new.new ≡ new.old) }
{
    if !is_new(old, new) {
        return Err(RenewalError::NotNew);
    }
    let counts = copy_all(alloc, old, new, watcher)?;
    match new.commit() {
        Ok(()) => Ok(counts),
        Err(error) => Err(RenewalError::from(error)),
    }
}

/// Whether a store has no changes yet, and the host of the spool that is to be renewed.
fn is_new<D: Disk>(old: &Spool, new: &Store<D>) -> bool
    ensures yes { IsTrue result → IsNew old.now new.now }
    ensures no { IsNew old.now new.now → IsTrue result }
{
    if new.len().0 != 0 {
        return false;
    }
    is_same(new.spool().host(), old.host())
}

fn is_same(one: &[u8], other: &[u8]) -> bool
    ensures { result ≡ bytes_eq one.now other.now }
{
    one == other
}

/// Copies all changes.
fn copy_all<D: Disk, W: Watcher>(
    alloc: Global,
    old: &Spool,
    new: &mut Store<D>,
    watcher: &mut W,
) -> Result<RenewalCounts, RenewalError>
    requires { IsNew old.now new.old }
    ensures ok { OnOk result (IsUnharmed D.device new.old new.new × (new.new.spool.changes ≡ renewed old.now.changes)) }
    ensures way { IsOnTheWay D.device old.now.changes new.old new.new }
    ensures stopped { IfErr result (λ error. IsStopped D.device old.now.changes new.old new.new error) }
{
    let mut counts = RenewalCounts::NONE;
    let all = old.len();
    for done in 0..all {
        let kind = copy_next(alloc, old, new, done + 1)?;
        counts.add(kind);
        watcher.progress(&counts, all);
    }
    Ok(counts)
}

/// Copies the change with this serial, which comes next. Refused as `renew` is.
fn copy_next<D: Disk>(
    alloc: Global,
    old: &Spool,
    new: &mut Store<D>,
    serial: u64,
) -> Result<Kind, RenewalError>
    requires host { new.old.spool.host ≡ old.now.host }
    requires begun { IsFront old.now.changes new.old.spool.changes }
    requires comes_next { serial ≡ length new.old.spool.changes + 1 }
    requires is_left { serial ≤ length old.now.changes }
    ensures ok { OnOk result (IsUnharmed D.device new.old new.new × (length new.new.spool.changes ≡ serial)) }
    ensures way { IsOnTheWay D.device old.now.changes new.old new.new }
    ensures stopped { IfErr result (λ error. IsStopped D.device old.now.changes new.old new.new error) }
{
    new.make_room()?;
    let change = left_of(alloc, old, serial)?;
    let is_gone = old.gone_at(serial).is_some();
    match add_left(alloc, new, &change, is_gone) {
        Ok(()) => Ok(kind_of(&change, is_gone)),
        Err(FilingError::Memory) => Err(RenewalError::Memory),
        Err(FilingError::Full) => {
            new.commit()?;
            Err(RenewalError::Full(serial))
        }
    }
}

/// Adds what is left of a change, which may be an article that is gone: its husk is put into the pack, since nobody reads
/// it any more.
fn add_left<D: Disk>(
    alloc: Global,
    new: &mut Store<D>,
    change: &Change,
    is_gone: bool,
) -> Result<(), FilingError>
    requires may { MayFollow new.old.spool.host new.old.spool.changes change.now }
    requires room { length new.old.spool.dirty ≤ most_dirty (length new.old.spool.blocks) }
    ensures added { IsAdded new.old.spool new.new.spool change.now result }
    ensures journal { new.new.journal ≡ new.old.journal }
    ensures durable { new.new.durable ≡ new.old.durable }
{
    match change {
        Change::Article(filing) if is_gone => new.pack(alloc, filing),
        Change::Group(_) | Change::Article(_) | Change::Expire(_) => new.add(alloc, change),
    }
}

/// What is left of a change, which may be an article that is gone.
fn kind_of(change: &Change, is_gone: bool) -> Kind {
    match change {
        Change::Group(_) => Kind::Group,
        Change::Article(_) if is_gone => Kind::Husk,
        Change::Article(_) => Kind::Kept,
        Change::Expire(_) => Kind::Expiry,
    }
}
