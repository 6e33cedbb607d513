//! A device in memory whose crashes can be chosen and whose calls can be made to fail. `specs/Calls.antt` says what
//! each call leaves of it.
#![tactic(auto)]

mod blocks;

ghost use Rattle.std.specs.Prelude.{◌≡◌, ◌+◌, ◌≤◌, ◌↔◌, IsTrue, length, IfErr, IfOk, IsErrOf, if◌then◌else◌};
ghost use Rattle.disk_memory.specs.Calls.{after_read, after_sync, after_write, all_synced, blank, picked};
ghost use Rattle.disk_memory.specs.Memory.{IsSound};
ghost use Rattle.disk_memory.specs.Plans.{fails_next, is_kind, plan_after, plan_for, plan_for_kind};
ghost use Rattle.disk.specs.Calls.{Reads, Syncs, Writes};
ghost use Rattle.disk.specs.Device.{IsUnchanged, LeavesOnly, one_more};

use blocks::{BLOCK, Marks, put, settle_marked, sync_marked};
use disk::{Disk, DiskCall, DiskError, Faults};
use std::alloc::{AllocError, Global};

/// What a crash makes of a touched octet.
#[derive(Clone, Copy, Debug, PartialEq, Eq)]
pub enum Pick {
    /// The octet as of the last good sync.
    Old,
    /// The octet that was written last.
    New,
    /// This octet.
    Fill(u8),
}

/// Which call fails. Reads, writes and syncs are calls.
#[derive(Clone, Copy, Debug, PartialEq, Eq)]
pub enum Plan {
    Never,
    /// A call of any kind, once, after this many others.
    Any(u64),
    /// A call of this kind, once, after this many others of it.
    Kind(DiskCall, u64),
}

impl Plan {
    // Whether a call of that kind, asked now, fails.
    fn fails(&mut self, call: DiskCall) -> bool
        ensures fails { result ≡ fails_next call self.old }
        ensures plan { self.new ≡ plan_after call self.old }
    {
        match *self {
            Plan::Never => false,
            Plan::Any(0) => {
                *self = Plan::Never;
                true
            }
            Plan::Any(n) => {
                *self = Plan::Any(n - 1);
                false
            }
            Plan::Kind(kind, others) if is_same_kind(kind, call) => {
                *self = planned(kind, others);
                others == 0
            }
            Plan::Kind(..) => false,
        }
    }

    // The answer to a call of that kind. A failure is counted.
    fn ask(&mut self, call: DiskCall, failures: &mut u64) -> Result<(), DiskError>
        ensures fails { IsErrOf result DiskError.Fault ↔ IsTrue (fails_next call self.old) }
        ensures no_memory { IfErr result (λ error. error ≡ DiskError.Fault) }
        ensures plan { self.new ≡ plan_after call self.old }
        ensures failures { failures.new ≡ (if fails_next call self.old then one_more failures.old else failures.old) }
    {
        if self.fails(call) {
            *failures = failures.wrapping_add(1);
            return Err(DiskError::Fault);
        }
        Ok(())
    }
}

// The plan that the n-th call of this kind fails, counted from 1; 0 plans none.
fn planned(kind: DiskCall, n: u64) -> Plan
    ensures { result ≡ plan_for_kind kind n }
{
    if n == 0 {
        Plan::Never
    } else {
        Plan::Kind(kind, n - 1)
    }
}

fn is_same_kind(kind: DiskCall, call: DiskCall) -> bool
    ensures { result ≡ is_kind kind call }
{
    match (kind, call) {
        (DiskCall::Read, DiskCall::Read)
        | (DiskCall::Write, DiskCall::Write)
        | (DiskCall::Sync, DiskCall::Sync) => true,
        _ => false,
    }
}

/// An array of octets in memory. After `new` it takes no memory.
#[derive(Drop)]
pub struct MemDisk {
    synced: Vec<u8>,
    present: Vec<u8>,
    touched: Vec<bool>,
    // the blocks that may have touched octets
    marks: Marks,
    plan: Plan,
    reads: u64,
    writes: u64,
    syncs: u64,
    failures: u64,
    ghost sound: { IsSound synced.items present.items touched.items marks.blocks.items },
}

impl MemDisk {
    ghost use Rattle.disk_memory.specs.MemDisk.{memory_device, view};

    /// A device of `len` zeros that count as synced. No failure is pending and the counts are 0.
    pub fn new(alloc: Global, len: u64) -> Result<MemDisk, AllocError>
        ensures memory { IfOk result (λ m. view m ≡ blank len) }
        ensures synced { IfOk result (λ m. LeavesOnly (memory_device m) (memory_device m).content) }
    {
        let len = len as usize;
        Ok(MemDisk {
            synced: vec![in alloc; 0; len]?,
            present: vec![in alloc; 0; len]?,
            touched: vec![in alloc; false; len]?,
            marks: Marks::new(alloc, len / BLOCK + 1)?,
            plan: Plan::Never,
            reads: 0,
            writes: 0,
            syncs: 0,
            failures: 0,
        })
    }

    /// The numbers of writes and syncs asked since `new`, each as a u64 that wraps.
    pub fn counts(&self) -> (u64, u64)
        ensures writes { result.0 ≡ (view self.now).writes }
        ensures syncs { result.1 ≡ (view self.now).syncs }
    {
        (self.writes, self.syncs)
    }

    /// Crashes the device. The touched octets are counted from 0, in the order of their places. The k-th becomes what
    /// `picks[k % picks.len()]` says, or `Old` if there are no picks. The result counts as synced. A pending failure
    /// stays pending.
    pub fn crash(&mut self, picks: &[Pick])
        ensures memory { view self.new ≡ all_synced (picked picks.now (view self.old)) (view self.old) }
        ensures lawful { (memory_device self.old).may_leave (view self.new).present }
        ensures synced { LeavesOnly (memory_device self.new) (memory_device self.new).content }
    {
        settle_marked(
            &mut self.present,
            &self.synced,
            &self.touched,
            &self.marks,
            picks,
        );
        sync_marked(
            &mut self.synced,
            &mut self.touched,
            &self.present,
            &self.marks,
        );
        self.marks.clear();
    }
}

impl Disk for MemDisk {
    ghost use Rattle.std.specs.Prelude.{false};
    ghost use Rattle.disk_memory.specs.MemDisk.{memory_device, counts_content, view};

    ghost device = { memory_device };

    ghost write_grows = { false };

    ghost sync_grows = { false };

    fn len(&self) -> u64 {
        self.present.len() as u64
    }

    fn read(&mut self, at: u64, into: &mut [u8]) -> Result<(), DiskError>
        requires { at + length into.old ≤ (memory_device self.old).size }
        ensures fails { IsErrOf result DiskError.Fault ↔ IsTrue (fails_next DiskCall.Read (view self.old).plan) }
        ensures memory { view self.new ≡ after_read (view self.old) }
        ensures reads { Reads at (length into.old) into.new result (memory_device self.old) (memory_device self.new) }
    {
        self.reads = self.reads.wrapping_add(1);
        self.plan.ask(DiskCall::Read, &mut self.failures)?;
        let at = at as usize;
        let end = at + into.len();
        into.copy_from_slice(&self.present[at..end]);
        Ok(())
    }

    fn write(&mut self, at: u64, from: &[u8]) -> Result<(), DiskError>
        requires { at + length from.now ≤ (memory_device self.old).size }
        ensures fails { IsErrOf result DiskError.Fault ↔ IsTrue (fails_next DiskCall.Write (view self.old).plan) }
        ensures memory { view self.new ≡ after_write at from.now (view self.old) }
        ensures writes { Writes false at from.now result (memory_device self.old) (memory_device self.new) }
    {
        self.writes = self.writes.wrapping_add(1);
        let at = at as usize;
        put(&mut self.present, &mut self.touched, at, from);
        self.marks.mark(at, at + from.len());
        self.plan.ask(DiskCall::Write, &mut self.failures)
    }

    fn sync(&mut self) -> Result<(), DiskError>
        ensures fails { IsErrOf result DiskError.Fault ↔ IsTrue (fails_next DiskCall.Sync (view self.old).plan) }
        ensures memory { view self.new ≡ after_sync (view self.old) }
        ensures syncs { Syncs false result (memory_device self.old) (memory_device self.new) }
    {
        self.syncs = self.syncs.wrapping_add(1);
        self.plan.ask(DiskCall::Sync, &mut self.failures)?;
        sync_marked(
            &mut self.synced,
            &mut self.touched,
            &self.present,
            &self.marks,
        );
        self.marks.clear();
        Ok(())
    }

    ghost image_size = { λ m c tells left. left.size };

    ghost counts_content = { λ m tells. counts_content m };

    ghost counts_now = { λ m t c tells le now. now };

    ghost only_now = { λ m c tells left. left };
}

impl Faults for MemDisk {
    ghost use Rattle.disk_memory.specs.MemDisk.{memory_device, view};

    ghost plans = { λ n old new. view new ≡ record (view old) { plan = plan_for n } };

    ghost plans_kind = { λ kind n old new. view new ≡ record (view old) { plan = plan_for_kind kind n } };

    fn fail_at(&mut self, n: u64)
        ensures unchanged { IsUnchanged (memory_device self.old) (memory_device self.new) }
        ensures plan { view self.new ≡ record (view self.old) { plan = plan_for n } }
    {
        self.plan = match n.checked_sub(1) {
            None => Plan::Never,
            Some(others) => Plan::Any(others),
        };
    }

    fn fail_kind(&mut self, kind: DiskCall, n: u64)
        ensures unchanged { IsUnchanged (memory_device self.old) (memory_device self.new) }
        ensures plan { view self.new ≡ record (view self.old) { plan = plan_for_kind kind n } }
    {
        self.plan = planned(kind, n);
    }
}
