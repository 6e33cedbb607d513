//! A device that collects writes until a sync, over another device. So writes to one place, or to adjacent places,
//! reach that device as one. `specs/Cache.antt` says what it is as a device, `specs/Runs.antt` what a sync gives the
//! device below.
#![tactic(auto)]

mod collected;
mod giving;

ghost use Rattle.std.specs.Prelude.{◌≡◌, ◌+◌, ◌≤◌, Some, None, IfErr, OnErr, OnOk, length, map, replicate};
ghost use Rattle.disk.specs.Calls.{Makes, Reads, Syncs, Writes};
ghost use Rattle.disk.specs.Device.{IsRead, IsUnchanged};
ghost use Rattle.disk.specs.Image.{overwritten};
ghost use Rattle.disk_cache.specs.Runs.{calls_of};

use collected::Collected;
use disk::{Disk, DiskCall, DiskError, Faults};
use giving::give_and_sync;
use std::alloc::Global;
use std::marker::Model;

/// A cache over a device.
#[derive(Drop)]
pub struct WCache<D: Disk> {
    disk: D,
    len: u64,
    collected: Collected,
    reads: u64,
    writes: u64,
    syncs: u64,
}

impl<D: Disk> Model for WCache<D> {
    ghost use Rattle.disk_cache.specs.Cache.{CacheView};
    ghost use Rattle.disk_cache.specs.Held.{IsHeld};
    ghost use Rattle.disk_cache.specs.Slots.{places};
    ghost use Rattle.disk_cache.specs.Taken.{taken};

    ghost Value = { CacheView D };

    ghost view = { λ w. record {
      disk = w.disk;
      collected = places (taken w.collected) w.len;
      reads = w.reads;
      writes = w.writes;
      syncs = w.syncs;
    } };

    ghost invariant = { λ w. IsHeld (D.device w.disk) w.len (taken w.collected) };
}

impl<D: Disk> WCache<D> {
    /// A cache over a device. It has collected nothing and takes no memory yet.
    pub fn new(alloc: Global, disk: D) -> WCache<D>
        ensures { result ≡ record { disk = disk; collected = replicate (D.device disk).size None; reads = 0; writes = 0; syncs = 0 } }
    {
        let len = disk.len();
        WCache {
            disk,
            len,
            collected: Collected::new(alloc),
            reads: 0,
            writes: 0,
            syncs: 0,
        }
    }

    /// The device below, as it is. Writes collected since the last good sync are lost.
    pub fn into_inner(self) -> D
        ensures { result ≡ self.disk }
    {
        let WCache { disk, .. } = self;
        disk
    }
}

impl<D: Disk> Disk for WCache<D> {
    ghost use Rattle.std.specs.Prelude.{true, ◌||◌};
    ghost use Rattle.disk_cache.specs.Cache.{cache_device};
    ghost use Rattle.disk_cache.specs.Laws.{cache_counts_content, cache_counts_now, cache_image_size, cache_only_now};

    ghost device = { cache_device D.device };

    ghost write_grows = { true };

    // a sync takes no memory of its own
    ghost sync_grows = { D.write_grows || D.sync_grows };

    fn len(&self) -> u64 {
        self.len
    }

    /// One read of the device below, with the collected octets over it.
    fn read(&mut self, at: u64, into: &mut [u8]) -> Result<(), DiskError>
        requires { at + length into.old ≤ (D.device self.old.disk).size }
        ensures below { IsRead (D.device self.old.disk) (D.device self.new.disk) }
        ensures kept { self.new.collected ≡ self.old.collected }
        ensures reads { Reads at (length into.old) into.new result (cache_device D.device self.old) (cache_device D.device self.new) }
    {
        self.reads = self.reads.wrapping_add(1);
        self.disk.read(at, into)?;
        self.collected.show(at as usize, into);
        Ok(())
    }

    /// Collects the octets and does not call the device below. The only refusal is `Memory`, which has no effect.
    fn write(&mut self, at: u64, from: &[u8]) -> Result<(), DiskError>
        requires { at + length from.now ≤ (D.device self.old.disk).size }
        ensures below { self.new.disk ≡ self.old.disk }
        ensures collects { OnOk result (self.new.collected ≡ overwritten at (map (λ octet. Some octet) from.now) self.old.collected) }
        ensures only_memory { IfErr result (λ error. error ≡ DiskError.Memory) }
        ensures untouched { OnErr result (self.new ≡ self.old) }
        ensures writes { Writes true at from.now result (cache_device D.device self.old) (cache_device D.device self.new) }
    {
        match self.collected.collect(at as usize, from) {
            Ok(()) => {
                self.writes = self.writes.wrapping_add(1);
                Ok(())
            }
            Err(_) => Err(DiskError::Memory),
        }
    }

    /// Gives the device below, in rising place, one write for each longest run of collected octets. Then it asks one
    /// sync. It stops at the first of these calls that is refused. The collected octets are discarded only after `Ok`. It
    /// takes no memory of its own: `Memory` comes only from the device below.
    fn sync(&mut self) -> Result<(), DiskError>
        ensures calls { Makes D.device D.write_grows D.sync_grows (calls_of self.old.collected) result self.old.disk self.new.disk }
        ensures forgets { OnOk result (self.new.collected ≡ replicate (length self.old.collected) None) }
        ensures keeps { OnErr result (self.new.collected ≡ self.old.collected) }
        ensures syncs { Syncs (D.write_grows || D.sync_grows) result (cache_device D.device self.old) (cache_device D.device self.new) }
    {
        match give_and_sync(&mut self.disk, &mut self.collected) {
            Ok(()) => {
                self.collected.clear();
                self.syncs = self.syncs.wrapping_add(1);
                Ok(())
            }
            Err(DiskError::Fault) => {
                self.syncs = self.syncs.wrapping_add(1);
                Err(DiskError::Fault)
            }
            Err(DiskError::Memory) => Err(DiskError::Memory),
        }
    }

    ghost image_size = { cache_image_size D.device D.image_size };

    ghost counts_content = { cache_counts_content D.device D.counts_content };

    ghost counts_now = { cache_counts_now D.device };

    ghost only_now = { cache_only_now D.device D.only_now };
}

impl<D: Faults> Faults for WCache<D> {
    ghost use Rattle.disk_cache.specs.Cache.{cache_device};

    // the plan of the device below, and nothing else
    ghost plans = { λ n old new. (new ≡ record old { disk = new.disk }) × D.plans n old.disk new.disk };

    ghost plans_kind = { λ kind n old new. (new ≡ record old { disk = new.disk }) × D.plans_kind kind n old.disk new.disk };

    /// Makes the n-th call of the device below fail.
    fn fail_at(&mut self, n: u64)
        ensures plan { (self.new ≡ record self.old { disk = self.new.disk }) × D.plans n self.old.disk self.new.disk }
        ensures device { IsUnchanged (D.device self.old.disk) (D.device self.new.disk) }
        ensures unchanged { IsUnchanged (cache_device D.device self.old) (cache_device D.device self.new) }
    {
        self.disk.fail_at(n);
    }

    /// Makes the n-th call of that kind of the device below fail.
    fn fail_kind(&mut self, kind: DiskCall, n: u64)
        ensures plan { (self.new ≡ record self.old { disk = self.new.disk }) × D.plans_kind kind n self.old.disk self.new.disk }
        ensures device { IsUnchanged (D.device self.old.disk) (D.device self.new.disk) }
        ensures unchanged { IsUnchanged (cache_device D.device self.old) (cache_device D.device self.new) }
    {
        self.disk.fail_kind(kind, n);
    }
}
