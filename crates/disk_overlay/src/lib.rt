//! A device whose writes stay in memory, over another one that is only read. So what opens a volume may write to it, and the
//! device below keeps each octet. `specs/Overlay.antt` says what it is as a device.
#![tactic(auto)]

ghost use Rattle.std.specs.Prelude.{◌≡◌, ◌+◌, ◌≤◌, IsTrue, Some, None, IfErr, OnErr, OnOk, length, map, replicate};
ghost use Rattle.disk.specs.Calls.{Reads, Syncs, Writes};
ghost use Rattle.disk.specs.Device.{IsRead};
ghost use Rattle.disk.specs.Image.{overwritten, part};
ghost use Rattle.disk_cache.specs.Cache.{cache_device};

use disk::{Disk, DiskError};
use disk_cache::WCache;
use std::alloc::Global;

/// A device over another one, with the octets that were written to it. It asks reads of that one and nothing else.
#[derive(Drop)]
pub struct Overlay<D: Disk> {
    // it is never synced, so it gives nothing to the device below and keeps all that it collected
    below: WCache<D>,
    syncs: u64,
}

impl<D: Disk> Overlay<D> {
    /// A device that holds what this one holds. It takes no memory yet.
    pub fn new(alloc: Global, disk: D) -> Overlay<D>
        ensures disk { result.below.disk ≡ disk }
        ensures nothing { result.below.collected ≡ replicate (D.device disk).size None }
        ensures calls { (result.below.reads ≡ 0) × (result.below.writes ≡ 0) × (result.syncs ≡ 0) }
    {
        Overlay {
            below: WCache::new(alloc, disk),
            syncs: 0,
        }
    }

    /// The device below, as it is. What was written is lost.
    pub fn into_inner(self) -> D
        ensures { result ≡ self.below.disk }
    {
        let Overlay { below, .. } = self;
        below.into_inner()
    }
}

impl<D: Disk> Disk for Overlay<D> {
    ghost use Rattle.std.specs.Prelude.{true, false};
    ghost use Rattle.std.proofs.lemmas.Bool.{false≢true};
    ghost use Rattle.disk_overlay.specs.Overlay.{overlay_device};

    ghost device = { overlay_device D.device };

    ghost write_grows = { true };

    ghost sync_grows = { false };

    fn len(&self) -> u64 {
        self.below.len()
    }

    /// One read of the device below, with the written octets over it.
    fn read(&mut self, at: u64, into: &mut [u8]) -> Result<(), DiskError>
        requires { at + length into.old ≤ (D.device self.old.below.disk).size }
        ensures value { IsTrue (D.device self.old.below.disk).tells
            → OnOk result (into.new ≡ part at (length into.old) (cache_device D.device self.old.below).content) }
        ensures below { IsRead (D.device self.old.below.disk) (D.device self.new.below.disk) }
        ensures kept { self.new.below.collected ≡ self.old.below.collected }
        ensures reads { Reads at (length into.old) into.new result (overlay_device D.device self.old) (overlay_device D.device self.new) }
    {
        self.below.read(at, into)
    }

    /// Keeps the octets and does not call the device below. The only refusal is `Memory`, which has no effect.
    fn write(&mut self, at: u64, from: &[u8]) -> Result<(), DiskError>
        requires { at + length from.now ≤ (D.device self.old.below.disk).size }
        ensures below { self.new.below.disk ≡ self.old.below.disk }
        ensures collects { OnOk result (self.new.below.collected
            ≡ overwritten at (map (λ octet. Some octet) from.now) self.old.below.collected) }
        ensures only_memory { IfErr result (λ error. error ≡ DiskError.Memory) }
        ensures untouched { OnErr result (self.new ≡ self.old) }
        ensures writes { Writes true at from.now result (overlay_device D.device self.old) (overlay_device D.device self.new) }
    {
        self.below.write(at, from)
    }

    /// Does nothing: what was written is lost with this device.
    fn sync(&mut self) -> Result<(), DiskError>
        ensures below { self.new.below ≡ self.old.below }
        ensures done { result ≡ Ok tt }
        ensures syncs { Syncs false result (overlay_device D.device self.old) (overlay_device D.device self.new) }
    {
        self.syncs = self.syncs.wrapping_add(1);
        Ok(())
    }

    ghost image_size = { λ o c tells left. absurd (false≢true tells) };

    ghost counts_content = { λ o tells. absurd (false≢true tells) };

    ghost counts_now = { λ o t c tells le now. now };

    ghost only_now = { λ o c tells left. left };
}
