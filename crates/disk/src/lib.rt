//! A block device: an array of octets that a crash may leave torn where it was written since the last good sync.
//! `specs/Device.antt` says what a device is at one moment, `specs/Calls.antt` what each call does to that.
#![tactic(auto)]

ghost use Rattle.std.specs.Prelude.{◌≡◌, ◌+◌, ◌≤◌, Bool, List, ℕ, IsTrue, length};
ghost use Rattle.disk.specs.Calls.{Reads, Syncs, Writes};
ghost use Rattle.disk.specs.Device.{Device, IsUnchanged};

/// Why a device call was refused.
#[derive(Clone, Copy, Debug, PartialEq, Eq)]
pub enum DiskError {
    /// The device failed in this call.
    Fault,
    /// An allocation was refused in this call, and the call had no effect.
    Memory,
}

/// The kinds of calls.
#[derive(Clone, Copy, Debug, PartialEq, Eq)]
pub enum DiskCall {
    Read,
    Write,
    Sync,
}

/// A block device. `device` says what it is at each moment; the clauses hold for every call, refused ones included.
///
/// A read takes no memory. A write or a sync that is refused for want of memory has no effect and may be asked again.
pub trait Disk {
    /// What the device is at this moment.
    ghost device: { Self → Device };

    /// Whether a write takes memory. If it does not, none is refused for want of it.
    ghost write_grows: { Bool };

    /// Whether a sync takes memory. If it does not, none is refused for want of it.
    ghost sync_grows: { Bool };

    /// The number of octets of the device.
    fn len(&self) -> u64
        ensures { result ≡ (device self.now).size };

    /// Fills `into` with the octets from `at` on. The range must lie within the device. The only refusal is `Fault`,
    /// which leaves any octets in `into`.
    fn read(&mut self, at: u64, into: &mut [u8]) -> Result<(), DiskError>
        requires { at + length into.old ≤ (device self.old).size }
        ensures { Reads at (length into.old) into.new result (device self.old) (device self.new) };

    /// Writes the octets from `at` on. The range must lie within the device. Until a good sync, a crash may leave any
    /// octets there, even after a fault. `Memory` comes only from a device whose writes take memory; then the call had
    /// no effect.
    fn write(&mut self, at: u64, from: &[u8]) -> Result<(), DiskError>
        requires { at + length from.now ≤ (device self.old).size }
        ensures { Writes write_grows at from.now result (device self.old) (device self.new) };

    /// Makes the content durable: after `Ok` a crash leaves exactly what a read gives. `Fault` makes nothing durable.
    /// `Memory` comes only from a device whose syncs take memory; then the call had no effect.
    fn sync(&mut self) -> Result<(), DiskError>
        ensures { Syncs sync_grows result (device self.old) (device self.new) };

    /// Each image has as many octets as the device.
    ghost image_size: { (d : Self) (c : List ℕ) → IsTrue (device d).tells → (device d).may_leave c → length c ≡ (device d).size };

    /// What a read gives is one of the images that a crash may leave.
    ghost counts_content: { (d : Self) → IsTrue (device d).tells → (device d).may_leave (device d).content };

    /// An image that a crash may leave now is one that a crash since any earlier moment might have left.
    ghost counts_now: { (d : Self) (t : ℕ) (c : List ℕ) → IsTrue (device d).tells → t ≤ (device d).clock → (device d).may_leave c
        → (device d).left_since t c };

    /// A crash since this very moment might have left only what a crash may leave now.
    ghost only_now: { (d : Self) (c : List ℕ) → IsTrue (device d).tells → (device d).left_since (device d).clock c
        → (device d).may_leave c };
}

/// A device whose calls can be made to fail.
pub trait Faults: Disk {
    ghost use Rattle.disk.specs.declared.DiskCall.{DiskCall};

    /// Relates two values: the second is the first with its n-th call from now on planned to fail, counted from 1; 0
    /// plans none.
    ghost plans: { ℕ → Self → Self → Type 0 };

    /// The same relation for calls of one kind.
    ghost plans_kind: { DiskCall → ℕ → Self → Self → Type 0 };

    /// Makes the n-th call of the device from now on, counted from 1, answer `Fault`; 0 cancels an earlier plan. All
    /// that the device means stays as it was.
    fn fail_at(&mut self, n: u64)
        ensures unchanged { IsUnchanged (Self.device self.old) (Self.device self.new) }
        ensures plan { plans n self.old self.new };

    /// Makes the n-th call of that kind from now on, counted from 1, answer `Fault`; 0 cancels an earlier plan. It
    /// replaces an earlier plan. All that the device means stays as it was.
    fn fail_kind(&mut self, kind: DiskCall, n: u64)
        ensures unchanged { IsUnchanged (Self.device self.old) (Self.device self.new) }
        ensures plan { plans_kind kind n self.old self.new };
}
