//! Device calls, whose refusals are those of a volume that is made.

ghost use Rattle.std.specs.Prelude.{◌≡◌, ◌⊎◌, ◌<◌, ◌≤◌, ◌+◌, IfOk, IsTrue, OnOk, length, slice_index};
ghost use Rattle.disk.specs.Device.{Elapses, LeavesNoMore, LeavesOnly, LeftNoMore, LeftTornAt, TearsAt};
ghost use Rattle.disk.specs.Image.{overwritten};
ghost use Rattle.journal_layout.specs.Formatting.{CountsFaults};
ghost use Rattle.volume_new.specs.Formatting.{LeavesItOut};

use disk::{Disk, DiskError};
use journal_layout::FormatError;

/// Writes octets from a place on.
pub(crate) fn write<D: Disk>(disk: &mut D, at: u64, from: &[u8]) -> Result<(), FormatError>
    requires { at + length from.now ≤ (D.device disk.old).size }
    ensures content { IsTrue (D.device disk.old).tells
        → OnOk result ((D.device disk.new).content ≡ overwritten at from.now (D.device disk.old).content) }
    ensures crash { TearsAt at (length from.now) (D.device disk.old) (D.device disk.new) }
    ensures since { LeftTornAt at (length from.now) (D.device disk.old) (D.device disk.new) }
    ensures time { Elapses (D.device disk.old) (D.device disk.new) }
    ensures failures { CountsFaults result (D.device disk.old) (D.device disk.new) }
{
    match disk.write(at, from) {
        Ok(()) => Ok(()),
        Err(error) => Err(refusal(error)),
    }
}

/// Writes octets from a place on, and not the last one of the magic.
pub(crate) fn write_beside<D: Disk>(disk: &mut D, at: u64, from: &[u8]) -> Result<(), FormatError>
    requires there { at + length from.now ≤ (D.device disk.old).size }
    requires beside { (at + length from.now ≤ 7) ⊎ (8 ≤ at) }
    ensures content { IsTrue (D.device disk.old).tells
        → OnOk result ((D.device disk.new).content ≡ overwritten at from.now (D.device disk.old).content) }
    ensures leaves { LeavesItOut (D.device disk.old) (D.device disk.new) }
    ensures failures { CountsFaults result (D.device disk.old) (D.device disk.new) }
{
    write(disk, at, from)
}

/// Syncs the device.
pub(crate) fn sync<D: Disk>(disk: &mut D) -> Result<(), FormatError>
    ensures content { IsTrue (D.device disk.old).tells → OnOk result ((D.device disk.new).content ≡ (D.device disk.old).content) }
    ensures synced { IsTrue (D.device disk.old).tells → OnOk result (LeavesOnly (D.device disk.new) (D.device disk.old).content) }
    ensures crash { LeavesNoMore (D.device disk.old) (D.device disk.new) }
    ensures since { LeftNoMore (D.device disk.old) (D.device disk.new) }
    ensures time { Elapses (D.device disk.old) (D.device disk.new) }
    ensures failures { CountsFaults result (D.device disk.old) (D.device disk.new) }
{
    match disk.sync() {
        Ok(()) => Ok(()),
        Err(error) => Err(refusal(error)),
    }
}

/// The octet at a place.
pub(crate) fn octet_at<D: Disk>(disk: &mut D, at: u64) -> Result<u8, FormatError>
    requires { at < (D.device disk.old).size }
    ensures value { IsTrue (D.device disk.old).tells → IfOk result (λ octet. octet ≡ slice_index (D.device disk.old).content at) }
    ensures content { IsTrue (D.device disk.old).tells → OnOk result ((D.device disk.new).content ≡ (D.device disk.old).content) }
    ensures crash { LeavesNoMore (D.device disk.old) (D.device disk.new) }
    ensures since { LeftNoMore (D.device disk.old) (D.device disk.new) }
    ensures time { Elapses (D.device disk.old) (D.device disk.new) }
    ensures failures { CountsFaults result (D.device disk.old) (D.device disk.new) }
{
    let mut octet = [0];
    match disk.read(at, &mut octet) {
        Ok(()) => Ok(octet[0]),
        Err(error) => Err(refusal(error)),
    }
}

fn refusal(error: DiskError) -> FormatError
    ensures fault { result ≡ FormatError.Fault → error ≡ DiskError.Fault }
    ensures memory { result ≡ FormatError.Memory → error ≡ DiskError.Memory }
{
    match error {
        DiskError::Fault => FormatError::Fault,
        DiskError::Memory => FormatError::Memory,
    }
}
