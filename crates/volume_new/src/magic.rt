//! The last octet of the superblock's magic, which makes a volume one.

ghost use Rattle.std.specs.Prelude.{◌≡◌, ◌⊎◌, ◌≤◌, IsTrue, OnOk};
ghost use Rattle.disk.specs.Device.{Elapses, LeavesOnly};
ghost use Rattle.journal_layout.specs.Formatting.{CountsFaults};
ghost use Rattle.volume_new.specs.Formatting.{AllLackMagic, LacksMagic, LeftOr, completed};

use crate::calls::{octet_at, sync, write};
use disk::Disk;
use journal_layout::FormatError;
use journal_layout::layout::MAGIC;

/// Where the last octet of the magic is.
pub(crate) const MAGIC_END: usize = MAGIC.len() - 1;

/// What is written over it.
const NO_MAGIC: u8 = 0;

/// Takes the last octet of the magic away, if it is there: after `Ok` a crash leaves no image with it. It is written over
/// only if it is there, since a write that a crash cuts short may leave any octet, and so this one.
pub(crate) fn remove<D: Disk>(disk: &mut D) -> Result<(), FormatError>
    requires { 4096 ≤ (D.device disk.old).size }
    ensures gone { IsTrue (D.device disk.old).tells → OnOk result (AllLackMagic (D.device disk.new)) }
    ensures during { LeftOr LacksMagic (D.device disk.old) (D.device disk.new) }
    ensures time { Elapses (D.device disk.old) (D.device disk.new) }
    ensures failures { CountsFaults result (D.device disk.old) (D.device disk.new) }
{
    sync(disk)?;
    if octet_at(disk, MAGIC_END as u64)? != MAGIC[MAGIC_END] {
        return Ok(());
    }
    write_over(disk)?;
    sync(disk)
}

// Writes over the last octet of the magic.
fn write_over<D: Disk>(disk: &mut D) -> Result<(), FormatError>
    requires there { 4096 ≤ (D.device disk.old).size }
    requires synced { IsTrue (D.device disk.old).tells → LeavesOnly (D.device disk.old) (D.device disk.old).content }
    requires magic { IsTrue (D.device disk.old).tells → LacksMagic (D.device disk.old).content → ⊥ }
    ensures gone { IsTrue (D.device disk.old).tells → OnOk result (LacksMagic (D.device disk.new).content) }
    ensures during { LeftOr LacksMagic (D.device disk.old) (D.device disk.new) }
    ensures time { Elapses (D.device disk.old) (D.device disk.new) }
    ensures failures { CountsFaults result (D.device disk.old) (D.device disk.new) }
{
    write(disk, MAGIC_END as u64, &[NO_MAGIC])
}

/// Writes the last octet of the magic, and syncs the device.
pub(crate) fn write_last<D: Disk>(disk: &mut D) -> Result<(), FormatError>
    requires there { 4096 ≤ (D.device disk.old).size }
    requires synced { IsTrue (D.device disk.old).tells → LeavesOnly (D.device disk.old) (D.device disk.old).content }
    ensures content { IsTrue (D.device disk.old).tells
        → OnOk result ((D.device disk.new).content ≡ completed (D.device disk.old).content) }
    ensures synced { IsTrue (D.device disk.old).tells → OnOk result (LeavesOnly (D.device disk.new) (D.device disk.new).content) }
    ensures during { LeftOr (λ image. LacksMagic image ⊎ (image ≡ completed (D.device disk.old).content))
        (D.device disk.old) (D.device disk.new) }
    ensures time { Elapses (D.device disk.old) (D.device disk.new) }
    ensures failures { CountsFaults result (D.device disk.old) (D.device disk.new) }
{
    write(disk, MAGIC_END as u64, &[MAGIC[MAGIC_END]])?;
    sync(disk)
}
