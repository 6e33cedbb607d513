//! Makes a new volume.

ghost use Rattle.std.specs.Prelude.{◌≡◌, ◌≢◌, IfErr, IfOk, IsTrue, MatchResult, OnOk};
ghost use Rattle.disk.specs.Device.{Elapses};
ghost use Rattle.journal_layout.specs.Formatting.{CountsFaults};
ghost use Rattle.volume_new.specs.Formatting.{Formats, IsNew, LeavesNoOther, Spoils};
ghost use Rattle.volume_new.specs.Sizes.{device_size};

use crate::laying::lay_out;
use crate::magic::{remove, write_last};
use crate::new_superblock::superblock;
use crate::{VolumePlan, label};
use disk::Disk;
use journal::{FormatError, JournalError, Refused};
use std::alloc::Global;

/// Makes an empty volume in place of whatever the device holds: its blocks are zeros but for the bitmap of the empty file
/// system. Afterwards the device is synced, and its image stands for the spool without changes. It has the format and the
/// sizes of the plan, and eight segments.
///
/// The last octet of the superblock's magic is what makes it a volume. That octet is overwritten first, if it is there, and
/// written last, each time between two syncs. So a crash at any moment leaves what a crash before the call might have left,
/// or no volume, or the new one.
///
/// All memory is taken before the first call of the device. `Fault` if the device failed, `Memory` if an allocation was
/// refused, here or to the device; no other error. A refusal returns the device, with whatever it then holds.
pub fn format<D: Disk>(alloc: Global, mut disk: D, plan: &VolumePlan<'_>) -> Result<D, Refused<D>>
    requires { (D.device disk).size ≡ device_size plan.now.blocks }
    ensures ok { IfOk result (λ made. Formats plan.now.host.now plan.now.blocks plan.now.inodes plan.now.format
        (D.device disk) (D.device made)) }
    ensures err { IfErr result (λ refused. Spoils refused.error (D.device disk) (D.device refused.disk)) }
    ensures during { MatchResult result
        (λ made. LeavesNoOther plan.now.host.now plan.now.blocks plan.now.inodes plan.now.format (D.device disk) (D.device made))
        (λ refused. LeavesNoOther plan.now.host.now plan.now.blocks plan.now.inodes plan.now.format
        (D.device disk) (D.device refused.disk)) }
{
    match write_volume(alloc, &mut disk, plan) {
        Ok(()) => Ok(disk),
        Err(error) => Err(Refused {
            disk,
            error: refusal(error),
        }),
    }
}

// Writes the volume of a plan.
fn write_volume<D: Disk>(
    alloc: Global,
    disk: &mut D,
    plan: &VolumePlan<'_>,
) -> Result<(), FormatError>
    requires { (D.device disk.old).size ≡ device_size plan.now.blocks }
    ensures made { IsTrue (D.device disk.old).tells
        → OnOk result (IsNew plan.now.host.now plan.now.blocks plan.now.inodes plan.now.format (D.device disk.new)) }
    ensures during { LeavesNoOther plan.now.host.now plan.now.blocks plan.now.inodes plan.now.format
        (D.device disk.old) (D.device disk.new) }
    ensures time { Elapses (D.device disk.old) (D.device disk.new) }
    ensures failures { CountsFaults result (D.device disk.old) (D.device disk.new) }
{
    let Ok(label) = label(alloc, plan.host, plan.inodes as u32) else {
        return Err(FormatError::Memory);
    };
    let Ok(superblock) = superblock(alloc, plan.blocks as u32, &label, plan.format) else {
        return Err(FormatError::Memory);
    };
    remove(disk)?;
    lay_out(disk, plan.blocks, plan.inodes as u32, &superblock)?;
    write_last(disk)
}

fn refusal(error: FormatError) -> JournalError
    ensures fault { result ≡ JournalError.Fault → error ≡ FormatError.Fault }
    ensures memory { result ≡ JournalError.Memory → error ≡ FormatError.Memory }
    ensures no_other { (result ≢ JournalError.NotAVolume) × (result ≢ JournalError.Halted) }
{
    match error {
        FormatError::Fault => JournalError::Fault,
        FormatError::Memory => JournalError::Memory,
    }
}
