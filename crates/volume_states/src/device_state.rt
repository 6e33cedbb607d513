//! The state of the volume on a device.

ghost use Rattle.std.specs.Prelude.{◌≡◌, ◌≢◌, ◌⊎◌, IfErr, IfOk, IsTrue, MatchResult};
ghost use Rattle.disk.specs.Device.{Elapses};
ghost use Rattle.journal.specs.Journal.{IsReady};
ghost use Rattle.journal.specs.Opening.{Costs, LeavesVolume, LeftKept, SyncsFirst};
ghost use Rattle.kernel.specs.Opening.{HasFailed, IsDamaged, IsStill, OnlyReads};
ghost use Rattle.kernel.specs.Label.{IsNoLabel};
ghost use Rattle.model.specs.Files.{HasRoom};
ghost use Rattle.model.specs.Layout.{HoldsIn};
ghost use Rattle.model.specs.Spool.{Spool};
ghost use Rattle.kernel.specs.Standing.{LeavesRefused};
ghost use Rattle.volume_states.specs.State.{IsStatusOf};
ghost use Rattle.volume_states.specs.Told.{IsStateIn, IsStateOf};

use crate::VolumeStatus;
use crate::contents::volume_status;
use disk::Disk;
use fs_blocks::Blocks;
use journal::Journal;
use kernel::{LoadedBlocks, OpenError, Refused, load_blocks, open_journal};
use std::alloc::Global;

/// A device that was examined, and the state of the volume on it.
#[derive(Drop)]
pub struct Examined<D> {
    pub disk: D,
    pub state: VolumeStatus,
}

/// The state of the volume on a device. It is opened as `kernel::open` does it, but its format stays as it is: after the
/// first good sync the images of the open segments are carried home, and nothing else is written. A crash before that
/// sync leaves what a crash at the start might have left, and one after it the volume that a read gives.
///
/// A refusal keeps to this too, and it returns the device. `Fault` (E1) if the device failed. `Memory` (E2) if it did not,
/// and an allocation was refused; then a read gives what it gave before, or the same volume. `NotAVolume` (E3) if the
/// device holds no volume with a label of its size. `Damaged` (E5) if it holds one, but no lawful spool of the label's host
/// in the files of its format.
pub fn state_on<D: Disk>(alloc: Global, disk: D) -> Result<Examined<D>, Refused<D>>
    ensures told { IsTrue (D.device disk).tells → IfOk result (λ seen. IsStateOf (D.device disk).content seen.state) }

    // What is left of the device, on which no more was written than what carries the open segments home.
    ensures still { IfOk result (λ seen. (D.device seen.disk).failures ≡ (D.device disk).failures) }
    ensures time { IfOk result (λ seen. Elapses (D.device disk) (D.device seen.disk)) }
    ensures volume { IfOk result (λ seen. LeftKept (D.device disk) (D.device seen.disk)) }
    ensures moment { IfOk result (λ seen. SyncsFirst D.device disk seen.disk) }
    ensures cost { IsTrue (D.device disk).tells
        → IfOk result (λ seen. Costs 1 (D.device disk).content (D.device disk) (D.device seen.disk)) }
    ensures left { IsTrue (D.device disk).tells
        → IfOk result (λ seen. LeavesVolume (D.device disk).content (D.device seen.disk).content) }

    // What a refusal leaves.
    ensures refusal { IfErr result (λ refused. LeavesRefused D.device disk refused.disk refused.error) }
{
    let mut journal = open_journal(alloc, disk)?;
    match state_in(alloc, &mut journal) {
        Ok(state) => Ok(Examined {
            disk: journal.into_disk(),
            state,
        }),
        Err(error) => Err(Refused {
            disk: journal.into_disk(),
            error,
        }),
    }
}

/// The state of the volume in a journal that was just opened. The device is only read.
fn state_in<D: Disk>(alloc: Global, journal: &mut Journal<D>) -> Result<VolumeStatus, OpenError>
    requires { IsReady journal.old }
    ensures told { IsTrue (D.device journal.old.disk).tells
        → IfOk result (IsStateIn journal.old.format journal.old.label journal.old.size journal.old.blocks) }
    ensures no_label { IfErr result (λ e. e ≡ OpenError.NotAVolume → IsNoLabel journal.old.label journal.old.size) }
    ensures damaged { IfErr result (λ e. e ≡ OpenError.Damaged → IsDamaged D.device journal.old) }
    ensures reads { OnlyReads D.device journal.old journal.new }
    ensures still { MatchResult result (λ state. IsStill D.device journal.old journal.new) (λ error. error ≢ OpenError.Fault
        → IsStill D.device journal.old journal.new) }
    ensures fault { IfErr result (λ error. error ≡ OpenError.Fault → HasFailed D.device journal.old journal.new) }
{
    let LoadedBlocks {
        host,
        inodes,
        format,
        volume,
    } = load_blocks(alloc, journal)?;
    state_over(alloc, &volume, inodes, format, &host)
}

/// The state of the volume of a host in the blocks of a volume of this format.
fn state_over<B: Blocks>(
    alloc: Global,
    blocks: &B,
    inodes: u32,
    format: u32,
    host: &[u8],
) -> Result<VolumeStatus, OpenError>
    requires { HasRoom inodes (B.blocks blocks.now) }
    ensures ok { IfOk result (IsStatusOf format host.now inodes (B.blocks blocks.now)) }
    ensures damaged { IfErr result (λ e. e ≡ OpenError.Damaged → (S : Spool) → HoldsIn format host.now inodes (B.blocks blocks.now) S → ⊥) }
    ensures no_other { IfErr result (λ e. (e ≡ OpenError.Memory) ⊎ (e ≡ OpenError.Damaged)) }
{
    match volume_status(alloc, blocks, inodes, format, host) {
        Ok(status) => Ok(status),
        Err(spool_reading::ReadSpoolError::Memory) => Err(OpenError::Memory),
        Err(spool_reading::ReadSpoolError::Damaged) => Err(OpenError::Damaged),
    }
}
