//! The portions of a backup on their way from the flusher to the device of its file.

ghost use Rattle.std.specs.Prelude.{◌≡◌, ◌≤◌};
ghost use Rattle.volume_new.specs.Sizes.{device_size};

use crate::backup_plan::BackupPlan;
use crate::no_backup::NoBackup;
use copy_portions::{Left, Portion};
use copy_writing::{begin, complete, put};
use crossbeam_channel::{Receiver, Sender, unbounded};
use disk::DiskError;
use disk_file::Explains;
use journal_layout::{FormatError, are_below};
use server_consoles::Console;
use server_copying::{CopyJob, Filled};
use std::alloc::Global;
use std::sync::Wait;

/// After so many portions the file is synced, so that no sync has much to do, and the volume's own syncs wait for none that has.
const SYNCED: u32 = 4;

/// The ways of the portions of one backup.
#[derive(Drop)]
pub(crate) struct Portions<'a> {
    console: &'a Console,
    filled: Receiver<Filled>,
    emptied: Sender<Portion>,
}

impl<'a> Portions<'a> {
    /// Has the flusher copy all blocks. `Memory`, or `Halted` if it has ended.
    pub(crate) fn ask<R: Wait>(
        rt: &R,
        alloc: Global,
        console: &'a Console,
        blocks: u32,
    ) -> Result<Portions<'a>, NoBackup> {
        let (to_write, filled) = unbounded(alloc)?;
        let (emptied, to_fill) = unbounded(alloc)?;
        let job = CopyJob::new(Left::all(alloc, blocks)?, to_write, to_fill);
        if emptied.send(rt, Portion::new(alloc)?).is_err() {
            return Err(NoBackup::Memory);
        }
        if console.copy(rt, job).is_err() {
            return Err(NoBackup::Halted);
        }
        Ok(Portions {
            console,
            filled,
            emptied,
        })
    }

    /// Writes a backup of this plan to a device, and makes it durable. Answers how many changes it has. A refusal may leave anything on the
    /// device but a volume.
    pub(crate) fn write_all<R: Wait, D: Explains>(
        &self,
        rt: &R,
        alloc: Global,
        plan: &BackupPlan,
        disk: &mut D,
    ) -> Result<u64, NoBackup>
        requires { (D.device disk.old).size ≡ device_size plan.now.blocks }
    {
        let copy = plan.copy();
        if let Err(error) = begin(disk, &copy) {
            return Err(cause_of(disk, error));
        }
        let mut unsynced = 0;
        'portions: for _ in rt.forever() {
            match self.filled.recv(rt) {
                Ok(Filled::More(portion)) => {
                    put_portion(disk, plan, &portion)?;
                    unsynced = sync_in_time(disk, unsynced)?;
                    self.give_back(rt, portion)?;
                }
                Ok(Filled::Last { portion, changes }) => {
                    put_portion(disk, plan, &portion)?;
                    return match complete(alloc, disk, &copy) {
                        Ok(()) => Ok(changes),
                        Err(error) => Err(cause_of(disk, error)),
                    };
                }
                Err(_) => return Err(NoBackup::Halted),
            }
        }
        unreachable!()
    }

    /// Gives a portion back to be filled.
    fn give_back<R: Wait>(&self, rt: &R, portion: Portion) -> Result<(), NoBackup> {
        if self.emptied.send(rt, portion).is_err() || self.console.note_emptied(rt).is_err() {
            return Err(NoBackup::Halted);
        }
        Ok(())
    }
}

/// Writes a portion.
fn put_portion<D: Explains>(
    disk: &mut D,
    plan: &BackupPlan,
    portion: &Portion,
) -> Result<(), NoBackup>
    requires { (D.device disk.old).size ≡ device_size plan.now.blocks }
    ensures { (D.device disk.new).size ≡ device_size plan.now.blocks }
{
    let (blocks, numbers) = (plan.blocks(), portion.numbers());
    // the flusher copies only blocks that the volume has
    if !are_below(numbers, blocks) {
        return Err(NoBackup::Halted);
    }
    match put(disk, blocks, numbers, portion.images()) {
        Ok(()) => Ok(()),
        Err(error) => Err(cause_of(disk, error)),
    }
}

/// Syncs the device after some portions, and answers how many there were since.
fn sync_in_time<D: Explains>(disk: &mut D, unsynced: u32) -> Result<u32, NoBackup>
    ensures { (D.device disk.new).size ≡ (D.device disk.old).size }
{
    if unsynced < SYNCED {
        return Ok(unsynced + 1);
    }
    match disk.sync() {
        Ok(()) => Ok(0),
        Err(DiskError::Fault) => Err(cause_of(disk, FormatError::Fault)),
        Err(DiskError::Memory) => Err(NoBackup::Memory),
    }
}

/// Why a call to the device was refused.
fn cause_of<D: Explains>(disk: &D, error: FormatError) -> NoBackup {
    match (error, disk.cause()) {
        (FormatError::Memory, _) => NoBackup::Memory,
        (FormatError::Fault, Some(cause)) => NoBackup::Failed(cause),
        (FormatError::Fault, None) => NoBackup::Fault,
    }
}
