//! Copies the changes of a spool into a new volume.

ghost use Rattle.std.specs.Prelude.{◌≡◌, ◌+◌, OnOk, length};
ghost use Rattle.model.specs.Files.{free_blocks, free_inodes};
ghost use Rattle.model_renewed.specs.Renewed.{renewed};
ghost use Rattle.volume_store.specs.Saved.{IsSaved};

use crate::refusal::Refusal;
use crate::report::{Amount, Usage};
use disk::Disk;
use program_printing::CommandError;
use session_lookups::LookUps;
use spool::Spool;
use std::alloc::Global;
use volume_renewing::{RenewalCounts, RenewalError, Shortage, Watcher, renew, shortage_for};
use volume_store::Store;

/// What a volume has, and what of it is used.
pub(crate) fn usage_of<D: Disk>(store: &Store<D>) -> Usage
    ensures blocks { result.blocks.all ≡ length store.now.spool.blocks }
    ensures used_blocks { result.blocks.used + free_blocks store.now.spool.blocks ≡ length store.now.spool.blocks }
    ensures inodes { result.inodes.all ≡ store.now.spool.inodes }
    ensures used_inodes { result.inodes.used + free_inodes store.now.spool.inodes store.now.spool.blocks ≡ store.now.spool.inodes }
{
    Usage {
        blocks: Amount {
            all: u64::from(store.spool().blocks()),
            used: store.blocks_used(),
        },
        inodes: Amount {
            all: u64::from(store.spool().inodes()),
            used: store.inodes_used(),
        },
    }
}

/// Copies the changes of a spool into a new volume of the same host, as `volume_renewing::renew` does. Afterwards each image that
/// a crash may leave of the new volume stands for the renewed spool.
pub(crate) fn copy<D: Disk, W: Watcher>(
    alloc: Global,
    old: &Spool,
    new: &mut Store<D>,
    watcher: &mut W,
) -> Result<RenewalCounts, Refusal>
    ensures { OnOk result (IsSaved D.device new.new × (new.new.spool.changes ≡ renewed old.now.changes)) }
{
    match renew(alloc, old, new, watcher) {
        Ok(counts) => Ok(counts),
        Err(RenewalError::Full(serial)) => Err(no_room(old, new, serial)),
        Err(RenewalError::Memory) => Err(Refusal::from(CommandError::Memory)),
        Err(RenewalError::Device(error)) => Err(Refusal::from(error)),
        // it was just made, so its device gives other octets than were written
        Err(RenewalError::NotNew) => Err(Refusal::from(CommandError::Fault)),
    }
}

/// The refusal of a new volume that has no room for the change with this serial: what it lacks, or why that isn't found.
fn no_room<D: Disk>(old: &Spool, new: &Store<D>, serial: u64) -> Refusal {
    match shortage_at(old, new, serial) {
        Ok(shortage) => Refusal::Full(serial, shortage),
        Err(error) => Refusal::from(error),
    }
}

/// What a new volume has too little of for the change with this serial.
fn shortage_at<D: Disk>(
    old: &Spool,
    new: &Store<D>,
    serial: u64,
) -> Result<Shortage, CommandError> {
    // a renewal names no other serial
    if serial == 0 || serial > old.len() {
        return Err(CommandError::Fault);
    }
    let change = old.change(serial)?;
    Ok(shortage_for(new, &change))
}
