//! Renews a volume in a file.

ghost use Rattle.std.specs.Prelude.{◌≡◌, IfOk, length, unwrap_or};

use crate::progress::Teller;
use crate::refusal::Refusal;
use crate::renewal_copy::{copy, usage_of};
use crate::report::{Report, Usage};
use crate::target::Target;
use disk_file::{Explains, FileDisk, FileError};
use program_files::{VolumeDisk, VolumeFile, find, refusal_of};
use program_printing::{CommandError, Failure};
use session_lookups::LookUps;
use spool::Spool;
use std::alloc::Global;
use std::fs::File;
use std::io::Write;
use std::rt::Files;
use std::time::Clock;
use text_names::is_host;
use volume_new::{FORMAT_3, VolumePlan, are_sizes, device_octets, format};
use volume_renewing::RenewalCounts;
use volume_store::Store;

/// A volume in a file, whose device collects writes until a sync.
type FileStore = Store<VolumeDisk>;

/// Which volume is renewed, and into what.
#[derive(Clone, Copy)]
pub struct Order<'a> {
    pub old: &'a str,
    /// The file of the new volume. If none is named, it replaces the old one.
    pub new: Option<&'a str>,
    /// The blocks of the new volume, if not as many as the old one has.
    pub blocks: Option<u64>,
    /// Its inodes, if not as many as the old one has.
    pub inodes: Option<u64>,
}

/// Renews a volume that no server serves, as `volume_renewing::renew` does. The new volume is made in a file beside its place, whose
/// name ends in `.part`, and put there once it is durable. So a crash or a kill at any moment leaves the old volume with all
/// that it stands for, and the new one not at all or whole. A refusal leaves no new volume, and removes the file that was
/// begun. If `faults` is a terminal, it shows the progress.
pub fn renew<R: Files<File = File> + Clock, F: Write>(
    rt: &R,
    alloc: Global,
    order: &Order<'_>,
    faults: &mut F,
    is_terminal: bool,
) -> Result<Report, Refusal> {
    let target = target_of(rt, alloc, order)?;
    let mut teller = Teller::new(rt, faults, is_terminal)?;
    match renew_order(alloc, order, &target, &mut teller) {
        Ok(report) => Ok(report),
        Err(refusal) => Err(refusal.because(target.cause())),
    }
}

/// Renews a volume as `renew` does. Where a device failed, the refusal doesn't say why.
fn renew_order<R: Files<File = File> + Clock, F: Write>(
    alloc: Global,
    order: &Order<'_>,
    target: &Target,
    teller: &mut Teller<'_, R, F>,
) -> Result<Report, Refusal> {
    let old = open(teller.rt, alloc, target.file(order.old))?;
    let before = usage_of(&old);
    let plan = plan_of(alloc, old.spool(), order)?;
    let renewed = renew_to(alloc, old.spool(), &plan, target, teller);
    teller.erase();
    let (counts, after) = renewed?;
    Ok(Report {
        counts,
        before,
        after,
    })
}

/// Where the new volume is put.
fn target_of<R: Files<File = File>>(
    rt: &R,
    alloc: Global,
    order: &Order<'_>,
) -> Result<Target, Failure> {
    match order.new {
        Some(new) => Target::free(rt, alloc, new),
        None => Target::of_old(rt, alloc, order.old),
    }
}

/// The plan of the new volume: the host of the old one, and its sizes where the order names none. `BadWord` if so few blocks
/// have no room for so many inodes.
fn plan_of<'a>(alloc: Global, old: &'a Spool, order: &Order<'_>) -> Result<VolumePlan<'a>, Failure>
    ensures host { IfOk result (λ plan. plan.host.now ≡ old.now.host) }
    ensures blocks { IfOk result (λ plan. plan.blocks ≡ unwrap_or order.now.blocks (length old.now.blocks)) }
    ensures inodes { IfOk result (λ plan. plan.inodes ≡ unwrap_or order.now.inodes old.now.inodes) }
    ensures format { IfOk result (λ plan. plan.format ≡ 3) }
{
    let host = old.host();
    let blocks = order.blocks.unwrap_or(u64::from(old.blocks()));
    let inodes = order.inodes.unwrap_or(u64::from(old.inodes()));
    if !is_host(host) || !are_sizes(blocks, inodes) {
        let word = format!(in alloc; "{inodes}")?;
        return Err(Failure::bad_word(
            alloc,
            "--inodes",
            word.as_str(),
            "is too many for so few blocks",
        ));
    }
    Ok(VolumePlan {
        host,
        blocks,
        inodes,
        format: FORMAT_3,
    })
}

/// Makes the new volume, and puts it in its place. A refusal removes what was begun.
fn renew_to<R: Files<File = File> + Clock, F: Write>(
    alloc: Global,
    old: &Spool,
    plan: &VolumePlan<'_>,
    target: &Target,
    teller: &mut Teller<'_, R, F>,
) -> Result<(RenewalCounts, Usage), Refusal> {
    let rt = teller.rt;
    let mut new = make(rt, alloc, target, plan)?;
    let filled = fill(alloc, old, &mut new, target, teller);
    if filled.is_err() {
        // its device still has the lock, so nobody else makes a volume there
        target.remove_part(rt);
    }
    filled
}

/// Copies the changes into the new volume, and puts it in its place.
fn fill<R: Files<File = File> + Clock, F: Write>(
    alloc: Global,
    old: &Spool,
    new: &mut FileStore,
    target: &Target,
    teller: &mut Teller<'_, R, F>,
) -> Result<(RenewalCounts, Usage), Refusal> {
    let counts = copy(alloc, old, new, teller)?;
    let after = usage_of(new);
    match target.put(teller.rt) {
        Ok(()) => Ok((counts, after)),
        Err(error) => Err(Refusal::NotPut(error)),
    }
}

/// Makes an empty volume in the file beside a place, whatever stands there.
fn make<R: Files<File = File>>(
    rt: &R,
    alloc: Global,
    target: &Target,
    plan: &VolumePlan<'_>,
) -> Result<FileStore, CommandError> {
    let disk = match target.make_part(rt, device_octets(plan.blocks)) {
        Ok(disk) => disk,
        Err(FileError::Failed(cause)) => return Err(CommandError::Failed(cause)),
        Err(error) => return Err(CommandError::NoDevice(error)),
    };
    match format(alloc, disk, plan) {
        Ok(disk) => open_on(rt, alloc, target.file(target.part.as_str()), disk),
        Err(refused) => {
            target.remove_part(rt);
            Err(CommandError::from(refused.error).because(refused.disk.cause()))
        }
    }
}

/// Opens the volume in a file.
fn open<R: Files<File = File>>(
    rt: &R,
    alloc: Global,
    file: VolumeFile<'_>,
) -> Result<FileStore, CommandError> {
    let disk = find(rt, alloc, file.path)?;
    open_on(rt, alloc, file, disk)
}

/// Opens the volume on the device over this file.
fn open_on<R: Files<File = File>>(
    rt: &R,
    alloc: Global,
    file: VolumeFile<'_>,
    disk: FileDisk,
) -> Result<FileStore, CommandError> {
    match Store::open(alloc, file.collecting(alloc, disk)?) {
        Ok(store) => Ok(store),
        Err(refused) => {
            let error = refused.error;
            // so that the file is no longer locked
            drop(refused);
            Err(refusal_of(rt, alloc, file, error))
        }
    }
}
