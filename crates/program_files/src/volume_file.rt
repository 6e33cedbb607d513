//! A volume in a file.

ghost use Rattle.std.specs.Prelude.{◌≡◌, ◌-◌, IfOk, IsErr, Ok, OnErr, OnOk, false};
ghost use Rattle.disk_file.specs.FileDisk.{file_device};
ghost use Rattle.disk_file.specs.declared.FileDisk.{FileDisk};
ghost use Rattle.journal_gates.specs.Gates.{WritesBack};
ghost use Rattle.journal.specs.Journal.{IsReady};
ghost use Rattle.volume_new.specs.Sizes.{device_size};
ghost use Rattle.volume_store.specs.Saved.{IsSaved};

use crate::opening_refusals::refusal_of;
use disk::{Disk, DiskError};
use disk_cache::WCache;
use disk_causes::Cause;
use disk_file::{
    CountedDisk, Counts, Explains, FileDisk, FileError, give_name, holder, sync_directory,
};
use disk_overlay::Overlay;
use journal_gates::write_gates_back;
use kernel::{Opened, Refused};
use kernel_shared::SESSIONS;
use program_printing::CommandError;
use std::alloc::{AllocError, Global};
use std::fs::{self, File};
use std::io::{self, ErrorKind};
use std::rt::Files;
use std::sync::Arc;
use volume_new::{VolumePlan, device_octets, format as format_device};
use volume_states::state_on;
use volume_store::Store;

/// The device of a volume in a file: it collects writes until a sync. The syncs and the octets that are read are counted.
pub type VolumeDisk = WCache<CountedDisk<FileDisk>>;

/// The device of a volume in a file that is only read. What an opening writes to it stays in memory.
pub type ReadDisk = Overlay<CountedDisk<FileDisk>>;

/// The file of a volume, and what is counted of its device.
#[derive(Clone, Copy)]
pub struct VolumeFile<'a> {
    pub path: &'a str,
    pub counts: &'a Arc<Counts, Global>,
    /// The most sessions that the kernel of the volume may have.
    pub sessions: usize,
}

impl<'a> VolumeFile<'a> {
    /// A file whose kernel may have as many sessions as one has that isn't told otherwise.
    pub fn new(path: &'a str, counts: &'a Arc<Counts, Global>) -> VolumeFile<'a> {
        VolumeFile {
            path,
            counts,
            sessions: SESSIONS,
        }
    }

    /// The outcome of a command over this volume. A refusal that says only that the device failed gets the cause of its
    /// first failure.
    pub fn outcome<T>(&self, outcome: Result<T, CommandError>) -> Result<T, CommandError>
        ensures ok { OnOk outcome (result ≡ outcome) }
        ensures err { OnErr outcome (IsErr result) }
    {
        match outcome {
            Ok(done) => Ok(done),
            Err(error) => Err(error.because(self.counts.cause.read())),
        }
    }

    /// A device whose calls are counted.
    fn counted(&self, disk: FileDisk) -> Result<CountedDisk<FileDisk>, AllocError> {
        Ok(CountedDisk::new(disk, Arc::try_clone(self.counts)?))
    }

    /// A device that collects writes until a sync, over the one that `find` gave.
    pub fn collecting(&self, alloc: Global, disk: FileDisk) -> Result<VolumeDisk, AllocError> {
        Ok(WCache::new(alloc, self.counted(disk)?))
    }
}

/// How many octets stand in the file with this path, where a volume is to be made; `None` if there is no file. Refused as
/// `format` is if the file can't be opened for reading and writing, or a server or another command has it. The file stays
/// as it was.
pub fn octets_at<R: Files<File = File>>(
    rt: &R,
    alloc: Global,
    path: &str,
) -> Result<Option<u64>, CommandError> {
    match FileDisk::open_existing(rt, path) {
        Ok(disk) => Ok(Some(disk.len())),
        Err(FileError::Missing) => Ok(None),
        Err(error) => Err(no_device(rt, alloc, path, error)),
    }
}

/// How many changes the volume in a file has. `None` if no volume stands there, it is damaged, or it can't be read. The
/// volume keeps its changes and its format.
pub fn changes_at<R: Files<File = File>>(rt: &R, alloc: Global, path: &str) -> Option<u64> {
    let disk = find(rt, alloc, path).ok()?;
    let examined = state_on(alloc, WCache::new(alloc, disk)).ok()?;
    Some(examined.state.changes)
}

/// Makes an empty volume where no file is. It is made in a file beside that, whose name ends in `.part`, and gets its name once it
/// is whole: so a refusal leaves nothing, and after a kill the same command can be run again. Refused as well if something has come
/// there meanwhile, as a link, and if the file beside it is in use; these leave what is there.
pub fn format_new<R: Files<File = File>>(
    rt: &R,
    alloc: Global,
    path: &str,
    plan: &VolumePlan<'_>,
) -> Result<(), CommandError> {
    let part = format!(in alloc; "{path}.part")?;
    let disk = match FileDisk::make(rt, part.as_str(), device_octets(plan.blocks), None) {
        Ok(disk) => disk,
        Err(error) => return Err(no_device(rt, alloc, part.as_str(), error)),
    };
    // its device keeps the lock until it has its name
    let _locked = format_part(rt, alloc, part.as_str(), disk, plan)?;
    let named = give_name(rt, part.as_str(), path);
    put(rt, path, named)
}

/// Makes an empty volume in place of an empty file, whose owner, group and mode it gets, as `format_new` makes one; the file stays as it
/// was until then. Where no file may be made beside it, the volume is made within it, and a refusal makes it empty again.
pub fn format_empty<R: Files<File = File>>(
    rt: &R,
    alloc: Global,
    path: &str,
    plan: &VolumePlan<'_>,
) -> Result<(), CommandError> {
    // a link names the file that is replaced
    let place = rt.canonicalize(alloc, path)?.into_string();
    let part = format!(in alloc; "{place}.part")?;
    let empty = match fs::metadata(rt, place.as_str()) {
        Ok(empty) => empty,
        Err(error) => return Err(CommandError::NoDevice(FileError::of(error.kind()))),
    };
    let octets = device_octets(plan.blocks);
    let disk = match FileDisk::make(rt, part.as_str(), octets, Some(&empty)) {
        Ok(disk) => disk,
        Err(FileError::Refused(ErrorKind::PermissionDenied) | FileError::Failed(Cause::Denied)) =>
            return format_within(rt, alloc, place.as_str(), plan, true),
        Err(error) => return Err(no_device(rt, alloc, part.as_str(), error)),
    };
    let _locked = format_part(rt, alloc, part.as_str(), disk, plan)?;
    let renamed = replace_empty(rt, part.as_str(), place.as_str());
    put(rt, place.as_str(), renamed)
}

/// Makes an empty volume in place of the file with this path.
pub fn format<R: Files<File = File>>(
    rt: &R,
    alloc: Global,
    path: &str,
    plan: &VolumePlan<'_>,
) -> Result<(), CommandError> {
    format_within(rt, alloc, path, plan, false)
}

/// Makes an empty volume on the device of a file that was just made. A refusal removes that.
fn format_part<R: Files<File = File>>(
    rt: &R,
    alloc: Global,
    part: &str,
    disk: FileDisk,
    plan: &VolumePlan<'_>,
) -> Result<FileDisk, CommandError>
    requires { (file_device disk).size ≡ device_size plan.now.blocks }
{
    match format_device(alloc, disk, plan) {
        Ok(disk) => Ok(disk),
        Err(refused) => {
            let _ = fs::remove_file(rt, part);
            let error = CommandError::from(refused.error);
            Err(error.because(refused.disk.cause()))
        }
    }
}

/// Puts a new volume in place of an empty file. Refused, and the new one removed, if another command has that file or has written to it
/// meanwhile.
fn replace_empty<R: Files<File = File>>(rt: &R, part: &str, path: &str) -> io::Result<()> {
    let replaced = match FileDisk::open_existing(rt, path) {
        Ok(empty) => {
            // its lock keeps others away until it is replaced
            if empty.len() == 0 {
                fs::rename(rt, part, path)
            } else {
                Err(io::Error::from(ErrorKind::AlreadyExists))
            }
        }
        Err(_) => Err(io::Error::from(ErrorKind::AlreadyExists)),
    };
    if replaced.is_err() {
        let _ = fs::remove_file(rt, part);
    }
    replaced
}

/// Makes it durable that a new volume has its name, if it has got it.
fn put<R: Files<File = File>>(
    rt: &R,
    path: &str,
    named: io::Result<()>,
) -> Result<(), CommandError> {
    let durable = match named {
        Ok(()) => sync_directory(rt, path),
        Err(error) => Err(error),
    };
    match durable {
        Ok(()) => Ok(()),
        Err(error) => Err(CommandError::NoDevice(FileError::of(error.kind()))),
    }
}

/// Makes an empty volume within the file with this path. A refusal makes one empty again that was empty.
fn format_within<R: Files<File = File>>(
    rt: &R,
    alloc: Global,
    path: &str,
    plan: &VolumePlan<'_>,
    was_empty: bool,
) -> Result<(), CommandError> {
    let disk = match FileDisk::open(rt, path, device_octets(plan.blocks)) {
        Ok(disk) => disk,
        Err(error) => return Err(no_device(rt, alloc, path, error)),
    };
    match format_device(alloc, disk, plan) {
        Ok(_) => Ok(()),
        Err(refused) => {
            if was_empty {
                // its device still has the lock
                let _ = File::options().write(true).truncate(true).open(rt, path);
            }
            let error = CommandError::from(refused.error);
            Err(error.because(refused.disk.cause()))
        }
    }
}

/// Opens the volume in a file, whose length is the device's.
pub fn open<R: Files<File = File>>(
    rt: &R,
    alloc: Global,
    file: VolumeFile<'_>,
) -> Result<Opened<VolumeDisk>, CommandError>
    ensures { IfOk result (λ opened. IsReady opened.journal) }
{
    let disk = find(rt, alloc, file.path)?;
    open_found(rt, alloc, file, disk)
}

/// The counts of a device of which nothing was asked yet.
pub fn new_counts(alloc: Global) -> Result<Arc<Counts, Global>, AllocError> {
    Ok(Arc::new(alloc, Counts::new())?)
}

/// The octets of the logical blocks on a device, which an opening reads, if the volume has eight segments, as a new one
/// has. If it has fewer, its blocks have more octets, by some 2 MiB for each segment that it lacks.
pub fn block_octets(disk: &FileDisk) -> u64
    ensures { result ≡ (file_device disk.now).size - device_size 0 }
{
    disk.len().saturating_sub(device_octets(0))
}

/// Opens the volume on the device that `find` gave for this file. What is asked of the device is counted.
pub fn open_found<R: Files<File = File>>(
    rt: &R,
    alloc: Global,
    file: VolumeFile<'_>,
    disk: FileDisk,
) -> Result<Opened<VolumeDisk>, CommandError>
    ensures { IfOk result (λ opened. IsReady opened.journal) }
{
    match kernel::open(alloc, file.collecting(alloc, disk)?, file.sessions) {
        Ok(opened) => Ok(opened),
        Err(refused) => {
            let Refused { disk, error } = refused;
            // so that the file is no longer locked
            drop(disk);
            Err(refusal_of(rt, alloc, file, error))
        }
    }
}

/// Opens the volume in a file that no server serves, so that changes can be added to it. All its changes are durable.
pub fn open_store<R: Files<File = File>>(
    rt: &R,
    alloc: Global,
    file: VolumeFile<'_>,
) -> Result<Store<VolumeDisk>, CommandError>
    ensures { IfOk result (IsSaved ⟦<VolumeDisk as Disk>⟧.device) }
{
    let disk = find(rt, alloc, file.path)?;
    match Store::open(alloc, file.collecting(alloc, disk)?) {
        Ok(store) => Ok(store),
        Err(refused) => {
            let Refused { disk, error } = refused;
            // so that the file is no longer locked
            drop(disk);
            Err(refusal_of(rt, alloc, file, error))
        }
    }
}

/// The file of a volume as a device that is only read. It needs no right to write, and the file keeps each octet.
pub fn find_to_read<R: Files<File = File>>(
    rt: &R,
    alloc: Global,
    file: VolumeFile<'_>,
) -> Result<ReadDisk, CommandError> {
    match FileDisk::open_to_read(rt, file.path) {
        Ok(disk) => Ok(Overlay::new(alloc, file.counted(disk)?)),
        Err(error) => Err(no_device(rt, alloc, file.path, error)),
    }
}

/// Opens the volume in a file that is only read. So a volume of format 1 or 2 is one of format 3 in memory alone, and images
/// that an opening carries home are there in memory alone.
pub fn open_to_read<R: Files<File = File>>(
    rt: &R,
    alloc: Global,
    path: &str,
) -> Result<Opened<ReadDisk>, CommandError> {
    let counts = new_counts(alloc)?;
    let file = VolumeFile::new(path, &counts);
    let disk = find_to_read(rt, alloc, file)?;
    match kernel::open(alloc, disk, file.sessions) {
        Ok(opened) => Ok(opened),
        Err(refused) => {
            let Refused { disk, error } = refused;
            // so that the file is no longer locked
            drop(disk);
            Err(refusal_of(rt, alloc, file, error))
        }
    }
}

/// The refusal of a file that is not opened as a device, with the process that holds it, if the system names it.
fn no_device<R: Files<File = File>>(
    rt: &R,
    alloc: Global,
    path: &str,
    error: FileError,
) -> CommandError {
    match error {
        FileError::Held => match holder(rt, alloc, path) {
            Some(process) => CommandError::HeldBy(process),
            None => CommandError::NoDevice(error),
        },
        FileError::Failed(cause) => CommandError::Failed(cause),
        FileError::Missing | FileError::Refused(_) | FileError::Irregular => {
            CommandError::NoDevice(error)
        }
    }
}

/// The file of a volume as a device, after its gates are written back. So the first sync of the opening makes durable
/// what a read gives of them.
pub fn find<R: Files<File = File>>(
    rt: &R,
    alloc: Global,
    path: &str,
) -> Result<FileDisk, CommandError>
    ensures { IfOk result (λ disk. (opened : FileDisk) × WritesBack file_device false false (Ok tt) opened disk) }
{
    let mut disk = match FileDisk::open_existing(rt, path) {
        Ok(disk) => disk,
        Err(error) => return Err(no_device(rt, alloc, path, error)),
    };
    match write_gates_back(alloc, &mut disk) {
        Ok(()) => Ok(disk),
        Err(DiskError::Fault) => Err(CommandError::Fault.because(disk.cause())),
        Err(DiskError::Memory) => Err(CommandError::Memory),
    }
}
