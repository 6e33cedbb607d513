//! A device over a file, of whose octets nothing is claimed, and a device that counts the calls of another.
#![tactic(auto)]

mod anew;
mod counts;
mod file_refusals;
mod holders;
mod standing;

ghost use Rattle.std.specs.Prelude.{◌≡◌, ◌↔◌, IsErr, IfOk, IfErr, None, OnOk};
ghost use Rattle.disk.specs.Device.{one_more};
ghost use Rattle.disk_file.specs.FileDisk.{CountsNone, caused, first_cause};

use crate::standing::{Seen, Stamp};
pub use anew::{are_one, give_name, make_anew, take_after};
pub use counts::{CountedDisk, Counts, Explains};
use disk::{Disk, DiskError};
use disk_causes::Cause;
pub use file_refusals::FileError;
pub use holders::{Node, holder, holder_in};
use std::fs::{self, File, Metadata, OpenOptions, TryLockError};
use std::io;
use std::os::unix::fs::{FileExt, MetadataExt};
use std::path::Path;
use std::rt::Files;

/// A file used as a device. It counts the calls that are asked and those that fail, and keeps why the first one failed.
#[derive(Drop)]
pub struct FileDisk {
    file: File,
    len: u64,
    reads: u64,
    writes: u64,
    syncs: u64,
    failures: u64,
    /// Why the first call failed.
    cause: Option<Cause>,
    /// When the file was last written, as of the last sync. `None` if this device has written to it since, or has asked for no sync.
    rests: Option<Stamp>,
}

impl FileDisk {
    ghost use Rattle.disk_file.specs.FileDisk.{file_device};

    /// Opens the file at `path` as a device of `len` octets, and makes the file if there is none. Sets its length to
    /// `len`, and makes the file and its directory entry durable. The file is locked as in `open_existing`. `Missing`
    /// if its directory isn't there, `Refused` if the system doesn't open the file, `Irregular` if it is no regular file,
    /// `Held` if the file is locked. Each of these leaves an existing file as it was. `Failed` if a later call fails; then
    /// the file may be new, or have the new length.
    pub fn open<R: Files<File = File>>(rt: &R, path: &str, len: u64) -> Result<FileDisk, FileError>
        ensures size { IfOk result (λ f. (file_device f).size ≡ len) }
        ensures calls { IfOk result (λ f. ((file_device f).reads ≡ 0) × ((file_device f).writes ≡ 0) × ((file_device f).syncs ≡ 0)) }
        ensures failures { IfOk result (λ f. (file_device f).failures ≡ 0) }
        ensures cause { IfOk result (λ f. f.cause ≡ None) }
    {
        Ok(FileDisk::over(make_file(rt, path, len)?, len))
    }

    /// Makes a file anew at `path` as `make_anew` does, in place of what stands there, and opens it as `open` does. It gets the owner,
    /// the group and the mode of `other` before anything is written, or those that a new file of the process has. `Held` if a regular
    /// file stands there that is locked, and `Refused` if one can't be opened for reading and writing, or `make_anew` is refused;
    /// each of these leaves what stands there. `Missing` if its directory isn't there. `Failed` if a later call fails; then the file is
    /// removed.
    pub fn make<R: Files<File = File>>(
        rt: &R,
        path: &str,
        len: u64,
        other: Option<&Metadata>,
    ) -> Result<FileDisk, FileError>
        ensures size { IfOk result (λ f. (file_device f).size ≡ len) }
        ensures calls { IfOk result (λ f. ((file_device f).reads ≡ 0) × ((file_device f).writes ≡ 0) × ((file_device f).syncs ≡ 0)) }
        ensures failures { IfOk result (λ f. (file_device f).failures ≡ 0) }
        ensures cause { IfOk result (λ f. f.cause ≡ None) }
    {
        refuse_held(rt, path)?;
        Ok(FileDisk::over(make_locked(rt, path, len, other)?, len))
    }

    /// Opens the existing file at `path` as a device of the file's own length. The file is locked until the device is
    /// dropped, so that two servers never share it. `Missing` if there is no such file, `Refused` if the file cannot be
    /// opened for reading and writing, `Irregular` if it is no regular file, `Held` if it is locked, `Failed` if a later call
    /// fails. Each refusal leaves the file as it was.
    pub fn open_existing<R: Files<File = File>>(rt: &R, path: &str) -> Result<FileDisk, FileError>
        ensures calls { IfOk result (λ f. ((file_device f).reads ≡ 0) × ((file_device f).writes ≡ 0) × ((file_device f).syncs ≡ 0)) }
        ensures failures { IfOk result (λ f. (file_device f).failures ≡ 0) }
        ensures cause { IfOk result (λ f. f.cause ≡ None) }
    {
        let (file, len) = find_file(rt, path, Access::Whole)?;
        Ok(FileDisk::over(file, len))
    }

    /// Opens the existing file at `path` as a device of the file's own length that is only read: it needs no right to write,
    /// and the system refuses each write to it. The file is locked until the device is dropped, as in `open_existing`, but
    /// others may read it at the same time. Refused as `open_existing` is; `Refused` if the file cannot be opened for reading.
    pub fn open_to_read<R: Files<File = File>>(rt: &R, path: &str) -> Result<FileDisk, FileError>
        ensures calls { IfOk result (λ f. ((file_device f).reads ≡ 0) × ((file_device f).writes ≡ 0) × ((file_device f).syncs ≡ 0)) }
        ensures failures { IfOk result (λ f. (file_device f).failures ≡ 0) }
        ensures cause { IfOk result (λ f. f.cause ≡ None) }
    {
        let (opened, octets) = find_file(rt, path, Access::Reads)?;
        Ok(FileDisk::over(opened, octets))
    }

    // A device of `len` octets over an open file, with no call asked yet.
    fn over(file: File, len: u64) -> FileDisk
        ensures size { (file_device result).size ≡ len }
        ensures calls { ((file_device result).reads ≡ 0) × ((file_device result).writes ≡ 0) × ((file_device result).syncs ≡ 0) }
        ensures failures { (file_device result).failures ≡ 0 }
        ensures cause { result.cause ≡ None }
    {
        FileDisk {
            file,
            len,
            reads: 0,
            writes: 0,
            syncs: 0,
            failures: 0,
            cause: None,
            rests: None,
        }
    }

    // Refuses a file that others have taken out of its folder, cut, or written to since the last sync: what is written to it may be
    // lost.
    fn check(&self) -> Result<(), Cause> {
        match self.file.metadata() {
            Ok(metadata) if Seen::of(&metadata).is_intact(self.len, self.rests) => Ok(()),
            Ok(_) => Err(Cause::Replaced),
            Err(error) => Err(Cause::of(&error)),
        }
    }

    // Writes to the file. The first write after a sync looks at it before, since its own time of the last write changes with each.
    fn write_checked(&mut self, at: u64, from: &[u8]) -> Result<(), Cause>
        ensures device { CountsNone self.old self.new }
        ensures cause { self.new.cause ≡ self.old.cause }
    {
        if self.rests.is_some() {
            self.check()?;
            self.rests = None;
        }
        cause_of(self.file.write_all_at(from, at))
    }

    // Makes the file durable, and looks at it then: what was taken away before is not acknowledged.
    fn sync_checked(&mut self) -> Result<(), Cause>
        ensures device { CountsNone self.old self.new }
        ensures cause { self.new.cause ≡ self.old.cause }
    {
        cause_of(self.file.sync_data())?;
        let seen = match self.file.metadata() {
            Ok(metadata) => Seen::of(&metadata),
            Err(error) => return Err(Cause::of(&error)),
        };
        if !seen.is_intact(self.len, self.rests) {
            return Err(Cause::Replaced);
        }
        self.rests = Some(seen.written());
        Ok(())
    }
}

// What a device does with its file.
#[derive(Clone, Copy, PartialEq, Eq)]
enum Access {
    // It reads and writes it, and nobody else has it.
    Whole,
    // It reads it, as others may at the same time.
    Reads,
}

// The lock comes before the length, so that a file that another process holds stays as it was.
fn make_file<R: Files<File = File>>(rt: &R, path: &str, len: u64) -> Result<File, FileError> {
    let mut options = OpenOptions::new();
    let file = match options.read(true).write(true).create(true).open(rt, path) {
        Ok(file) => file,
        Err(error) => return Err(FileError::of(error.kind())),
    };
    lock(rt, path, &file, Access::Whole)?;
    match make_durable(rt, path, &file, len) {
        Ok(()) => Ok(file),
        Err(error) => Err(FileError::Failed(Cause::of(&error))),
    }
}

// The mode of a file that its owner alone may read and write.
const OWN: u32 = 0o600;

// The mode of a file whose readers and writers the process's own mask chooses.
const ANY: u32 = 0o666;

// Makes a file anew and locks it. One that gets another owner is for its maker alone until then.
fn make_locked<R: Files<File = File>>(
    rt: &R,
    path: &str,
    len: u64,
    other: Option<&Metadata>,
) -> Result<File, FileError> {
    let mode = if other.is_some() { OWN } else { ANY };
    let file = match make_anew(rt, path, mode) {
        Ok(file) => file,
        Err(error) => return Err(FileError::of(error.kind())),
    };
    lock(rt, path, &file, Access::Whole)?;
    match prepare(rt, path, &file, len, other) {
        Ok(()) => Ok(file),
        Err(error) => {
            // it is locked, so it is the one that was made
            let _ = fs::remove_file(rt, path);
            Err(FileError::Failed(Cause::of(&error)))
        }
    }
}

// Gives a new file its owner and mode, and then its length.
fn prepare<R: Files<File = File>>(
    rt: &R,
    path: &str,
    file: &File,
    len: u64,
    other: Option<&Metadata>,
) -> io::Result<()> {
    if let Some(other) = other {
        take_after(file, other)?;
    }
    make_durable(rt, path, file, len)
}

// Refuses a regular file that is locked, or that can't be opened to see whether it is. A link is not followed. It is opened for writing,
// too, since that waits for nobody where a pipe has come there meanwhile.
fn refuse_held<R: Files<File = File>>(rt: &R, path: &str) -> Result<(), FileError> {
    match fs::symlink_metadata(rt, path) {
        Ok(metadata) if metadata.is_file() => {}
        _ => return Ok(()),
    }
    let mut options = OpenOptions::new();
    let file = match options.read(true).write(true).open(rt, path) {
        Ok(file) => file,
        Err(error) => return Err(FileError::of(error.kind())),
    };
    match file.try_lock() {
        Ok(()) => Ok(()),
        Err(TryLockError::WouldBlock) => Err(FileError::Held),
        Err(TryLockError::Error(error)) => Err(FileError::Failed(Cause::of(&error))),
    }
}

// Sets the length of a file, and makes it and its entry in its directory durable.
fn make_durable<R: Files<File = File>>(
    rt: &R,
    path: &str,
    file: &File,
    len: u64,
) -> io::Result<()> {
    file.set_len(len)?;
    file.sync_all()?;
    sync_directory(rt, path)
}

// The length is read under the lock, after which no other server changes the file.
fn find_file<R: Files<File = File>>(
    rt: &R,
    path: &str,
    access: Access,
) -> Result<(File, u64), FileError> {
    if access == Access::Reads && is_irregular(rt, path) {
        return Err(FileError::Irregular);
    }
    let mut options = OpenOptions::new();
    let writes = access == Access::Whole;
    let file = match options.read(true).write(writes).open(rt, path) {
        Ok(file) => file,
        Err(error) => return Err(FileError::of(error.kind())),
    };
    lock(rt, path, &file, access)?;
    match file.metadata() {
        Ok(metadata) => Ok((file, metadata.len())),
        Err(error) => Err(FileError::Failed(Cause::of(&error))),
    }
}

// Whether something else than a regular file is at this path. To open a pipe for reading would wait for who writes to it.
fn is_irregular<R: Files<File = File>>(rt: &R, path: &str) -> bool {
    match fs::metadata(rt, path) {
        Ok(metadata) => !metadata.is_file(),
        Err(_) => false,
    }
}

// Locks a regular file until it is closed. `Held` also where another file has its path by then: a renewal has just replaced it, and
// what is written to it would be lost.
fn lock<R: Files<File = File>>(
    rt: &R,
    path: &str,
    file: &File,
    access: Access,
) -> Result<(), FileError> {
    match file.metadata() {
        Ok(metadata) if metadata.is_file() => {}
        Ok(_) => return Err(FileError::Irregular),
        Err(error) => return Err(FileError::Failed(Cause::of(&error))),
    }
    let locked = match access {
        Access::Whole => file.try_lock(),
        Access::Reads => file.try_lock_shared(),
    };
    match locked {
        Ok(()) if is_at(rt, path, file).unwrap_or(false) => Ok(()),
        Ok(()) | Err(TryLockError::WouldBlock) => Err(FileError::Held),
        Err(TryLockError::Error(error)) => Err(FileError::Failed(Cause::of(&error))),
    }
}

// Whether the open file is the one at this path.
fn is_at<R: Files<File = File>>(rt: &R, path: &str, file: &File) -> io::Result<bool> {
    let open = file.metadata()?;
    let there = fs::metadata(rt, path)?;
    Ok(open.dev() == there.dev() && open.ino() == there.ino())
}

/// Makes the entry of the file at this path in its directory durable. Refused where the system doesn't open or sync the directory.
pub fn sync_directory<R: Files<File = File>>(rt: &R, path: &str) -> io::Result<()> {
    let directory = match Path::new(path).parent() {
        Some(directory) if !directory.as_str().is_empty() => File::open(rt, directory)?,
        _ => File::open(rt, ".")?,
    };
    directory.sync_all()
}

// A refusal of the system as its cause.
fn cause_of(outcome: io::Result<()>) -> Result<(), Cause>
    ensures { result ≡ caused outcome }
{
    match outcome {
        Ok(()) => Ok(()),
        Err(refusal) => Err(Cause::of(&refusal)),
    }
}

// The answer to a call to the file. A failure is counted, and the cause of the first one is kept.
fn answer(
    outcome: Result<(), Cause>,
    failures: &mut u64,
    cause: &mut Option<Cause>,
) -> Result<(), DiskError>
    ensures fails { IsErr result ↔ IsErr outcome }
    ensures counted { IfErr result (λ e. failures.new ≡ one_more failures.old) }
    ensures uncounted { OnOk result (failures.new ≡ failures.old) }
    ensures refused { IfErr result (λ e. e ≡ DiskError.Fault) }
    ensures cause { cause.new ≡ first_cause cause.old outcome }
{
    let Err(why) = outcome else {
        return Ok(());
    };
    *failures = failures.wrapping_add(1);
    if cause.is_none() {
        *cause = Some(why);
    }
    Err(DiskError::Fault)
}

impl Disk for FileDisk {
    ghost use Rattle.std.specs.Prelude.{false};
    ghost use Rattle.std.proofs.lemmas.Bool.{false≢true};
    ghost use Rattle.disk_file.specs.FileDisk.{file_device};

    ghost device = { file_device };

    ghost write_grows = { false };

    ghost sync_grows = { false };

    fn len(&self) -> u64 {
        self.len
    }

    fn read(&mut self, at: u64, into: &mut [u8]) -> Result<(), DiskError> {
        self.reads = self.reads.wrapping_add(1);
        let done = cause_of(self.file.read_exact_at(into, at));
        answer(done, &mut self.failures, &mut self.cause)
    }

    fn write(&mut self, at: u64, from: &[u8]) -> Result<(), DiskError> {
        self.writes = self.writes.wrapping_add(1);
        let done = self.write_checked(at, from);
        answer(done, &mut self.failures, &mut self.cause)
    }

    fn sync(&mut self) -> Result<(), DiskError> {
        self.syncs = self.syncs.wrapping_add(1);
        let done = self.sync_checked();
        answer(done, &mut self.failures, &mut self.cause)
    }

    ghost image_size = { λ f c tells left. absurd (false≢true tells) };

    ghost counts_content = { λ f tells. absurd (false≢true tells) };

    ghost counts_now = { λ f t c tells le now. now };

    ghost only_now = { λ f c tells left. left };
}

impl Explains for FileDisk {
    ghost said = { λ f. f.cause };

    fn cause(&self) -> Option<Cause> {
        self.cause
    }
}
