//! Where the new volume is made, and where it is put.

ghost use Rattle.std.specs.Prelude.{◌≡◌, IfOk};
ghost use Rattle.disk_file.specs.FileDisk.{file_device};

use disk_causes::Cause;
use disk_file::{Counts, FileDisk, FileError, are_one, sync_directory};
use program_files::{VolumeFile, new_counts};
use program_printing::{CommandError, Failure};
use std::alloc::{AllocError, Global};
use std::fs::{self, File};
use std::io::{self, ErrorKind};
use std::rt::Files;
use std::sync::Arc;

/// The place of a new volume, and the file beside it in which it is made.
#[derive(Drop)]
pub(crate) struct Target {
    path: String,
    pub(crate) part: String,
    /// The volume that is renewed stands at the place.
    replaces: bool,
    /// What is counted of both devices.
    counts: Arc<Counts, Global>,
}

impl Target {
    /// A place where nothing is. `BadWord` if anything is there.
    pub(crate) fn free<R: Files<File = File>>(
        rt: &R,
        alloc: Global,
        path: &str,
    ) -> Result<Target, Failure> {
        match fs::symlink_metadata(rt, path) {
            Ok(_) => return Err(Failure::bad_word(alloc, "NEW", path, "is there already")),
            Err(error) if error.kind() == ErrorKind::NotFound => (),
            Err(error) => return Err(Failure::Command(not_found(&error))),
        }
        let path = String::from_str(alloc, path)?;
        Ok(Target::at(alloc, path, false)?)
    }

    /// The place of a volume that is replaced. Of a symbolic link it is the file that the link names.
    pub(crate) fn of_old<R: Files<File = File>>(
        rt: &R,
        alloc: Global,
        path: &str,
    ) -> Result<Target, Failure> {
        match rt.canonicalize(alloc, path) {
            Ok(path) => Ok(Target::at(alloc, path.into_string(), true)?),
            Err(error) => Err(Failure::Command(not_found(&error))),
        }
    }

    fn at(alloc: Global, path: String, replaces: bool) -> Result<Target, AllocError> {
        let part = format!(in alloc; "{path}.part")?;
        Ok(Target {
            path,
            part,
            replaces,
            counts: new_counts(alloc)?,
        })
    }

    /// The file of a volume of this renewal.
    pub(crate) fn file<'a>(&'a self, path: &'a str) -> VolumeFile<'a> {
        VolumeFile::new(path, &self.counts)
    }

    /// Why a device of this renewal failed first.
    pub(crate) fn cause(&self) -> Option<Cause> {
        self.counts.cause.read()
    }

    /// Makes the file beside the place anew, as `FileDisk::make` does. One that is to replace a volume has the owner, the group and the
    /// mode of that from the beginning on. A second name of that volume, as a `format` that was killed may leave it there, is taken away.
    pub(crate) fn make_part<R: Files<File = File>>(
        &self,
        rt: &R,
        len: u64,
    ) -> Result<FileDisk, FileError>
        ensures size { IfOk result (λ disk. (file_device disk).size ≡ len) }
    {
        let (path, part) = (self.path.as_str(), self.part.as_str());
        if !self.replaces {
            return FileDisk::make(rt, part, len, None);
        }
        if are_one(rt, path, part) {
            let _ = fs::remove_file(rt, part);
        }
        match fs::metadata(rt, path) {
            Ok(old) => FileDisk::make(rt, part, len, Some(&old)),
            Err(error) => Err(FileError::Failed(Cause::of(&error))),
        }
    }

    /// Puts the new volume in its place, all octets of which are durable, and makes that durable. A volume that it replaces
    /// stays whole until then.
    pub(crate) fn put<R: Files<File = File>>(&self, rt: &R) -> io::Result<()> {
        fs::rename(rt, self.part.as_str(), self.path.as_str())?;
        sync_directory(rt, self.path.as_str())
    }

    /// Removes the file of a new volume that was not finished. What is left of it is made anew by the next renewal.
    pub(crate) fn remove_part<R: Files<File = File>>(&self, rt: &R) {
        let _ = fs::remove_file(rt, self.part.as_str());
    }
}

/// The refusal of a path at which the system doesn't look.
fn not_found(error: &io::Error) -> CommandError {
    CommandError::NoDevice(FileError::of(error.kind()))
}
