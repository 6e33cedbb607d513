//! The refusals of an opening, with what is wrong with the volume.

use crate::VolumeFile;
use disk_file::FileDisk;
use kernel::OpenError;
use program_printing::CommandError;
use std::alloc::Global;
use std::fs::File;
use std::rt::Files;

/// The refusal of the opening of a volume in a file. If its device failed, it says why. If it is no volume or is damaged,
/// the file is read once more, to say what is wrong with it; its device has to be dropped before that. Nothing depends on
/// those words.
pub fn refusal_of<R: Files<File = File>>(
    rt: &R,
    alloc: Global,
    file: VolumeFile<'_>,
    error: OpenError,
) -> CommandError {
    match error {
        OpenError::Fault => CommandError::Fault.because(file.counts.cause.read()),
        OpenError::Memory => CommandError::Memory,
        OpenError::NotAVolume | OpenError::Damaged => match finding(rt, alloc, file.path, error) {
            Some(words) => CommandError::Found(error, words),
            None => CommandError::NotOpened(error),
        },
    }
}

/// What is wrong with the volume in a file whose opening was refused, if that is found.
fn finding<R: Files<File = File>>(
    rt: &R,
    alloc: Global,
    path: &str,
    error: OpenError,
) -> Option<String> {
    let Ok(disk) = FileDisk::open_to_read(rt, path) else {
        return None;
    };
    match error {
        OpenError::NotAVolume => volume_findings::no_volume(alloc, disk),
        OpenError::Damaged => volume_findings::damage(alloc, disk),
        OpenError::Fault | OpenError::Memory => None,
    }
}
