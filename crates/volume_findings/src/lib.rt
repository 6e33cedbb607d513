//! Says in words, for a person alone, what is wrong with a volume whose opening was refused (docs/FORMATS.md). The
//! device is read once more (`volume_reading`), and the first thing that breaks a rule is reported. Nothing depends on
//! what is said here: the journal and the kernel refuse an opening, by their contracts, and no function here promises
//! anything.
#![tactic(auto)]

mod change_findings;
mod file_findings;
mod owners;
mod packs;
mod seen;
mod serials;
mod shapes;

use disk::Disk;
use std::alloc::Global;
use volume_reading::{ReadStop, ReadVolume};

/// Why a device holds no volume, if an opening said `NotAVolume` (E3): its length, its superblock with the label, or the
/// descriptor of an open segment. `None` if nothing is found, a read fails or memory is refused.
pub fn no_volume<D: Disk + Drop>(alloc: Global, disk: D) -> Option<String> {
    match ReadVolume::open(alloc, disk) {
        Err(ReadStop::Wrong(text)) => Some(text),
        Ok(_) | Err(ReadStop::Unseen) => None,
    }
}

/// What breaks the rule of blocks or the rule of files, if an opening said `Damaged` (E5). `None` if nothing is found, a
/// read fails or memory is refused. No article is read and no file in the pack, so not every break of the rule of files is
/// found.
pub fn damage<D: Disk + Drop>(alloc: Global, disk: D) -> Option<String> {
    let Ok(mut volume) = ReadVolume::open(alloc, disk) else {
        return None;
    };
    match look(&mut volume) {
        Err(ReadStop::Wrong(text)) => Some(text),
        Ok(()) | Err(ReadStop::Unseen) => None,
    }
}

/// Checks the rule of blocks, and then the rule of files.
fn look<D: Disk>(volume: &mut ReadVolume<D>) -> Result<(), ReadStop> {
    shapes::look(volume)?;
    let names = owners::look(volume)?;
    file_findings::look(volume, &names)
}
