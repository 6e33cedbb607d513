//! Adds groups, or removes articles from groups, while no server runs. `specs/Made.antt` says what that makes of a volume, and
//! what a crash leaves.
#![tactic(auto)]

ghost use Rattle.std.specs.Prelude.{IfOk};
ghost use Rattle.model.specs.declared.change.Change.TheVariants as changed;
ghost use Rattle.program_changes.specs.Made.{WasMade};
ghost use Rattle.text_names.specs.Requests.{group_of};

mod ages;
mod durable;
mod listed;
mod not_done;
mod rules;
mod store_changes;

pub use ages::{AgeOrder, expire_older};
use disk::Disk;
pub use durable::Durable;
pub use listed::{GroupOutcome, Outcomes, add_groups, groups};
pub use not_done::NotDone;
use program_files::{VolumeDisk, VolumeFile, new_counts, open_store};
use program_printing::CommandError;
pub use rules::{RuleOrder, expire_by, expire_ruled, tell_by};
use session_lookups::LookUps;
use spool::{AddError, ExpireError};
use std::alloc::Global;
use std::fs::File;
use std::rt::Files;
pub use store_changes::{add_group, expire};
use text_names::{GroupName, GroupRequest};

/// Adds a group to the volume in a file, as `add_group` does. Answers its serial.
pub fn group<R: Files<File = File>>(
    rt: &R,
    alloc: Global,
    path: &str,
    group: &GroupRequest,
) -> Result<Durable<u64>, CommandError>
    ensures { IfOk result (λ serial. WasMade ⟦<VolumeDisk as Disk>⟧.device (changed.Group (group_of group.now)) serial.value) }
{
    let counts = new_counts(alloc)?;
    let file = VolumeFile::new(path, &counts);
    file.outcome(group_in(rt, alloc, file, group))
}

fn group_in<R: Files<File = File>>(
    rt: &R,
    alloc: Global,
    file: VolumeFile<'_>,
    group: &GroupRequest,
) -> Result<Durable<u64>, CommandError>
    ensures { IfOk result (λ serial. WasMade ⟦<VolumeDisk as Disk>⟧.device (changed.Group (group_of group.now)) serial.value) }
{
    let mut store = open_store(rt, alloc, file)?;
    match add_group(&mut store, group) {
        Ok(serial) => Ok(serial),
        Err(NotDone::Refused(AddError::Exists)) => Err(CommandError::Exists),
        Err(NotDone::Refused(AddError::Full)) => Err(CommandError::Full),
        Err(NotDone::Refused(AddError::Memory)) => Err(CommandError::Memory),
        Err(NotDone::Device(error)) => Err(CommandError::from(error)),
    }
}

/// Removes the articles of a group up to a number from the volume in a file, as `expire` does. Answers the serial of the change.
pub fn expire_to<R: Files<File = File>>(
    rt: &R,
    alloc: Global,
    path: &str,
    name: &GroupName,
    number: u32,
) -> Result<Durable<u64>, CommandError>
    ensures { let change = changed.Expire (record { group = name.now; number = number }) in
        IfOk result (λ serial. WasMade ⟦<VolumeDisk as Disk>⟧.device change serial.value) }
{
    let counts = new_counts(alloc)?;
    let file = VolumeFile::new(path, &counts);
    file.outcome(expire_in(rt, alloc, file, name, number))
}

fn expire_in<R: Files<File = File>>(
    rt: &R,
    alloc: Global,
    file: VolumeFile<'_>,
    name: &GroupName,
    number: u32,
) -> Result<Durable<u64>, CommandError>
    ensures { let change = changed.Expire (record { group = name.now; number = number }) in
        IfOk result (λ serial. WasMade ⟦<VolumeDisk as Disk>⟧.device change serial.value) }
{
    let mut store = open_store(rt, alloc, file)?;
    let is_here = store.spool().group(name.as_slice()).is_some();
    match expire(&mut store, name, number) {
        Ok(serial) => Ok(serial),
        Err(NotDone::Refused(ExpireError::NotFound)) if is_here => Err(CommandError::NoArticle),
        Err(refusal) => Err(refusal_of(refusal)),
    }
}

/// Why articles are not removed.
fn refusal_of(refusal: NotDone<ExpireError>) -> CommandError {
    match refusal {
        NotDone::Refused(ExpireError::NotFound) => CommandError::NotFound,
        NotDone::Refused(ExpireError::Full) => CommandError::Full,
        NotDone::Refused(ExpireError::Memory) => CommandError::Memory,
        NotDone::Device(error) => CommandError::from(error),
    }
}
