//! Changes of a volume that no server serves, each made durable by itself.

ghost use Rattle.std.specs.Prelude.{◌≡◌, ◌||◌, IfOk, length};
ghost use Rattle.model.specs.declared.change.Change.TheVariants as changed;
ghost use Rattle.program_changes.specs.Made.{Changes};
ghost use Rattle.spool.specs.Refusals.{expiry_refusal, group_refusal};
ghost use Rattle.text_names.specs.Requests.{group_of};
ghost use Rattle.volume_store.specs.Saved.{IsSaved};

use crate::durable::{Durable, commit};
use crate::not_done::NotDone;
use disk::Disk;
use spool::{AddError, ExpireError};
use text_names::{GroupName, GroupRequest};
use volume_store::Store;

/// Adds a group to a volume all of whose changes are durable, and makes that durable. Answers its serial. Refused as
/// `Spool::add_group` is, and then nothing changes, or as `Store::commit` is.
///
/// A crash at any moment leaves the changes without the group, or with it.
pub fn add_group<D: Disk>(
    store: &mut Store<D>,
    group: &GroupRequest,
) -> Result<Durable<u64>, NotDone<AddError>>
    requires { IsSaved D.device store.old }
    ensures changes { Changes D.device (D.write_grows || D.sync_grows) store.old store.new (changed.Group (group_of group.now))
        AddError.Memory (group_refusal store.old.spool group.now.name (changed.Group (group_of group.now))) result }
    ensures serial { IfOk result (λ serial. serial.value ≡ length store.new.spool.changes) }
{
    match store.add_group(group) {
        Ok(serial) => match commit(store, serial) {
            Ok(durable) => Ok(durable),
            Err(error) => Err(NotDone::Device(error)),
        },
        Err(error) => Err(NotDone::Refused(error)),
    }
}

/// Removes the articles of a group up to a number from a volume all of whose changes are durable, and makes that durable.
/// Answers the serial of that change. Refused as `Spool::expire` is, and then nothing changes, or as `Store::commit` is.
///
/// A crash at any moment leaves the changes without this one, or with it.
pub fn expire<D: Disk>(
    store: &mut Store<D>,
    name: &GroupName,
    number: u32,
) -> Result<Durable<u64>, NotDone<ExpireError>>
    requires { IsSaved D.device store.old }
    ensures changes { Changes D.device (D.write_grows || D.sync_grows) store.old store.new
        (changed.Expire (record { group = name.now; number = number })) ExpireError.Memory
        (expiry_refusal store.old.spool name.now number) result }
    ensures serial { IfOk result (λ serial. serial.value ≡ length store.new.spool.changes) }
{
    match store.expire(name, number) {
        Ok(serial) => match commit(store, serial) {
            Ok(durable) => Ok(durable),
            Err(error) => Err(NotDone::Device(error)),
        },
        Err(error) => Err(NotDone::Refused(error)),
    }
}
