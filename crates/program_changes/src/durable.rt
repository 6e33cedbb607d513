//! What stands in durable changes.

ghost use Rattle.std.specs.Prelude.{◌≡◌, ◌||◌, IfOk};
ghost use Rattle.program_changes.specs.Committed.{Commits};

use disk::Disk;
use journal::JournalError;
use volume_store::Store;

/// What stands in durable changes. Only a commit makes such a value, and what a command prints of a change asks for it.
#[derive(Drop)]
pub struct Durable<T> {
    value: T,
}

impl<T> Durable<T> {
    /// The value.
    pub fn get(&self) -> &T
        ensures { result.now ≡ self.now.value }
    {
        &self.value
    }
}

/// Makes all changes of a store durable, and so what stands in them.
pub(crate) fn commit<D: Disk, T: Drop>(
    store: &mut Store<D>,
    value: T,
) -> Result<Durable<T>, JournalError>
    ensures value { IfOk result (λ durable. durable.value ≡ value) }
    ensures commits { Commits D.device (D.write_grows || D.sync_grows) store.old store.new result }
{
    match store.commit() {
        Ok(()) => Ok(Durable { value }),
        Err(error) => Err(error),
    }
}
