//! Carries a batch to its end.

ghost use Rattle.std.specs.Prelude.{◌≡◌, ◌||◌, false, IfErr, IsTrue, OnErr, OnOk};
ghost use Rattle.disk.specs.Device.{Elapses};
ghost use Rattle.journal.specs.Journal.{IsCaused, IsReady, with_batch};
ghost use Rattle.journal.specs.declared.Next.{Next};
ghost use Rattle.volume_store.specs.Saved.{Carries, IsSameVolume, LeavesOneOf};

use disk::Disk;
use journal::{Journal, JournalError};

/// Makes the device calls of the batch that has begun, to its end. `Fault` if the device failed, `Memory` if an
/// allocation was refused to it. A crash at any moment leaves the blocks without the batch or those with it.
pub(crate) fn carry<D: Disk>(journal: &mut Journal<D>) -> Result<(), JournalError>
    requires running { journal.old.halted ≡ false }
    requires next { journal.old.next ≡ Next.Descriptor }
    ensures ok { OnOk result (Carries D.device journal.old (with_batch journal.old) journal.new) }
    ensures same { IsSameVolume journal.old journal.new }
    ensures err { IfErr result (λ error. IsCaused error (D.device journal.old.disk) (D.device journal.new.disk)) }
    ensures memory { IfErr result (λ error. error ≡ JournalError.Memory → IsTrue (D.write_grows || D.sync_grows)) }
    ensures stopped { OnErr result (IsReady journal.new → ⊥) }
    ensures since { LeavesOneOf D.device journal.old (with_batch journal.old) journal.new }
    ensures time { Elapses (D.device journal.old.disk) (D.device journal.new.disk) }
{
    'calls: while !journal.is_idle() {
        journal.step()?;
    }
    Ok(())
}
