//! Writes the dirty blocks of a spool as one batch.

ghost use Rattle.std.specs.Prelude.{◌≡◌, ◌*◌, ◌<◌, ◌≤◌, ◌||◌, [], IfErr, OnErr, OnOk, IsTrue, length};
ghost use Rattle.std.specs.List.{All};
ghost use Rattle.disk.specs.Device.{Elapses};
ghost use Rattle.journal.specs.Journal.{IsCaused, IsReady};
ghost use Rattle.model.specs.Volume.{AreDistinct};
ghost use Rattle.journal_volume.specs.Volume.{AgreeOutside};
ghost use Rattle.volume_store.specs.Saved.{Carries, IsSameVolume, LeavesOneOf, after_batch};

use crate::carrying::carry;
use disk::Disk;
use journal::{Journal, JournalError};
use journal_volume::BatchBuf;
use session_lookups::LookUps;
use spool::Spool;

/// Makes the dirty blocks of a spool durable, as one batch; then none is dirty. `Fault` if the device failed, `Memory`
/// if an allocation was refused to it; after either the journal can begin no batch. A crash at any moment leaves the
/// journal's blocks or the spool's.
pub(crate) fn write<D: Disk>(
    journal: &mut Journal<D>,
    spool: &mut Spool,
    batch: &mut BatchBuf,
) -> Result<(), JournalError>
    requires ready { IsReady journal.old }
    requires few { length spool.old.dirty ≤ 512 }
    requires size { length spool.old.blocks ≡ journal.old.size }
    requires agrees { IsTrue (D.device journal.old.disk).tells → AgreeOutside spool.old.dirty journal.old.blocks spool.old.blocks }
    ensures spool { spool.new ≡ record spool.old { dirty = [] } }
    ensures ok { OnOk result (Carries D.device journal.old spool.old.blocks journal.new) }
    ensures same { IsSameVolume journal.old journal.new }
    ensures err { IfErr result (λ error. IsCaused error (D.device journal.old.disk) (D.device journal.new.disk)) }
    ensures memory { IfErr result (λ error. error ≡ JournalError.Memory → IsTrue (D.write_grows || D.sync_grows)) }
    ensures stopped { OnErr result (IsReady journal.new → ⊥) }
    ensures since { LeavesOneOf D.device journal.old spool.old.blocks journal.new }
    ensures time { Elapses (D.device journal.old.disk) (D.device journal.new.disk) }
{
    // for the proof: the blocks are whole
    spool.kept();
    spool.copy_dirty(batch);
    write_batch(journal, spool.len(), batch)
}

/// Writes a batch, unless it is empty.
fn write_batch<D: Disk>(
    journal: &mut Journal<D>,
    last: u64,
    batch: &BatchBuf,
) -> Result<(), JournalError>
    requires ready { IsReady journal.old }
    requires few { length batch.now.numbers ≤ 512 }
    requires below { All (λ n. n < journal.old.size) batch.now.numbers }
    requires distinct { AreDistinct batch.now.numbers }
    requires images { length batch.now.images ≡ 4096 * length batch.now.numbers }
    ensures ok { OnOk result (Carries D.device journal.old (after_batch journal.old.blocks batch.now) journal.new) }
    ensures same { IsSameVolume journal.old journal.new }
    ensures err { IfErr result (λ error. IsCaused error (D.device journal.old.disk) (D.device journal.new.disk)) }
    ensures memory { IfErr result (λ error. error ≡ JournalError.Memory → IsTrue (D.write_grows || D.sync_grows)) }
    ensures stopped { OnErr result (IsReady journal.new → ⊥) }
    ensures since { LeavesOneOf D.device journal.old (after_batch journal.old.blocks batch.now) journal.new }
    ensures time { Elapses (D.device journal.old.disk) (D.device journal.new.disk) }
{
    if batch.numbers().is_empty() {
        // for the proof: what a crash leaves
        let _idle = journal.is_idle();
        return Ok(());
    }
    journal.begin(last, batch.numbers(), batch.images());
    carry(journal)
}
