//! Replays all changes of a spool.

ghost use Rattle.std.specs.Prelude.{◌≡◌, IfErr, IfOk};
ghost use Rattle.model.specs.Files.{HasRoom, IsFileSystem, table};
ghost use Rattle.model.specs.Layout.{Holds};
ghost use Rattle.model.specs.Spool.{Spool};
ghost use Rattle.spool_opening.specs.Replayed.{AreReplayedTo};
ghost use Rattle.spool_reading.specs.Sorted.{AreFirst, AreSorted};

use crate::next::replay_next;
use crate::replay::Replay;
use fs_blocks::Blocks;
use spool_index::{Index, Places};
use spool_reading::{Files, ReadSpoolError};
use std::alloc::Global;

/// Replays all changes, whose files are in the first `count` slots. `Damaged` only if the blocks hold no spool of the
/// host.
pub fn replay_all<B: Blocks>(
    alloc: Global,
    blocks: &B,
    inodes: u32,
    host: &[u8],
    files: &Files,
    count: usize,
) -> Result<Replay, ReadSpoolError>
    requires room { HasRoom inodes (B.blocks blocks.now) }
    requires rule { IsFileSystem inodes (B.blocks blocks.now) }
    requires sorted { AreSorted (table inodes (B.blocks blocks.now)) files.now.slots.items files.now.named files.now.packed }
    requires first { AreFirst count files.now.slots.items }
    ensures ok { IfOk result (λ replay. AreReplayedTo host.now inodes (B.blocks blocks.now) replay.index replay.places count) }
    ensures damaged { IfErr result (λ e. e ≡ ReadSpoolError.Damaged → (S : Spool) → Holds host.now inodes (B.blocks blocks.now) S → ⊥) }
{
    let mut replay = Replay {
        index: Index::new(alloc),
        places: Places::new(alloc),
    };
    for done in 0..count {
        match replay_next(alloc, blocks, inodes, host, files, &mut replay, done) {
            Ok(()) => {}
            Err(error) => return Err(error),
        }
    }
    Ok(replay)
}
