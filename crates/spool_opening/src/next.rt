//! Reads the next change of a spool from its file and replays it.

ghost use Rattle.std.specs.Prelude.{◌≡◌, ◌≢◌, ◌<◌, ◌+◌, ◌++◌, ◌∷◌, [], ℕ, List, None, length, slice_index_or, IfErr, OnOk};
ghost use Rattle.model.specs.Files.{HasRoom, IsFileSystem, table};
ghost use Rattle.model.specs.Layout.{Holds};
ghost use Rattle.model.specs.Spool.{Spool};
ghost use Rattle.model.specs.declared.change.Change.{Change};
ghost use Rattle.spool_opening.specs.Replayed.{AreReplayed, AreReplayedTo, CanReplay, IsItsFile, IsReplayed, MayStandAt};
ghost use Rattle.spool_opening.specs.Stored.{IsNext};
ghost use Rattle.spool_reading.specs.StoredChanges.{change_of};
ghost use Rattle.spool_reading.specs.Sorted.{AreSorted};

use crate::replay::{Replay, replay_article, replay_expiry, replay_group};
use fs_blocks::Blocks;
use model::NewGroup;
use spool_index::ChangePlace;
use spool_reading::{Files, ReadSpoolError, StoredChange, file_in, read_change};
use spool_records::{FileKind, file_name};
use std::alloc::Global;

/// Replays a group, whose numbers and overview are found by their names. `Damaged` only if it is not the next change of
/// a spool that the blocks hold: it may not follow the changes before it, or one of its files is missing.
fn replay_named(
    alloc: Global,
    files: &Files,
    replay: &mut Replay,
    at: u32,
    group: NewGroup,
) -> Result<(), ReadSpoolError>
    requires { AreReplayed replay.old.index replay.old.places }
    ensures ok { OnOk result ((host : List ℕ) (inodes : ℕ) (blocks : List (List ℕ)) (R : Spool)
        → AreSorted (table inodes blocks) files.now.slots.items files.now.named files.now.packed
        → IsReplayed host inodes blocks replay.old.index replay.old.places R
        → IsItsFile inodes blocks (ChangePlace.Alone at) (length R + 1) (Change.Group group)
        → IsReplayed host inodes blocks replay.new.index replay.new.places
        (R ++ Change.Group group ∷ [])) }
    ensures damaged { IfErr result (λ e. e ≡ ReadSpoolError.Damaged → (host : List ℕ) (inodes : ℕ) (blocks : List (List ℕ)) (R S : Spool)
        → AreSorted (table inodes blocks) files.now.slots.items files.now.named files.now.packed
        → IsReplayed host inodes blocks replay.old.index replay.old.places R → Holds host inodes blocks S
        → IsNext host R S (Change.Group group) → ⊥) }
{
    let name = group.name.as_slice();
    let numbers = file_name(alloc, FileKind::Numbers, name)?;
    let overview = file_name(alloc, FileKind::Overview, name)?;
    let Some(first) = files.named.get(&numbers) else {
        return Err(ReadSpoolError::Damaged);
    };
    let Some(second) = files.named.get(&overview) else {
        return Err(ReadSpoolError::Damaged);
    };
    replay_group(replay, at, first, second, group)
}

/// Replays the contents of the file at a place. `Damaged` only if they are not the next change of a spool that the blocks
/// hold.
fn replay_said<B: Blocks>(
    alloc: Global,
    blocks: &B,
    inodes: u32,
    host: &[u8],
    files: &Files,
    replay: &mut Replay,
    place: ChangePlace,
    said: StoredChange<'_>,
) -> Result<(), ReadSpoolError>
    requires room { HasRoom inodes (B.blocks blocks.now) }
    requires rule { IsFileSystem inodes (B.blocks blocks.now) }
    requires sorted { AreSorted (table inodes (B.blocks blocks.now)) files.now.slots.items files.now.named files.now.packed }
    requires replayed { CanReplay host.now inodes (B.blocks blocks.now) replay.old.index replay.old.places }
    requires may { MayStandAt place (change_of said) }
    ensures ok { OnOk result ((R : Spool) → IsReplayed host.now inodes (B.blocks blocks.now) replay.old.index replay.old.places R
        → IsItsFile inodes (B.blocks blocks.now) place (length R + 1) (change_of said.entry)
        → IsReplayed host.now inodes (B.blocks blocks.now) replay.new.index replay.new.places (R ++ change_of said.entry ∷ [])) }
    ensures damaged { IfErr result (λ e. e ≡ ReadSpoolError.Damaged → (R S : Spool)
        → IsReplayed host.now inodes (B.blocks blocks.now) replay.old.index replay.old.places R
        → Holds host.now inodes (B.blocks blocks.now) S → IsNext host.now R S (change_of said.entry) → ⊥) }
{
    match said {
        StoredChange::Group(group) => {
            let ChangePlace::Alone(at) = place else {
                unreachable!()
            };
            replay_named(alloc, files, replay, at, group)
        }
        StoredChange::Article { text, envelope } => replay_article(
            alloc, blocks, inodes, host, files, replay, place, text, envelope,
        ),
        StoredChange::Expiry { group, number } => replay_expiry(replay, place, group, number),
    }
}

/// Replays the change after the first `count`, whose file is in its slot. `Damaged` only if no spool of the host that
/// the blocks hold has more changes.
pub fn replay_next<B: Blocks>(
    alloc: Global,
    blocks: &B,
    inodes: u32,
    host: &[u8],
    files: &Files,
    replay: &mut Replay,
    done: usize,
) -> Result<(), ReadSpoolError>
    requires room { HasRoom inodes (B.blocks blocks.now) }
    requires rule { IsFileSystem inodes (B.blocks blocks.now) }
    requires sorted { AreSorted (table inodes (B.blocks blocks.now)) files.now.slots.items files.now.named files.now.packed }
    requires below { done < length files.now.slots.items }
    requires taken { slice_index_or files.now.slots.items done None ≢ None }
    requires replayed { AreReplayedTo host.now inodes (B.blocks blocks.now) replay.old.index replay.old.places done }
    ensures ok { OnOk result (AreReplayedTo host.now inodes (B.blocks blocks.now) replay.new.index replay.new.places (done + 1)) }
    ensures damaged { IfErr result (λ e. e ≡ ReadSpoolError.Damaged → (S : Spool) → Holds host.now inodes (B.blocks blocks.now) S
        → done < length S → ⊥) }
{
    let slot = files.slots[done];
    let Some(place) = slot else { unreachable!() };
    let file = file_in(alloc, blocks, inodes, place)?;
    let serial = done as u64 + 1;
    let Some(said) = read_change(alloc, &file.name, &file.content, serial)? else {
        return Err(ReadSpoolError::Damaged);
    };
    replay_said(alloc, blocks, inodes, host, files, replay, place, said)
}
