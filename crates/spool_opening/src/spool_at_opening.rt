//! Opens a spool.

ghost use Rattle.std.specs.Prelude.{◌≡◌, ◌≤◌, ◌↔◌, IfErr, IfOk, IsTrue};
ghost use Rattle.model.specs.Files.{HasRoom, IsFileSystem, files_in, table};
ghost use Rattle.model.specs.Layout.{Holds, HoldsIn};
ghost use Rattle.model.specs.Packs.{HasNoPack};
ghost use Rattle.model.specs.Spool.{Spool};
ghost use Rattle.spool_opening.specs.Ended.{IsOpened};
ghost use Rattle.spool_reading.specs.Sorted.{AreSorted};

use crate::all::replay_all;
use crate::ending::{are_as_many, are_whole};
use crate::replay::Replay;
use fs_blocks::Blocks;
use fs_check::check;
use fs_layout::FsError;
use spool_reading::{Files, ReadSpoolError, sort};
use std::alloc::Global;

/// The last format without a pack.
const LAST_WITHOUT_PACK: u32 = 2;

/// Opens the spool of a host in the blocks of a volume of this format, whatever they contain: its index, and the places
/// of its files. `Damaged` exactly if the blocks hold no spool of the host, because the rule of blocks or the rule of
/// files is broken, or because a file is larger than the format allows, or because there is a pack in format 1 or 2
/// (docs/FORMATS.md); `Memory` if an allocation was refused. Each file is read once, but for the first octets of those in
/// the pack, and the work is n log n in what is stored.
pub fn open<B: Blocks>(
    alloc: Global,
    blocks: &B,
    inodes: u32,
    format: u32,
    host: &[u8],
) -> Result<Replay, ReadSpoolError>
    requires { HasRoom inodes (B.blocks blocks.now) }
    ensures ok { IfOk result (λ opened. IsOpened host.now inodes (B.blocks blocks.now) opened.index opened.places) }
    ensures format { IfOk result (λ _. (S : Spool) → Holds host.now inodes (B.blocks blocks.now) S
        → HoldsIn format host.now inodes (B.blocks blocks.now) S) }
    ensures damaged { IfErr result (λ e. e ≡ ReadSpoolError.Damaged → (S : Spool)
        → HoldsIn format host.now inodes (B.blocks blocks.now) S → ⊥) }
{
    match check(alloc, blocks, inodes, format) {
        Ok(()) => open_checked(alloc, blocks, inodes, format, host),
        Err(FsError::Damaged) => Err(ReadSpoolError::Damaged),
        Err(_) => Err(ReadSpoolError::Memory),
    }
}

/// Whether a volume of this format may have this many files in its pack.
fn may_pack(format: u32, packed: u32) -> bool
    ensures { IsTrue result ↔ (format ≤ 2 → packed ≡ 0) }
{
    format > LAST_WITHOUT_PACK || packed == 0
}

/// Opens the spool of a host in blocks that keep the rule of blocks. `Damaged` exactly if the rule of files is broken, or
/// if there is a pack in a volume of format 1 or 2.
fn open_checked<B: Blocks>(
    alloc: Global,
    blocks: &B,
    inodes: u32,
    format: u32,
    host: &[u8],
) -> Result<Replay, ReadSpoolError>
    requires room { HasRoom inodes (B.blocks blocks.now) }
    requires rule { IsFileSystem inodes (B.blocks blocks.now) }
    ensures ok { IfOk result (λ opened. IsOpened host.now inodes (B.blocks blocks.now) opened.index opened.places) }
    ensures no_pack { IfOk result (λ _. format ≤ 2 → HasNoPack (files_in (table inodes (B.blocks blocks.now)))) }
    ensures damaged { IfErr result (λ e. e ≡ ReadSpoolError.Damaged → (S : Spool)
        → HoldsIn format host.now inodes (B.blocks blocks.now) S → ⊥) }
{
    let files = match sort(alloc, blocks, inodes) {
        Ok(files) => files,
        Err(error) => return Err(error),
    };
    if !may_pack(format, files.packed) {
        return Err(ReadSpoolError::Damaged);
    }
    open_sorted(alloc, blocks, inodes, host, &files)
}

/// Opens the spool of a host whose files are sorted. `Damaged` exactly if the rule of files is broken.
fn open_sorted<B: Blocks>(
    alloc: Global,
    blocks: &B,
    inodes: u32,
    host: &[u8],
    files: &Files,
) -> Result<Replay, ReadSpoolError>
    requires room { HasRoom inodes (B.blocks blocks.now) }
    requires rule { IsFileSystem inodes (B.blocks blocks.now) }
    requires sorted { AreSorted (table inodes (B.blocks blocks.now)) files.now.slots.items files.now.named files.now.packed }
    ensures ok { IfOk result (λ opened. IsOpened host.now inodes (B.blocks blocks.now) opened.index opened.places) }
    ensures damaged { IfErr result (λ e. e ≡ ReadSpoolError.Damaged → (S : Spool) → Holds host.now inodes (B.blocks blocks.now) S → ⊥) }
{
    let Some(count) = files.change_count() else {
        return Err(ReadSpoolError::Damaged);
    };
    let replay = match replay_all(alloc, blocks, inodes, host, files, count) {
        Ok(replay) => replay,
        Err(error) => return Err(error),
    };
    if !are_as_many(blocks, inodes, files.packed, &replay.index) {
        return Err(ReadSpoolError::Damaged);
    }
    if !are_whole(alloc, blocks, inodes, &replay.index)? {
        return Err(ReadSpoolError::Damaged);
    }
    Ok(replay)
}
