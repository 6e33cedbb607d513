//! The change with a serial, from the file that holds it.

ghost use Rattle.std.specs.Prelude.{◌≡◌, ◌-◌, Some, slice_get, IfOk};
ghost use Rattle.model.specs.Files.{HasRoom};
ghost use Rattle.model.specs.Layout.{Holds};
ghost use Rattle.model.specs.Spool.{Spool};
ghost use Rattle.model.specs.Stream.{Octets};
ghost use Rattle.spool_texts.specs.Stored.{HasChange};

use crate::change_copy::change_said;
use fs_blocks::Blocks;
use model::Change;
use spool_index::Places;
use spool_reading::{file_in, read_change};
use std::alloc::{AllocError, Global};

/// The change with this serial of the spool that the blocks hold, read once from its file.
pub fn change<B: Blocks>(
    alloc: Global,
    blocks: &B,
    inodes: u32,
    places: &Places,
    serial: u64,
) -> Result<Change, AllocError>
    requires room { HasRoom inodes (B.blocks blocks.now) }
    requires there { HasChange inodes (B.blocks blocks.now) places.now serial }
    ensures { IfOk result (λ change. (host : Octets) (S : Spool) → Holds host inodes (B.blocks blocks.now) S
        → slice_get S (serial - 1) ≡ Some change) }
{
    let place = places.changes()[(serial - 1) as usize];
    let file = file_in(alloc, blocks, inodes, place)?;
    let Some(said) = read_change(alloc, &file.name, &file.content, serial)? else {
        unreachable!()
    };
    change_said(alloc, said)
}
