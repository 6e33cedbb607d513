//! Puts the file of a change on the stage: into an inode of its own, or into the pack (docs/FORMATS.md).

ghost use Rattle.std.specs.Prelude.{◌≡◌, ◌^◌, ◌<◌, ◌≤◌, length, IfOk, MatchOption, OnOk};
ghost use Rattle.model.specs.Files.{HasRoom, IsFileSystem, table};
ghost use Rattle.model.specs.Packs.{member_octets, pack_name};
ghost use Rattle.model.specs.Records as model_records;
ghost use Rattle.fs.specs.Calls.{IsName, IsThere};
ghost use Rattle.fs.specs.Touches.{Touches};
ghost use Rattle.spool_index.specs.Viewed.{place_of};
ghost use Rattle.spool_growing.specs.Calls.{IsKnown, IsPackAt};
ghost use Rattle.spool_growing.specs.Growing.{HasFree};
ghost use Rattle.spool_growing.specs.Putting.{PutsAt, touched_by_put};

use crate::{Free, append_to, make_file};
use fs_blocks::Blocks;
use fs_layout::inodes::{MOST_OCTETS, size_of};
use fs_layout::records::find;
use fs_layout::slots::slot_for;
use spool_index::ChangePlace;
use std::alloc::{AllocError, Global};

/// Where the file of a change is to stand.
#[derive(Clone, Copy, Debug, PartialEq, Eq)]
pub enum PlaceKind {
    /// In an inode of its own.
    Alone,
    /// In the pack, unless that would grow past the largest file: then in an inode of its own.
    Packed,
}

/// The name of the pack.
const PACK_NAME: &[u8] = b"p";

/// The number of octets of a length in the pack.
const LENGTH_SIZE: usize = 4;

/// The octets of a file in the pack: its name and its content, each after its length. Refused only for want of memory.
fn member_of(alloc: Global, name: &[u8], content: &[u8]) -> Result<Vec<u8>, AllocError>
    requires name { length name.now < 256 }
    requires content { length content.now < 2 ^ 32 }
    ensures { IfOk result (λ octets. octets.items ≡ member_octets (record { name = name.now; content = content.now })) }
{
    let size = 1 + name.len() + LENGTH_SIZE + content.len();
    let mut octets = Vec::with_capacity(alloc, size)?;
    octets.push(name.len() as u8)?;
    octets.extend_from_slice(name)?;
    octets.extend_from_slice(&(content.len() as u32).to_le_bytes())?;
    octets.extend_from_slice(content)?;
    Ok(octets)
}

/// The inode of the pack, if there is one. Its name is searched for until it is known.
fn find_pack<B: Blocks>(blocks: &B, inodes: u32, free: &mut Free) -> Option<u32>
    requires room { HasRoom inodes (B.blocks blocks.now) }
    requires rule { IsFileSystem inodes (B.blocks blocks.now) }
    requires known { IsKnown inodes free.old (B.blocks blocks.now) }
    ensures pack { MatchOption result (¬ (IsThere (table inodes (B.blocks blocks.now)) pack_name))
        (IsPackAt (table inodes (B.blocks blocks.now))) }
    ensures known { IsKnown inodes free.new (B.blocks blocks.now) }
{
    if let Some(at) = free.pack {
        return Some(at);
    }
    let Some(at) = find(blocks, inodes, &slot_for(PACK_NAME)) else {
        return None;
    };
    free.pack = Some(at);
    Some(at)
}

/// Puts a file of a new name with these octets into the lowest free inode, and answers its place. There must be room for
/// it. Refused only for want of memory; then the caller must drop the stage.
fn put_alone<B: Blocks>(
    blocks: &mut B,
    inodes: u32,
    free: &mut Free,
    name: &[u8],
    octets: &[u8],
) -> Result<ChangePlace, AllocError>
    requires room { HasRoom inodes (B.blocks blocks.old) }
    requires rule { IsFileSystem inodes (B.blocks blocks.old) }
    requires name { IsName name.now }
    requires short { length octets.now ≤ model_records.largest_record }
    requires lacks { ¬ (IsThere (table inodes (B.blocks blocks.old)) name.now) }
    requires free { HasFree inodes 1 (B.blocks blocks.old) }
    requires known { IsKnown inodes free.old (B.blocks blocks.old) }
    ensures puts { IfOk result (λ place. PutsAt inodes (place_of place) (record { name = name.now; content = octets.now })
        (B.blocks blocks.old) (B.blocks blocks.new)) }
    ensures known { OnOk result (IsKnown inodes free.new (B.blocks blocks.new)) }
    ensures touches { OnOk result (Touches (touched_by_put (length octets.now)) (B.blocks blocks.old) (B.blocks blocks.new)) }
    ensures kept { B.applied blocks.new ≡ B.applied blocks.old }
{
    let at = make_file(blocks, inodes, free, name, octets)?;
    Ok(ChangePlace::Alone(at))
}

/// Puts a file of a new name with these octets at the end of the pack, which is made if there is none, and answers its
/// place. If the pack would grow past the largest file, the file is put as `put_alone` puts it. There must be room for it.
/// Refused only for want of memory; then the caller must drop the stage.
fn put_packed<B: Blocks>(
    alloc: Global,
    blocks: &mut B,
    inodes: u32,
    free: &mut Free,
    name: &[u8],
    octets: &[u8],
) -> Result<ChangePlace, AllocError>
    requires room { HasRoom inodes (B.blocks blocks.old) }
    requires rule { IsFileSystem inodes (B.blocks blocks.old) }
    requires name { IsName name.now }
    requires short { length octets.now ≤ model_records.largest_record }
    requires lacks { ¬ (IsThere (table inodes (B.blocks blocks.old)) name.now) }
    requires free { HasFree inodes 1 (B.blocks blocks.old) }
    requires known { IsKnown inodes free.old (B.blocks blocks.old) }
    ensures puts { IfOk result (λ place. PutsAt inodes (place_of place) (record { name = name.now; content = octets.now })
        (B.blocks blocks.old) (B.blocks blocks.new)) }
    ensures known { OnOk result (IsKnown inodes free.new (B.blocks blocks.new)) }
    ensures touches { OnOk result (Touches (touched_by_put (length octets.now)) (B.blocks blocks.old) (B.blocks blocks.new)) }
    ensures kept { B.applied blocks.new ≡ B.applied blocks.old }
{
    let member = member_of(alloc, name, octets)?;
    let size = member.len() as u32;
    let Some(inode) = find_pack(blocks, inodes, free) else {
        let inode = make_file(blocks, inodes, free, PACK_NAME, &member)?;
        free.pack = Some(inode);
        return Ok(ChangePlace::Packed {
            inode,
            from: 0,
            size,
        });
    };
    let end = size_of(blocks, inodes, inode);
    if MOST_OCTETS < end.saturating_add(u64::from(size)) {
        return put_alone(blocks, inodes, free, name, octets);
    }
    append_to(blocks, inodes, free, inode, &member)?;
    Ok(ChangePlace::Packed {
        inode,
        from: end as u32,
        size,
    })
}

/// Puts a file of a new name with these octets, and answers its place. There must be room for it. Refused only for want of
/// memory; then the caller must drop the stage.
pub(crate) fn put_file<B: Blocks>(
    alloc: Global,
    blocks: &mut B,
    inodes: u32,
    free: &mut Free,
    kind: PlaceKind,
    name: &[u8],
    octets: &[u8],
) -> Result<ChangePlace, AllocError>
    requires room { HasRoom inodes (B.blocks blocks.old) }
    requires rule { IsFileSystem inodes (B.blocks blocks.old) }
    requires name { IsName name.now }
    requires short { length octets.now ≤ model_records.largest_record }
    requires lacks { ¬ (IsThere (table inodes (B.blocks blocks.old)) name.now) }
    requires free { HasFree inodes 1 (B.blocks blocks.old) }
    requires known { IsKnown inodes free.old (B.blocks blocks.old) }
    ensures puts { IfOk result (λ place. PutsAt inodes (place_of place) (record { name = name.now; content = octets.now })
        (B.blocks blocks.old) (B.blocks blocks.new)) }
    ensures known { OnOk result (IsKnown inodes free.new (B.blocks blocks.new)) }
    ensures touches { OnOk result (Touches (touched_by_put (length octets.now)) (B.blocks blocks.old) (B.blocks blocks.new)) }
    ensures kept { B.applied blocks.new ≡ B.applied blocks.old }
{
    match kind {
        PlaceKind::Alone => put_alone(blocks, inodes, free, name, octets),
        PlaceKind::Packed => put_packed(alloc, blocks, inodes, free, name, octets),
    }
}
