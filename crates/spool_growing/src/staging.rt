//! The files that a change makes, on the stage. Each is put into the lowest free inode, and its octets into the lowest
//! free blocks.

ghost use Rattle.std.specs.Prelude.{◌≡◌, ◌<◌, ◌≤◌, ◌+◌, ◌++◌, IfOk, OnOk, length};
ghost use Rattle.model.specs.Files.{HasRoom, IsFileSystem, files_in, table};
ghost use Rattle.model.specs.Records as model_records;
ghost use Rattle.model.specs.SpoolFiles.{article_name, expiry_name};
ghost use Rattle.fs.specs.Calls.{IsName, IsThere};
ghost use Rattle.fs.specs.Touches.{Touches};
ghost use Rattle.spool_index.specs.Viewed.{place_of};
ghost use Rattle.spool_growing.specs.Calls.{CreatesAt, IsKnown, MayAllGrow, touched_by_pieces};
ghost use Rattle.spool_records.specs.Kinds.{front_of};
ghost use Rattle.spool_growing.specs.Growing.{FilesArticle, HasFree, LacksGroup, MakesGroup};
ghost use Rattle.spool_growing.specs.Putting.{AreNotPacked, PutsAt, touched_by_put};

use crate::putting::put_file;
use crate::{Free, Piece, PlaceKind, append_all, create_file, make_file};
use fs_blocks::Blocks;
use spool_index::ChangePlace;
use spool_records::{FileKind, file_name, serial_digits};
use std::alloc::{AllocError, Global};

/// The inodes of the files of a group.
#[derive(Clone, Copy)]
pub(crate) struct GroupPlaces {
    pub(crate) at: u32,
    pub(crate) numbers: u32,
    pub(crate) overview: u32,
}

/// Makes a group's file of this kind, empty, and answers its inode. Refused only for want of memory; then the caller must
/// drop the stage.
fn make_empty<B: Blocks>(
    alloc: Global,
    blocks: &mut B,
    inodes: u32,
    free: &mut Free,
    kind: FileKind,
    group: &[u8],
) -> Result<u32, AllocError>
    requires room { HasRoom inodes (B.blocks blocks.old) }
    requires rule { IsFileSystem inodes (B.blocks blocks.old) }
    requires name { IsName (front_of kind ++ group.now) }
    requires new { ¬ (IsThere (table inodes (B.blocks blocks.old)) (front_of kind ++ group.now)) }
    requires few { length (files_in (table inodes (B.blocks blocks.old))) < inodes }
    requires known { IsKnown inodes free.old (B.blocks blocks.old) }
    ensures created { IfOk result (λ at. CreatesAt inodes at (front_of kind ++ group.now) (B.blocks blocks.old) (B.blocks blocks.new)) }
    ensures known { OnOk result (IsKnown inodes free.new (B.blocks blocks.new)) }
    ensures touches { OnOk result (Touches 2 (B.blocks blocks.old) (B.blocks blocks.new)) }
    ensures kept { B.applied blocks.new ≡ B.applied blocks.old }
{
    let name = file_name(alloc, kind, group)?;
    create_file(blocks, inodes, free, name.as_slice())
}

/// Makes the files of a group: its record, and empty numbers and overview. Refused only for want of memory; then the
/// caller must drop the stage.
pub(crate) fn make_group<B: Blocks>(
    alloc: Global,
    blocks: &mut B,
    inodes: u32,
    free: &mut Free,
    name: &[u8],
    record: &[u8],
) -> Result<GroupPlaces, AllocError>
    requires room { HasRoom inodes (B.blocks blocks.old) }
    requires rule { IsFileSystem inodes (B.blocks blocks.old) }
    requires name { length name.now ≤ 40 }
    requires short { length «record».now ≤ model_records.largest_record }
    requires lacks { LacksGroup inodes (B.blocks blocks.old) name.now }
    requires free { HasFree inodes 3 (B.blocks blocks.old) }
    requires known { IsKnown inodes free.old (B.blocks blocks.old) }
    ensures made { IfOk result (λ p. MakesGroup inodes p.at p.numbers p.overview name.now «record».now (B.blocks blocks.old)
        (B.blocks blocks.new)) }
    ensures touches { OnOk result (Touches 254 (B.blocks blocks.old) (B.blocks blocks.new)) }
    ensures known { OnOk result (IsKnown inodes free.new (B.blocks blocks.new)) }
    ensures kept { B.applied blocks.new ≡ B.applied blocks.old }
{
    let first = file_name(alloc, FileKind::Group, name)?;
    let at = make_file(blocks, inodes, free, &first, record)?;
    let numbers = make_empty(alloc, blocks, inodes, free, FileKind::Numbers, name)?;
    let overview = make_empty(alloc, blocks, inodes, free, FileKind::Overview, name)?;
    Ok(GroupPlaces {
        at,
        numbers,
        overview,
    })
}

/// Puts the file of an expiry into the pack, if that may grow by it, and answers its place. Refused only for want of
/// memory; then the caller must drop the stage.
pub(crate) fn put_expiry<B: Blocks>(
    alloc: Global,
    blocks: &mut B,
    inodes: u32,
    free: &mut Free,
    serial: u64,
    record: &[u8],
) -> Result<ChangePlace, AllocError>
    requires room { HasRoom inodes (B.blocks blocks.old) }
    requires rule { IsFileSystem inodes (B.blocks blocks.old) }
    requires short { length «record».now ≤ model_records.largest_record }
    requires lacks { ¬ (IsThere (table inodes (B.blocks blocks.old)) (expiry_name serial)) }
    requires free { HasFree inodes 1 (B.blocks blocks.old) }
    requires known { IsKnown inodes free.old (B.blocks blocks.old) }
    ensures puts { IfOk result (λ at. PutsAt inodes (place_of at) (record { name = expiry_name serial; content = «record».now })
        (B.blocks blocks.old) (B.blocks blocks.new)) }
    ensures touches { OnOk result (Touches 254 (B.blocks blocks.old) (B.blocks blocks.new)) }
    ensures known { OnOk result (IsKnown inodes free.new (B.blocks blocks.new)) }
    ensures kept { B.applied blocks.new ≡ B.applied blocks.old }
{
    let name = file_name(alloc, FileKind::Expiry, &serial_digits(serial))?;
    put_file(
        alloc,
        blocks,
        inodes,
        free,
        PlaceKind::Packed,
        &name,
        record,
    )
}

/// Puts the file of an article, appends what it adds to its groups to their files, and answers the place of its own.
/// Refused only for want of memory; then the caller must drop the stage.
pub(crate) fn file_article<B: Blocks>(
    alloc: Global,
    blocks: &mut B,
    inodes: u32,
    free: &mut Free,
    kind: PlaceKind,
    serial: u64,
    octets: &[u8],
    pieces: &[Piece],
) -> Result<ChangePlace, AllocError>
    requires room { HasRoom inodes (B.blocks blocks.old) }
    requires rule { IsFileSystem inodes (B.blocks blocks.old) }
    requires short { length octets.now ≤ model_records.largest_record }
    requires lacks { ¬ (IsThere (table inodes (B.blocks blocks.old)) (article_name serial)) }
    requires free { HasFree inodes 1 (B.blocks blocks.old) }
    requires grow { MayAllGrow inodes pieces.now (B.blocks blocks.old) }
    requires apart { AreNotPacked (table inodes (B.blocks blocks.old)) pieces.now }
    requires few { length pieces.now ≤ 32 }
    requires known { IsKnown inodes free.old (B.blocks blocks.old) }
    ensures filed { IfOk result (λ at. FilesArticle inodes (place_of at) (record { name = article_name serial; content = octets.now })
        pieces.now (B.blocks blocks.old) (B.blocks blocks.new)) }
    ensures touches { OnOk result (Touches
        (touched_by_put (length octets.now) + touched_by_pieces (table inodes (B.blocks blocks.old)) pieces.now)
        (B.blocks blocks.old) (B.blocks blocks.new)) }
    ensures known { OnOk result (IsKnown inodes free.new (B.blocks blocks.new)) }
    ensures kept { B.applied blocks.new ≡ B.applied blocks.old }
{
    let name = file_name(alloc, FileKind::Article, &serial_digits(serial))?;
    let at = put_file(alloc, blocks, inodes, free, kind, &name, octets)?;
    append_all(blocks, inodes, free, pieces)?;
    Ok(at)
}
