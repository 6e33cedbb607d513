//! Whether the numbers and the overview of a group continue with an article.

ghost use Rattle.std.specs.Prelude.{◌≡◌, ◌+◌, ◌*◌, ◌^◌, ◌<◌, ◌≤◌, ◌↔◌, ◌++◌, ℕ, List, IsTrue, false, length, IfOk, IfSome, MatchOption};
ghost use Rattle.std.specs.List.{All};
ghost use Rattle.model.specs.Article.{overview_line};
ghost use Rattle.model.specs.Files.{HasRoom, IsFileSystem, table, largest_file};
ghost use Rattle.model.specs.FileKinds.{is_of_change};
ghost use Rattle.model.specs.Packs.{most_changes};
ghost use Rattle.model.specs.Spool.{Spool};
ghost use Rattle.spool_groups.specs.Filing.{AreLineSizes, end_of};
ghost use Rattle.spool_index.specs.View.{Indexes};
ghost use Rattle.spool_opening.specs.Replayed.{AllGoOn, AreHere, IsBounded};
ghost use Rattle.spool_groups.specs.Shown.{shown};
ghost use Rattle.spool_records.specs.Kinds.{front_of};
ghost use Rattle.spool_reading.specs.Sorted.{AreSorted};
ghost use Rattle.spool_opening.specs.Stored.{HasPiece};
ghost use Rattle.spool_opening.specs.Going.{GoesOn};

use fs_blocks::Blocks;
use model::Text;
use spool_admission::find_group;
use spool_groups::Group;
use spool_index::Index;
use spool_reading::{Files, read_file};
use spool_records::{FileKind, file_name, number_record};
use std::alloc::{AllocError, Global};
use text_article::Article;
use text_overview::Overview;

/// The number of octets that an article takes in the numbers of a group.
pub(crate) const NUMBER_SIZE: u64 = 16;

/// Whether a group's file of this kind has these octets at a place.
fn stands<B: Blocks>(
    alloc: Global,
    blocks: &B,
    inodes: u32,
    files: &Files,
    kind: FileKind,
    group: &[u8],
    after: u64,
    piece: &[u8],
) -> Result<bool, AllocError>
    requires room { HasRoom inodes (B.blocks blocks.now) }
    requires rule { IsFileSystem inodes (B.blocks blocks.now) }
    requires sorted { AreSorted (table inodes (B.blocks blocks.now)) files.now.slots.items files.now.named files.now.packed }
    requires index { (content : List ℕ) → is_of_change (record { name = front_of kind ++ group.now; content = content }) ≡ false }
    ensures stands { IfOk result (λ stands. IsTrue stands
        ↔ HasPiece (table inodes (B.blocks blocks.now)) (front_of kind ++ group.now) after piece.now) }
    ensures short { IfOk result (λ stands. IsTrue stands → length piece.now ≤ largest_file) }
{
    let name = file_name(alloc, kind, group)?;
    let Some(at) = files.named.get(&name) else {
        return Ok(false);
    };
    let there = read_file(alloc, blocks, inodes, at, after, piece.len() as u64)?;
    Ok(there.as_slice() == piece)
}

/// The number of octets of an article's line in the overview of a group; `None` if the group's numbers and overview do
/// not continue with the article.
pub fn goes_on<B: Blocks>(
    alloc: Global,
    blocks: &B,
    inodes: u32,
    files: &Files,
    group: &Group,
    serial: u64,
    overview: &Overview<'_>,
) -> Result<Option<u64>, AllocError>
    requires room { HasRoom inodes (B.blocks blocks.now) }
    requires rule { IsFileSystem inodes (B.blocks blocks.now) }
    requires sorted { AreSorted (table inodes (B.blocks blocks.now)) files.now.slots.items files.now.named files.now.packed }
    requires few { length (shown group.now).filed ≤ most_changes }
    requires short { end_of (shown group.now) < 2 ^ 32 }
    ensures { IfOk result (λ size. MatchOption size
        (GoesOn (table inodes (B.blocks blocks.now)) (shown group.now) serial overview.now → ⊥)
        (λ n. GoesOn (table inodes (B.blocks blocks.now)) (shown group.now) serial overview.now
        × (n ≡ length (overview_line (length (shown group.now).filed + 1) overview.now)) × (n < 2 ^ 32))) }
{
    let high = group.high();
    let end = group.overview_size();
    let line = overview.line(alloc, high + 1)?;
    if !stands(
        alloc,
        blocks,
        inodes,
        files,
        FileKind::Overview,
        group.name(),
        end,
        &line,
    )? {
        return Ok(None);
    }
    let record = number_record(serial, end as u32, &line);
    if !stands(
        alloc,
        blocks,
        inodes,
        files,
        FileKind::Numbers,
        group.name(),
        NUMBER_SIZE * high,
        &record,
    )? {
        return Ok(None);
    }
    Ok(Some(line.len() as u64))
}

/// The sizes in octets of an article's lines in the overviews of these groups; `None` if the numbers or the overview of
/// one of them do not continue with the article.
pub fn line_sizes<B: Blocks>(
    alloc: Global,
    blocks: &B,
    inodes: u32,
    files: &Files,
    index: &Index,
    serial: u64,
    article: &Article<'_>,
    here: &[Text],
) -> Result<Option<Vec<u64>>, AllocError>
    requires room { HasRoom inodes (B.blocks blocks.now) }
    requires rule { IsFileSystem inodes (B.blocks blocks.now) }
    requires sorted { AreSorted (table inodes (B.blocks blocks.now)) files.now.slots.items files.now.named files.now.packed }
    requires bounded { IsBounded index.now }
    ensures lines { IfOk result (λ sizes. (S : Spool) → Indexes S index.now → serial ≡ length S + 1 → AreHere S here.now → MatchOption sizes
        (AllGoOn (table inodes (B.blocks blocks.now)) S article.now here.now → ⊥)
        (λ v. AllGoOn (table inodes (B.blocks blocks.now)) S article.now here.now × AreLineSizes S article.now here.now v.items)) }
    ensures small { IfOk result (λ sizes. IfSome sizes (λ v. (length v.items ≡ length here.now) × All (λ n. n < 2 ^ 32) v.items)) }
{
    let overview = Overview::new(alloc, article)?;
    let mut sizes = Vec::with_capacity(alloc, here.len())?;
    for name in here {
        let Some(group) = find_group(index, name.as_slice()) else {
            return Ok(None);
        };
        let Some(size) = goes_on(alloc, blocks, inodes, files, group, serial, &overview)? else {
            return Ok(None);
        };
        sizes.push(size)?;
    }
    Ok(Some(sizes))
}
