//! Adds one more change to all that is kept of a spool: first its files on the stage, then their places and the index. Last
//! the stage is applied, which takes no memory. If memory is refused, everything is as it was.

ghost use Rattle.std.specs.Prelude.{◌≡◌, IfOk, OnErr, OnOk};
ghost use Rattle.model.specs.Files.{HasRoom};
ghost use Rattle.model.specs.declared.change.Change.{Change};
ghost use Rattle.spool_growing.specs.Calls.{IsKnown};
ghost use Rattle.spool_growing.specs.Growing.{IsGrown, IsReady, IsStaged, OnlyStages, change_of};

use crate::index_lines::lines_of;
use crate::staging::{file_article, make_group, put_expiry};
use crate::{Free, Kept, NewChange, PlaceKind};
use fs_blocks::Blocks;
use fs_layout::bitmap::lowest_free;
use journal_volume::Volume;
use model::{Envelope, NewGroup};
use spool_admission::{id_of, lengths_of};
use spool_records::{article_record, expiry_record, group_record};
use std::alloc::{AllocError, Global};
use text_article::Article;

/// What is free, after a search for the lowest free block.
fn seek_block(volume: &Volume, inodes: u32, free: Free) -> Free
    requires room { HasRoom inodes volume.now.seen }
    requires known { IsKnown inodes free volume.now.seen }
    ensures { IsKnown inodes result volume.now.seen }
{
    let block = match lowest_free(volume, free.block) {
        Some(block) => block,
        None => volume.len(),
    };
    Free { block, ..free }
}

/// Adds a change that may follow and for which there is room. Refused only for want of memory, and then nothing changes.
pub fn grow(alloc: Global, kept: &mut Kept, new: NewChange<'_>) -> Result<(), AllocError>
    requires { IsReady kept.old (change_of new) }
    ensures grown { OnOk result (IsGrown kept.old kept.new (change_of new.entry)) }
    ensures same { OnErr result (kept.new ≡ kept.old) }
{
    let inodes = kept.inodes;
    let Ok(next) = stage(alloc, kept, new) else {
        kept.volume.drop_stage();
        return Err(AllocError);
    };
    kept.volume.apply();
    kept.free = seek_block(&kept.volume, inodes, next);
    Ok(())
}

/// Puts the files of a change on the stage, adds their places and its entry in the index, and answers what is free then.
/// Refused only for want of memory, and then nothing but the stage has changed: the caller must drop it.
fn stage(alloc: Global, kept: &mut Kept, new: NewChange<'_>) -> Result<Free, AllocError>
    requires { IsReady kept.old (change_of new) }
    ensures staged { IfOk result (λ next. IsStaged kept.old kept.new next (change_of new.entry)) }
    ensures refused { OnErr result (OnlyStages kept.old kept.new) }
{
    match new {
        NewChange::Group(group) => stage_group(alloc, kept, group),
        NewChange::Article {
            kind,
            article,
            envelope,
        } => stage_article(alloc, kept, kind, article, envelope),
        NewChange::Expiry { name, number } => stage_expiry(alloc, kept, name, number),
    }
}

/// Stages a group: its record, and empty numbers and overview. Refused as `stage` is.
fn stage_group(alloc: Global, kept: &mut Kept, group: NewGroup) -> Result<Free, AllocError>
    requires { IsReady kept.old (Change.Group group) }
    ensures staged { IfOk result (λ next. IsStaged kept.old kept.new next (Change.Group group)) }
    ensures refused { OnErr result (OnlyStages kept.old kept.new) }
{
    let serial = kept.index.len() + 1;
    let record = group_record(alloc, serial, &group)?;
    let mut next = kept.free;
    let made = make_group(
        alloc,
        &mut kept.volume,
        kept.inodes,
        &mut next,
        group.name.as_slice(),
        &record,
    )?;
    kept.places
        .push_group(made.at, made.numbers, made.overview)?;
    let Ok(()) = kept.index.push_group(group) else {
        kept.places.pop_group();
        return Err(AllocError);
    };
    Ok(next)
}

/// Stages an expiry: its file, which goes into the pack, if that may grow by it. Refused as `stage` is.
fn stage_expiry(
    alloc: Global,
    kept: &mut Kept,
    name: &[u8],
    number: u32,
) -> Result<Free, AllocError>
    requires { IsReady kept.old (Change.Expire (record { group = name.now; number = number })) }
    ensures staged { IfOk result (λ next. IsStaged kept.old kept.new next
        (Change.Expire (record { group = name.now; number = number }))) }
    ensures refused { OnErr result (OnlyStages kept.old kept.new) }
{
    let serial = kept.index.len() + 1;
    let record = expiry_record(alloc, serial, name, number)?;
    let mut next = kept.free;
    let at = put_expiry(
        alloc,
        &mut kept.volume,
        kept.inodes,
        &mut next,
        serial,
        &record,
    )?;
    kept.places.push_change(at)?;
    let Ok(()) = kept.index.push_expiry(name, number as u64) else {
        kept.places.pop_change();
        return Err(AllocError);
    };
    Ok(next)
}

/// Stages an article with this envelope: its file, in a place of this kind, and what it adds to the files of its groups.
/// Refused as `stage` is.
fn stage_article(
    alloc: Global,
    kept: &mut Kept,
    kind: PlaceKind,
    article: &Article<'_>,
    envelope: &Envelope,
) -> Result<Free, AllocError>
    requires { IsReady kept.old (Change.Article (record { text = article.now; envelope = envelope.now })) }
    ensures staged { IfOk result (λ next. IsStaged kept.old kept.new next
        (Change.Article (record { text = article.now; envelope = envelope.now }))) }
    ensures refused { OnErr result (OnlyStages kept.old kept.new) }
{
    let serial = kept.index.len() + 1;
    let text = article.text();
    let stored = envelope.copy(alloc)?;
    let octets = article_record(alloc, serial, envelope, text)?;
    let groups = envelope.groups.as_slice();
    let lines = lines_of(alloc, &kept.index, &kept.places, serial, article, groups)?;
    let mut next = kept.free;
    let at = file_article(
        alloc,
        &mut kept.volume,
        kept.inodes,
        &mut next,
        kind,
        serial,
        &octets,
        &lines.pieces,
    )?;
    kept.places.push_change(at)?;
    let lengths = lengths_of(article);
    let Ok(()) = kept
        .index
        .push_article(id_of(article), lengths, stored, &lines.sizes)
    else {
        kept.places.pop_change();
        return Err(AllocError);
    };
    Ok(next)
}
