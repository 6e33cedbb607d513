//! Replays the changes of a spool, each from its file.

ghost use Rattle.std.specs.Prelude.{◌≡◌, ◌<◌, ◌+◌, ◌++◌, ◌∷◌, [], ℕ, List, None, Some, filter, length, IfErr, IfOk, OnOk};
ghost use Rattle.model.specs.Article.{Carried, cause, groups_of};
ghost use Rattle.model.specs.Lawful.{MayExpire, MayFile, MayMake};
ghost use Rattle.model.specs.Spool.{Spool, is_here};
ghost use Rattle.model.specs.declared.change.Change.{Change};
ghost use Rattle.spool_index.specs.View.{Indexes};
ghost use Rattle.model.specs.Files.{HasRoom, IsFileSystem, table};
ghost use Rattle.model.specs.SpoolFiles.{numbers_name, overview_name};
ghost use Rattle.spool_opening.specs.Replayed.{AllGoOn, AreReplayed, CanReplay, IsItsFile, IsReplayed};
ghost use Rattle.spool_reading.specs.Sorted.{AreSorted};
ghost use Rattle.spool_opening.specs.Stored.{IsFileAt};

use crate::continued_lines::line_sizes;
use fs_blocks::Blocks;
use model::{Envelope, NewGroup, Text};
use spool_admission::{groups_here, id_of, lengths_of, may_expire, may_file, may_make};
use spool_index::{ChangePlace, Index, Places};
use spool_reading::{Files, ReadSpoolError};
use std::alloc::Global;
use text_article::{Article, Origin, ReadError};

/// The index of the changes that were replayed, and the places of their files.
#[derive(Drop)]
pub struct Replay {
    pub index: Index,
    pub places: Places,
}

/// Replays an expiry, whose file is at this place. `Damaged` exactly if it may not follow the changes before it.
pub fn replay_expiry(
    replay: &mut Replay,
    place: ChangePlace,
    group: &[u8],
    number: u32,
) -> Result<(), ReadSpoolError>
    ensures ok { OnOk result ((host : List ℕ) (inodes : ℕ) (blocks : List (List ℕ)) (R : Spool)
        → IsReplayed host inodes blocks replay.old.index replay.old.places R
        → IsItsFile inodes blocks place (length R + 1) (Change.Expire (record { group = group.now; number = number }))
        → IsReplayed host inodes blocks replay.new.index replay.new.places
        (R ++ Change.Expire (record { group = group.now; number = number }) ∷ [])) }
    ensures damaged { IfErr result (λ e. e ≡ ReadSpoolError.Damaged → (S : Spool) → Indexes S replay.old.index
        → MayExpire S (record { group = group.now; number = number }) → ⊥) }
{
    if !may_expire(&replay.index, group, number as u64) {
        return Err(ReadSpoolError::Damaged);
    }
    replay.index.push_expiry(group, number as u64)?;
    replay.places.push_change(place)?;
    Ok(())
}

/// Replays a group, whose files have these inodes. `Damaged` exactly if it may not follow the changes before it.
pub fn replay_group(
    replay: &mut Replay,
    at: u32,
    numbers: u32,
    overview: u32,
    group: NewGroup,
) -> Result<(), ReadSpoolError>
    requires { AreReplayed replay.old.index replay.old.places }
    ensures ok { OnOk result ((host : List ℕ) (inodes : ℕ) (blocks : List (List ℕ)) (R : Spool)
        → IsReplayed host inodes blocks replay.old.index replay.old.places R
        → IsItsFile inodes blocks (ChangePlace.Alone at) (length R + 1) (Change.Group group)
        → ((content : List ℕ) × IsFileAt (table inodes blocks) numbers (numbers_name group.name) content)
        → ((content : List ℕ) × IsFileAt (table inodes blocks) overview (overview_name group.name) content)
        → IsReplayed host inodes blocks replay.new.index replay.new.places
        (R ++ Change.Group group ∷ [])) }
    ensures damaged { IfErr result (λ e. e ≡ ReadSpoolError.Damaged → (S : Spool) → Indexes S replay.old.index
        → MayMake S group → ⊥) }
{
    if !may_make(&replay.index, &group) {
        return Err(ReadSpoolError::Damaged);
    }
    replay.index.push_group(group)?;
    replay.places.push_group(at, numbers, overview)?;
    Ok(())
}

/// The groups of a carried article that exist. `Damaged` exactly if the article may not follow the changes of this index
/// with this serial and envelope.
fn filed_here(
    alloc: Global,
    index: &Index,
    host: &[u8],
    serial: u64,
    article: &Article<'_>,
    envelope: &Envelope,
) -> Result<Vec<Text>, ReadSpoolError>
    requires { cause Carried article.now ≡ None }
    ensures here { IfOk result (λ here. (S : Spool) → Indexes S index.now → here.items ≡ filter (is_here S) (groups_of article.now)) }
    ensures ok { OnOk result ((S : Spool) → Indexes S index.now → serial ≡ length S + 1
        → MayFile host.now S (record { text = article.now; envelope = envelope.now })) }
    ensures damaged { IfErr result (λ e. e ≡ ReadSpoolError.Damaged → (S : Spool) → Indexes S index.now → serial ≡ length S + 1
        → MayFile host.now S (record { text = article.now; envelope = envelope.now }) → ⊥) }
{
    let names = article.groups(alloc)?;
    let here = groups_here(alloc, index, names.as_slice())?;
    if !may_file(
        alloc,
        index,
        host,
        serial,
        article,
        here.as_slice(),
        envelope,
    )? {
        return Err(ReadSpoolError::Damaged);
    }
    Ok(here)
}

/// Replays an article, whose file is at this place. `Damaged` exactly if it may not follow the changes before it, or if
/// the numbers and the overview of one of its groups do not continue with it.
pub fn replay_article<B: Blocks>(
    alloc: Global,
    blocks: &B,
    inodes: u32,
    host: &[u8],
    files: &Files,
    replay: &mut Replay,
    place: ChangePlace,
    text: &[u8],
    envelope: Envelope,
) -> Result<(), ReadSpoolError>
    requires room { HasRoom inodes (B.blocks blocks.now) }
    requires rule { IsFileSystem inodes (B.blocks blocks.now) }
    requires sorted { AreSorted (table inodes (B.blocks blocks.now)) files.now.slots.items files.now.named files.now.packed }
    requires replayed { CanReplay host.now inodes (B.blocks blocks.now) replay.old.index replay.old.places }
    ensures ok { OnOk result ((R : Spool) → IsReplayed host.now inodes (B.blocks blocks.now) replay.old.index replay.old.places R
        → IsItsFile inodes (B.blocks blocks.now) place (length R + 1)
        (Change.Article (record { text = text.now; envelope = envelope }))
        → IsReplayed host.now inodes (B.blocks blocks.now) replay.new.index replay.new.places
        (R ++ Change.Article (record { text = text.now; envelope = envelope }) ∷ [])) }
    ensures damaged { IfErr result (λ e. e ≡ ReadSpoolError.Damaged → (S : Spool) → Indexes S replay.old.index
        → MayFile host.now S (record { text = text.now; envelope = envelope })
        → AllGoOn (table inodes (B.blocks blocks.now)) S text.now envelope.groups → ⊥) }
{
    let article = match Article::read(alloc, text, Origin::Carried) {
        Ok(article) => article,
        Err(ReadError::Bad(_)) => return Err(ReadSpoolError::Damaged),
        Err(ReadError::Memory) => return Err(ReadSpoolError::Memory),
    };
    let count = replay.index.len();
    let serial = count + 1;
    let here = filed_here(alloc, &replay.index, host, serial, &article, &envelope)?;
    let filed = here.as_slice();
    let Some(sizes) = line_sizes(
        alloc,
        blocks,
        inodes,
        files,
        &replay.index,
        serial,
        &article,
        filed,
    )?
    else {
        return Err(ReadSpoolError::Damaged);
    };
    let id = id_of(&article);
    let lengths = lengths_of(&article);
    let lines = sizes.as_slice();
    replay.index.push_article(id, lengths, envelope, lines)?;
    replay.places.push_change(place)?;
    Ok(())
}
