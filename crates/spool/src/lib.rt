//! The list of accepted changes, in files over the cached logical blocks, with an index and the places of the files in
//! memory.
#![tactic(auto)]

ghost use Rattle.std.specs.Prelude.{◌≡◌, ◌+◌, ◌-◌, ◌<◌, ◌≤◌, ◌||◌, ◌&&◌, nat_lt, ℕ, List, [], Some, false, None, length, replicate};
ghost use Rattle.std.specs.Prelude.{slice_index_or, IfNone, IfOk, IfSome, IsTrue, OnErr, OnOk, ◌⊎◌};
ghost use Rattle.std.specs.List.{All, Contains, flat_map};
ghost use Rattle.model.specs.Lawful.{MayFile, MayFollow};
ghost use Rattle.model.specs.Layout.{Holds};
ghost use Rattle.model.specs.Names.{is_host};
ghost use Rattle.model.specs.Files.{HasRoom, IsFileSystem, free_blocks, free_inodes, table};
ghost use Rattle.model.specs.Spool.{Spool as Changes, groups, is_here};
ghost use Rattle.model.specs.Volume.{AreDistinct, blocks_from, laid_over};
ghost use Rattle.model.specs.declared.change.Change.TheVariants as changed;
ghost use Rattle.model.specs.declared.change.NewGroup.{NewGroup};
ghost use Rattle.text_names.specs.Requests.{group_of};
ghost use Rattle.spool_opening.specs.Replayed.{AreHere};
ghost use Rattle.journal_volume.specs.Volume.{AgreeOutside};
ghost use Rattle.spool_growing.specs.Growing.{change_of};

mod article_room;
mod errors;
mod filed_articles;
mod look_ups;
mod open;
mod stored_changes;

use article_room::{extends_large, kind_for};
pub use article_room::{blocks_left, inodes_left};
pub use errors::{AddError, ExpireError};
use fs::{free_block_count, free_inode_count};
use fs_blocks::Blocks;
use journal_volume::{BatchBuf, Volume};
use model::{Change, Envelope, NewGroup, Text};
use session_lookups::{FilingError, LookUps};
use spool_groups::Group;
use spool_growing::{BLOCKS_ASKED, Free, Kept, NewChange, PlaceKind, grow};
use spool_index::{Index, Places};
use std::alloc::{AllocError, Global};
use std::marker::Model;
use text_article::Article;
use text_names::GroupRequest;

/// The most groups on a server.
const GROUPS: usize = 4096;

/// The files of a group: its record, its numbers, its overview.
const GROUP_FILES: u32 = 3;

/// The accepted changes of a host, in files, and the cache of the logical blocks that hold them.
pub struct Spool {
    alloc: Global,
    host: Text,
    kept: Kept,
    ghost stands: { StandsIn host kept.inodes kept.volume.cache } by { one_stands host kept.inodes kept.volume.cache },
}

ghost use Rattle.spool.specs.Kept.{StandsIn, one_stands};

// Written by hand: a caller that drops a spool would otherwise prove the derived drop again, field by field.
impl Drop for Spool {
    fn drop(self) {
        let Spool {
            alloc: _,
            host: _,
            kept: _,
        } = self;
    }
}

impl Model for Spool {
    ghost use Rattle.std.specs.Prelude.{◌≡◌};
    ghost use Rattle.spool_growing.specs.Calls.{IsKnown};
    ghost use Rattle.spool_growing.specs.Kept.{IsKept};
    ghost use Rattle.spool.specs.View.{SpoolView};

    ghost Value = { SpoolView };

    ghost view = { λ s. record {
      host = s.host;
      inodes = s.kept.inodes;
      changes = s.stands.changes;
      blocks = s.kept.volume.cache;
      dirty = s.kept.volume.dirty;
      sound = s.stands.held;
    } };

    ghost invariant = { λ s. IsKept s.host s.kept.inodes s.kept.volume s.kept.index s.kept.places s.stands.changes
        × IsKnown s.kept.inodes s.kept.free s.kept.volume.cache };
}

/// The group that is asked for, with its own copies of the octets. Refused only for want of memory.
fn group_asked(alloc: Global, request: &GroupRequest) -> Result<NewGroup, AllocError>
    ensures { IfOk result (λ group. group ≡ group_of request.now) }
{
    Ok(NewGroup {
        name: Text::new(Vec::from_slice(alloc, request.name.as_slice())?),
        status: request.status,
        description: Text::new(Vec::from_slice(alloc, request.description.as_slice())?),
        moment: request.moment,
    })
}

impl Spool {
    ghost use Rattle.spool.specs.Kept.{CanStand};
    ghost use Rattle.spool.specs.Refusals.{Tested, article_refusal, expiry_refusal, group_refusal, has_number, is_full_for};
    ghost use Rattle.spool.specs.View.{Adds, IsClean, IsSpool};

    /// The spool in the blocks of a volume, with its index and the places of its files.
    pub fn of(
        alloc: Global,
        host: Text,
        inodes: u32,
        volume: Volume,
        index: Index,
        places: Places,
    ) -> Spool
        requires { CanStand host inodes volume index places }
        ensures host { result.host ≡ host }
        ensures inodes { result.inodes ≡ inodes }
        ensures changes { (S : Changes) → Holds host inodes volume.cache S → result.changes ≡ S }
        ensures blocks { result.blocks ≡ volume.cache }
        ensures dirty { result.dirty ≡ volume.dirty }
    {
        let free_blocks = free_block_count(&volume, inodes);
        let free_inodes = free_inode_count(&volume, inodes);
        let free = Free {
            inode: 0,
            block: 0,
            inodes: free_inodes,
            blocks: free_blocks,
            pack: None,
        };
        let kept = Kept {
            inodes,
            free,
            volume,
            index,
            places,
        };
        Spool { alloc, host, kept }
    }

    /// The spool without changes, in an empty file system.
    pub fn empty(alloc: Global, host: Text, inodes: u32, volume: Volume) -> Spool
        requires named { IsTrue (is_host host) }
        requires room { HasRoom inodes volume.cache }
        requires rule { IsFileSystem inodes volume.cache }
        requires none { table inodes volume.cache ≡ replicate inodes None }
        requires seen { volume.seen ≡ volume.cache }
        ensures host { result.host ≡ host }
        ensures inodes { result.inodes ≡ inodes }
        ensures changes { result.changes ≡ [] }
        ensures blocks { result.blocks ≡ volume.cache }
        ensures dirty { result.dirty ≡ volume.dirty }
    {
        Spool::of(
            alloc,
            host,
            inodes,
            volume,
            Index::new(alloc),
            Places::new(alloc),
        )
    }

    /// States what holds for every spool: its blocks hold its changes. It does nothing.
    pub fn kept(&self)
        ensures { IsSpool self.now }
    {
        let _ = &self.kept.inodes;
    }

    /// The number of inodes in the volume's label.
    pub fn inodes(&self) -> u32
        ensures { result ≡ self.now.inodes }
    {
        self.kept.inodes
    }

    /// The number of inodes without a file.
    pub fn free_inodes(&self) -> u32
        ensures { result ≡ free_inodes self.now.inodes self.now.blocks }
    {
        self.kept.free.inodes
    }

    /// The number of blocks that no file has.
    pub fn free_blocks(&self) -> u32
        ensures { result ≡ free_blocks self.now.blocks }
    {
        self.kept.free.blocks
    }

    /// The number of blocks that aren't free.
    pub fn used_blocks(&self) -> u32
        ensures { result + free_blocks self.now.blocks ≡ length self.now.blocks }
    {
        self.blocks().saturating_sub(self.free_blocks())
    }

    /// The number of inodes with a file.
    pub fn used_inodes(&self) -> u32
        ensures { result + free_inodes self.now.inodes self.now.blocks ≡ self.now.inodes }
    {
        self.kept.inodes - self.kept.free.inodes
    }

    /// The number of logical blocks.
    pub fn blocks(&self) -> u32
        ensures { result ≡ length self.now.blocks }
    {
        self.kept.volume.len()
    }

    /// The number of dirty blocks.
    pub fn dirty_len(&self) -> usize
        ensures { result ≡ length self.now.dirty }
    {
        self.kept.volume.dirty_len()
    }

    /// The octets of a block that isn't dirty. `None` if it is, or if there is no such block.
    pub fn clean_block(&self, number: u32) -> Option<&[u8]>
        ensures clean { IfSome result (λ octets. IsClean self.now number octets.now) }
        ensures none { IfNone result ((length self.now.blocks ≤ number) ⊎ Contains self.now.dirty number) }
    {
        if number >= self.kept.volume.len() || self.kept.volume.is_dirty(number) {
            return None;
        }
        Some(self.kept.volume.block(number))
    }

    /// Copies the dirty blocks, at most 512, into the buffer in place of its content. Afterwards none is dirty.
    pub fn copy_dirty(&mut self, into: &mut BatchBuf)
        requires { length self.old.dirty ≤ 512 }
        ensures clean { self.new ≡ record self.old { dirty = [] } }
        ensures numbers { into.new.numbers ≡ self.old.dirty }
        ensures images { into.new.images ≡ flat_map (λ n. slice_index_or self.old.blocks n []) self.old.dirty }
        ensures distinct { AreDistinct into.new.numbers }
        ensures below { All (λ n. n < length self.old.blocks) into.new.numbers }
        ensures laid { (blocks : List (List ℕ)) → AgreeOutside into.new.numbers blocks self.old.blocks
            → laid_over blocks into.new.numbers (blocks_from 0 (length into.new.numbers) into.new.images) ≡ self.old.blocks }
    {
        self.kept.volume.copy_dirty(into);
    }

    /// Whether the group exists.
    fn is_here(&self, name: &[u8]) -> bool
        ensures { result ≡ is_here self.now.changes name.now }
    {
        self.kept.index.group(name).is_some()
    }

    /// Whether too few blocks are free for a change that leaves this many, or too few inodes for its files.
    fn lacks_room(&self, files: u32, blocks_left: u32, inodes_left: u32) -> bool
        ensures { result ≡ (nat_lt (free_blocks self.now.blocks - blocks_left) 256
            || nat_lt (free_inodes self.now.inodes self.now.blocks - inodes_left) files) }
    {
        self.kept.free.blocks.saturating_sub(blocks_left) < BLOCKS_ASKED
            || self.kept.free.inodes.saturating_sub(inodes_left) < files
    }

    /// Whether there is no room for a group.
    fn is_full_for_group(&self) -> bool
        ensures { (group : NewGroup) → result ≡ is_full_for self.now (changed.Group group) }
    {
        self.lacks_room(GROUP_FILES, 0, 0) || GROUPS <= self.kept.index.groups().len()
    }

    /// Adds the group that is asked for, and answers its serial. Refused as `Exists`, `Full` or `Memory`, tested in that
    /// order. A refusal changes nothing.
    pub fn add_group(&mut self, group: &GroupRequest) -> Result<u64, AddError>
        ensures { Tested AddError.Memory (group_refusal self.old group.now.name (changed.Group (group_of group.now)))
            self.old self.new result
            (λ serial. (serial ≡ length self.old.changes + 1) × Adds self.old self.new (changed.Group (group_of group.now))) }
    {
        if self.is_here(group.name.as_slice()) {
            return Err(AddError::Exists);
        }
        if self.is_full_for_group() {
            return Err(AddError::Full);
        }
        // for the proof: the description is printable, the moment before the year 10000
        let _description = group.description.as_slice();
        let _seconds = group.moment.seconds();
        let Ok(asked) = group_asked(self.alloc, group) else {
            return Err(AddError::Memory);
        };
        match self.push(NewChange::Group(asked)) {
            Ok(()) => Ok(self.len()),
            Err(_) => Err(AddError::Memory),
        }
    }

    /// Whether there is no room for an article with this envelope, whose groups must exist.
    fn is_full_for_article(&self, envelope: &Envelope) -> bool
        requires { AreHere self.now.changes envelope.now.groups }
        ensures { (text : List ℕ) → result ≡ is_full_for self.now (changed.Article (record { text = text; envelope = envelope.now })) }
    {
        let blocks = blocks_left(self.kept.volume.len());
        let inodes = inodes_left(self.kept.inodes);
        self.lacks_room(1, blocks, inodes)
            || extends_large(&self.kept.index, envelope.groups.as_slice())
    }

    /// Files an article with this envelope, and answers its serial. Its change must be one that may follow, and the volume one
    /// of format 3. Its file goes into the pack or into an inode of its own, as `kind_for` says, and into one where the pack
    /// can't grow by it. Refused as `Full` or `Memory`, tested in that order. A refusal changes nothing.
    pub fn add_article(
        &mut self,
        article: &Article<'_>,
        envelope: &Envelope,
    ) -> Result<u64, FilingError>
        requires { MayFile self.old.host self.old.changes (record { text = article.now; envelope = envelope.now }) }
        ensures { Tested FilingError.Memory (article_refusal self.old (changed.Article
            (record { text = article.now; envelope = envelope.now }))) self.old self.new result
            (λ serial. (serial ≡ length self.old.changes + 1) × Adds self.old self.new (changed.Article
            (record { text = article.now; envelope = envelope.now }))) }
    {
        let kind = kind_for(self.kept.inodes, article.text());
        self.add_in(kind, article, envelope)
    }

    /// Files an article as `add_article` does, but its file in the pack whatever its size and the volume's, if that may grow
    /// by it.
    pub fn pack_article(
        &mut self,
        article: &Article<'_>,
        envelope: &Envelope,
    ) -> Result<u64, FilingError>
        requires { MayFile self.old.host self.old.changes (record { text = article.now; envelope = envelope.now }) }
        ensures { Tested FilingError.Memory (article_refusal self.old (changed.Article
            (record { text = article.now; envelope = envelope.now }))) self.old self.new result
            (λ serial. (serial ≡ length self.old.changes + 1) × Adds self.old self.new (changed.Article
            (record { text = article.now; envelope = envelope.now }))) }
    {
        self.add_in(PlaceKind::Packed, article, envelope)
    }

    /// Files an article as `add_article` does, but its file in a place of this kind.
    fn add_in(
        &mut self,
        kind: PlaceKind,
        article: &Article<'_>,
        envelope: &Envelope,
    ) -> Result<u64, FilingError>
        requires { MayFile self.old.host self.old.changes (record { text = article.now; envelope = envelope.now }) }
        ensures { Tested FilingError.Memory (article_refusal self.old (changed.Article
            (record { text = article.now; envelope = envelope.now }))) self.old self.new result
            (λ serial. (serial ≡ length self.old.changes + 1) × Adds self.old self.new (changed.Article
            (record { text = article.now; envelope = envelope.now }))) }
    {
        if self.is_full_for_article(envelope) {
            return Err(FilingError::Full);
        }
        let new = NewChange::Article {
            kind,
            article,
            envelope,
        };
        match self.push(new) {
            Ok(()) => Ok(self.len()),
            Err(_) => Err(FilingError::Memory),
        }
    }

    /// Whether the group exists and the number is in it, from its lowest to its highest.
    fn has_number(&self, name: &[u8], number: u32) -> bool
        ensures { result ≡ has_number self.now.changes name.now number }
    {
        match self.kept.index.group(name) {
            Some(group) => group.low() <= number as u64 && number as u64 <= group.high(),
            None => false,
        }
    }

    /// Removes the articles of a group up to a number, and answers the serial of that change. Its file goes into the pack, if
    /// that may grow by it; the volume must be one of format 3. Refused as `NotFound` (the group does not exist, or the
    /// number is not in it), `Full` or `Memory`, tested in that order. A refusal changes nothing.
    pub fn expire(&mut self, name: &[u8], number: u32) -> Result<u64, ExpireError>
        ensures { Tested ExpireError.Memory (expiry_refusal self.old name.now number) self.old self.new result
            (λ serial. (serial ≡ length self.old.changes + 1) × Adds self.old self.new
            (changed.Expire (record { group = name.now; number = number }))) }
    {
        if !self.has_number(name, number) {
            return Err(ExpireError::NotFound);
        }
        if self.lacks_room(1, 0, 0) {
            return Err(ExpireError::Full);
        }
        match self.push(NewChange::Expiry { name, number }) {
            Ok(()) => Ok(self.len()),
            Err(_) => Err(ExpireError::Memory),
        }
    }

    /// Adds a change that may follow and for which there is room. Refused only for want of memory, and then nothing
    /// changes.
    fn push(&mut self, new: NewChange<'_>) -> Result<(), AllocError>
        requires may { MayFollow self.old.host self.old.changes (change_of new) }
        requires room { is_full_for self.old (change_of new) ≡ false }
        ensures ok { OnOk result (Adds self.old self.new (change_of new.entry)) }
        ensures err { OnErr result (self.new ≡ self.old) }
    {
        grow(self.alloc, &mut self.kept, new)?;
        Ok(())
    }
}
