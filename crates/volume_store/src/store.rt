//! A volume that no server serves, to which changes are added.

ghost use Rattle.std.specs.Prelude.{◌≡◌, ◌≢◌, ◌+◌, ◌≤◌, ◌||◌, IfErr, IfOk, IsTrue, OnErr, OnOk, length};
ghost use Rattle.disk.specs.Device.{Elapses};
ghost use Rattle.journal.specs.Journal.{IsReady};
ghost use Rattle.kernel.specs.Kernel.{most_dirty};
ghost use Rattle.model.specs.Files.{free_blocks, free_inodes};
ghost use Rattle.model.specs.Lawful.{MayFile, MayFollow};
ghost use Rattle.model.specs.declared.change.Change.TheVariants as changed;
ghost use Rattle.text_rnews.specs.LineEnds as ends;
ghost use Rattle.volume_store.specs.Adding.{IsAdded};
ghost use Rattle.volume_store.specs.Filing.{Becomes};
ghost use Rattle.volume_store.specs.Opening.{IsOpened};
ghost use Rattle.model.specs.declared.change.Filing.{Filing};
ghost use Rattle.volume_store.specs.Room.{lack_for};
ghost use Rattle.spool.specs.Refusals.{Tested, expiry_refusal, group_refusal};
ghost use Rattle.spool.specs.View.{Adds};
ghost use Rattle.text_names.specs.Requests.{group_of};

use crate::adding::{add_change, pack_article};
use crate::batch_writing::write;
use crate::missing_room::{lack_for, lack_for_articles};
use crate::outcome::{Lack, TextOutcome};
use crate::transfer::file_text;
use disk::Disk;
use journal::{Journal, JournalError};
use journal_volume::BatchBuf;
use kernel::{OpenError, OpenedSpool, Refused, most_dirty, open_with_spool};
use model::{Change, Filing, Moment};
use session_lookups::{FilingError, LookUps};
use spool::{AddError, ExpireError, Spool};
use std::alloc::{AllocError, Global};
use std::marker::Model;
use text_names::{GroupName, GroupRequest};
use text_rnews::with_crlf;

/// A volume with its journal.
pub struct Store<D: Disk> {
    journal: Journal<D>,
    spool: Spool,
    batch: BatchBuf,
    /// The number of durable changes.
    durable: u64,
}

// By hand: a caller that drops one would otherwise prove the derived one again, field by field.
impl<D: Disk + Drop> Drop for Store<D> {
    fn drop(self) {
        let Store {
            journal: _,
            spool: _,
            batch: _,
            durable: _,
        } = self;
    }
}

impl<D: Disk> Model for Store<D> {
    ghost use Rattle.volume_store.specs.Saved.{IsTied, StoreView};

    ghost Value = { StoreView D };

    ghost view = { λ s. record { journal = s.journal; spool = s.spool; durable = s.durable } };

    ghost invariant = { λ s. IsTied D.device s.journal s.spool s.durable };
}

impl<D: Disk> Store<D> {
    ghost use Rattle.kernel.specs.Standing.{LeavesOpened, LeavesRefused};

    /// Opens a device whose volume no server serves, as `open_with_spool` does and with its refusals; all its changes are durable.
    pub fn open(alloc: Global, disk: D) -> Result<Store<D>, Refused<D>>
        ensures ok { IfOk result (IsOpened D.device disk) }
        ensures opening { IfOk result (λ store. LeavesOpened D.device disk store.journal.disk) }
        ensures refusal { IfErr result (λ refused. LeavesRefused D.device disk refused.disk refused.error) }
    {
        let Ok(batch) = BatchBuf::new(alloc) else {
            return Err(Refused {
                disk,
                error: OpenError::Memory,
            });
        };
        let OpenedSpool { journal, spool } = open_with_spool(alloc, disk)?;
        // for the proof: what a crash leaves
        let _idle = journal.is_idle();
        Ok(Store {
            durable: spool.len(),
            journal,
            spool,
            batch,
        })
    }
}

impl<D: Disk> Store<D> {
    ghost use Rattle.volume_store.specs.Saved.{GoesOn, IsSaved, LeavesPrefix};

    /// The number of changes, and of those that are durable.
    pub fn len(&self) -> (u64, u64)
        ensures all { result.0 ≡ length self.now.spool.changes }
        ensures durable { result.1 ≡ self.now.durable }
    {
        (self.spool.len(), self.durable)
    }

    /// The spool: what was added, durable or not.
    pub fn spool(&self) -> &Spool
        ensures { result.now ≡ self.now.spool }
    {
        &self.spool
    }

    /// Makes sure that there is room for a change among the dirty blocks: if there are more than `most_dirty`, it makes all
    /// changes durable. Refused as `commit` is.
    pub fn make_room(&mut self) -> Result<(), JournalError>
        ensures room { OnOk result (length self.new.spool.dirty ≤ most_dirty (length self.new.spool.blocks)) }
        ensures spool { self.new.spool ≡ record self.old.spool { dirty = self.new.spool.dirty } }
        ensures prefix { LeavesPrefix D.device self.old self.new }
        ensures goes_on { GoesOn D.device self.old self.new }
        ensures ready { OnOk result (IsReady self.old.journal → IsReady self.new.journal) }
        ensures time { Elapses (D.device self.old.journal.disk) (D.device self.new.journal.disk) }
        ensures still { OnOk result ((D.device self.new.journal.disk).failures ≡ (D.device self.old.journal.disk).failures) }
        ensures fault { IfErr result
            (λ error. error ≡ JournalError.Fault → (D.device self.new.journal.disk).failures ≢ (D.device self.old.journal.disk).failures) }
        ensures halted { IfErr result (λ error. error ≡ JournalError.Halted → IsReady self.old.journal → ⊥) }
        ensures memory { IfErr result (λ error. error ≡ JournalError.Memory → IsTrue (D.write_grows || D.sync_grows)) }
        ensures durable { OnErr result (self.new.durable ≡ self.old.durable) }
    {
        if self.spool.dirty_len() <= most_dirty(self.spool.blocks()) {
            return Ok(());
        }
        self.commit()?;
        Ok(())
    }

    /// Adds the group that is asked for, and answers its serial. It is not durable yet. Refused as `Spool::add_group` is; a
    /// refusal changes nothing.
    pub fn add_group(&mut self, group: &GroupRequest) -> Result<u64, AddError>
        requires room { length self.old.spool.dirty ≤ most_dirty (length self.old.spool.blocks) }
        ensures tested { Tested AddError.Memory
            (group_refusal self.old.spool group.now.name (changed.Group (group_of group.now))) self.old.spool self.new.spool result
            (λ serial. (serial ≡ length self.old.spool.changes + 1)
            × Adds self.old.spool self.new.spool (changed.Group (group_of group.now))) }
        ensures journal { self.new.journal ≡ self.old.journal }
        ensures durable { self.new.durable ≡ self.old.durable }
    {
        // for the proof: how many blocks a volume has
        self.spool.kept();
        self.spool.add_group(group)
    }

    /// Removes the articles of a group up to a number, and answers the serial of that change. It is not durable yet. Refused as
    /// `Spool::expire` is; a refusal changes nothing.
    pub fn expire(&mut self, name: &GroupName, number: u32) -> Result<u64, ExpireError>
        requires room { length self.old.spool.dirty ≤ most_dirty (length self.old.spool.blocks) }
        ensures tested { Tested ExpireError.Memory (expiry_refusal self.old.spool name.now number) self.old.spool self.new.spool result
            (λ serial. (serial ≡ length self.old.spool.changes + 1)
            × Adds self.old.spool self.new.spool (changed.Expire (record { group = name.now; number = number }))) }
        ensures journal { self.new.journal ≡ self.old.journal }
        ensures durable { self.new.durable ≡ self.old.durable }
    {
        // for the proof: how many blocks a volume has
        self.spool.kept();
        self.spool.expire(name.as_slice(), number)
    }

    /// Adds a change that may follow those of the spool. It is not durable yet. Refused as `Full` exactly if there is no room
    /// for it, and otherwise only as `Memory`; a refusal changes nothing.
    pub fn add(&mut self, alloc: Global, change: &Change) -> Result<(), FilingError>
        requires may { MayFollow self.old.spool.host self.old.spool.changes change.now }
        requires room { length self.old.spool.dirty ≤ most_dirty (length self.old.spool.blocks) }
        ensures added { IsAdded self.old.spool self.new.spool change.now result }
        ensures journal { self.new.journal ≡ self.old.journal }
        ensures durable { self.new.durable ≡ self.old.durable }
    {
        // for the proof: how many blocks a volume has
        self.spool.kept();
        add_change(alloc, &mut self.spool, change)
    }

    /// Files an article that may follow the changes of the spool, as `add` does, and puts its file into the pack, where it
    /// takes neither an inode nor a block of its own.
    pub fn pack(&mut self, alloc: Global, filing: &Filing) -> Result<(), FilingError>
        requires may { MayFile self.old.spool.host self.old.spool.changes filing.now }
        requires room { length self.old.spool.dirty ≤ most_dirty (length self.old.spool.blocks) }
        ensures added { IsAdded self.old.spool self.new.spool (changed.Article filing.now) result }
        ensures journal { self.new.journal ≡ self.old.journal }
        ensures durable { self.new.durable ≡ self.old.durable }
    {
        // its clauses state how many blocks a volume has
        self.spool.kept();
        pack_article(alloc, &mut self.spool, filing)
    }

    /// Files a text, whose lines end in LF or CRLF, at a moment, as `file_text` does. It is not durable yet. Refused only
    /// for want of memory, and then nothing changes.
    pub fn file(
        &mut self,
        alloc: Global,
        text: &[u8],
        moment: Moment,
    ) -> Result<TextOutcome, AllocError>
        requires { length self.old.spool.dirty ≤ most_dirty (length self.old.spool.blocks) }
        ensures ok { IfOk result (Becomes self.old.spool self.new.spool (ends.with_crlf text.now) moment) }
        ensures goes_on { GoesOn D.device self.old self.new }
        ensures journal { self.new.journal ≡ self.old.journal }
        ensures durable { self.new.durable ≡ self.old.durable }
        ensures err { OnErr result (self.new ≡ self.old) }
    {
        // for the proof: how many blocks a volume has
        self.spool.kept();
        let text = with_crlf(alloc, text)?;
        file_text(alloc, &mut self.spool, &text, moment)
    }

    /// Makes all changes durable, by one batch. `Fault` (E1) if the device fails, and `Memory` (E2) if an allocation is
    /// refused to it, which only a device answers whose writes or syncs take memory; then the changes may be durable or
    /// not, none of them counts as durable that did not before, and later calls answer `Halted` (E4). A crash at any
    /// moment leaves the changes that were durable, or all.
    pub fn commit(&mut self) -> Result<(), JournalError>
        ensures ok { OnOk result (IsSaved D.device self.new) }
        ensures spool { self.new.spool ≡ record self.old.spool { dirty = self.new.spool.dirty } }
        ensures prefix { LeavesPrefix D.device self.old self.new }
        ensures goes_on { GoesOn D.device self.old self.new }
        ensures fault { IfErr result
            (λ error. error ≡ JournalError.Fault → (D.device self.new.journal.disk).failures ≢ (D.device self.old.journal.disk).failures) }
        ensures halted { IfErr result (λ error. error ≡ JournalError.Halted → (IsReady self.old.journal → ⊥) × (self.new ≡ self.old)) }
        ensures refused { (IsReady self.old.journal → ⊥) → result ≡ Err JournalError.Halted }
        ensures memory { IfErr result (λ error. error ≡ JournalError.Memory → IsTrue (D.write_grows || D.sync_grows)) }
        ensures durable { OnErr result (self.new.durable ≡ self.old.durable) }
        ensures time { Elapses (D.device self.old.journal.disk) (D.device self.new.journal.disk) }
        ensures still { OnOk result ((D.device self.new.journal.disk).failures ≡ (D.device self.old.journal.disk).failures) }
    {
        if !self.journal.is_idle() {
            return Err(JournalError::Halted);
        }
        // for the proof: the blocks hold the changes
        self.spool.kept();
        write(&mut self.journal, &mut self.spool, &mut self.batch)?;
        self.durable = self.spool.len();
        self.spool.kept();
        Ok(())
    }

    /// What the volume has too little of for any article: blocks, or otherwise inodes. `None` if there is enough of both; then
    /// an article that finds no room names a group whose files are full.
    pub fn lack(&self) -> Option<Lack>
        ensures { (filing : Filing) → result ≡ lack_for self.now.spool (changed.Article filing) }
    {
        lack_for_articles(&self.spool)
    }

    /// What the volume has too little of for a change, as `lack` says it of articles.
    pub fn lack_for(&self, change: &Change) -> Option<Lack>
        ensures { result ≡ lack_for self.now.spool change.now }
    {
        lack_for(&self.spool, change)
    }

    /// The number of blocks that aren't free.
    pub fn blocks_used(&self) -> u64
        ensures { result + free_blocks self.now.spool.blocks ≡ length self.now.spool.blocks }
    {
        u64::from(self.spool.used_blocks())
    }

    /// The number of inodes with a file.
    pub fn inodes_used(&self) -> u64
        ensures { result + free_inodes self.now.spool.inodes self.now.spool.blocks ≡ self.now.spool.inodes }
    {
        u64::from(self.spool.used_inodes())
    }

    /// The device, as the store leaves it.
    pub fn into_disk(self) -> D
        ensures { result ≡ self.journal.disk }
    {
        let Store {
            journal,
            spool: _,
            batch: _,
            durable: _,
        } = self;
        journal.into_disk()
    }
}
