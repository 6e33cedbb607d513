//! The octets of the marked blocks. A sync and a crash cost only what was written since the last good sync.

ghost use Rattle.std.specs.Prelude.{◌≡◌, ◌+◌, ◌-◌, ◌/◌, ◌<◌, ◌≤◌, ◌⊎◌, ℕ, IfOk, true, false, length, max, min, replicate, slice_index};
ghost use Rattle.std.specs.Prelude.{slice_index_or};
ghost use Rattle.disk.specs.Image.{overwritten, part};
ghost use Rattle.disk_memory.specs.Memory.{IsCrashImage, IsSound, IsSpanned};
ghost use Rattle.disk_memory.specs.Picks.{octet_of, pick_for, picked_from, settled};

use crate::Pick;
use std::alloc::{AllocError, Global};
use std::ops::Range;

/// The octets of a block; the last one may have fewer.
pub const BLOCK: usize = 4096;

/// Puts octets in their place, and notes that they were written.
pub fn put(present: &mut Vec<u8>, touched: &mut Vec<bool>, at: usize, from: &[u8])
    requires present { at + length from.now ≤ length present.old.items }
    requires touched { length touched.old.items ≡ length present.old.items }
    ensures present { present.new.items ≡ overwritten at from.now present.old.items }
    ensures touched { touched.new.items ≡ overwritten at (replicate (length from.now) true) touched.old.items }
{
    let end = at + from.len();
    present[at..end].copy_from_slice(from);
    touched[at..end].fill(true);
}

/// Marks on blocks. The marked blocks lie in `first..past`, so a walk over them costs no more than that range.
#[derive(Drop)]
pub struct Marks {
    pub blocks: Vec<bool>,
    first: usize,
    past: usize,
    ghost spanned: { IsSpanned blocks.items first past },
}

impl Marks {
    /// Marks for this many blocks, none of them marked.
    pub fn new(alloc: Global, blocks: usize) -> Result<Marks, AllocError>
        ensures { IfOk result (λ m. m.blocks.items ≡ replicate blocks false) }
    {
        Ok(Marks {
            blocks: vec![in alloc; false; blocks]?,
            first: blocks,
            past: 0,
        })
    }

    /// Marks the blocks that the octets from `at` to `end` touch.
    pub fn mark(&mut self, at: usize, end: usize)
        requires { end / 4096 < length self.old.blocks.items }
        ensures size { length self.new.blocks.items ≡ length self.old.blocks.items }
        ensures covers { (k : ℕ) → at ≤ k → k < end → slice_index_or self.new.blocks.items (k / 4096) false ≡ true }
        ensures no_other { (b : ℕ) → slice_index_or self.new.blocks.items b false ≡ true
            → slice_index_or self.old.blocks.items b false ≡ true ⊎ ((at / 4096 ≤ b) × (b ≤ (end - 1) / 4096)) }
        ensures keeps { (b : ℕ) → slice_index_or self.old.blocks.items b false ≡ true
            → slice_index_or self.new.blocks.items b false ≡ true }
        ensures first { at < end → self.new.first ≡ min self.old.first (at / 4096) }
        ensures past { at < end → self.new.past ≡ max self.old.past ((end - 1) / 4096 + 1) }
    {
        if at < end {
            let first = at / BLOCK;
            let past = (end - 1) / BLOCK + 1;
            self.blocks[first..past].fill(true);
            self.first = self.first.min(first);
            self.past = self.past.max(past);
        }
    }

    /// Removes all marks.
    pub fn clear(&mut self)
        ensures size { length self.new.blocks.items ≡ length self.old.blocks.items }
        ensures none { (b : ℕ) → slice_index_or self.new.blocks.items b false ≡ false }
        ensures first { self.new.first ≡ length self.old.blocks.items }
        ensures past { self.new.past ≡ 0 }
    {
        if self.first < self.past {
            self.blocks[self.first..self.past].fill(false);
        }
        self.first = self.blocks.len();
        self.past = 0;
    }
}

// Where the block that starts there ends.
fn block_end(start: usize, len: usize) -> usize
    requires { start ≤ len }
    ensures { result ≡ start + min 4096 (len - start) }
{
    start + BLOCK.min(len - start)
}

/// Makes the present octets of each marked block the synced ones, with none touched.
pub fn sync_marked(synced: &mut Vec<u8>, touched: &mut Vec<bool>, present: &[u8], marks: &Marks)
    requires { IsSound synced.old.items present.now touched.old.items marks.now.blocks.items }
    ensures synced { synced.new.items ≡ present.now }
    ensures touched { touched.new.items ≡ replicate (length touched.old.items) false }
{
    for block in marks.first..marks.past {
        if marks.blocks[block] {
            let start = block * BLOCK;
            sync_range(
                synced,
                touched,
                present,
                start,
                block_end(start, present.len()),
            );
        }
    }
}

fn sync_range(
    synced: &mut Vec<u8>,
    touched: &mut Vec<bool>,
    present: &[u8],
    start: usize,
    end: usize,
)
    requires order { start ≤ end }
    requires present { end ≤ length present.now }
    requires synced { length synced.old.items ≡ length present.now }
    requires touched { length touched.old.items ≡ length present.now }
    ensures synced { synced.new.items ≡ overwritten start (part start (end - start) present.now) synced.old.items }
    ensures touched { touched.new.items ≡ overwritten start (replicate (end - start) false) touched.old.items }
{
    synced[start..end].copy_from_slice(&present[start..end]);
    touched[start..end].fill(false);
}

/// Puts what the picks say into the touched octets of each marked block.
pub fn settle_marked(
    present: &mut Vec<u8>,
    synced: &[u8],
    touched: &[bool],
    marks: &Marks,
    picks: &[Pick],
)
    requires { IsSound synced.now present.old.items touched.now marks.now.blocks.items }
    ensures image { present.new.items ≡ picked_from picks.now 0 touched.now synced.now present.old.items }
    ensures lawful { IsCrashImage synced.now touched.now present.new.items }
{
    let mut count = 0;
    for block in marks.first..marks.past {
        if marks.blocks[block] {
            let start = block * BLOCK;
            let end = block_end(start, synced.len());
            count = settle_range(present, synced, touched, picks, start..end, count);
        }
    }
}

// Puts what the picks say into the touched octets of a range. `count` touched octets lie below its start; the result is
// the number below its end.
fn settle_range(
    present: &mut Vec<u8>,
    synced: &[u8],
    touched: &[bool],
    picks: &[Pick],
    range: Range<usize>,
    count: usize,
) -> usize
    // A range of the octets, and as many synced octets and flags.
    requires order { range.start ≤ range.end }
    requires present { range.end ≤ length present.old.items }
    requires synced { length synced.now ≡ length present.old.items }
    requires touched { length touched.now ≡ length present.old.items }
    requires count { count ≤ range.start }

    // How many touched octets there may be, and as many octets as before.
    ensures count { result ≤ range.end }
    ensures size { length present.new.items ≡ length present.old.items }

    // What is left to settle gives the same image, and untouched octets stay.
    ensures image { settled picks.now result range.end touched.now synced.now present.new.items
        ≡ settled picks.now count range.start touched.now synced.now present.old.items }
    ensures untouched { (k : ℕ) → slice_index_or touched.now k false ≡ false
        → slice_index present.new.items k ≡ slice_index present.old.items k }
{
    let mut count = count;
    for at in range.start..range.end {
        if touched[at] {
            present[at] = octet(pick_at(picks, count), synced[at], present[at]);
            count += 1;
        }
    }
    count
}

fn pick_at(picks: &[Pick], count: usize) -> Pick
    ensures { result ≡ pick_for picks.now count }
{
    if picks.is_empty() {
        Pick::Old
    } else {
        picks[count % picks.len()]
    }
}

fn octet(pick: Pick, old: u8, new: u8) -> u8
    ensures { result ≡ octet_of pick old new }
{
    match pick {
        Pick::Old => old,
        Pick::New => new,
        Pick::Fill(octet) => octet,
    }
}
