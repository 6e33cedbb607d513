//! Blocks that changes are written into at once, and what their parts had before.

ghost use Rattle.std.specs.Prelude.{◌≡◌, ◌⊎◌, ◌↔◌, ℕ, ◌+◌, ◌*◌, ◌/◌, ◌<◌, ◌≤◌, List, [], ◌∷◌, ◌++◌, length, slice_index_or, IfOk, IsTrue};
ghost use Rattle.std.specs.Prelude.{is_ok, if◌then◌else◌, OnOk};
ghost use Rattle.std.specs.List.{All, Contains, flat_map};
ghost use Rattle.model.specs.Volume.{AreDistinct, blocks_from, laid_over};
ghost use Rattle.disk.specs.Image.{overwritten};
ghost use Rattle.journal_volume.specs.Chunks.{HasOctets};
ghost use Rattle.journal_volume.specs.Numbers.{IsNumbers};
ghost use Rattle.journal_volume.specs.Parts.{parts_in, put_back};
ghost use Rattle.journal_volume.specs.Volume.{VolumeView, Differs, AgreeOutside, IsVolume, before};

use crate::batch_room::BatchBuf;
use crate::block_parts::{BLOCK_PARTS, PART_SIZE, PartSet, part_of, swap_part};
use crate::chunks::Chunks;
use crate::number_set::NumberSet;
use fs_blocks::Blocks;
use std::alloc::{AllocError, Global};
use std::marker::Model;

/// The logical blocks of a volume. What is staged is written at once, and what its parts had before is kept until it is applied
/// or dropped. A block is dirty exactly if an `apply` changed its octets since the last `copy_dirty`.
#[derive(Drop)]
pub struct Volume {
    blocks: Chunks,
    // the parts that were written since the last `apply`, and the octets that they had then
    kept: PartSet,
    octets: Vec<u8>,
    dirty: NumberSet,
}

impl Model for Volume {
    ghost Value = { VolumeView };

    ghost view = { λ v. record {
      cache = before v.blocks.blocks v.kept.members v.octets.items;
      seen = v.blocks.blocks;
      dirty = v.dirty.members;
    } };

    ghost invariant = { λ v. IsVolume v.blocks v.octets.items v.kept v.dirty };
}

impl Volume {
    /// A volume with these octets, nothing staged and nothing dirty.
    pub fn of(alloc: Global, octets: Vec<u8>, count: u32) -> Result<Volume, AllocError>
        requires { length octets.items ≡ 4096 * count }
        ensures cache { IfOk result (λ v. v.cache ≡ blocks_from 0 count octets.items) }
        ensures seen { IfOk result (λ v. v.seen ≡ v.cache) }
        ensures dirty { IfOk result (λ v. v.dirty ≡ []) }
    {
        let cache = Chunks::of(alloc, &octets, count)?;
        let staged = NumberSet::new(alloc, count)?;
        let dirty = NumberSet::new(alloc, count)?;
        Ok(Volume::with_sets(alloc, cache, staged, dirty))
    }

    /// The same with blocks and sets that were made before: it allocates nothing.
    pub fn with_sets(alloc: Global, cache: Chunks, staged: NumberSet, dirty: NumberSet) -> Volume
        requires count { length cache.blocks ≡ staged.bound }
        requires none { staged.members ≡ [] }
        requires valid { IsNumbers staged }
        requires same { dirty ≡ staged }
        ensures { result ≡ record { cache = cache.blocks; seen = cache.blocks; dirty = [] } }
    {
        // for the proof: each block is whole, and how many there may be
        let _count = cache.len();
        Volume {
            blocks: cache,
            kept: PartSet::of(alloc, staged),
            octets: Vec::new(alloc),
            dirty,
        }
    }

    /// Begins a change with an empty stage.
    pub fn stage(&mut self)
        ensures { self.new ≡ record self.old { seen = self.old.cache } }
    {
        self.drop_stage();
    }

    /// Discards the stage: what it changed has the octets again that it had before.
    pub fn drop_stage(&mut self)
        ensures { self.new ≡ record self.old { seen = self.old.cache } }
    {
        self.exchange();
        self.forget();
    }

    /// Keeps what the stage changed. Blocks whose octets it changed become dirty.
    pub fn apply(&mut self)
        ensures cache { self.new.cache ≡ self.old.seen }
        ensures seen { self.new.seen ≡ self.old.seen }
        ensures dirty { (k : ℕ) → Contains self.new.dirty k ↔ (Contains self.old.dirty k ⊎ Differs self.old.cache self.old.seen k) }
        ensures distinct { AreDistinct self.new.dirty }
    {
        mark_changed(
            &self.blocks,
            self.kept.as_slice(),
            &self.octets,
            &mut self.dirty,
        );
        self.forget();
    }

    /// The number of dirty blocks.
    pub fn dirty_len(&self) -> usize
        ensures { result ≡ length self.now.dirty }
    {
        self.dirty.as_slice().len()
    }

    /// Whether a block is dirty.
    pub fn is_dirty(&self, number: u32) -> bool
        requires { number < length self.now.seen }
        ensures { IsTrue result ↔ Contains self.now.dirty number }
    {
        self.dirty.place(number).is_some()
    }

    /// Copies the dirty blocks out of the cache; there may be at most 512 of them. Afterwards none is dirty.
    pub fn copy_dirty(&mut self, into: &mut BatchBuf)
        requires { length self.old.dirty ≤ 512 }
        ensures clean { self.new ≡ record self.old { dirty = [] } }
        ensures numbers { into.new.numbers ≡ self.old.dirty }
        ensures images { into.new.images ≡ flat_map (λ n. slice_index_or self.old.cache n []) self.old.dirty }
        ensures distinct { AreDistinct into.new.numbers }
        ensures below { All (λ n. n < length self.old.cache) into.new.numbers }
        ensures laid { (blocks : List (List ℕ)) → AgreeOutside into.new.numbers blocks self.old.cache
            → laid_over blocks into.new.numbers (blocks_from 0 (length into.new.numbers) into.new.images) ≡ self.old.cache }
    {
        self.exchange();
        into.fill(self.dirty.as_slice(), &self.blocks);
        self.dirty.clear();
        self.exchange();
    }

    // Exchanges what the kept parts had before for what they have now.
    fn exchange(&mut self)
        ensures { self.new ≡ record self.old { cache = self.old.seen; seen = self.old.cache } }
    {
        exchange_parts(&mut self.blocks, self.kept.as_slice(), &mut self.octets);
    }

    // Keeps no part.
    fn forget(&mut self)
        ensures { self.new ≡ record self.old { cache = self.old.seen } }
    {
        self.kept.clear();
        self.octets.clear();
    }
}

// Exchanges the octets of these parts for those that are given, which then are those that the parts had.
fn exchange_parts(blocks: &mut Chunks, numbers: &[usize], octets: &mut [u8])
    requires there { All (λ p. p / 16 < length blocks.old.blocks) numbers.now }
    requires whole { All (λ octets. length octets ≡ 4096) blocks.old.blocks }
    requires room { All (λ p. HasOctets blocks.old.made (p / 16)) numbers.now }
    requires size { length octets.old ≡ 256 * length numbers.now }
    requires distinct { AreDistinct numbers.now }
    ensures blocks { blocks.new ≡ record blocks.old { blocks = before blocks.old.blocks numbers.now octets.old } }
    ensures back { before blocks.new.blocks numbers.now octets.new ≡ blocks.old.blocks }
{
    for (place, number) in numbers.iter().enumerate() {
        let start = place * PART_SIZE;
        swap_part(blocks, *number, &mut octets[start..start + PART_SIZE]);
    }
}

// Marks the blocks of those parts that have other octets now than they had before.
fn mark_changed(blocks: &Chunks, numbers: &[usize], octets: &[u8], dirty: &mut NumberSet)
    // Parts of the blocks, each once, and the octets that each had before.
    requires there { All (λ p. p / 16 < length blocks.now.blocks) numbers.now }
    requires size { length octets.now ≡ 256 * length numbers.now }
    requires distinct { AreDistinct numbers.now }

    // A set of numbers of the blocks.
    requires bound { dirty.old.bound ≡ length blocks.now.blocks }
    requires dirty { IsNumbers dirty.old }

    // The set gets the numbers of the changed blocks.
    ensures bound { dirty.new.bound ≡ dirty.old.bound }
    ensures valid { IsNumbers dirty.new }
    ensures dirty { (k : ℕ) → Contains dirty.new.members k
        ↔ (Contains dirty.old.members k ⊎ Differs (before blocks.now.blocks numbers.now octets.now) blocks.now.blocks k) }
{
    // for the proof: each block is whole, and how many there may be
    let _count = blocks.len();
    for (place, number) in numbers.iter().enumerate() {
        let start = place * PART_SIZE;
        let before = &octets[start..start + PART_SIZE];
        if part_of(blocks, *number) != before {
            mark(dirty, (*number / BLOCK_PARTS) as u32);
        }
    }
}

// Makes the number a member.
fn mark(dirty: &mut NumberSet, number: u32)
    requires below { number < dirty.old.bound }
    requires valid { IsNumbers dirty.old }
    ensures bound { dirty.new.bound ≡ dirty.old.bound }
    ensures valid { IsNumbers dirty.new }
    ensures members { (k : ℕ) → Contains dirty.new.members k ↔ (Contains dirty.old.members k ⊎ (k ≡ number)) }
{
    if dirty.place(number).is_none() {
        dirty.insert(number);
    }
}

// Keeps what these parts have, but for those that are kept already. If memory is refused, some of them may be kept.
fn keep_parts(
    kept: &mut PartSet,
    octets: &mut Vec<u8>,
    blocks: &Chunks,
    first: usize,
    end: usize,
) -> Result<(), AllocError>
    // The kept parts with their octets, and the parts to be kept.
    requires bound { kept.old.bound ≡ 16 * length blocks.now.blocks }
    requires there { end ≤ kept.old.bound }
    requires valid { IsNumbers kept.old }
    requires size { length octets.old.items ≡ 256 * length kept.old.members }

    // The kept parts, and as many octets as they have.
    ensures bound { kept.new.bound ≡ kept.old.bound }
    ensures valid { IsNumbers kept.new }
    ensures size { length octets.new.items ≡ 256 * length kept.new.members }

    // What the blocks were before is the same, and only these parts are added.
    ensures before { before blocks.now.blocks kept.new.members octets.new.items ≡ before blocks.now.blocks kept.old.members octets.old.items }
    ensures these { (p : ℕ) → Contains kept.new.members p → Contains kept.old.members p ⊎ ((first ≤ p) × (p < end)) }
    ensures all { OnOk result ((p : ℕ) → first ≤ p → p < end → Contains kept.new.members p) }
{
    // for the proof: each block is whole
    let _count = blocks.len();
    for number in first..end {
        if !kept.has(number) {
            keep_part(kept, octets, number, part_of(blocks, number))?;
        }
    }
    Ok(())
}

// Keeps what a part has. If memory is refused, nothing changes.
fn keep_part(
    kept: &mut PartSet,
    octets: &mut Vec<u8>,
    number: usize,
    part: &[u8],
) -> Result<(), AllocError>
    requires below { number < kept.old.bound }
    requires other { ¬ (Contains kept.old.members number) }
    requires valid { IsNumbers kept.old }
    ensures kept { kept.new ≡ (if is_ok result
        then record { bound = kept.old.bound; members = kept.old.members ++ number ∷ [] } else kept.old) }
    ensures valid { IsNumbers kept.new }
    ensures octets { octets.new.items ≡ (if is_ok result then octets.old.items ++ part.now else octets.old.items) }
{
    let end = octets.len();
    octets.extend_from_slice(part)?;
    if let Err(refused) = kept.insert(number) {
        octets.truncate(end);
        return Err(refused);
    }
    Ok(())
}

impl Blocks for Volume {
    ghost blocks = { λ v. v.seen };

    ghost applied = { λ v. (v.cache, v.dirty) };

    fn len(&self) -> u32 {
        self.blocks.len()
    }

    fn block(&self, number: u32) -> &[u8] {
        self.blocks.block(number)
    }

    fn put(&mut self, number: u32, from: &[u8]) -> Result<(), AllocError> {
        self.put_at(number, 0, from)
    }

    fn put_at(&mut self, number: u32, at: usize, part: &[u8]) -> Result<(), AllocError> {
        self.blocks.make_room(number)?;
        let first = number as usize * BLOCK_PARTS;
        keep_parts(
            &mut self.kept,
            &mut self.octets,
            &self.blocks,
            first + at / PART_SIZE,
            first + (at + part.len()).div_ceil(PART_SIZE),
        )?;
        self.blocks.put_at(number, at, part);
        Ok(())
    }
}
