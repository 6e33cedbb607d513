//! Collected octets. Each block that has some has a slot: its 4,096 octets, and which of them were collected. Slots
//! follow one another in the order in which they were asked for, so a write moves no other octets; before a sync they are
//! put into the order of their blocks. A map has the slots by their blocks, so nothing here grows with the size of the
//! device. A slot that was collected as a whole has no flags.

ghost use Rattle.std.specs.Prelude.{◌≡◌, ◌≢◌, ◌⊎◌, ◌<◌, ◌≤◌, ℕ, ◌+◌, ◌-◌, ◌*◌, ◌/◌, ◌%◌, ◌^◌, Some, None, IfSome};
ghost use Rattle.std.specs.Prelude.{IsNone, IsSome, true, option_map};
ghost use Rattle.std.specs.Prelude.{OnErr, OnOk, length, max, min, slice_index, slice_index_or, unwrap_or, if◌then◌else◌};
ghost use Rattle.std.specs.BTreeMap.{IsEmpty, get};
ghost use Rattle.std.specs.Ordering.{nat_cmp};
ghost use Rattle.disk.specs.Image.{overwritten};
ghost use Rattle.disk_cache.specs.Slots.{AreSlots, AreWhole, IsArranged, IsNextBlock, IsSound, cell, is_collected, other_of};

use std::alloc::{AllocError, Global};
use std::collections::BTreeMap;

/// The octets of a block.
pub const BLOCK: usize = 4096;
/// The flag of an octet that was collected. The flag of any other octet is 0.
pub const COLLECTED: u8 = 1;

/// Which octets of a slot were collected.
#[derive(Clone, Copy)]
pub enum Fill {
    Nothing,
    /// Those whose flags say so.
    Partly,
    /// All of them. Their flags say nothing.
    Whole,
}

/// The slots of adjacent blocks, from this block on: what was collected in each, and for each octet its flag.
#[derive(Drop)]
pub struct Slots<'a> {
    pub block: usize,
    pub fills: &'a [Fill],
    pub flags: &'a [u8],
    pub octets: &'a [u8],
}

/// The collected octets by their places.
#[derive(Drop)]
pub struct Collected {
    // the numbers of the slots, by their blocks
    slots: BTreeMap<usize, usize>,
    // the block of each slot
    owners: Vec<usize>,
    // these three may have room for more slots than there are
    fills: Vec<Fill>,
    flags: Vec<u8>,
    octets: Vec<u8>,
    ghost sound: { IsSound (get nat_cmp slots) owners.items fills.items flags.items octets.items },
}

impl Collected {
    ghost use Rattle.disk_cache.specs.Taken.{taken};

    /// An empty collection. It takes no memory.
    pub fn new(alloc: Global) -> Collected
        ensures { (k : ℕ) → taken result k ≡ None }
    {
        Collected {
            slots: BTreeMap::new(alloc),
            owners: Vec::new(alloc),
            fills: Vec::new(alloc),
            flags: Vec::new(alloc),
            octets: Vec::new(alloc),
        }
    }

    /// Collects octets from `at` on. If an allocation is refused, none of the octets is collected.
    pub fn collect(&mut self, at: usize, from: &[u8]) -> Result<(), AllocError>
        requires { at + length from.now < 2 ^ 64 }
        ensures inside { OnOk result ((k : ℕ) → at ≤ k → k < at + length from.now
            → taken self.new k ≡ Some (slice_index from.now (k - at))) }
        ensures outside { OnOk result ((k : ℕ) → (k < at) ⊎ (at + length from.now ≤ k) → taken self.new k ≡ taken self.old k) }
        ensures refused { OnErr result ((k : ℕ) → taken self.new k ≡ taken self.old k) }
    {
        if from.is_empty() {
            return Ok(());
        }
        let first = at / BLOCK;
        let past = (at + from.len() - 1) / BLOCK + 1;
        self.make_room(first, past)?;
        for block in first..past {
            self.put(block, at, from);
        }
        Ok(())
    }

    // Makes slots for these blocks, with no octet collected in them.
    fn make_room(&mut self, first: usize, past: usize) -> Result<(), AllocError>
        requires { past ≤ 2 ^ 52 }
        ensures room { OnOk result ((b : ℕ) → first ≤ b → b < past → IsSome (get nat_cmp self.new.slots b)) }
        ensures same { (k : ℕ) → taken self.new k ≡ taken self.old k }
    {
        for block in first..past {
            self.add_slot(block)?;
        }
        Ok(())
    }

    // Makes a slot for this block, if it has none.
    fn add_slot(&mut self, block: usize) -> Result<(), AllocError>
        requires { block < 2 ^ 52 }
        ensures room { OnOk result (IsSome (get nat_cmp self.new.slots block)) }
        ensures others { (b : ℕ) → b ≢ block → get nat_cmp self.new.slots b ≡ get nat_cmp self.old.slots b }
        ensures same { (k : ℕ) → taken self.new k ≡ taken self.old k }
    {
        if self.slots.contains_key(&block) {
            return Ok(());
        }
        let slot = self.owners.len();
        make_slot(&mut self.fills, &mut self.flags, &mut self.octets, slot)?;
        self.owners.push(block)?;
        match self.slots.insert(block, slot) {
            Ok(_) => Ok(()),
            Err(_) => {
                self.owners.pop();
                Err(AllocError)
            }
        }
    }

    // Puts those of the octets from `at` on that lie in this block.
    fn put(&mut self, block: usize, at: usize, from: &[u8])
        requires slot { IsSome (get nat_cmp self.old.slots block) }
        requires fits { at + length from.now < 2 ^ 64 }
        requires low { 4096 * block < at + length from.now }
        requires high { at < 4096 * block + 4096 }
        ensures slots { self.new.slots ≡ self.old.slots }
        ensures inside { (k : ℕ) → at ≤ k → k < at + length from.now → k / 4096 ≡ block
            → taken self.new k ≡ Some (slice_index from.now (k - at)) }
        ensures outside { (k : ℕ) → (k < at) ⊎ ((at + length from.now ≤ k) ⊎ (k / 4096 ≢ block)) → taken self.new k ≡ taken self.old k }
    {
        let start = BLOCK * block;
        let low = at.max(start);
        let high = start + BLOCK.min(at + from.len() - start);
        let slot = self.slots[&block];
        let place = BLOCK * slot + (low - start);
        put_part(&mut self.octets, place, &from[low - at..high - at]);
        note(&mut self.fills, &mut self.flags, slot, place, high - low);
    }

    /// Puts the collected octets over those from `at` on.
    pub fn show(&self, at: usize, into: &mut [u8])
        requires { at + length into.old < 2 ^ 64 }
        ensures { (k : ℕ) → k < length into.old → slice_index into.new k ≡ unwrap_or (taken self.now (at + k)) (slice_index into.old k) }
    {
        if into.is_empty() {
            return;
        }
        let past = (at + into.len() - 1) / BLOCK + 1;
        for block in at / BLOCK..past {
            self.show_block(block, at, into);
        }
    }

    // Puts the collected octets of this block over those from `at` on.
    fn show_block(&self, block: usize, at: usize, into: &mut [u8])
        requires fits { at + length into.old < 2 ^ 64 }
        requires low { 4096 * block < at + length into.old }
        requires high { at < 4096 * block + 4096 }
        ensures inside { (k : ℕ) → k < length into.old → (at + k) / 4096 ≡ block
            → slice_index into.new k ≡ unwrap_or (taken self.now (at + k)) (slice_index into.old k) }
        ensures outside { (k : ℕ) → (at + k) / 4096 ≢ block → slice_index into.new k ≡ slice_index into.old k }
    {
        match self.slot(block) {
            Some(slot) => show_slot(&slot, at, into),
            None => {}
        }
    }

    // The slot of a block, if it has one.
    fn slot(&self, block: usize) -> Option<Slots<'_>>
        ensures none { IsNone result → (i : ℕ) → i < 4096 → taken self.now (4096 * block + i) ≡ None }
        ensures block { IfSome result (λ s. s.block ≡ block) }
        ensures some { IfSome result (λ s. AreSlots block 1 (taken self.now) s.fills.now s.flags.now s.octets.now) }
    {
        match self.slots.get(&block) {
            Some(slot) => Some(self.cut(block, *slot, *slot + 1)),
            None => None,
        }
    }

    /// The slots of the first block with a slot, from this one on, and of those that follow it without a gap.
    pub fn next_slots(&self, from: usize) -> Option<Slots<'_>>
        // Adjacent blocks have adjacent slots.
        requires { IsArranged (get nat_cmp self.now.slots) }

        // Where the slots begin. Nothing was collected between `from` and there.
        ensures none { IsNone result → (k : ℕ) → 4096 * from ≤ k → taken self.now k ≡ None }
        ensures low { IfSome result (λ s. from ≤ s.block) }
        ensures few { IfSome result (λ s. s.block + length s.fills.now ≤ 2 ^ 52) }
        ensures first { IfSome result (λ s. (k : ℕ) → 4096 * from ≤ k → k < 4096 * s.block → taken self.now k ≡ None) }

        // What was collected in the slots, and no octet right behind them.
        ensures some { IfSome result (λ s. AreSlots s.block (length s.fills.now) (taken self.now) s.fills.now s.flags.now s.octets.now) }
        ensures one { IfSome result (λ s. 0 < length s.fills.now) }
        ensures last { IfSome result (λ s. taken self.now (4096 * (s.block + length s.fills.now)) ≡ None) }
    {
        match self.slots.range(from..).next() {
            Some((block, slot)) => {
                Some(self.cut(*block, *slot, adjacent_past(&self.owners, *slot)))
            }
            None => None,
        }
    }

    // The slots from one up to another, of adjacent blocks of which this is the first.
    fn cut(&self, block: usize, slot: usize, past: usize) -> Slots<'_>
        requires order { slot ≤ past }
        requires there { past ≤ length self.now.owners.items }
        requires adjacent { (i : ℕ) → slot + i < past → slice_index self.now.owners.items (slot + i) ≡ block + i }
        ensures block { result.block ≡ block }
        ensures slots { AreSlots block (past - slot) (taken self.now) result.fills.now result.flags.now result.octets.now }
    {
        Slots {
            block,
            fills: &self.fills[slot..past],
            flags: &self.flags[BLOCK * slot..BLOCK * past],
            octets: &self.octets[BLOCK * slot..BLOCK * past],
        }
    }

    /// Puts the slots into the order of their blocks.
    pub fn arrange(&mut self)
        ensures arranged { IsArranged (get nat_cmp self.new.slots) }
        ensures same { (k : ℕ) → taken self.new k ≡ taken self.old k }
    {
        let mut slot = 0;
        let mut from = 0;
        while let Some((block, before)) = self.next_block(from) {
            self.move_slot(block, before, slot);
            slot += 1;
            from = block + 1;
        }
    }

    // The first block with a slot, from this one on, and the slot's number.
    fn next_block(&self, from: usize) -> Option<(usize, usize)>
        ensures none { IsNone result → (b : ℕ) → from ≤ b → get nat_cmp self.now.slots b ≡ None }
        ensures next { IfSome result (λ next. IsNextBlock (get nat_cmp self.now.slots) from next.0 next.1) }
        ensures few { IfSome result (λ next. next.0 < 2 ^ 52) }
    {
        match self.slots.range(from..).next() {
            Some((block, slot)) => Some((*block, *slot)),
            None => None,
        }
    }

    // Moves what this block has from the slot with one number to that with another, and what was there to the first.
    fn move_slot(&mut self, block: usize, from: usize, to: usize)
        requires there { get nat_cmp self.old.slots block ≡ Some from }
        requires order { to ≤ from }
        ensures moved { (b : ℕ) → get nat_cmp self.new.slots b ≡ option_map (other_of to from) (get nat_cmp self.old.slots b) }
        ensures same { (k : ℕ) → taken self.new k ≡ taken self.old k }
    {
        if from == to {
            return;
        }
        let other = self.owner(to);
        replace(&mut self.slots, other, from);
        replace(&mut self.slots, block, to);
        self.owners.swap(to, from);
        swap_flags(&mut self.fills, &mut self.flags, to, from);
        swap_blocks(&mut self.octets, to, from);
    }

    // The block of a slot.
    fn owner(&self, slot: usize) -> usize
        requires { slot < length self.now.owners.items }
        ensures { result ≡ slice_index self.now.owners.items slot }
    {
        self.owners[slot]
    }

    /// Discards all of them, and keeps the room. No block has a slot any more.
    pub fn clear(&mut self)
        ensures none { (k : ℕ) → taken self.new k ≡ None }
        ensures slots { IsEmpty self.new.slots }
        ensures owners { length self.new.owners.items ≡ 0 }
    {
        self.slots.clear();
        self.owners.clear();
    }
}

// Gives this block another slot.
fn replace(slots: &mut BTreeMap<usize, usize>, block: usize, slot: usize)
    requires { IsSome (get nat_cmp slots.old block) }
    ensures there { get nat_cmp slots.new block ≡ Some slot }
    ensures others { (b : ℕ) → b ≢ block → get nat_cmp slots.new b ≡ get nat_cmp slots.old b }
{
    // a block that has one needs no memory
    let _replaced = slots.insert(block, slot);
}

// How many slots there are up to the first, from this one on, whose block doesn't follow the one before it.
fn adjacent_past(blocks: &[usize], slot: usize) -> usize
    requires there { slot < length blocks.now }
    requires few { (i : ℕ) → i < length blocks.now → slice_index blocks.now i < 2 ^ 52 }
    ensures low { slot < result }
    ensures high { result ≤ length blocks.now }
    ensures adjacent { (i : ℕ) → slot + i < result → slice_index blocks.now (slot + i) ≡ slice_index blocks.now slot + i }
    ensures ends { (result ≡ length blocks.now)
        ⊎ (slice_index blocks.now result ≢ slice_index blocks.now slot + (result - slot)) }
{
    let mut past = slot + 1;
    while past < blocks.len() && blocks[past] == blocks[past - 1] + 1 {
        past += 1;
    }
    past
}

// Makes room for the slot with this number, with nothing collected in it.
fn make_slot(
    fills: &mut Vec<Fill>,
    flags: &mut Vec<u8>,
    octets: &mut Vec<u8>,
    slot: usize,
) -> Result<(), AllocError>
    // There is room for the slots before this one.
    requires place { 4096 * slot ≤ length flags.old.items }
    requires room { length flags.old.items ≤ length octets.old.items }

    // After `Ok` the slot is there, and empty.
    ensures fill { OnOk result (slice_index_or fills.new.items slot Fill.Nothing ≡ Fill.Nothing) }
    ensures there { OnOk result (slot < length fills.new.items) }

    // What the slots before it hold stays.
    ensures fills { (s : ℕ) → s < slot → slice_index_or fills.new.items s Fill.Nothing ≡ slice_index_or fills.old.items s Fill.Nothing }
    ensures flags { (p : ℕ) → slice_index flags.new.items p ≡ slice_index flags.old.items p }
    ensures octets { (p : ℕ) → slice_index octets.new.items p ≡ slice_index octets.old.items p }

    // Room for the slot, and no less than before.
    ensures size { OnOk result (4096 * slot + 4096 ≤ length flags.new.items) }
    ensures more_fills { length fills.old.items ≤ length fills.new.items }
    ensures more { length flags.old.items ≤ length flags.new.items }
    ensures room { length flags.new.items ≤ length octets.new.items }
{
    add_zeros(octets, BLOCK * slot)?;
    add_zeros(flags, BLOCK * slot)?;
    fills.resize(fills.len().max(slot + 1), Fill::Nothing)?;
    fills[slot] = Fill::Nothing;
    Ok(())
}

// Appends zeros up to the end of the block that starts at this place; none, if the octets reach as far.
fn add_zeros(octets: &mut Vec<u8>, place: usize) -> Result<(), AllocError>
    ensures size { OnOk result (length octets.new.items ≡ max (length octets.old.items) (place + 4096)) }
    ensures same { (k : ℕ) → slice_index octets.new.items k ≡ slice_index octets.old.items k }
    ensures refused { OnErr result (octets.new.items ≡ octets.old.items) }
{
    match place.checked_add(BLOCK) {
        Some(end) => octets.resize(octets.len().max(end), 0),
        None => Err(AllocError),
    }
}

fn put_part(octets: &mut Vec<u8>, place: usize, from: &[u8])
    requires { place + length from.now ≤ length octets.old.items }
    ensures { octets.new.items ≡ overwritten place from.now octets.old.items }
{
    octets[place..place + from.len()].copy_from_slice(from);
}

// Notes that so many octets of a slot were collected, from a place on.
fn note(fills: &mut Vec<Fill>, flags: &mut Vec<u8>, slot: usize, place: usize, len: usize)
    // The slot is there, and the octets lie in it.
    requires slot { slot < length fills.old.items }
    requires size { 4096 * slot + 4096 ≤ length flags.old.items }
    requires low { 4096 * slot ≤ place }
    requires high { place + len ≤ 4096 * slot + 4096 }

    // These are collected now, and for others nothing changes.
    ensures inside { (p : ℕ) → place ≤ p → p < place + len → is_collected fills.new.items flags.new.items p ≡ true }
    ensures outside { (p : ℕ) → (p < place) ⊎ (place + len ≤ p)
        → is_collected fills.new.items flags.new.items p ≡ is_collected fills.old.items flags.old.items p }

    // As many slots and flags as before.
    ensures fills { length fills.new.items ≡ length fills.old.items }
    ensures flags { length flags.new.items ≡ length flags.old.items }
{
    if len == BLOCK {
        fills[slot] = Fill::Whole;
        return;
    }
    begin_flags(fills, flags, slot);
    flags[place..place + len].fill(COLLECTED);
}

// Lets the flags of a slot say that nothing was collected in it, where that is so.
fn begin_flags(fills: &mut Vec<Fill>, flags: &mut Vec<u8>, slot: usize)
    requires slot { slot < length fills.old.items }
    requires size { 4096 * slot + 4096 ≤ length flags.old.items }
    ensures some { slice_index_or fills.new.items slot Fill.Nothing ≢ Fill.Nothing }
    ensures same { (p : ℕ) → is_collected fills.new.items flags.new.items p ≡ is_collected fills.old.items flags.old.items p }
    ensures fills { length fills.new.items ≡ length fills.old.items }
    ensures flags { length flags.new.items ≡ length flags.old.items }
{
    match fills[slot] {
        Fill::Nothing => {
            fills[slot] = Fill::Partly;
            flags[BLOCK * slot..BLOCK * slot + BLOCK].fill(0);
        }
        Fill::Partly | Fill::Whole => {}
    }
}

// Lets two slots change what was collected in them.
fn swap_flags(fills: &mut Vec<Fill>, flags: &mut Vec<u8>, low: usize, high: usize)
    requires order { low < high }
    requires slot { high < length fills.old.items }
    requires size { 4096 * high + 4096 ≤ length flags.old.items }
    ensures swapped { (s i : ℕ) → i < 4096 → is_collected fills.new.items flags.new.items (4096 * other_of low high s + i)
        ≡ is_collected fills.old.items flags.old.items (4096 * s + i) }
    ensures fills { length fills.new.items ≡ length fills.old.items }
    ensures flags { length flags.new.items ≡ length flags.old.items }
{
    match (fills[low], fills[high]) {
        (Fill::Whole, Fill::Whole) => {}
        _ => {
            fills.swap(low, high);
            swap_blocks(flags, low, high);
        }
    }
}

// Lets two blocks of these octets change places.
fn swap_blocks(octets: &mut Vec<u8>, low: usize, high: usize)
    requires order { low < high }
    requires size { 4096 * high + 4096 ≤ length octets.old.items }
    ensures swapped { (s i : ℕ) → i < 4096
        → slice_index octets.new.items (4096 * other_of low high s + i) ≡ slice_index octets.old.items (4096 * s + i) }
    ensures size { length octets.new.items ≡ length octets.old.items }
{
    let (front, back) = octets.split_at_mut(BLOCK * high);
    swap_front(front, BLOCK * low, back);
}

// Lets the block at this place and the first one of the others change places.
fn swap_front(octets: &mut [u8], place: usize, others: &mut [u8])
    // Both have a whole block there.
    requires place { place + 4096 ≤ length octets.old }
    requires size { 4096 ≤ length others.old }

    // `octets` with the block of `others`, and the same beside it.
    ensures block { (i : ℕ) → i < 4096 → slice_index octets.new (place + i) ≡ slice_index others.old i }
    ensures beside { (p : ℕ) → (p < place) ⊎ (place + 4096 ≤ p) → slice_index octets.new p ≡ slice_index octets.old p }

    // `others` with the block of `octets`, and the same behind it.
    ensures first { (i : ℕ) → i < 4096 → slice_index others.new i ≡ slice_index octets.old (place + i) }
    ensures behind { (p : ℕ) → 4096 ≤ p → slice_index others.new p ≡ slice_index others.old p }

    // Both keep their sizes.
    ensures size { length octets.new ≡ length octets.old }
    ensures others_size { length others.new ≡ length others.old }
{
    octets[place..place + BLOCK].swap_with_slice(&mut others[..BLOCK]);
}

// Puts the collected octets of a slot over those from `at` on.
fn show_slot(slot: &Slots<'_>, at: usize, into: &mut [u8])
    requires one { length slot.now.fills.now ≡ 1 }
    requires whole { AreWhole slot.now.fills.now slot.now.flags.now slot.now.octets.now }
    requires fits { at + length into.old < 2 ^ 64 }
    requires low { 4096 * slot.now.block < at + length into.old }
    requires high { at < 4096 * slot.now.block + 4096 }
    ensures inside { (k : ℕ) → k < length into.old → 4096 * slot.now.block ≤ at + k → at + k < 4096 * slot.now.block + 4096
        → slice_index into.new k ≡ unwrap_or (cell slot.now.fills.now slot.now.flags.now slot.now.octets.now
        (at + k - 4096 * slot.now.block)) (slice_index into.old k) }
    ensures outside { (k : ℕ) → (at + k < 4096 * slot.now.block) ⊎ (4096 * slot.now.block + 4096 ≤ at + k)
        → slice_index into.new k ≡ slice_index into.old k }
{
    let start = BLOCK * slot.block;
    let first = start.saturating_sub(at);
    let past = start + BLOCK.min(at + into.len() - start) - at;
    for k in first..past {
        let place = at + k - start;
        if has(slot, place) {
            into[k] = slot.octets[place];
        }
    }
}

/// Whether the octet at this place of the slots was collected.
pub fn has(slots: &Slots<'_>, place: usize) -> bool
    requires whole { AreWhole slots.now.fills.now slots.now.flags.now slots.now.octets.now }
    requires within { place < length slots.now.flags.now }
    ensures { result ≡ is_collected slots.now.fills.now slots.now.flags.now place }
{
    match slots.fills[place / BLOCK] {
        Fill::Nothing => false,
        Fill::Partly => slots.flags[place] == COLLECTED,
        Fill::Whole => true,
    }
}
