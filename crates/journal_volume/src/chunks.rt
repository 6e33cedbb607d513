//! The cached blocks. A block of zeros gets octets when something is first put into it.

ghost use Rattle.std.specs.Prelude.{◌≡◌, ℕ, ◌*◌, ◌+◌, ◌<◌, ◌≤◌, [], length, replicate, slice_index_or, slice_set, IfOk, OnOk};
ghost use Rattle.std.specs.Prelude.{is_ok, if◌then◌else◌};
ghost use Rattle.std.specs.List.{All};
ghost use Rattle.disk.specs.Image.{overwritten};
ghost use Rattle.model.specs.Volume.{blocks_from};
ghost use Rattle.journal_volume.specs.Chunks.{ChunksView, AreChunks, HasOctets, view_of};
ghost use Rattle.journal_volume.specs.Pieces.{zero_block};

use crate::number_set::NumberSet;
use crate::pieces::Pieces;
use fs_blocks::{BLOCK_SIZE, block_of};
use std::alloc::{AllocError, Global};
use std::marker::Model;

/// Blocks of 4,096 octets. A block of zeros takes no memory before something is put into it.
#[derive(Drop)]
pub struct Chunks {
    // the blocks that have octets, in the order in which they got them: the place of one of them is its slot
    made: NumberSet,
    slots: Pieces,
}

impl Model for Chunks {
    ghost Value = { ChunksView };

    ghost view = { λ c. view_of c.made c.slots };

    ghost invariant = { λ c. AreChunks c.made c.slots };
}

impl Chunks {
    /// Blocks of zeros.
    pub fn new(alloc: Global, count: u32) -> Result<Chunks, AllocError>
        ensures { IfOk result (λ c. c.blocks ≡ replicate count zero_block) }
    {
        let made = NumberSet::new(alloc, count)?;
        let slots = Pieces::new(alloc, count)?;
        Ok(Chunks { made, slots })
    }

    /// Blocks with these octets.
    pub fn of(alloc: Global, octets: &[u8], count: u32) -> Result<Chunks, AllocError>
        requires { length octets.now ≡ 4096 * count }
        ensures { IfOk result (λ c. c.blocks ≡ blocks_from 0 count octets.now) }
    {
        let mut chunks = Chunks::new(alloc, count)?;
        for number in 0..count {
            chunks.replace(number, block_of(octets, number as usize))?;
        }
        Ok(chunks)
    }

    /// The number of blocks.
    pub fn len(&self) -> u32
        ensures count { result ≡ length self.now.blocks }
        ensures whole { All (λ octets. length octets ≡ 4096) self.now.blocks }
    {
        self.slots.len()
    }

    /// The octets of a block.
    pub fn block(&self, number: u32) -> &[u8]
        requires { number < length self.now.blocks }
        ensures octets { result.now ≡ slice_index_or self.now.blocks number [] }
        ensures whole { length result.now ≡ 4096 }
    {
        match self.made.place(number) {
            Some(slot) => self.slots.block(slot),
            None => &[0; BLOCK_SIZE],
        }
    }

    /// Replaces the octets of a block. It gets octets only if this changes it. If memory is refused, nothing changes.
    pub fn replace(&mut self, number: u32, from: &[u8]) -> Result<(), AllocError>
        requires there { number < length self.old.blocks }
        requires whole { length from.now ≡ 4096 }
        ensures { self.new.blocks ≡ (if is_ok result then slice_set self.old.blocks number from.now else self.old.blocks) }
    {
        if self.block(number) == from {
            return Ok(());
        }
        self.make_room(number)?;
        self.put_at(number, 0, from);
        Ok(())
    }

    // Gives octets to a block, so that a put takes no memory. If memory is refused, no block changes.
    pub(crate) fn make_room(&mut self, number: u32) -> Result<(), AllocError>
        requires { number < length self.old.blocks }
        ensures blocks { self.new.blocks ≡ self.old.blocks }
        ensures room { OnOk result (HasOctets self.new.made number) }
        ensures kept { (n : ℕ) → HasOctets self.old.made n → HasOctets self.new.made n }
    {
        if let Some(_slot) = self.made.place(number) {
            return Ok(());
        }
        self.slots.make_room(self.made.as_slice().len())?;
        self.made.insert(number);
        Ok(())
    }

    // Replaces octets of a block that has octets, from a place in the block on.
    pub(crate) fn put_at(&mut self, number: u32, at: usize, part: &[u8])
        requires there { number < length self.old.blocks }
        requires room { HasOctets self.old.made number }
        requires fits { at + length part.now ≤ 4096 }
        ensures { self.new ≡ record self.old {
          blocks = slice_set self.old.blocks number (overwritten at part.now (slice_index_or self.old.blocks number []));
        } }
    {
        if let Some(slot) = self.made.place(number) {
            self.slots.put_at(slot, at, part);
        }
    }
}
