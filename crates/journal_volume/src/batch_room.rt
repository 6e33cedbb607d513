//! The room for a batch.

ghost use Rattle.std.specs.Prelude.{◌≡◌, ◌*◌, ◌<◌, ◌≤◌, [], length, slice_index_or, take, IfOk};
ghost use Rattle.std.specs.List.{All, flat_map};
ghost use Rattle.model.specs.Volume.{block};
ghost use Rattle.journal_volume.specs.Volume.{BatchView};

use crate::BATCH_BLOCKS;
use crate::chunks::Chunks;
use fs_blocks::{BLOCK_SIZE, block_of, put_block};
use std::alloc::{AllocError, Global};
use std::marker::Model;

/// Numbers and octets of up to 512 blocks.
#[derive(Drop)]
pub struct BatchBuf {
    numbers: Vec<u32>,
    images: Vec<u8>,
    count: usize,
}

impl Model for BatchBuf {
    ghost Value = { BatchView };

    ghost view = { λ b. record { numbers = take b.count b.numbers.items; images = take (4096 * b.count) b.images.items } };

    ghost invariant = { λ b. (b.count ≤ 512) × (length b.numbers.items ≡ 512) × (length b.images.items ≡ 512 * 4096) };
}

impl BatchBuf {
    /// An empty batch with room for 512 blocks.
    pub fn new(alloc: Global) -> Result<BatchBuf, AllocError>
        ensures { IfOk result (λ b. b ≡ record { numbers = []; images = [] }) }
    {
        Ok(BatchBuf {
            numbers: vec![in alloc; 0; BATCH_BLOCKS]?,
            images: vec![in alloc; 0; BATCH_BLOCKS * BLOCK_SIZE]?,
            count: 0,
        })
    }

    /// The numbers of its blocks.
    pub fn numbers(&self) -> &[u32]
        ensures { result.now ≡ self.now.numbers }
    {
        &self.numbers[..self.count]
    }

    /// The octets of its blocks, in the order of their numbers, laid end to end.
    pub fn images(&self) -> &[u8]
        ensures { result.now ≡ self.now.images }
    {
        &self.images[..self.count * BLOCK_SIZE]
    }

    /// The octets of its block at a place. Its clauses also state what a batch keeps.
    pub fn image(&self, place: usize) -> &[u8]
        requires { place < length self.now.numbers }
        ensures octets { result.now ≡ block place self.now.images }
        ensures whole { length result.now ≡ 4096 }
        ensures few { length self.now.numbers ≤ 512 }
        ensures size { length self.now.images ≡ 4096 * length self.now.numbers }
    {
        block_of(&self.images[..self.count * BLOCK_SIZE], place)
    }

    // Replaces its blocks with those that have these numbers.
    pub(crate) fn fill(&mut self, numbers: &[u32], cache: &Chunks)
        requires few { length numbers.now ≤ 512 }
        requires there { All (λ n. n < length cache.now.blocks) numbers.now }
        ensures { self.new ≡ record {
          numbers = numbers.now;
          images = flat_map (λ n. slice_index_or cache.now.blocks n []) numbers.now;
        } }
    {
        copy_front(&mut self.numbers, numbers);
        gather(&mut self.images, numbers, cache);
        self.count = numbers.len();
    }
}

// Copies the numbers to the start of `into`.
fn copy_front(into: &mut [u32], from: &[u32])
    requires { length from.now ≤ length into.old }
    ensures { take (length from.now) into.new ≡ from.now }
{
    into[..from.len()].copy_from_slice(from);
}

// Copies the blocks with these numbers to the start of `images`.
fn gather(images: &mut [u8], numbers: &[u32], cache: &Chunks)
    requires room { 4096 * length numbers.now ≤ length images.old }
    requires there { All (λ n. n < length cache.now.blocks) numbers.now }
    ensures { take (4096 * length numbers.now) images.new ≡ flat_map (λ n. slice_index_or cache.now.blocks n []) numbers.now }
{
    for (place, number) in numbers.iter().enumerate() {
        put_block(images, place, cache.block(*number));
    }
}
