//! Blocks on their way to a copy.

ghost use Rattle.std.specs.Prelude.{◌≡◌, ◌↔◌, ◌*◌, ◌<◌, ◌≤◌, [], ◌∷◌, ◌++◌, length, IfOk, IsTrue};

use fs_blocks::BLOCK_SIZE;
use std::alloc::{AllocError, Global};
use std::marker::Model;

/// The most blocks of a portion. It is more than a batch has, so a copy gets more at once than a batch changes.
pub const PORTION_BLOCKS: usize = 1024;

/// Numbers and octets of up to `PORTION_BLOCKS` blocks.
#[derive(Drop)]
pub struct Portion {
    numbers: Vec<u32>,
    images: Vec<u8>,
    count: usize,
}

impl Model for Portion {
    ghost use Rattle.std.specs.Prelude.{◌≡◌, ◌*◌, ◌≤◌, length, take};
    ghost use Rattle.copy_portions.specs.Copying.{PortionView};

    ghost Value = { PortionView };

    ghost view = { λ p. record { numbers = take p.count p.numbers.items; images = take (4096 * p.count) p.images.items } };

    ghost invariant = { λ p. (p.count ≤ 1024) × (length p.numbers.items ≡ 1024) × (length p.images.items ≡ 1024 * 4096) };
}

impl Portion {
    /// An empty one, which has room for `PORTION_BLOCKS`. Refused only for want of memory.
    pub fn new(alloc: Global) -> Result<Portion, AllocError>
        ensures { IfOk result (λ p. p ≡ record { numbers = []; images = [] }) }
    {
        Ok(Portion {
            numbers: vec![in alloc; 0; PORTION_BLOCKS]?,
            images: vec![in alloc; 0; PORTION_BLOCKS * BLOCK_SIZE]?,
            count: 0,
        })
    }

    /// The numbers of its blocks.
    pub fn numbers(&self) -> &[u32]
        ensures { result.now ≡ self.now.numbers }
    {
        &self.numbers[..self.count]
    }

    /// The octets of its blocks, in the order of their numbers, laid end to end.
    pub fn images(&self) -> &[u8]
        ensures images { result.now ≡ self.now.images }
        ensures size { length result.now ≡ 4096 * length self.now.numbers }
    {
        &self.images[..self.count * BLOCK_SIZE]
    }

    /// Whether it has no room for one more block.
    pub fn is_full(&self) -> bool
        ensures { IsTrue result ↔ (1024 ≤ length self.now.numbers) }
    {
        self.count >= PORTION_BLOCKS
    }

    /// Whether it has no block.
    pub fn is_empty(&self) -> bool
        ensures { IsTrue result ↔ (self.now.numbers ≡ []) }
    {
        self.count == 0
    }

    /// Takes all blocks out.
    pub fn clear(&mut self)
        ensures { self.new ≡ record { numbers = []; images = [] } }
    {
        self.count = 0;
    }

    /// Puts a block of 4,096 octets after the others.
    pub fn push(&mut self, number: u32, block: &[u8])
        requires room { length self.old.numbers < 1024 }
        requires whole { length block.now ≡ 4096 }
        ensures numbers { self.new.numbers ≡ self.old.numbers ++ number ∷ [] }
        ensures images { self.new.images ≡ self.old.images ++ block.now }
    {
        let start = self.count * BLOCK_SIZE;
        self.numbers[self.count] = number;
        self.images[start..start + BLOCK_SIZE].copy_from_slice(block);
        self.count += 1;
    }
}
