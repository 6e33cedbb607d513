//! Numbered blocks of 4,096 octets, and their places in octets laid end to end.

ghost use Rattle.std.specs.Prelude.{◌≡◌, ℕ, ◌+◌, ◌*◌, ◌<◌, ◌≤◌, List, [], length, slice_index_or, slice_set, is_ok, if◌then◌else◌};
ghost use Rattle.std.specs.List.{All};
ghost use Rattle.disk.specs.Image.{overwritten};
ghost use Rattle.model.specs.Volume.{block};

use std::alloc::AllocError;

/// The number of octets in a block.
pub const BLOCK_SIZE: usize = 4096;

/// Blocks of 4,096 octets, numbered from 0.
pub trait Blocks {
    /// What reads give.
    ghost blocks: { Self → List (List ℕ) };

    /// What was applied, which no put changes: the blocks without the stage, and the numbers of the dirty blocks.
    ghost applied: { Self → List (List ℕ) × List ℕ };

    /// The number of blocks.
    fn len(&self) -> u32
        ensures count { result ≡ length (blocks self.now) }
        ensures whole { All (λ octets. length octets ≡ 4096) (blocks self.now) };

    /// The octets of a block.
    fn block(&self, number: u32) -> &[u8]
        requires { number < length (blocks self.now) }
        ensures octets { result.now ≡ slice_index_or (blocks self.now) number [] }
        ensures whole { length result.now ≡ 4096 };

    /// Copies the octets of a block.
    fn get(&self, number: u32, into: &mut [u8])
        requires there { number < length (blocks self.now) }
        requires whole { length into.old ≡ 4096 }
        ensures { into.new ≡ slice_index_or (blocks self.now) number [] }
    {
        into.copy_from_slice(self.block(number));
    }

    /// Replaces the octets of a block. If memory is refused, nothing changes.
    fn put(&mut self, number: u32, from: &[u8]) -> Result<(), AllocError>
        requires there { number < length (blocks self.old) }
        requires whole { length from.now ≡ 4096 }
        ensures put { blocks self.new
            ≡ (if is_ok result then slice_set (blocks self.old) number from.now else blocks self.old) }
        ensures kept { applied self.new ≡ applied self.old };

    /// Replaces the octets of a block from a place on, and leaves its others. If memory is refused, nothing changes.
    fn put_at(&mut self, number: u32, at: usize, part: &[u8]) -> Result<(), AllocError>
        requires there { number < length (blocks self.old) }
        requires fits { at + length part.now ≤ 4096 }
        ensures put { blocks self.new
            ≡ (if is_ok result
            then slice_set (blocks self.old) number (overwritten at part.now (slice_index_or (blocks self.old) number []))
            else blocks self.old) }
        ensures whole { length (slice_index_or (blocks self.old) number []) ≡ 4096 }
        ensures kept { applied self.new ≡ applied self.old };
}

/// The octets of the block with this number.
pub fn block_of(octets: &[u8], number: usize) -> &[u8]
    requires { 4096 * number + 4096 ≤ length octets.now }
    ensures octets { result.now ≡ block number octets.now }
    ensures whole { length result.now ≡ 4096 }
{
    let start = number * BLOCK_SIZE;
    &octets[start..start + BLOCK_SIZE]
}

/// Replaces the octets of the block with this number.
pub fn put_block(octets: &mut [u8], number: usize, from: &[u8])
    requires there { 4096 * number + 4096 ≤ length octets.old }
    requires whole { length from.now ≡ 4096 }
    ensures { octets.new ≡ overwritten (4096 * number) from.now octets.old }
{
    let start = number * BLOCK_SIZE;
    octets[start..start + BLOCK_SIZE].copy_from_slice(from);
}

/// Replaces the octets from a place on.
pub fn put_part(octets: &mut [u8], at: usize, part: &[u8])
    requires { at + length part.now ≤ length octets.old }
    ensures { octets.new ≡ overwritten at part.now octets.old }
{
    let end = at + part.len();
    octets[at..end].copy_from_slice(part);
}

/// Replaces octets of the block with this number, from a place in the block on.
pub fn put_in_block(octets: &mut [u8], number: usize, at: usize, part: &[u8])
    requires there { 4096 * number + 4096 ≤ length octets.old }
    requires fits { at + length part.now ≤ 4096 }
    ensures { octets.new ≡ overwritten (4096 * number) (overwritten at part.now (block number octets.old)) octets.old }
{
    put_part(octets, number * BLOCK_SIZE + at, part);
}
