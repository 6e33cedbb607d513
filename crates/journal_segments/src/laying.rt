//! The images that open segments hold of a logical block.

ghost use Rattle.std.specs.Prelude.{◌≡◌, ◌≤◌, ◌<◌, ◌+◌, ◌*◌, ◌^◌, ℕ, List, [], length, map, slice_index_or, take};
ghost use Rattle.model.specs.Volume.{all_laid_over, block, laid_over};
ghost use Rattle.journal_laws.specs.Held.{batches_of};
ghost use Rattle.journal_segments.specs.Staged.{held_as, staged_at};

use crate::segment::Segment;
use journal_layout::layout::BLOCK;

/// Puts the images that the first n segments have of the logical blocks from `start` on over the octets of their homes.
pub fn lay_over(room: &Vec<Segment>, n: usize, start: u64, octets: &mut [u8])
    requires there { n ≤ length room.now.items }
    requires countable { start + length octets.old < 2 ^ 64 }
    requires full { (t : ℕ) → t < n → length (staged_at room.now.items t).images ≡ length (staged_at room.now.items t).numbers }
    ensures size { length octets.new ≡ length octets.old }
    ensures laid { (blocks : List (List ℕ)) (k : ℕ) → 4096 * k + 4096 ≤ length octets.old → start + k < length blocks
        → slice_index_or blocks (start + k) [] ≡ block k octets.old
        → slice_index_or (all_laid_over blocks (batches_of (map held_as (take n room.now.items)))) (start + k) [] ≡ block k octets.new }
{
    for k in 0..octets.len() / BLOCK {
        lay_over_block(
            room,
            n,
            start + k as u64,
            &mut octets[BLOCK * k..BLOCK * k + BLOCK],
        );
    }
}

// Puts the images that the first n segments have of a logical block over the octets of its home, one after the other.
fn lay_over_block(room: &Vec<Segment>, n: usize, block: u64, octets: &mut [u8])
    requires there { n ≤ length room.now.items }
    requires whole { length octets.old ≡ 4096 }
    requires full { (t : ℕ) → t < n → length (staged_at room.now.items t).images ≡ length (staged_at room.now.items t).numbers }
    ensures whole { length octets.new ≡ 4096 }
    ensures laid { (blocks : List (List ℕ)) → block < length blocks → slice_index_or blocks block [] ≡ octets.old
        → slice_index_or (all_laid_over blocks (batches_of (map held_as (take n room.now.items)))) block [] ≡ octets.new }
{
    for i in 0..n {
        lay_image(&room[i], block, octets);
    }
}

// Puts the image of a logical block over these octets, if the segment's batch has one.
fn lay_image(segment: &Segment, block: u64, octets: &mut [u8])
    requires whole { length octets.old ≡ 4096 }
    requires full { length segment.now.images ≡ length segment.now.numbers }
    ensures whole { length octets.new ≡ 4096 }
    ensures laid { (blocks : List (List ℕ)) → block < length blocks → slice_index_or blocks block [] ≡ octets.old
        → slice_index_or (laid_over blocks segment.now.numbers segment.now.images) block [] ≡ octets.new }
{
    for i in 0..segment.count() {
        if u64::from(segment.number(i)) == block {
            octets.copy_from_slice(segment.image(i));
        }
    }
}
