//! Reads and writes the descriptor of a batch.

ghost use Rattle.std.specs.Prelude.{◌≡◌, ◌↔◌, ◌<◌, ◌≤◌, ◌+◌, IfSome, IsNone, IsTrue, length, replicate, take};
ghost use Rattle.std.specs.List.{All};
ghost use Rattle.model.specs.Volume.{AreDistinct, IsDescriptor, descriptor_of, listed, number_at};

use crate::layout::{NUMBERS_AT, SEGMENT_IMAGES, put_numbers};
use disk_numbers::{number32, put32, put64};

/// Writes the descriptor of a batch over whatever the block holds. The batch has at most 512 numbers.
pub fn describe_batch(descriptor: &mut Vec<u8>, number: u64, last: u64, numbers: &[u32])
    requires whole { length descriptor.old.items ≡ 4096 }
    requires few { length numbers.now ≤ 512 }
    ensures block { descriptor.new.items ≡ descriptor_of number last numbers.now }
    ensures size { length descriptor.new.items ≡ 4096 }
    ensures number { number_at 0 8 descriptor.new.items ≡ number }
    ensures last { number_at 8 8 descriptor.new.items ≡ last }
    ensures count { number_at 16 4 descriptor.new.items ≡ length numbers.now }
    ensures zero { number_at 20 4 descriptor.new.items ≡ 0 }
    ensures listed { listed descriptor.new.items ≡ numbers.now }
{
    clear(descriptor.as_mut_slice());
    describe(descriptor.as_mut_slice(), number, last, numbers);
}

// Writes the descriptor of a batch into a block of zeros.
fn describe(descriptor: &mut [u8], number: u64, last: u64, numbers: &[u32])
    requires clear { descriptor.old ≡ replicate (length descriptor.old) 0 }
    requires whole { length descriptor.old ≡ 4096 }
    requires few { length numbers.now ≤ 512 }
    ensures block { descriptor.new ≡ descriptor_of number last numbers.now }
    ensures size { length descriptor.new ≡ 4096 }
    ensures number { number_at 0 8 descriptor.new ≡ number }
    ensures last { number_at 8 8 descriptor.new ≡ last }
    ensures count { number_at 16 4 descriptor.new ≡ length numbers.now }
    ensures zero { number_at 20 4 descriptor.new ≡ 0 }
    ensures listed { listed descriptor.new ≡ numbers.now }
{
    put64(descriptor, 0, number);
    put64(descriptor, 8, last);
    put32(descriptor, 16, numbers.len() as u32);
    put32(descriptor, 20, 0);
    put_numbers(descriptor, NUMBERS_AT, numbers);
}

// Makes all octets zero.
fn clear(octets: &mut [u8])
    ensures { octets.new ≡ replicate (length octets.old) 0 }
{
    for at in 0..octets.len() {
        octets[at] = 0;
    }
}

/// Reads the numbers of a descriptor to the start of `numbers`, and answers how many there are. `None` if the
/// descriptor is not valid; then `numbers` may hold any numbers.
pub fn read_descriptor(descriptor: &[u8], blocks: u64, numbers: &mut Vec<u32>) -> Option<usize>
    requires descriptor { length descriptor.now ≡ 4096 }
    requires room { length numbers.old.items ≡ 512 }
    ensures room { length numbers.new.items ≡ 512 }
    ensures some { IfSome result (λ count. IsDescriptor blocks descriptor.now × (number_at 16 4 descriptor.now ≡ count)
        × (take count numbers.new.items ≡ listed descriptor.now)) }
    ensures none { IsNone result → IsDescriptor blocks descriptor.now → ⊥ }
{
    let count = number32(descriptor, 16) as usize;
    if count == 0 || SEGMENT_IMAGES < count || number32(descriptor, 20) != 0 {
        return None;
    }
    read_numbers(descriptor, count, numbers);
    if are_below(&numbers[..count], blocks) && are_distinct(&numbers[..count]) {
        Some(count)
    } else {
        None
    }
}

fn read_numbers(descriptor: &[u8], count: usize, numbers: &mut Vec<u32>)
    requires few { count ≤ 512 }
    requires descriptor { length descriptor.now ≡ 4096 }
    requires room { length numbers.old.items ≡ 512 }
    requires count { number_at 16 4 descriptor.now ≡ count }
    ensures room { length numbers.new.items ≡ 512 }
    ensures numbers { take count numbers.new.items ≡ listed descriptor.now }
{
    for i in 0..count {
        numbers[i] = number32(descriptor, NUMBERS_AT + 4 * i);
    }
}

/// Whether each of the numbers is below the number of blocks.
pub fn are_below(numbers: &[u32], blocks: u64) -> bool
    ensures { IsTrue result ↔ All (λ n. n < blocks) numbers.now }
{
    numbers.iter().all(|n| u64::from(*n) < blocks)
}

/// Whether no number occurs twice.
pub fn are_distinct(numbers: &[u32]) -> bool
    ensures { IsTrue result ↔ AreDistinct numbers.now }
{
    for i in 0..numbers.len() {
        for j in 0..i {
            if numbers[j] == numbers[i] {
                return false;
            }
        }
    }
    true
}
