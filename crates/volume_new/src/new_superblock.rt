//! The superblock of a new volume.

ghost use Rattle.std.specs.Prelude.{◌≡◌, ◌≤◌, IfOk, length};
ghost use Rattle.std.specs.List.{All};
ghost use Rattle.volume_new.specs.Formatting.{IsSuperblockOf};

use disk_numbers::{put32, zeros};
use journal_layout::layout::{BLOCK, FORMAT_2_AT, LABEL_AT, MAGIC, SEGMENTS, VERSION, put_octets};
use journal_layout::{gate_2_of, gate_3_of};
use std::alloc::{AllocError, Global};

/// The superblock of a volume of this format with this many blocks and eight segments (docs/FORMATS.md). Refused only for want of memory.
pub fn superblock(
    alloc: Global,
    blocks: u32,
    label: &[u8],
    format: u32,
) -> Result<Vec<u8>, AllocError>
    requires low { 1024 ≤ blocks }
    requires high { blocks ≤ 4194304 }
    requires label { length label.now ≡ 128 }
    requires known { (1 ≤ format) × (format ≤ 3) }
    ensures { IfOk result (λ superblock. IsSuperblockOf blocks label.now format superblock.items) }
{
    let mut octets = zeros(alloc, BLOCK)?;
    describe(octets.as_mut_slice(), blocks, label, format);
    Ok(octets)
}

// Turns a block of zeros into that superblock.
fn describe(octets: &mut [u8], blocks: u32, label: &[u8], format: u32)
    requires low { 1024 ≤ blocks }
    requires high { blocks ≤ 4194304 }
    requires label { length label.now ≡ 128 }
    requires known { (1 ≤ format) × (format ≤ 3) }
    requires whole { length octets.old ≡ 4096 }
    requires zero { All (λ octet. octet ≡ 0) octets.old }
    ensures { IsSuperblockOf blocks label.now format octets.new }
{
    put_octets(octets, 0, &MAGIC);
    put32(octets, 8, VERSION);
    put32(octets, 12, blocks);
    put32(octets, 16, SEGMENTS);
    put_octets(octets, LABEL_AT, label);
    put_octets(octets, FORMAT_2_AT, &[gate_2_of(format), gate_3_of(format)]);
}
