//! Reads and writes the superblock.

ghost use Rattle.std.specs.Prelude.{◌≡◌, ◌↔◌, ◌⊎◌, ◌==◌, ◌*◌, ◌≤◌, IfSome, IsNone, IsTrue, drop, if◌then◌else◌, length, take};
ghost use Rattle.std.specs.List.{All};
ghost use Rattle.disk.specs.Image.{part};
ghost use Rattle.model.specs.Volume.{IsSuperblock, epoch_in, format_in, home_place, magic, number_at, other_epoch, superblock_used};

use crate::layout::{
    EPOCH_AT, FEWEST_BLOCKS, FIRST_EPOCH, FORMAT_2_AT, FORMAT_3_AT, IS_FORMAT_2, IS_FORMAT_3,
    IS_NO_FORMAT, LABEL_AT, MAGIC, MOST_BLOCKS, ONE_SEGMENT, SECOND_EPOCH, SEGMENTS,
    SUPERBLOCK_USED, VERSION, home_block, put_octets, start_of,
};
use disk_numbers::{number32, put32};

/// Turns a block of zeros into a superblock.
pub(crate) fn describe_in(
    octets: &mut Vec<u8>,
    segments: u32,
    blocks: u32,
    label: &[u8],
    format: u32,
)
    requires format { (1 ≤ format) × (format ≤ 3) }
    requires segments { (segments ≡ 1) ⊎ (segments ≡ 8) }
    requires low { 1024 ≤ blocks }
    requires high { blocks ≤ 4194304 }
    requires whole { length octets.old.items ≡ 4096 }
    requires zero { All (λ octet. octet ≡ 0) octets.old.items }
    requires label { length label.now ≡ 128 }
    ensures valid { IsSuperblock octets.new.items (4096 * home_place segments blocks) }
    ensures blocks { number_at 12 4 octets.new.items ≡ blocks }
    ensures segments { number_at 16 4 octets.new.items ≡ segments }
    ensures label { part 20 128 octets.new.items ≡ label.now }
    ensures format { format_in octets.new.items ≡ format }
    ensures epoch { epoch_in octets.new.items ≡ 1 }
    ensures size { length octets.new.items ≡ 4096 }
{
    describe_volume(octets.as_mut_slice(), segments, blocks, label, format);
}

fn describe_volume(octets: &mut [u8], segments: u32, blocks: u32, label: &[u8], format: u32)
    requires format { (1 ≤ format) × (format ≤ 3) }
    requires segments { (segments ≡ 1) ⊎ (segments ≡ 8) }
    requires low { 1024 ≤ blocks }
    requires high { blocks ≤ 4194304 }
    requires whole { length octets.old ≡ 4096 }
    requires zero { All (λ octet. octet ≡ 0) octets.old }
    requires label { length label.now ≡ 128 }
    ensures valid { IsSuperblock octets.new (4096 * home_place segments blocks) }
    ensures blocks { number_at 12 4 octets.new ≡ blocks }
    ensures segments { number_at 16 4 octets.new ≡ segments }
    ensures label { part 20 128 octets.new ≡ label.now }
    ensures format { format_in octets.new ≡ format }
    ensures epoch { epoch_in octets.new ≡ 1 }
    ensures size { length octets.new ≡ 4096 }
{
    put_octets(octets, 0, &MAGIC);
    put32(octets, 8, VERSION);
    put32(octets, 12, blocks);
    put32(octets, 16, segments);
    put_octets(octets, LABEL_AT, label);
    put_octets(octets, FORMAT_2_AT, &[gate_2_of(format), gate_3_of(format)]);
}

/// The octet at the gate of format 2 in a new volume of this format.
pub fn gate_2_of(format: u32) -> u8
    ensures { result ≡ (if format == 1 then 0 else 2) }
{
    if format == 1 {
        IS_NO_FORMAT
    } else {
        IS_FORMAT_2
    }
}

/// The octet at the gate of format 3 in a new volume of this format.
pub fn gate_3_of(format: u32) -> u8
    ensures { result ≡ (if format == 3 then 3 else 0) }
{
    if format == 3 {
        IS_FORMAT_3
    } else {
        IS_NO_FORMAT
    }
}

/// The format that a superblock says: 3 if the gate of format 3 is 3, else 2 if the gate of format 2 is 2, else 1.
pub fn read_format(octets: &[u8]) -> u32
    requires { 150 ≤ length octets.now }
    ensures format { result ≡ format_in octets.now }
    ensures some { 1 ≤ result }
    ensures few { result ≤ 3 }
{
    if octets[FORMAT_3_AT] == IS_FORMAT_3 {
        3
    } else if octets[FORMAT_2_AT] == IS_FORMAT_2 {
        2
    } else {
        1
    }
}

/// The epoch that a superblock says: 2 if the octet of the epoch is 2, else 1.
pub fn read_epoch(octets: &[u8]) -> u8
    requires { superblock_used ≤ length octets.now }
    ensures epoch { result ≡ epoch_in octets.now }
    ensures low { 1 ≤ result }
    ensures high { result ≤ 2 }
{
    if octets[EPOCH_AT] == SECOND_EPOCH {
        SECOND_EPOCH
    } else {
        FIRST_EPOCH
    }
}

/// The epoch that is not this one.
pub fn other_epoch(epoch: u8) -> u8
    requires low { 1 ≤ epoch }
    requires high { epoch ≤ 2 }
    ensures { result ≡ other_epoch epoch }
{
    if epoch == FIRST_EPOCH {
        SECOND_EPOCH
    } else {
        FIRST_EPOCH
    }
}

/// What a superblock says of its volume: the numbers of logical blocks and segments, and the epoch.
#[derive(Clone, Copy, Debug, PartialEq, Eq)]
pub struct Superblock {
    /// 1,024 to 4,194,304.
    pub blocks: u64,
    /// 1 or 8.
    pub segments: u32,
    /// 1 or 2.
    pub epoch: u8,
}

/// What a superblock says. `None` if it is not valid for a device of `size` octets.
pub fn read_superblock(octets: &[u8], size: u64) -> Option<Superblock>
    requires { length octets.now ≡ 4096 }
    ensures some { IfSome result (λ superblock. IsSuperblock octets.now size × (number_at 12 4 octets.now ≡ superblock.blocks)
        × (number_at 16 4 octets.now ≡ superblock.segments)) }
    ensures epoch { IfSome result (λ superblock. epoch_in octets.now ≡ superblock.epoch) }
    ensures none { IsNone result → IsSuperblock octets.now size → ⊥ }
{
    let blocks = u64::from(number32(octets, 12));
    let segments = number32(octets, 16);
    if has_magic(octets)
        && number32(octets, 8) == VERSION
        && may_be_many(segments)
        && FEWEST_BLOCKS <= blocks
        && blocks <= MOST_BLOCKS
        && size == start_of(home_block(segments, blocks))
        && has_zeros(octets)
    {
        Some(Superblock {
            blocks,
            segments,
            epoch: read_epoch(octets),
        })
    } else {
        None
    }
}

// Whether a volume may have this many segments.
fn may_be_many(segments: u32) -> bool
    ensures count { IsTrue result ↔ (segments ≡ 1) ⊎ (segments ≡ 8) }
    ensures few { IsTrue result → segments ≤ 8 }
{
    segments == ONE_SEGMENT || segments == SEGMENTS
}

fn has_magic(octets: &[u8]) -> bool
    requires { 8 ≤ length octets.now }
    ensures { IsTrue result ↔ (take 8 octets.now ≡ magic) }
{
    octets[..8] == MAGIC[..]
}

fn has_zeros(octets: &[u8]) -> bool
    requires { superblock_used ≤ length octets.now }
    ensures { IsTrue result ↔ All (λ octet. octet ≡ 0) (drop superblock_used octets.now) }
{
    for at in SUPERBLOCK_USED..octets.len() {
        if octets[at] != 0 {
            return false;
        }
    }
    true
}
