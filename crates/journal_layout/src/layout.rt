//! The places on the device. `Volume.antt` of the model says the same as definitions.

ghost use Rattle.std.specs.Prelude.{◌≡◌, ◌^◌, ◌<◌, ◌≤◌, ◌+◌, ◌*◌, length};
ghost use Rattle.std.specs.List.{flat_map};
ghost use Rattle.byteorder.specs.Endian.{little_bytes};
ghost use Rattle.disk.specs.Image.{overwritten};
ghost use Rattle.model.specs.Volume.{gate_place, descriptor_place, image_place, home_place, block};

use byteorder::{ByteOrder, LittleEndian};

/// The number of octets of a block.
pub const BLOCK: usize = 4096;
/// The number of segments of a new volume.
pub const SEGMENTS: u32 = 8;
/// The other number of segments that a volume may have.
pub const ONE_SEGMENT: u32 = 1;
/// The number of images that a segment has room for.
pub const SEGMENT_IMAGES: usize = 512;
/// The number of blocks of a segment: its gate, its descriptor and its images.
pub const SEGMENT_BLOCKS: u64 = 514;
/// The fewest logical blocks that a volume may have.
pub const FEWEST_BLOCKS: u64 = 1024;
/// The most logical blocks that a volume may have.
pub const MOST_BLOCKS: u64 = 4_194_304;
/// The octets that a superblock begins with: `XNNTPFS1`.
pub const MAGIC: [u8; 8] = [0x58, 0x4e, 0x4e, 0x54, 0x50, 0x46, 0x53, 0x31];
/// The version of the layout, as the superblock states it.
pub const VERSION: u32 = 1;
/// Where the label begins in the superblock.
pub const LABEL_AT: usize = 20;
/// Where the gate of format 2 is in the superblock: right after the label.
pub const FORMAT_2_AT: usize = 148;
/// Where the gate of format 3 is: right after that of format 2.
pub const FORMAT_3_AT: usize = 149;
/// Where the epoch is: right after that.
pub const EPOCH_AT: usize = 150;
/// The epoch ends the octets that are used; those after it are zero.
pub const SUPERBLOCK_USED: usize = 151;
/// The octet at the gate of format 2, if it is open.
pub const IS_FORMAT_2: u8 = 2;
/// The octet at the gate of format 3, if it is open. Then the volume has format 3, whatever the other gate is.
pub const IS_FORMAT_3: u8 = 3;
/// The octet at a gate of a new volume that is not open. Any octet but that of the gate's own format means the same.
pub const IS_NO_FORMAT: u8 = 0;
/// The epoch of a new volume. A segment is open if the first octet of its gate block is the epoch.
pub const FIRST_EPOCH: u8 = 1;
/// The other epoch. Any other octet in the place of the epoch means the first one.
pub const SECOND_EPOCH: u8 = 2;
/// The first octet of the gate block of a segment that was closed on its own. It is no epoch.
pub const CLOSED: u8 = 0;
/// The number of a batch that begins while no segment is open.
pub const FIRST_NUMBER: u64 = 1;
/// Where the numbers of a descriptor begin.
pub const NUMBERS_AT: usize = 24;

/// The place of a block's first octet.
pub fn start_of(block: u64) -> u64
    requires { block < 2 ^ 40 }
    ensures { result ≡ 4096 * block }
{
    BLOCK as u64 * block
}

/// The block of the gate of a segment.
pub fn gate_block(segment: u32) -> u64
    ensures { result ≡ gate_place segment }
{
    1 + SEGMENT_BLOCKS * u64::from(segment)
}

/// The block of the descriptor of a segment.
pub fn descriptor_block(segment: u32) -> u64
    ensures { result ≡ descriptor_place segment }
{
    2 + SEGMENT_BLOCKS * u64::from(segment)
}

/// The block of the i-th image of a segment.
pub fn image_block(segment: u32, i: usize) -> u64
    requires { i < 512 }
    ensures { result ≡ image_place segment i }
{
    3 + SEGMENT_BLOCKS * u64::from(segment) + i as u64
}

/// The home of a logical block.
pub fn home_block(segments: u32, number: u64) -> u64
    requires { number < 2 ^ 32 }
    ensures { result ≡ home_place segments number }
{
    1 + SEGMENT_BLOCKS * u64::from(segments) + number
}

/// The i-th block of these octets, counted from 0.
pub fn block_at(octets: &[u8], i: usize) -> &[u8]
    requires { 4096 * i + 4096 ≤ length octets.now }
    ensures { result.now ≡ block i octets.now }
{
    &octets[BLOCK * i..BLOCK * i + BLOCK]
}

/// Puts numbers into the octets from a place on, four octets for each.
pub fn put_numbers(octets: &mut [u8], at: usize, numbers: &[u32])
    requires { at + 4 * length numbers.now ≤ length octets.old }
    ensures { octets.new ≡ overwritten at (flat_map (little_bytes 4) numbers.now) octets.old }
{
    let end = at + 4 * numbers.len();
    LittleEndian::write_u32_into(numbers, &mut octets[at..end]);
}

/// Overwrites the octets from a place on with these.
pub fn put_octets(octets: &mut [u8], at: usize, from: &[u8])
    requires { at + length from.now ≤ length octets.old }
    ensures { octets.new ≡ overwritten at from.now octets.old }
{
    let end = at + from.len();
    octets[at..end].copy_from_slice(from);
}
