//! Writes to a device: the parts of a segment, its images at home, and the epoch.

ghost use Rattle.std.specs.Prelude.{◌≡◌, ◌≤◌, ◌<◌, ◌+◌, ◌*◌, ◌^◌, [], ◌∷◌, length, slice_index, slice_index_or};
ghost use Rattle.disk.specs.Calls.{Writes};
ghost use Rattle.model.specs.Volume.{descriptor_place, gate_place, home_place, image_place};

use crate::segment::Segment;
use disk::{Disk, DiskError};
use journal_layout::layout::{
    EPOCH_AT, descriptor_block, gate_block, home_block, image_block, start_of,
};

/// Writes the descriptor of a segment.
pub fn write_descriptor<D: Disk>(disk: &mut D, segment: &Segment) -> Result<(), DiskError>
    requires low { segment.now.place < 8 }
    requires size { 4096 * gate_place (segment.now.place + 1) ≤ (D.device disk.old).size }
    ensures { Writes D.write_grows (4096 * descriptor_place segment.now.place) segment.now.descriptor
        result (D.device disk.old) (D.device disk.new) }
{
    write(
        disk,
        descriptor_block(segment.place()),
        segment.descriptor(),
    )
}

/// Writes an image of a segment into it.
pub fn write_image<D: Disk>(disk: &mut D, segment: &Segment, i: usize) -> Result<(), DiskError>
    requires low { segment.now.place < 8 }
    requires size { 4096 * gate_place (segment.now.place + 1) ≤ (D.device disk.old).size }
    requires there { i < length segment.now.numbers }
    ensures { Writes D.write_grows (4096 * image_place segment.now.place i) (slice_index_or segment.now.images i [])
        result (D.device disk.old) (D.device disk.new) }
{
    prove!(i < segment.count());
    let image = segment.image(i);
    write(disk, image_block(segment.place(), i), image)
}

/// Writes octet 0 of the gate of a segment.
pub fn write_gate<D: Disk>(disk: &mut D, segment: &Segment, octet: u8) -> Result<(), DiskError>
    requires low { segment.now.place < 8 }
    requires size { 4096 * gate_place (segment.now.place + 1) ≤ (D.device disk.old).size }
    ensures { Writes D.write_grows (4096 * gate_place segment.now.place) (octet ∷ []) result (D.device disk.old) (D.device disk.new) }
{
    write(disk, gate_block(segment.place()), &[octet])
}

/// Writes an image of a segment to the home of its logical block, after this number of segments.
pub fn write_home<D: Disk>(
    disk: &mut D,
    segments: u32,
    segment: &Segment,
    i: usize,
) -> Result<(), DiskError>
    requires few { segments ≤ 8 }
    requires there { i < length segment.now.numbers }
    requires size { 4096 * home_place segments (slice_index segment.now.numbers i) + 4096 ≤ (D.device disk.old).size }
    ensures { Writes D.write_grows (4096 * home_place segments (slice_index segment.now.numbers i)) (slice_index_or segment.now.images i [])
        result (D.device disk.old) (D.device disk.new) }
{
    let home = home_block(segments, u64::from(segment.number(i)));
    write(disk, home, segment.image(i))
}

fn write<D: Disk>(disk: &mut D, block: u64, octets: &[u8]) -> Result<(), DiskError>
    requires low { block < 2 ^ 40 }
    requires fits { 4096 * block + length octets.now ≤ (D.device disk.old).size }
    ensures { Writes D.write_grows (4096 * block) octets.now result (D.device disk.old) (D.device disk.new) }
{
    disk.write(start_of(block), octets)
}

/// Writes the epoch of a volume.
pub fn write_epoch<D: Disk>(disk: &mut D, epoch: u8) -> Result<(), DiskError>
    requires size { 151 ≤ (D.device disk.old).size }
    ensures { Writes D.write_grows 150 (epoch ∷ []) result (D.device disk.old) (D.device disk.new) }
{
    disk.write(EPOCH_AT as u64, &[epoch])
}
