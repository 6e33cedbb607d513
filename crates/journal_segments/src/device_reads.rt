//! Reads from a device.

ghost use Rattle.std.specs.Prelude.{◌^◌, OnOk, IfOk, IfErr, IsErrOf, take, IsTrue, ◌≡◌, ◌≢◌, ◌+◌, ◌*◌, ◌<◌, ◌≤◌, length};
ghost use Rattle.disk.specs.Image.{overwritten, part};
ghost use Rattle.model.specs.Volume.{IsDescriptor, IsSuperblock, is_open, number_at, block, listed, image_place, descriptor_place};
ghost use Rattle.model.specs.Volume.{epoch_in, epoch_of, gate_place};
ghost use Rattle.journal_segments.specs.Found.{AreLoaded, IsQuiet, IsStill};

use crate::SegmentError;
use disk::Disk;
use journal_layout::layout::{BLOCK, descriptor_block, gate_block, image_block, start_of};
use journal_layout::{Superblock, read_descriptor, read_superblock};

fn read_part<D: Disk>(disk: &mut D, at: u64, into: &mut [u8]) -> Result<(), SegmentError>
    requires { at + length into.old ≤ (D.device disk.old).size }
    ensures quiet { IsQuiet (D.device disk.old) (D.device disk.new) }
    ensures still { OnOk result (IsStill (D.device disk.old) (D.device disk.new)) }
    ensures value { IsTrue (D.device disk.old).tells → OnOk result (into.new ≡ part at (length into.old) (D.device disk.old).content) }
    ensures cause { IfErr result (λ error. (error ≡ SegmentError.Fault) × ((D.device disk.new).failures ≢ (D.device disk.old).failures)) }
{
    match disk.read(at, into) {
        Ok(()) => Ok(()),
        Err(_) => Err(SegmentError::Fault),
    }
}

fn read_block<D: Disk>(disk: &mut D, k: u64, into: &mut Vec<u8>) -> Result<(), SegmentError>
    // A block of the device, and room for it.
    requires place { 4096 * k + 4096 ≤ (D.device disk.old).size }
    requires room { length into.old.items ≡ 4096 }
    requires low { k < 2 ^ 40 }

    // The room keeps its size, and the device is only read.
    ensures room { length into.new.items ≡ 4096 }
    ensures quiet { IsQuiet (D.device disk.old) (D.device disk.new) }
    ensures still { OnOk result (IsStill (D.device disk.old) (D.device disk.new)) }

    // The octets of the block, or a device that failed.
    ensures value { IsTrue (D.device disk.old).tells → OnOk result (into.new.items ≡ block k (D.device disk.old).content) }
    ensures cause { IfErr result (λ error. (error ≡ SegmentError.Fault) × ((D.device disk.new).failures ≢ (D.device disk.old).failures)) }
{
    read_part(disk, start_of(k), into.as_mut_slice())
}

/// Reads the superblock, and what it says of the volume.
///
/// `NotAVolume` if the device's length or the superblock is not valid, `Fault` if the device failed. Either leaves any
/// octets in the room.
pub fn load_superblock<D: Disk>(
    disk: &mut D,
    superblock: &mut Vec<u8>,
) -> Result<Superblock, SegmentError>
    // Room for a block.
    requires { length superblock.old.items ≡ 4096 }

    // The room keeps its size, and the device is only read.
    ensures room { length superblock.new.items ≡ 4096 }
    ensures quiet { IsQuiet (D.device disk.old) (D.device disk.new) }
    ensures still { OnOk result (IsStill (D.device disk.old) (D.device disk.new)) }

    // The sizes and the epoch, and the superblock that has them.
    ensures sizes { IfOk result (λ volume. IsSuperblock superblock.new.items (D.device disk.old).size
        × (number_at 12 4 superblock.new.items ≡ volume.blocks) × (number_at 16 4 superblock.new.items ≡ volume.segments)) }
    ensures epoch { IfOk result (λ volume. epoch_in superblock.new.items ≡ volume.epoch) }
    ensures value { IsTrue (D.device disk.old).tells → OnOk result (superblock.new.items ≡ block 0 (D.device disk.old).content) }

    // What each refusal shows of the device.
    ensures fault { IsErrOf result SegmentError.Fault → (D.device disk.new).failures ≢ (D.device disk.old).failures }
    ensures no_volume { IsErrOf result SegmentError.NotAVolume → IsTrue (D.device disk.old).tells
        → IsSuperblock (block 0 (D.device disk.old).content) (D.device disk.old).size → ⊥ }
{
    let size = disk.len();
    if size < 4096 {
        return Err(SegmentError::NotAVolume);
    }
    read_block(disk, 0, superblock)?;
    match read_superblock(superblock.as_slice(), size) {
        Some(volume) => Ok(volume),
        None => Err(SegmentError::NotAVolume),
    }
}

pub(crate) fn is_gate_open<D: Disk>(
    disk: &mut D,
    place: u32,
    epoch: u8,
) -> Result<bool, SegmentError>
    requires low { place < 8 }
    requires size { 4096 * descriptor_place place ≤ (D.device disk.old).size }
    requires epoch { IsTrue (D.device disk.old).tells → epoch_of (D.device disk.old).content ≡ epoch }
    ensures quiet { IsQuiet (D.device disk.old) (D.device disk.new) }
    ensures still { OnOk result (IsStill (D.device disk.old) (D.device disk.new)) }
    ensures value { IsTrue (D.device disk.old).tells → IfOk result (λ opened. opened ≡ is_open place (D.device disk.old).content) }
    ensures cause { IfErr result (λ error. (error ≡ SegmentError.Fault) × ((D.device disk.new).failures ≢ (D.device disk.old).failures)) }
{
    let mut gate = [0];
    read_part(disk, start_of(gate_block(place)), &mut gate)?;
    Ok(gate[0] == epoch)
}

fn load_image<D: Disk>(
    disk: &mut D,
    place: u32,
    i: usize,
    images: &mut [u8],
) -> Result<(), SegmentError>
    // An image on the device, and room for it.
    requires low { place < 8 }
    requires few { i < 512 }
    requires place { 4096 * image_place place i + 4096 ≤ (D.device disk.old).size }
    requires room { 4096 * i + 4096 ≤ length images.old }

    // The device is only read, and after `Ok` no read has failed.
    ensures quiet { IsQuiet (D.device disk.old) (D.device disk.new) }
    ensures still { OnOk result (IsStill (D.device disk.old) (D.device disk.new)) }

    // The octets of the image, or a device that failed.
    ensures value { IsTrue (D.device disk.old).tells
        → OnOk result (images.new ≡ overwritten (4096 * i) (block (image_place place i) (D.device disk.old).content) images.old) }
    ensures cause { IfErr result (λ error. (error ≡ SegmentError.Fault) × ((D.device disk.new).failures ≢ (D.device disk.old).failures)) }
{
    let at = BLOCK * i;
    let end = at + BLOCK;
    read_part(disk, start_of(image_block(place, i)), &mut images[at..end])
}

// Reads the batch of an open segment into the room for it, and answers how many images it has.
pub(crate) fn load_batch<D: Disk>(
    disk: &mut D,
    place: u32,
    blocks: u64,
    descriptor: &mut Vec<u8>,
    numbers: &mut Vec<u32>,
    images: &mut Vec<u8>,
) -> Result<usize, SegmentError>
    // A segment on the device, and room for the largest batch.
    requires low { place < 8 }
    requires size { 4096 * gate_place (place + 1) ≤ (D.device disk.old).size }
    requires descriptor { length descriptor.old.items ≡ 4096 }
    requires numbers { length numbers.old.items ≡ 512 }
    requires images { length images.old.items ≡ 2097152 }

    // The rooms keep their sizes, and the device is only read.
    ensures room { (length descriptor.new.items ≡ 4096) × (length numbers.new.items ≡ 512) × (length images.new.items ≡ 2097152) }
    ensures quiet { IsQuiet (D.device disk.old) (D.device disk.new) }
    ensures still { OnOk result (IsStill (D.device disk.old) (D.device disk.new)) }

    // A valid descriptor, and the images that it lists.
    ensures valid { IfOk result (λ count. IsDescriptor blocks descriptor.new.items × (number_at 16 4 descriptor.new.items ≡ count)
        × (take count numbers.new.items ≡ listed descriptor.new.items)) }
    ensures value { IsTrue (D.device disk.old).tells
        → OnOk result (descriptor.new.items ≡ block (descriptor_place place) (D.device disk.old).content) }
    ensures images { IsTrue (D.device disk.old).tells
        → IfOk result (λ count. AreLoaded place count (D.device disk.old).content images.new.items) }

    // What each refusal shows of the device.
    ensures fault { IsErrOf result SegmentError.Fault → (D.device disk.new).failures ≢ (D.device disk.old).failures }
    ensures no_volume { IsErrOf result SegmentError.NotAVolume → IsTrue (D.device disk.old).tells
        → IsDescriptor blocks (block (descriptor_place place) (D.device disk.old).content) → ⊥ }
{
    read_block(disk, descriptor_block(place), descriptor)?;
    match read_descriptor(descriptor.as_slice(), blocks, numbers) {
        Some(count) => {
            load_images(disk, place, count, images.as_mut_slice())?;
            Ok(count)
        }
        None => Err(SegmentError::NotAVolume),
    }
}

fn load_images<D: Disk>(
    disk: &mut D,
    place: u32,
    count: usize,
    images: &mut [u8],
) -> Result<(), SegmentError>
    // A segment on the device, and room for the largest batch.
    requires low { place < 8 }
    requires size { 4096 * gate_place (place + 1) ≤ (D.device disk.old).size }
    requires few { count ≤ 512 }
    requires room { length images.old ≡ 2097152 }

    // The device is only read, and after `Ok` no read has failed.
    ensures quiet { IsQuiet (D.device disk.old) (D.device disk.new) }
    ensures still { OnOk result (IsStill (D.device disk.old) (D.device disk.new)) }

    // The images in their places, or a device that failed.
    ensures images { IsTrue (D.device disk.old).tells → OnOk result (AreLoaded place count (D.device disk.old).content images.new) }
    ensures cause { IfErr result (λ error. (error ≡ SegmentError.Fault) × ((D.device disk.new).failures ≢ (D.device disk.old).failures)) }
{
    for i in 0..count {
        load_image(disk, place, i, images)?;
    }
    Ok(())
}
