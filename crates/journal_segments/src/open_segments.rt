//! The open segments of a volume, found by their gates.

ghost use Rattle.std.specs.Prelude.{◌≡◌, ◌≢◌, ◌↔◌, ◌≤◌, ◌<◌, ◌+◌, ◌*◌, IfErr, IfOk, IsErrOf, IsTrue, OnOk, ℕ, length, take, true};
ghost use Rattle.model.specs.Volume.{IsDescriptor, block, descriptor_place, epoch_of, gate_place, home_size, is_open, segment_count};
ghost use Rattle.journal_segments.specs.Staged.{number_of, put_from, put_staged, staged_at};
ghost use Rattle.journal_segments.specs.Found.{AreFound, IsQuiet, IsReadFrom, IsStill};
ghost use Rattle.journal_segments.specs.Found.{Rejects};

use crate::SegmentError;
use crate::device_reads::is_gate_open;
use crate::segment::Segment;
use disk::Disk;
use journal_layout::Superblock;

/// Reads the open segments to the start of `room`, in rising batch number, and answers how many there are. `NotAVolume`
/// if a descriptor is not valid or two segments share a number, `Fault` if the device failed.
pub fn find_open<D: Disk>(
    disk: &mut D,
    volume: Superblock,
    room: &mut Vec<Segment>,
) -> Result<usize, SegmentError>
    // Room for each segment of the volume, and what its superblock says.
    requires few { length room.old.items ≤ 8 }
    requires place { (staged_at room.old.items 0).place ≡ 0 }
    requires size { 4096 * gate_place (length room.old.items) ≤ (D.device disk.old).size }
    requires segments { IsTrue (D.device disk.old).tells → segment_count (D.device disk.old).content ≡ length room.old.items }
    requires blocks { IsTrue (D.device disk.old).tells → home_size (D.device disk.old).content ≡ volume.blocks }
    requires epoch { IsTrue (D.device disk.old).tells → epoch_of (D.device disk.old).content ≡ volume.epoch }

    // The device is only read, and after `Ok` no read has failed.
    ensures quiet { IsQuiet (D.device disk.old) (D.device disk.new) }
    ensures still { OnOk result (IsStill (D.device disk.old) (D.device disk.new)) }

    // The open segments, or the cause of a refusal.
    ensures count { length room.new.items ≡ length room.old.items }
    ensures found { IfOk result (λ n. AreFound (D.device disk.new) volume.blocks 0 room.new.items n) }
    ensures err { IfErr result (λ error. Rejects error (D.device disk.old) (D.device disk.new)) }
{
    let segments = room.len();
    let mut found = 0;
    for i in 0..segments {
        match look_at(disk, (segments - 1 - i) as u32, volume, room, found) {
            Ok(n) => found = n,
            Err(error) => return Err(error),
        }
    }
    Ok(found)
}

// Reads the segment in this place if it is open. The segments after it were searched before.
fn look_at<D: Disk>(
    disk: &mut D,
    place: u32,
    volume: Superblock,
    room: &mut Vec<Segment>,
    found: usize,
) -> Result<usize, SegmentError>
    // Room for each segment of the volume, and what its superblock says.
    requires few { length room.old.items ≤ 8 }
    requires size { 4096 * gate_place (length room.old.items) ≤ (D.device disk.old).size }
    requires segments { IsTrue (D.device disk.old).tells → segment_count (D.device disk.old).content ≡ length room.old.items }
    requires blocks { IsTrue (D.device disk.old).tells → home_size (D.device disk.old).content ≡ volume.blocks }
    requires epoch { IsTrue (D.device disk.old).tells → epoch_of (D.device disk.old).content ≡ volume.epoch }

    // The open segments after this place were found.
    requires so_far { AreFound (D.device disk.old) volume.blocks (place + 1) room.old.items found }

    // The device is only read, and after `Ok` no read has failed.
    ensures quiet { IsQuiet (D.device disk.old) (D.device disk.new) }
    ensures still { OnOk result (IsStill (D.device disk.old) (D.device disk.new)) }

    // The open segments from this place on, or the cause of a refusal.
    ensures count { length room.new.items ≡ length room.old.items }
    ensures found { IfOk result (λ n. AreFound (D.device disk.new) volume.blocks place room.new.items n) }
    ensures err { IfErr result (λ error. Rejects error (D.device disk.old) (D.device disk.new)) }
{
    match is_gate_open(disk, place, volume.epoch) {
        Ok(opened) => {
            if opened {
                take_open(disk, place, volume.blocks, room, found)
            } else {
                Ok(found)
            }
        }
        Err(error) => Err(error),
    }
}

// Reads the open segment in this place, and inserts it among those already found.
fn take_open<D: Disk>(
    disk: &mut D,
    place: u32,
    blocks: u64,
    room: &mut Vec<Segment>,
    found: usize,
) -> Result<usize, SegmentError>
    // Room for each segment of the volume, and its number of blocks.
    requires few { length room.old.items ≤ 8 }
    requires size { 4096 * gate_place (length room.old.items) ≤ (D.device disk.old).size }
    requires segments { IsTrue (D.device disk.old).tells → segment_count (D.device disk.old).content ≡ length room.old.items }
    requires blocks { IsTrue (D.device disk.old).tells → home_size (D.device disk.old).content ≡ blocks }

    // This segment is open, and the open ones after it were found.
    requires open { IsTrue (D.device disk.old).tells → is_open place (D.device disk.old).content ≡ true }
    requires so_far { AreFound (D.device disk.old) blocks (place + 1) room.old.items found }

    // The device is only read, and after `Ok` no read has failed.
    ensures quiet { IsQuiet (D.device disk.old) (D.device disk.new) }
    ensures still { OnOk result (IsStill (D.device disk.old) (D.device disk.new)) }

    // The open segments from this place on, or the cause of a refusal.
    ensures count { length room.new.items ≡ length room.old.items }
    ensures found { IfOk result (λ n. AreFound (D.device disk.new) blocks place room.new.items n) }
    ensures err { IfErr result (λ error. Rejects error (D.device disk.old) (D.device disk.new)) }
{
    match read_at(disk, place, blocks, room, found) {
        Ok(()) => {
            if !is_new(room, found) {
                return Err(SegmentError::NotAVolume);
            }
            put_in(room, found);
            Ok(found + 1)
        }
        Err(error) => Err(error),
    }
}

fn read_at<D: Disk>(
    disk: &mut D,
    place: u32,
    blocks: u64,
    room: &mut Vec<Segment>,
    at: usize,
) -> Result<(), SegmentError>
    // A place in the room, and a segment on the device.
    requires there { at < length room.old.items }
    requires low { place < 8 }
    requires size { 4096 * gate_place (place + 1) ≤ (D.device disk.old).size }

    // In the room only this segment changes.
    ensures count { length room.new.items ≡ length room.old.items }
    ensures others { (t : ℕ) → t ≢ at → staged_at room.new.items t ≡ staged_at room.old.items t }
    ensures place { (staged_at room.new.items at).place ≡ place }

    // The device is only read, and after `Ok` no read has failed.
    ensures quiet { IsQuiet (D.device disk.old) (D.device disk.new) }
    ensures still { OnOk result (IsStill (D.device disk.old) (D.device disk.new)) }

    // The batch that was read, or what a refusal shows of the device.
    ensures read { OnOk result (IsReadFrom (D.device disk.old) blocks (staged_at room.new.items at)) }
    ensures fault { IsErrOf result SegmentError.Fault → (D.device disk.new).failures ≢ (D.device disk.old).failures }
    ensures no_volume { IsErrOf result SegmentError.NotAVolume → IsTrue (D.device disk.old).tells
        → IsDescriptor blocks (block (descriptor_place place) (D.device disk.old).content) → ⊥ }
{
    room[at].read(disk, place, blocks)
}

// Whether none of the first n segments has the batch number of the next one.
fn is_new(room: &Vec<Segment>, n: usize) -> bool
    requires { n < length room.now.items }
    ensures { IsTrue result ↔ ((t : ℕ) → t < n → number_of (staged_at room.now.items t) ≢ number_of (staged_at room.now.items n)) }
{
    for i in 0..n {
        if number_at(room, i) == number_at(room, n) {
            return false;
        }
    }
    true
}

// Inserts the segment after the first n among these, so that the batch numbers rise.
fn put_in(room: &mut Vec<Segment>, n: usize)
    requires { n < length room.old.items }
    ensures count { length room.new.items ≡ length room.old.items }
    ensures put { take (n + 1) room.new.items ≡ put_staged (staged_at room.old.items n) (take n room.old.items) }
{
    for i in 0..n {
        pass(room, i, n);
    }
}

// Leaves at the index i the segment with the lesser batch number, and continues with the other one.
fn pass(room: &mut Vec<Segment>, i: usize, n: usize)
    requires there { n < length room.old.items }
    requires low { i < n }
    ensures count { length room.new.items ≡ length room.old.items }
    ensures put { put_from room.new.items n (i + 1) ≡ put_from room.old.items n i }
{
    let is_less = number_at(room, n) < number_at(room, i);
    if is_less {
        room.swap(i, n);
    }
}

fn number_at(room: &Vec<Segment>, i: usize) -> u64
    requires { i < length room.now.items }
    ensures { result ≡ number_of (staged_at room.now.items i) }
{
    room[i].batch_number()
}
