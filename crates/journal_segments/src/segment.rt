//! A segment in memory.

ghost use Rattle.std.specs.Prelude.{◌≡◌, ◌≢◌, ◌≤◌, ◌<◌, ◌+◌, ◌*◌, ◌++◌, IfOk, IsErrOf, IsTrue, OnOk, length, drop, slice_index};
ghost use Rattle.std.specs.Prelude.{slice_index_or, []};
ghost use Rattle.model.specs.Volume.{IsDescriptor, block, descriptor_place, gate_place, number_at};
ghost use Rattle.journal_segments.specs.Staged.{number_of};
ghost use Rattle.journal_segments.specs.Found.{IsQuiet, IsReadFrom, IsStill, IsTaken};

use crate::SegmentError;
use crate::device_reads::load_batch;
use disk::Disk;
use disk_numbers::{number64, zeros};
use journal_layout::describe_batch;
use journal_layout::layout::{BLOCK, SEGMENT_IMAGES, block_at};
use std::alloc::{AllocError, Global};
use std::marker::Model;

/// A segment: its place on the device, and the descriptor block, the numbers and the images of its batch. It has room
/// for the largest batch, and never grows.
#[derive(Drop)]
pub struct Segment {
    place: u32,
    count: usize,
    descriptor: Vec<u8>,
    numbers: Vec<u32>,
    images: Vec<u8>,
}

impl Model for Segment {
    ghost use Rattle.std.specs.Prelude.{length, take};
    ghost use Rattle.model.specs.Volume.{blocks_from};
    ghost use Rattle.journal_segments.specs.Staged.{Staged};
    ghost use Rattle.journal_segments.specs.Found.{HasRoom};

    ghost Value = { Staged };

    ghost view = { λ s. record {
      place = s.place;
      descriptor = s.descriptor.items;
      numbers = take s.count s.numbers.items;
      images = blocks_from 0 (length (take s.count s.numbers.items)) s.images.items;
    } };

    ghost invariant = { λ s. HasRoom s.count s.descriptor.items s.numbers.items s.images.items };
}

impl Segment {
    /// A segment without a batch.
    pub fn new(alloc: Global, place: u32) -> Result<Segment, AllocError>
        ensures { IfOk result (λ segment. segment.place ≡ place) }
    {
        Ok(Segment {
            place,
            count: 0,
            descriptor: zeros(alloc, BLOCK)?,
            numbers: vec![in alloc; 0; SEGMENT_IMAGES]?,
            images: zeros(alloc, SEGMENT_IMAGES * BLOCK)?,
        })
    }

    /// Its place on the device, counted in segments.
    pub fn place(&self) -> u32
        ensures { result ≡ self.now.place }
    {
        self.place
    }

    /// The number of images in its batch.
    pub fn count(&self) -> usize
        ensures count { result ≡ length self.now.numbers }
        ensures few { result ≤ 512 }
    {
        self.count
    }

    /// The number of its batch.
    pub fn batch_number(&self) -> u64
        ensures { result ≡ number_of self.now }
    {
        number64(self.descriptor.as_slice(), 0)
    }

    /// The last serial of its batch.
    pub fn last(&self) -> u64
        ensures { result ≡ number_at 8 8 self.now.descriptor }
    {
        number64(self.descriptor.as_slice(), 8)
    }

    /// The descriptor block of its batch.
    pub fn descriptor(&self) -> &[u8]
        ensures block { result.now ≡ self.now.descriptor }
        ensures size { length result.now ≡ 4096 }
    {
        self.descriptor.as_slice()
    }

    /// The number of the logical block whose image is the i-th of its batch.
    pub fn number(&self, i: usize) -> u32
        requires { i < length self.now.numbers }
        ensures { result ≡ slice_index self.now.numbers i }
    {
        self.numbers[i]
    }

    /// The i-th image of its batch.
    pub fn image(&self, i: usize) -> &[u8]
        requires { i < length self.now.numbers }
        ensures image { result.now ≡ slice_index_or self.now.images i [] }
        ensures size { length result.now ≡ 4096 }
    {
        block_at(self.images.as_slice(), i)
    }

    /// Replaces its batch with this one, in this place.
    pub fn take_batch(&mut self, place: u32, number: u64, last: u64, numbers: &[u32], images: &[u8])
        requires few { length numbers.now ≤ 512 }
        requires images { length images.now ≡ 4096 * length numbers.now }
        ensures { IsTaken place number last numbers.now images.now self.new }
    {
        let count = numbers.len();
        describe_batch(&mut self.descriptor, number, last, numbers);
        put_front(&mut self.numbers, numbers);
        put_front(&mut self.images, images);
        self.place = place;
        self.count = count;
    }

    /// Reads the batch of the open segment in this place. `NotAVolume` if its descriptor is not valid, `Fault` if the
    /// device failed.
    pub fn read<D: Disk>(
        &mut self,
        disk: &mut D,
        place: u32,
        blocks: u64,
    ) -> Result<(), SegmentError>
        // The segment lies on the device.
        requires low { place < 8 }
        requires size { 4096 * gate_place (place + 1) ≤ (D.device disk.old).size }

        // The segment gets this place, and the device is only read.
        ensures place { self.new.place ≡ place }
        ensures quiet { IsQuiet (D.device disk.old) (D.device disk.new) }
        ensures still { OnOk result (IsStill (D.device disk.old) (D.device disk.new)) }

        // The batch that was read, or what a refusal shows of the device.
        ensures read { OnOk result (IsReadFrom (D.device disk.old) blocks self.new) }
        ensures fault { IsErrOf result SegmentError.Fault → (D.device disk.new).failures ≢ (D.device disk.old).failures }
        ensures no_volume { IsErrOf result SegmentError.NotAVolume → IsTrue (D.device disk.old).tells
            → IsDescriptor blocks (block (descriptor_place place) (D.device disk.old).content) → ⊥ }
    {
        self.place = place;
        let count = load_batch(
            disk,
            place,
            blocks,
            &mut self.descriptor,
            &mut self.numbers,
            &mut self.images,
        )?;
        self.count = count;
        Ok(())
    }
}

// Copies items to the start of a room that is large enough.
fn put_front<T: Copy>(room: &mut Vec<T>, items: &[T])
    requires { length items.now ≤ length room.old.items }
    ensures { room.new.items ≡ items.now ++ drop (length items.now) room.old.items }
{
    put_first(room.as_mut_slice(), items);
}

fn put_first<T: Copy>(room: &mut [T], items: &[T])
    requires { length items.now ≤ length room.old }
    ensures { room.new ≡ items.now ++ drop (length items.now) room.old }
{
    let size = items.len();
    room[..size].copy_from_slice(items);
}
