//! Looks at the open segments of a volume, and finds out where each logical block is.

use crate::device::{Block, ReadStop, read, read_block};
use crate::grouped::Grouped;
use crate::superblock_look::ReadSizes;
use crate::wrong_unless;
use disk::Disk;
use disk_numbers::{number32, number64};
use journal_layout::layout::{
    NUMBERS_AT, SEGMENT_IMAGES, descriptor_block, gate_block, home_block, image_block,
};
use std::alloc::{AllocError, Global};

/// The offsets in a descriptor of the count of its images, and of its zeros.
const COUNT_AT: usize = 16;

const ZEROS_AT: usize = 20;

/// Where a logical block is.
#[derive(Clone, Copy)]
pub(crate) struct Place {
    /// The block of the device.
    pub block: u64,
    /// The number of the batch whose image it is; 0 if it is the home.
    batch: u64,
}

/// An open segment, and the number of its batch.
#[derive(Clone, Copy)]
struct Batch {
    segment: u32,
    number: u64,
}

/// Looks at the open segments, and answers the place of each logical block: its home, or the image of it in the highest
/// batch that has one.
pub(crate) fn look<D: Disk>(
    alloc: Global,
    disk: &mut D,
    sizes: ReadSizes,
) -> Result<Vec<Place>, ReadStop> {
    let mut places = homes(alloc, sizes)?;
    let mut batches = Vec::new(alloc);
    for segment in 0..sizes.segments {
        let mut gate = [0];
        read(disk, gate_block(segment), 0, &mut gate)?;
        if gate[0] == sizes.epoch {
            let descriptor = read_block(disk, descriptor_block(segment))?;
            look_at_descriptor(alloc, segment, &descriptor, sizes.blocks)?;
            let number = number64(&descriptor, 0);
            note_batch(alloc, Batch { segment, number }, &mut batches)?;
            lay_over(places.as_mut_slice(), segment, &descriptor);
        }
    }
    Ok(places)
}

/// The homes of all logical blocks.
fn homes(alloc: Global, sizes: ReadSizes) -> Result<Vec<Place>, AllocError> {
    let mut places = Vec::new(alloc);
    for number in 0..sizes.blocks {
        let block = home_block(sizes.segments, u64::from(number));
        places.push(Place { block, batch: 0 })?;
    }
    Ok(places)
}

/// Looks at the descriptor of an open segment of a volume with this many blocks.
fn look_at_descriptor(
    alloc: Global,
    segment: u32,
    descriptor: &Block,
    blocks: u32,
) -> Result<(), ReadStop> {
    let count = number32(descriptor, COUNT_AT) as usize;
    wrong_unless!(alloc; 1 <= count && count <= SEGMENT_IMAGES,
        "open segment {segment} counts {count} images, where a batch has 1 to {SEGMENT_IMAGES}");
    let mut marks = vec![in alloc; false; blocks as usize]?;
    for i in 0..count {
        let number = number32(descriptor, NUMBERS_AT + 4 * i);
        wrong_unless!(alloc; number < blocks,
            "open segment {segment} has an image of block {number}, where there are {} blocks", Grouped(u64::from(blocks)));
        wrong_unless!(alloc; set_mark(marks.as_mut_slice(), number as usize),
            "open segment {segment} has two images of block {number}");
    }
    for at in ZEROS_AT..NUMBERS_AT {
        wrong_unless!(alloc; descriptor[at] == 0, "octet {at} of the descriptor of open segment {segment} isn't zero");
    }
    Ok(())
}

/// Sets a mark, and answers whether it is there and wasn't set before.
fn set_mark(marks: &mut [bool], number: usize) -> bool {
    if number >= marks.len() || marks[number] {
        return false;
    }
    marks[number] = true;
    true
}

/// Adds an open segment to those before it, none of which may have a batch of the same number.
fn note_batch(alloc: Global, batch: Batch, batches: &mut Vec<Batch>) -> Result<(), ReadStop> {
    let Batch { segment, number } = batch;
    for earlier in batches.iter() {
        wrong_unless!(alloc; earlier.number != number,
            "open segments {} and {segment} both have number {number}", earlier.segment);
    }
    match batches.push(batch) {
        Ok(()) => Ok(()),
        Err(_) => Err(ReadStop::Unseen),
    }
}

/// Notes the images of an open segment in the places of the logical blocks.
fn lay_over(places: &mut [Place], segment: u32, descriptor: &Block) {
    let batch = number64(descriptor, 0);
    let count = number32(descriptor, COUNT_AT) as usize;
    for i in 0..count.min(SEGMENT_IMAGES) {
        let number = number32(descriptor, NUMBERS_AT + 4 * i) as usize;
        if number < places.len() && places[number].batch <= batch {
            let block = image_block(segment, i);
            places[number] = Place { block, batch };
        }
    }
}
