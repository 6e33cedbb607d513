//! Each octet of the superblock, the bitmap, the inodes and the directory is changed while all segments are closed: the
//! device is refused as no volume or as damaged, or what is opened answers a session.

use crate::some_octets::{Wanted, becomes, with_closed_segments};
use std::alloc::Global;
use std::test::Fail;
use test_support_world::{Device, SimError};

/// The octets of a block.
const BLOCK: u64 = 4096;

/// The first logical block. The first ones are the two of the bitmap, one of inodes and one of slots.
const HOME: u64 = 4113;

/// Octets of a block: the block, the first one, the first after them, and in how many ways each is changed.
type Octets = (u64, u64, u64, u64);

/// Octets in use are changed in all four ways: those of the superblock that are not zero, those of the bitmap for the
/// blocks of files, and those of the inodes and slots of files, with some after each.
const WAYS: u64 = 4;

/// Another octet, in one of the ways: one more; its highest bit flipped; zero or 255; or, if it is that already, a bit
/// flipped.
fn changed(octet: u8, way: u64) -> u8 {
    match (way % WAYS, octet) {
        (0, _) => octet.wrapping_add(1),
        (1, _) => octet ^ 0x80,
        (2, 0) | (3, 255) => octet ^ 0x10,
        (2, _) => 0,
        _ => 255,
    }
}

/// Changes an octet of a device in this many ways, the first of which depends on its place, and changes it back. It
/// answers whether the device was refused each time as no volume or as damaged, or opened as a spool that answers.
fn is_right(alloc: Global, device: Device, at: u64, ways: u64) -> Result<(Device, bool), SimError> {
    let mut device = device;
    for k in 0..ways {
        let was = device.put(at, 0)?;
        device.put(at, changed(was, at.wrapping_add(k)))?;
        let (next, is_right) = becomes(alloc, device, 8, Wanted::Any)?;
        device = next;
        device.put(at, was)?;
        if !is_right {
            return Ok((device, false));
        }
    }
    Ok((device, true))
}

/// The first of the octets of a block that is wrong.
fn first_wrong(
    alloc: Global,
    device: Device,
    octets: Octets,
) -> Result<(Device, Option<u64>), SimError> {
    let (block, first, end, ways) = octets;
    let mut device = device;
    for place in first..end {
        let at = block.wrapping_mul(BLOCK).wrapping_add(place);
        let (next, is_told) = is_right(alloc, device, at, ways)?;
        device = next;
        if !is_told {
            return Ok((device, Some(place)));
        }
    }
    Ok((device, None))
}

/// The first of all these octets that is wrong, and whether the device is opened whole after all changes were undone.
fn first_wrong_of(alloc: Global, rows: &[Octets]) -> Result<(Option<u64>, bool), SimError> {
    let mut device = with_closed_segments(alloc)?;
    for octets in rows {
        let (next, wrong) = first_wrong(alloc, device, *octets)?;
        device = next;
        if wrong.is_some() {
            return Ok((wrong, false));
        }
    }
    let (_, is_whole) = becomes(alloc, device, 8, Wanted::Whole)?;
    Ok((None, is_whole))
}

/// Fails with the first octet that is wrong, and unless the device is opened whole at last. A test has 60 seconds, beside
/// whatever else a machine does, so each has few more than a thousand changes.
fn are_right(alloc: Global, rows: &[Octets]) -> Result<(), Fail> {
    let wrong = first_wrong_of(alloc, rows)?;
    if wrong != (None, true) {
        return Err(wrong)?;
    }
    Ok(())
}

#[test]
fn each_octet_of_the_superblock_in_use(rt: HostRuntime) -> Result<(), Fail> {
    are_right(rt.alloc(), &[(0, 0, 160, WAYS)])
}

#[test]
fn each_octet_of_the_superblocks_first_zeros(rt: HostRuntime) -> Result<(), Fail> {
    are_right(rt.alloc(), &[(0, 160, 1184, 1)])
}

#[test]
fn each_octet_of_the_superblocks_second_zeros(rt: HostRuntime) -> Result<(), Fail> {
    are_right(rt.alloc(), &[(0, 1184, 2208, 1)])
}

#[test]
fn each_octet_of_the_superblocks_third_zeros(rt: HostRuntime) -> Result<(), Fail> {
    are_right(rt.alloc(), &[(0, 2208, 3232, 1)])
}

#[test]
fn each_octet_of_the_superblocks_last_zeros(rt: HostRuntime) -> Result<(), Fail> {
    are_right(rt.alloc(), &[(0, 3232, 4096, 1)])
}

#[test]
fn each_octet_of_the_bitmap_in_use(rt: HostRuntime) -> Result<(), Fail> {
    are_right(rt.alloc(), &[(HOME, 0, 32, WAYS), (HOME, 32, 928, 1)])
}

#[test]
fn each_octet_of_the_bitmaps_second_part(rt: HostRuntime) -> Result<(), Fail> {
    are_right(rt.alloc(), &[(HOME, 928, 1952, 1)])
}

#[test]
fn each_octet_of_the_bitmaps_third_part(rt: HostRuntime) -> Result<(), Fail> {
    are_right(rt.alloc(), &[(HOME, 1952, 2976, 1)])
}

#[test]
fn each_octet_of_the_bitmaps_last_part(rt: HostRuntime) -> Result<(), Fail> {
    are_right(rt.alloc(), &[(HOME, 2976, 4096, 1)])
}

#[test]
fn each_octet_of_the_bitmaps_second_block_in_its_first_part(rt: HostRuntime) -> Result<(), Fail> {
    are_right(rt.alloc(), &[(HOME + 1, 0, 1024, 1)])
}

#[test]
fn each_octet_of_the_bitmaps_second_block_in_its_second_part(rt: HostRuntime) -> Result<(), Fail> {
    are_right(rt.alloc(), &[(HOME + 1, 1024, 2048, 1)])
}

#[test]
fn each_octet_of_the_bitmaps_second_block_in_its_third_part(rt: HostRuntime) -> Result<(), Fail> {
    are_right(rt.alloc(), &[(HOME + 1, 2048, 3072, 1)])
}

#[test]
fn each_octet_of_the_bitmaps_second_block_in_its_last_part(rt: HostRuntime) -> Result<(), Fail> {
    are_right(rt.alloc(), &[(HOME + 1, 3072, 4096, 1)])
}

#[test]
fn each_octet_of_the_first_inodes(rt: HostRuntime) -> Result<(), Fail> {
    are_right(rt.alloc(), &[(HOME + 2, 0, 256, WAYS)])
}

#[test]
fn each_octet_of_the_inodes_after_them(rt: HostRuntime) -> Result<(), Fail> {
    are_right(rt.alloc(), &[(HOME + 2, 256, 512, WAYS)])
}

#[test]
fn each_octet_of_the_last_inodes_in_use(rt: HostRuntime) -> Result<(), Fail> {
    are_right(rt.alloc(), &[(HOME + 2, 512, 768, WAYS)])
}

#[test]
fn each_octet_of_the_first_free_inodes(rt: HostRuntime) -> Result<(), Fail> {
    are_right(rt.alloc(), &[(HOME + 2, 768, 1792, 1)])
}

#[test]
fn each_octet_of_the_free_inodes_after_them(rt: HostRuntime) -> Result<(), Fail> {
    are_right(rt.alloc(), &[(HOME + 2, 1792, 2816, 1)])
}

#[test]
fn each_octet_of_the_last_free_inodes(rt: HostRuntime) -> Result<(), Fail> {
    are_right(rt.alloc(), &[(HOME + 2, 2816, 4096, 1)])
}

#[test]
fn each_octet_of_the_first_slots(rt: HostRuntime) -> Result<(), Fail> {
    are_right(rt.alloc(), &[(HOME + 3, 0, 256, WAYS)])
}

#[test]
fn each_octet_of_the_slots_after_them(rt: HostRuntime) -> Result<(), Fail> {
    are_right(rt.alloc(), &[(HOME + 3, 256, 512, WAYS)])
}

#[test]
fn each_octet_of_the_last_slots_in_use(rt: HostRuntime) -> Result<(), Fail> {
    are_right(rt.alloc(), &[(HOME + 3, 512, 768, WAYS)])
}

#[test]
fn each_octet_of_the_first_free_slots(rt: HostRuntime) -> Result<(), Fail> {
    are_right(rt.alloc(), &[(HOME + 3, 768, 1792, 1)])
}

#[test]
fn each_octet_of_the_free_slots_after_them(rt: HostRuntime) -> Result<(), Fail> {
    are_right(rt.alloc(), &[(HOME + 3, 1792, 2816, 1)])
}

#[test]
fn each_octet_of_the_last_free_slots(rt: HostRuntime) -> Result<(), Fail> {
    are_right(rt.alloc(), &[(HOME + 3, 2816, 4096, 1)])
}
