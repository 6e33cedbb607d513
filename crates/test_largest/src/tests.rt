//! Tests of the largest volume.

use crate::files::{commit, crashed, formatted, opened, read_file, write_file};
use crate::sparse::Sparse;
use std::alloc::Global;

const BLOCKS: u64 = 4_194_304;

/// More blocks than the device of a nearly empty volume may keep.
const MANY: usize = 4096;

const TEXT: &[u8] = b"what was committed stands";

/// What is found after a crash.
#[derive(Clone, Copy, Debug, PartialEq, Eq)]
struct Found {
    /// The file that was committed has its octets.
    has_the_first: bool,
    /// There is a file that no batch had.
    has_the_second: bool,
    /// The device keeps few blocks.
    is_sparse: bool,
}

/// A volume of this many blocks is made and opened. One file is committed, and another is not; then the device crashes.
fn left(alloc: Global, blocks: u64) -> Option<Sparse> {
    let mut open = opened(alloc, formatted(alloc, blocks)?)?;
    write_file(alloc, &mut open, b"first", TEXT)?;
    commit(alloc, &mut open)?;
    write_file(alloc, &mut open, b"second", TEXT)?;
    Some(crashed(open))
}

/// What such a device keeps, and what is found in it when it is opened again.
fn lived(alloc: Global, blocks: u64) -> Option<Found> {
    let disk = left(alloc, blocks)?;
    let is_sparse = disk.kept() < MANY;
    let open = opened(alloc, disk)?;
    let first = read_file(alloc, &open, b"first")?;
    Some(Found {
        has_the_first: first.as_slice() == TEXT,
        has_the_second: read_file(alloc, &open, b"second").is_some(),
        is_sparse,
    })
}

#[test]
fn the_largest_volume_keeps_what_was_committed(rt: HostRuntime) {
    let told = Found {
        has_the_first: true,
        has_the_second: false,
        is_sparse: true,
    };
    assert_eq!(rt; lived(rt.alloc(), BLOCKS), Some(told));
}
