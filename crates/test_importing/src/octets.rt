//! Octets of a row of a table.

use std::alloc::{AllocError, Global};

/// Octets as they are written, or with a run of one octet in the middle.
#[derive(Clone, Copy)]
pub(crate) enum Octets<'a> {
    Are(&'a [u8]),
    Long(&'a [u8], u8, u32, &'a [u8]),
}

impl Octets<'_> {
    /// A copy of the octets on the heap.
    pub(crate) fn in_memory(&self, alloc: Global) -> Result<Vec<u8>, AllocError> {
        match self {
            Octets::Are(octets) => octets.to_vec(alloc),
            Octets::Long(front, octet, count, end) => lengthened(alloc, front, *octet, *count, end),
        }
    }
}

fn lengthened(
    alloc: Global,
    front: &[u8],
    octet: u8,
    count: u32,
    end: &[u8],
) -> Result<Vec<u8>, AllocError> {
    let mut octets = front.to_vec(alloc)?;
    for _ in 0..count {
        octets.push(octet)?;
    }
    octets.extend_from_slice(end)?;
    Ok(octets)
}
