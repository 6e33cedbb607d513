//! A batch of 6 images, carried to its end.

use anyhow::{Result, bail, ensure};
use disk::Disk;
use journal::{Journal, Progress};

/// The format of the volumes.
pub(crate) const FORMAT: u32 = 2;

/// Octets of six images.
pub(crate) const IMAGES: usize = 6 * 4096;

/// More device calls than a batch of six images has.
const MOST_CALLS: u64 = 100;

/// Carries a batch to its end, and returns the number of its device calls.
pub(crate) fn carry<D: Disk>(journal: &mut Journal<D>, last: u64, images: &[u8]) -> Result<u64> {
    ensure!(journal.is_idle() && images.len() == IMAGES, "not idle");
    journal.begin(last, &[0, 1, 2, 3, 4, 5], images);
    for call in 1..=MOST_CALLS {
        if let Progress::Idle = journal.step()? {
            return Ok(call);
        }
    }
    bail!("a batch does not end")
}
