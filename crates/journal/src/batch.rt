//! Takes a batch into memory: its descriptor block, its numbers and its images.

ghost use Rattle.std.specs.Prelude.{◌≡◌, ◌≢◌, ◌≤◌, ◌<◌, ◌+◌, ◌*◌, ◌==◌, if◌then◌else◌, ℕ, length};
ghost use Rattle.model.specs.Volume.{blocks_from};
ghost use Rattle.journal_segments.specs.Staged.{staged_at};
ghost use Rattle.journal_segments.specs.Found.{IsTaken};

use crate::{Journal, Next};
use disk::Disk;
use journal_segments::Segment;

impl<D: Disk> Journal<D> {
    ghost use Rattle.journal.specs.Journal.{IsNextBatch, LeavesAdmitted, MayBegin, begins};

    /// Takes a batch into the room that `open` made: images of the logical blocks with these numbers, in this order.
    /// Each later `step` makes one device call for it. The step that commits answers `last`. A batch has 1 to 512
    /// distinct numbers, and 4,096 octets for each image. The call takes no memory and makes no device call.
    ///
    /// The batch goes into the lowest closed segment. Its number is one more than the greatest of an open segment; it is
    /// 1 if none is open. The open segments are always the first ones, with the numbers from 1 on.
    pub fn begin(&mut self, last: u64, numbers: &[u32], images: &[u8])
        requires { MayBegin self.old numbers.now images.now }
        ensures begins { self.new ≡ begins self.old last numbers.now (blocks_from 0 (length numbers.now) images.now) }
        ensures place { IsNextBatch self.new }
        ensures now { LeavesAdmitted D.device self.new }
    {
        let filled = lowest_closed(self.is_last, self.filled);
        fill(&mut self.room, filled, last, numbers, images);
        self.is_last = are_all(&self.room, filled);
        self.filled = filled;
        self.next = Next::Descriptor;
    }
}

// The number of segments that are open while no batch is in flight, which is the index of the lowest closed one. After
// a checkpoint it is 0; otherwise it counts the segments up to the one that was filled.
pub(crate) fn lowest_closed(was_last: bool, filled: usize) -> usize
    requires { filled < 8 }
    ensures { result ≡ (if was_last then 0 else filled + 1) }
{
    if was_last { 0 } else { filled + 1 }
}

// Whether the segments up to this index are all that the volume has.
pub(crate) fn are_all(room: &Vec<Segment>, filled: usize) -> bool
    requires { filled < 8 }
    ensures { result ≡ (filled + 1 == length room.now.items) }
{
    filled + 1 == room.len()
}

// Puts a batch into the segment with this index, which becomes its place. The batch's number is one more than the
// index.
fn fill(room: &mut Vec<Segment>, at: usize, last: u64, numbers: &[u32], images: &[u8])
    requires there { at < length room.old.items }
    requires low { at < 8 }
    requires few { length numbers.now ≤ 512 }
    requires images { length images.now ≡ 4096 * length numbers.now }
    ensures count { length room.new.items ≡ length room.old.items }
    ensures others { (t : ℕ) → t ≢ at → staged_at room.new.items t ≡ staged_at room.old.items t }
    ensures taken { IsTaken at (at + 1) last numbers.now images.now (staged_at room.new.items at) }
{
    room[at].take_batch(at as u32, at as u64 + 1, last, numbers, images);
}
