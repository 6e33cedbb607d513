//! Makes the device calls of a batch, one per step.

ghost use Rattle.std.specs.Prelude.{◌≡◌, ◌≢◌, ◌≤◌, ◌<◌, ◌+◌, ◌*◌, ◌⊎◌, ◌==◌, ◌^◌, ℕ, length, slice_index};
ghost use Rattle.std.specs.Prelude.{sum, true, false, OnOk, IfErr, IsTrue, if◌then◌else◌};
ghost use Rattle.model.specs.Volume.{home_place};
ghost use Rattle.journal_segments.specs.Staged.{staged_at};
ghost use Rattle.journal.specs.Flight.{flight_in, sizes_of};
ghost use Rattle.journal.specs.Inside.{IsWithin, superblock_after};
ghost use Rattle.journal.specs.Order.{Carried, IsMore, answer, at_fault, calls_made, closings, following, is_growing, is_sync};
ghost use Rattle.journal.specs.Order.{syncs_made, writes_made};
ghost use Rattle.disk.specs.Calls.{Does};
ghost use Rattle.journal.specs.Calls.{call_at, written_in};

use crate::batch::are_all;
use crate::{Journal, JournalError, Next, Progress};
use disk::{Disk, DiskError};
use journal_layout::layout::{CLOSED, EPOCH_AT, put_octets};
use journal_layout::{other_epoch, read_epoch};
use journal_segments::{
    Segment, write_descriptor, write_epoch, write_gate, write_home, write_image,
};

impl<D: Disk> Journal<D> {
    ghost use Rattle.journal.specs.Journal.{IsCaused, IsDuring, IsIdle, LeavesAdmitted, LeftAdmitted, sizes};
    ghost use Rattle.journal.specs.Calls.{IsRetried, MakesCall, OnMade, OnRetried};

    /// Makes the next device call of the batch in flight, and no other. An idle or halted journal makes none.
    ///
    /// A fault of the device halts the journal: this step answers `Fault`, and each later one `Halted`. A call that the
    /// device refuses for want of memory is not made: the answer is `Memory`, and the next step asks that call again.
    pub fn step(&mut self) -> Result<Progress, JournalError>
        // Where no call is made, nothing changes.
        ensures halted { self.old.halted ≡ true → (result ≡ Err JournalError.Halted) × (self.new ≡ self.old) }
        ensures idle { self.old.halted ≡ false → IsIdle self.old → (result ≡ Ok Progress.Idle) × (self.new ≡ self.old) }

        // The call that is made, and the causes of a refusal.
        ensures call { self.old.halted ≡ false → (IsIdle self.old → ⊥) → OnMade result (MakesCall D.device self.old self.new result) }
        ensures retried { self.old.halted ≡ false → (IsIdle self.old → ⊥) → OnRetried result (IsRetried D.device self.old self.new) }
        ensures no_other { self.old.halted ≡ false → IfErr result (λ error. (error ≡ JournalError.Fault) ⊎ (error ≡ JournalError.Memory)) }
        ensures memory { IfErr result (λ error. error ≡ JournalError.Memory
            → IsTrue (is_growing self.old.next D.write_grows D.sync_grows)) }

        // A crash now leaves an image that the journal admits, and so does one at any moment of the step.
        ensures now { LeavesAdmitted D.device self.new }
        ensures since { LeftAdmitted D.device self.old self.new }
    {
        if self.halted {
            return Err(JournalError::Halted);
        }
        if is_idle(self.next) {
            return Ok(Progress::Idle);
        }
        let asked = self.next;
        let epoch = read_epoch(&self.superblock);
        match ask(&mut self.disk, asked, &self.room, self.filled, epoch) {
            Ok(()) => {
                self.next = call_after(asked, &self.room, self.filled, self.is_last);
                let all = are_all(&self.room, self.filled);
                keep_epoch(&mut self.superblock, asked, all, epoch);
                let last = segment_at(&self.room, self.filled).last();
                Ok(answer_to(asked, last, closings(&self.room, self.filled)))
            }
            Err(DiskError::Fault) => {
                self.next = call_at_fault(asked, &self.room, self.filled, self.is_last);
                self.halted = true;
                Err(JournalError::Fault)
            }
            Err(DiskError::Memory) => Err(JournalError::Memory),
        }
    }

    // Steps until the batch in flight has ended, from its first home write on.
    pub(crate) fn carry_home(&mut self) -> Result<(), JournalError>
        // The journal is about to carry images home, and a crash leaves what it admits.
        requires next { self.old.next ≡ Next.Home 0 0 }
        requires running { self.old.halted ≡ false }
        requires some { (0 < length (sizes self.old).counts) × (0 < slice_index (sizes self.old).counts 0) }
        requires now { LeavesAdmitted D.device self.old }

        // The logical blocks stay the same, also in what a crash leaves.
        ensures during { IsDuring D.device self.old self.new }

        // What `Ok` costs and leaves, and why the run is refused.
        ensures cost { OnOk result (IsMore (sum (sizes self.old).counts + closings (sizes self.old)) (D.device self.old.disk).writes
            (D.device self.new.disk).writes × IsMore (1 + closings (sizes self.old)) (D.device self.old.disk).syncs
            (D.device self.new.disk).syncs) }
        ensures ok { OnOk result ((self.new.next ≡ Next.Idle) × (self.new.halted ≡ false)
            × ((D.device self.new.disk).failures ≡ (D.device self.old.disk).failures)) }
        ensures cause { IfErr result (λ error. IsCaused error (D.device self.old.disk) (D.device self.new.disk)) }
    {
        while !is_idle(self.next) {
            self.step()?;
        }
        Ok(())
    }
}

/// Counts the calls of a batch of n images. Each good call leads to the next one. Call n + 4 is the sync that commits.
/// If a closed segment is left, that sync ends the batch, after n + 2 writes and 2 syncs. Otherwise the batch ends at
/// call n + 5, plus one for each image that the open segments carry home and two for each write that closes.
pub fn each_call_is_the_next()
    ensures next { (n : ℕ) (carried : Carried) (next : Next) → next ≢ Next.Idle
        → calls_made n carried (following n carried next) ≡ calls_made n carried next + 1 }
    ensures writes { (n : ℕ) (carried : Carried) (next : Next) → next ≢ Next.Idle
        → writes_made n carried (following n carried next)
        ≡ (if is_sync next then writes_made n carried next else writes_made n carried next + 1) }
    ensures syncs { (n : ℕ) (carried : Carried) (next : Next) → next ≢ Next.Idle
        → syncs_made carried (following n carried next) ≡ (if is_sync next then syncs_made carried next + 1 else syncs_made carried next) }
    ensures cost { (n : ℕ) (carried : Carried)
        → (writes_made n carried (following n carried Next.Commit) ≡ n + 2) × (syncs_made carried (following n carried Next.Commit) ≡ 2) }
    ensures committed { (n : ℕ) (carried : Carried) → calls_made n carried (following n carried Next.Commit) ≡ n + 4 }
    ensures ended { (n : ℕ) (carried : Carried) → 0 < length carried.counts
        → calls_made n carried Next.Idle ≡ n + 5 + sum carried.counts + 2 * closings carried }
{}

pub(crate) fn is_idle(next: Next) -> bool
    ensures yes { result ≡ true → next ≡ Next.Idle }
    ensures no { result ≡ false → next ≢ Next.Idle }
{
    match next {
        Next::Idle => true,
        _ => false,
    }
}

// Makes the next call. Every device call of a batch is made here.
fn ask<D: Disk>(
    disk: &mut D,
    next: Next,
    room: &Vec<Segment>,
    filled: usize,
    epoch: u8,
) -> Result<(), DiskError>
    // A batch is in flight, and the segments of the room lie on the device.
    requires epoch { (1 ≤ epoch) × (epoch ≤ 2) }
    requires flies { next ≢ Next.Idle }
    requires there { filled < length room.now.items }
    requires few { length room.now.items ≤ 8 }
    requires size { 4096 * home_place (length room.now.items) 0 ≤ (D.device disk.old).size }
    requires place { (staged_at room.now.items filled).place < length room.now.items }

    // The image, the block or the gate that the call names is there.
    requires image { (i : ℕ) → next ≡ Next.Image i → i < length (staged_at room.now.items filled).numbers }
    requires carried { (j i : ℕ) → next ≡ Next.Home j i → (j ≤ filled) × (i < length (staged_at room.now.items j).numbers) }
    requires home { (j i : ℕ) → next ≡ Next.Home j i
        → 4096 * home_place (length room.now.items) (slice_index (staged_at room.now.items j).numbers i) + 4096 ≤ (D.device disk.old).size }
    requires gate { (j : ℕ) → next ≡ Next.Close j → (j ≤ filled) × ((staged_at room.now.items j).place < length room.now.items) }

    // The device does this call. It is refused for memory only where it may grow.
    ensures does { Does D.write_grows D.sync_grows (call_at next (written_in room.now.items filled epoch)) result
        (D.device disk.old) (D.device disk.new) }
    ensures memory { IfErr result (λ error. error ≡ DiskError.Memory → IsTrue (is_growing next D.write_grows D.sync_grows)) }
{
    match next {
        Next::Descriptor => write_descriptor(disk, segment_at(room, filled)),
        Next::Image(i) => write_image(disk, segment_at(room, filled), i),
        Next::OpenGate => write_gate(disk, segment_at(room, filled), epoch),
        Next::Home(j, i) => write_home(disk, room.len() as u32, segment_at(room, j), i),
        Next::Close(j) => close(disk, j, room, filled, epoch),
        Next::Seal | Next::Commit | Next::Settle | Next::Finish(_) => disk.sync(),
        Next::Idle => unreachable!(),
    }
}

// Writes the other epoch if every segment is open, else a 0 at the gate of the one with the index j.
fn close<D: Disk>(
    disk: &mut D,
    j: usize,
    room: &Vec<Segment>,
    filled: usize,
    epoch: u8,
) -> Result<(), DiskError>
    requires epoch { (1 ≤ epoch) × (epoch ≤ 2) }
    requires there { filled < length room.now.items }
    requires few { length room.now.items ≤ 8 }
    requires size { 4096 * home_place (length room.now.items) 0 ≤ (D.device disk.old).size }
    requires gate { (j ≤ filled) × ((staged_at room.now.items j).place < length room.now.items) }
    ensures { Does D.write_grows D.sync_grows (call_at (Next.Close j) (written_in room.now.items filled epoch)) result
        (D.device disk.old) (D.device disk.new) }
{
    if are_all(room, filled) {
        write_epoch(disk, other_epoch(epoch))
    } else {
        write_gate(disk, segment_at(room, j), CLOSED)
    }
}

// After a good write of the other epoch the superblock in memory has it too.
fn keep_epoch(superblock: &mut Vec<u8>, asked: Next, all: bool, epoch: u8)
    requires epoch { (1 ≤ epoch) × (epoch ≤ 2) }
    requires size { length superblock.old.items ≡ 4096 }
    ensures { superblock.new.items ≡ superblock_after all epoch asked superblock.old.items }
{
    match asked {
        Next::Close(_) => {
            if all {
                put_octets(superblock.as_mut_slice(), EPOCH_AT, &[other_epoch(epoch)]);
            }
        }
        _ => {}
    }
}

fn segment_at(room: &Vec<Segment>, i: usize) -> &Segment
    requires { i < length room.now.items }
    ensures { result.now ≡ staged_at room.now.items i }
{
    &room[i]
}

// The call after a good one.
fn call_after(next: Next, room: &Vec<Segment>, filled: usize, is_last: bool) -> Next
    requires there { filled < length room.now.items }
    requires few { length room.now.items ≤ 8 }
    requires within { IsWithin (length (staged_at room.now.items filled).numbers)
        (sizes_of (flight_in room.now.items filled is_last)) next }
    ensures { result ≡ following (length (staged_at room.now.items filled).numbers) (sizes_of (flight_in room.now.items filled is_last))
        next }
{
    match next {
        Next::Descriptor => Next::Image(0),
        Next::Image(i) => after_image(i, segment_at(room, filled).count()),
        Next::Seal => Next::OpenGate,
        Next::OpenGate => Next::Commit,
        Next::Commit if is_last => Next::Home(0, 0),
        Next::Home(j, i) => after_home(j, i, segment_at(room, j).count(), filled),
        Next::Settle => Next::Close(0),
        Next::Close(j) => Next::Finish(j),
        Next::Finish(j) => after_close(j, closings(room, filled)),
        Next::Commit | Next::Idle => Next::Idle,
    }
}

fn after_image(i: usize, count: usize) -> Next
    requires { i < count }
    ensures { result ≡ (if i + 1 == count then Next.Seal else Next.Image (i + 1)) }
{
    if i + 1 == count {
        Next::Seal
    } else {
        Next::Image(i + 1)
    }
}

// The call after an image of the j-th segment, which has `count` images; `last` is the index of the last segment.
fn after_home(j: usize, i: usize, count: usize, last: usize) -> Next
    requires within { i < count }
    requires there { j ≤ last }
    requires few { last < 2 ^ 32 }
    ensures { result ≡ (if i + 1 == count then (if j + 1 == last + 1 then Next.Settle else Next.Home (j + 1) 0) else Next.Home j (i + 1)) }
{
    if i + 1 < count {
        Next::Home(j, i + 1)
    } else if j == last {
        Next::Settle
    } else {
        Next::Home(j + 1, 0)
    }
}

// The number of writes that close the segments up to this index, once these are carried home.
fn closings(room: &Vec<Segment>, filled: usize) -> usize
    requires there { filled < length room.now.items }
    requires few { length room.now.items ≤ 8 }
    ensures count { result ≡ closings (sizes_of (flight_in room.now.items filled true)) }
    ensures some { 0 < result }
{
    if are_all(room, filled) { 1 } else { filled + 1 }
}

fn after_close(j: usize, count: usize) -> Next
    requires there { j < count }
    ensures { result ≡ (if j + 1 == count then Next.Idle else Next.Close (j + 1)) }
{
    if j + 1 == count {
        Next::Idle
    } else {
        Next::Close(j + 1)
    }
}

// The next call after a fault. A failed write may have written its octets; a failed sync did nothing.
fn call_at_fault(next: Next, room: &Vec<Segment>, filled: usize, is_last: bool) -> Next
    requires there { filled < length room.now.items }
    requires few { length room.now.items ≤ 8 }
    requires within { IsWithin (length (staged_at room.now.items filled).numbers)
        (sizes_of (flight_in room.now.items filled is_last)) next }
    ensures { result ≡ at_fault (length (staged_at room.now.items filled).numbers) (sizes_of (flight_in room.now.items filled is_last))
        next }
{
    match next {
        Next::Seal | Next::Commit | Next::Settle | Next::Finish(_) => next,
        _ => call_after(next, room, filled, is_last),
    }
}

// The answer to a good call, in a batch with this last serial that so many writes close.
fn answer_to(next: Next, last: u64, count: usize) -> Progress
    requires { 0 < count }
    ensures { (carried : Carried) → ((j : ℕ) → next ≡ Next.Finish j → closings carried ≡ count) → result ≡ answer last carried next }
{
    match next {
        Next::Commit => Progress::Committed(last),
        Next::Finish(j) if j == count - 1 => Progress::Idle,
        _ => Progress::Working,
    }
}
