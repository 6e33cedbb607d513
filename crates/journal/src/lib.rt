//! A journal on a block device: a batch of block images becomes durable as a whole or not at all. `specs/Journal.antt`
//! says what a journal is to its callers, `specs/Calls.antt` what each step does.
#![tactic(auto)]

mod batch;
mod opening;
mod stepping;
mod upgrading;

ghost use Rattle.std.specs.Prelude.{◌≡◌, ◌⊎◌, ◌≤◌, ◌<◌, ◌↔◌, length, true, false, OnOk, IfErr, IsTrue};

use batch::lowest_closed;
use disk::{Disk, DiskCall, Faults};
use journal_layout::layout::{FORMAT_2_AT, LABEL_AT, home_block, start_of};
use journal_layout::read_format;
pub use journal_layout::{FormatError, format, format_with};
use journal_segments::{Segment, SegmentError, lay_over};
use std::marker::Model;
pub use stepping::each_call_is_the_next;
use thiserror::Error;

/// The next device call.
#[derive(Clone, Copy, Debug, PartialEq, Eq)]
pub enum Next {
    /// None: no batch is in flight.
    Idle,
    Descriptor,
    Image(usize),
    /// The sync after the descriptor and the images.
    Seal,
    OpenGate,
    /// The sync that commits. If a closed segment is left, the batch ends with it.
    Commit,
    /// An image of one of the open segments, which are counted from 0 in rising batch number.
    Home(usize, usize),
    /// The sync after the home writes.
    Settle,
    /// A write that closes, counted from 0: of the other epoch if every segment is open, else of the gate of one of them.
    Close(usize),
    /// The sync after that write. The last one ends the batch.
    Finish(usize),
}

/// What a step did.
#[derive(Clone, Copy, Debug, PartialEq, Eq)]
pub enum Progress {
    Working,
    /// The batch is durable. The value is the last serial that its `begin` was given.
    Committed(u64),
    /// No batch is in flight.
    Idle,
}

/// Why the journal refused a call.
#[derive(Clone, Copy, Debug, PartialEq, Eq, Error)]
pub enum JournalError {
    /// The device failed in this call. This halts the journal for good.
    #[error("E1 Fault")]
    Fault,
    /// An allocation was refused in this call, of the journal or of the device. Each call says what that leaves.
    #[error("E2 Memory")]
    Memory,
    /// The length, the superblock or an open segment's descriptor is not valid, or two open segments share a batch
    /// number.
    #[error("E3 NotAVolume")]
    NotAVolume,
    /// An earlier fault of the device has halted the journal.
    #[error("E4 Halted")]
    Halted,
}

impl From<SegmentError> for JournalError {
    fn from(error: SegmentError) -> JournalError
        ensures fault { error ≡ SegmentError.Fault → result ≡ JournalError.Fault }
        ensures no_volume { error ≡ SegmentError.NotAVolume → result ≡ JournalError.NotAVolume }
    {
        match error {
            SegmentError::Fault => JournalError::Fault,
            SegmentError::NotAVolume => JournalError::NotAVolume,
        }
    }
}

/// A journal over a device.
#[derive(Drop)]
pub struct Journal<D: Disk> {
    disk: D,
    superblock: Vec<u8>,
    blocks: u64,
    next: Next,
    halted: bool,
    // one for each segment of the volume; the open ones come first, in rising batch number
    room: Vec<Segment>,
    // the index of the segment that the batch in flight is written into
    filled: usize,
    // whether no other closed segment is left
    is_last: bool,
}

impl<D: Disk> Model for Journal<D> {
    ghost use Rattle.std.specs.Prelude.{length, map, take};
    ghost use Rattle.disk.specs.Image.{part};
    ghost use Rattle.model.specs.Volume.{epoch_in, format_in, number_at};
    ghost use Rattle.journal_segments.specs.Staged.{held_as, staged_at};
    ghost use Rattle.journal.specs.Inside.{IsKept, blocks_without};
    ghost use Rattle.journal.specs.Journal.{JournalView};

    ghost Value = { JournalView D };

    ghost view = { λ j. record {
      disk = j.disk;
      label = part 20 128 j.superblock.items;
      format = format_in j.superblock.items;
      epoch = epoch_in j.superblock.items;
      size = j.blocks;
      segments = length j.room.items;
      blocks = blocks_without (staged_at j.room.items j.filled).place j.next (D.device j.disk).content;
      next = j.next;
      halted = j.halted;
      held = map held_as (take j.filled j.room.items);
      place = (staged_at j.room.items j.filled).place;
      number = number_at 0 8 (staged_at j.room.items j.filled).descriptor;
      last = number_at 8 8 (staged_at j.room.items j.filled).descriptor;
      numbers = (staged_at j.room.items j.filled).numbers;
      images = (staged_at j.room.items j.filled).images;
      is_last = j.is_last;
    } };

    ghost invariant = { λ j. IsKept (D.device j.disk) j.blocks j.superblock.items j.next j.halted j.room.items j.filled j.is_last };
}

/// A refused opening, with the device as the opening left it.
#[derive(Drop)]
pub struct Refused<D> {
    pub disk: D,
    pub error: JournalError,
}

impl<D: Disk> Journal<D> {
    ghost use Rattle.disk.specs.Device.{Elapses, IsRead};
    ghost use Rattle.std.specs.Prelude.{slice_index_or, [], ◌*◌, ◌+◌, ℕ};
    ghost use Rattle.model.specs.Volume.{block, home_place};
    ghost use Rattle.journal.specs.Journal.{CountsFailures, HasWholeBlocks, IsIdle, IsReady, IsSameBatch, LeavesAdmitted, LeftAdmitted};

    /// The 128 octets of the volume's label.
    pub fn label(&self) -> &[u8]
        ensures label { result.now ≡ self.now.label }
        ensures size { length result.now ≡ 128 }
    {
        &self.superblock[LABEL_AT..FORMAT_2_AT]
    }

    /// The format of the volume, 1 to 3.
    pub fn format_number(&self) -> u32
        ensures format { result ≡ self.now.format }
        ensures some { 1 ≤ result }
        ensures few { result ≤ 3 }
    {
        read_format(&self.superblock)
    }

    /// The number of logical blocks, 1,024 to 4,194,304.
    pub fn blocks(&self) -> u64
        ensures size { result ≡ self.now.size }
        ensures low { 1024 ≤ result }
        ensures high { result ≤ 4194304 }
        ensures device { (D.device self.now.disk).size ≡ 4096 * home_place self.now.segments result }
    {
        self.blocks
    }

    /// Whether a batch may begin: none is in flight and the journal is not halted. Its clauses also state what the
    /// journal keeps.
    pub fn is_idle(&self) -> bool
        ensures idle { IsTrue result ↔ IsReady self.now }
        ensures now { LeavesAdmitted D.device self.now }
        ensures whole { HasWholeBlocks D.device self.now }
        ensures some { 1024 ≤ self.now.size }
        ensures few { self.now.size ≤ 4194304 }
    {
        !self.halted && stepping::is_idle(self.next)
    }

    /// Reads logical blocks of 4,096 octets from `start` on, as many as `into` has room for, while no batch is in flight. It is one
    /// read of the device.
    ///
    /// The only refusal is `Fault`, which leaves any octets in `into` and halts the journal for good.
    pub fn load(&mut self, start: u64, into: &mut [u8]) -> Result<(), JournalError>
        // A running journal, which has these blocks.
        requires idle { IsIdle self.old }
        requires running { self.old.halted ≡ false }
        requires below { 4096 * start + length into.old ≤ 4096 * self.old.size }

        // What is read, and what stays of the journal.
        ensures value { IsTrue (D.device self.old.disk).tells → OnOk result ((k : ℕ) → 4096 * k + 4096 ≤ length into.old
            → block k into.new ≡ slice_index_or self.old.blocks (start + k) []) }
        ensures room { length into.new ≡ length into.old }
        ensures same { IsSameBatch self.old self.new }
        ensures blocks { IsTrue (D.device self.old.disk).tells → self.new.blocks ≡ self.old.blocks }
        ensures next { IsIdle self.new }

        // What a refusal leaves, and what the device was asked.
        ensures ok { OnOk result (self.new.halted ≡ false) }
        ensures no_other { IfErr result (λ error. error ≡ JournalError.Fault) }
        ensures halts { IfErr result (λ error. error ≡ JournalError.Fault → self.new.halted ≡ true) }
        ensures failures { CountsFailures result (D.device self.old.disk) (D.device self.new.disk) }
        ensures call { IsRead (D.device self.old.disk) (D.device self.new.disk) }
        ensures time { Elapses (D.device self.old.disk) (D.device self.new.disk) }

        // The blocks are whole, and a crash leaves what the journal admits.
        ensures whole { HasWholeBlocks D.device self.new }
        ensures now { LeavesAdmitted D.device self.new }
        ensures since { LeftAdmitted D.device self.old self.new }
    {
        match self
            .disk
            .read(start_of(home_block(self.room.len() as u32, start)), into)
        {
            Ok(()) => {
                let open = lowest_closed(self.is_last, self.filled);
                lay_over(&self.room, open, start, into);
                Ok(())
            }
            Err(_) => {
                self.halted = true;
                Err(JournalError::Fault)
            }
        }
    }

    /// The device, as the journal leaves it.
    pub fn into_disk(self) -> D
        ensures { result ≡ self.disk }
    {
        let Journal { disk, .. } = self;
        disk
    }
}

impl<D: Faults> Journal<D> {
    ghost use Rattle.disk.specs.Device.{IsUnchanged};

    /// Makes the n-th call of the device from now on, counted from 1, answer `Fault`; 0 cancels an earlier plan.
    /// Nothing else changes.
    pub fn fail_at(&mut self, n: u64)
        ensures view { self.new ≡ record self.old { disk = self.new.disk } }
        ensures device { IsUnchanged (D.device self.old.disk) (D.device self.new.disk) }
        ensures plan { D.plans n self.old.disk self.new.disk }
    {
        self.disk.fail_at(n);
    }

    /// Does the same for the n-th call of that kind.
    pub fn fail_kind(&mut self, kind: DiskCall, n: u64)
        ensures view { self.new ≡ record self.old { disk = self.new.disk } }
        ensures device { IsUnchanged (D.device self.old.disk) (D.device self.new.disk) }
        ensures plan { D.plans_kind kind n self.old.disk self.new.disk }
    {
        self.disk.fail_kind(kind, n);
    }
}
