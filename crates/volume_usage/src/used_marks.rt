//! How many blocks a volume's bitmap marks as used, followed from batch to batch.

ghost use Rattle.std.specs.Prelude.{◌≡◌, ◌==◌, ◌<◌, ◌≤◌, ℕ, IfErr, IfOk, IfSome, IsTrue, OnErr, OnOk, length, option_map, position};
ghost use Rattle.std.specs.Prelude.{slice_index_or};
ghost use Rattle.std.specs.Prelude.{true};
ghost use Rattle.disk.specs.Device.{Elapses};
ghost use Rattle.journal.specs.Inside.{LeftAs};
ghost use Rattle.journal.specs.Journal.{CountsFailures, IsReady};
ghost use Rattle.volume_usage.specs.Marks.{AreMarks, IsWhole, image_of, marked_after};
ghost use Rattle.volume_usage.specs.Usage.{marked, sum_of};

use crate::bitmap::used_blocks;
use crate::tables::{BitmapMarks, MOST_TABLES};
use disk::Disk;
use fs_blocks::BLOCK_SIZE;
use fs_layout::inodes::bitmap_blocks;
use journal::{Journal, JournalError};
use journal_volume::{BATCH_BLOCKS, BatchBuf};

impl BitmapMarks {
    /// The marks of a bitmap without blocks.
    pub fn none() -> BitmapMarks
        ensures { result.tables ≡ 0 }
    {
        BitmapMarks {
            tables: 0,
            bits: [0; MOST_TABLES],
        }
    }

    /// Reads the marks of a volume, with a read of its device for each block of the bitmap. The only refusal is `Fault`,
    /// exactly if the device failed; it halts the journal for good. A crash meanwhile leaves what it would have left before,
    /// or the same volume.
    pub fn read<D: Disk>(journal: &mut Journal<D>) -> Result<BitmapMarks, JournalError>
        // No batch is in flight, and the journal isn't halted.
        requires { IsReady journal.old }

        // The marks of the bitmap, and what stays of the volume.
        ensures ready { OnOk result (IsReady journal.new) }
        ensures label { journal.new.label ≡ journal.old.label }
        ensures format { journal.new.format ≡ journal.old.format }
        ensures size { journal.new.size ≡ journal.old.size }
        ensures tells { (D.device journal.new.disk).tells ≡ (D.device journal.old.disk).tells }
        ensures blocks { IsTrue (D.device journal.old.disk).tells → journal.new.blocks ≡ journal.old.blocks }
        ensures marks { IsTrue (D.device journal.old.disk).tells → IfOk result (λ marks. AreMarks marks journal.old.blocks) }

        // What a refusal leaves, and what it shows of the device.
        ensures fault { IfErr result (λ error. error ≡ JournalError.Fault) }
        ensures halts { OnErr result (journal.new.halted ≡ true) }
        ensures failures { CountsFailures result (D.device journal.old.disk) (D.device journal.new.disk) }

        // The time that has passed, and what a crash in it has left.
        ensures time { Elapses (D.device journal.old.disk) (D.device journal.new.disk) }
        ensures since { LeftAs (D.device journal.old.disk) (D.device journal.new.disk) journal.old.format journal.old.label
            journal.old.blocks }
    {
        // for the proof: how many blocks there are
        let _ready = journal.is_idle();
        let tables = bitmap_blocks(journal.blocks() as u32) as usize;
        let mut bits = [0; MOST_TABLES];
        for table in 0..tables {
            bits[table] = read_marks(journal, table as u64)?;
        }
        Ok(BitmapMarks { tables, bits })
    }

    /// The set bits of a block of the bitmap.
    fn of_block(&self, table: usize) -> u32
        requires { table < self.now.tables }
        ensures { result ≡ slice_index_or self.now.bits table 0 }
    {
        self.bits[table]
    }

    /// The number of used blocks of the volume: the set bits of all blocks of the bitmap.
    pub fn all(self) -> u64
        ensures { result ≡ sum_of (λ t. slice_index_or self.bits t 0) self.tables }
    {
        let mut all = 0;
        for table in 0..self.tables {
            all += u64::from(self.of_block(table));
        }
        all
    }

    /// The marks after a batch: for each block of the bitmap the set bits of its image in the batch, or those before it
    /// if the batch does not have that block.
    pub fn after(self, batch: &BatchBuf) -> BitmapMarks
        ensures tables { result.tables ≡ self.tables }
        ensures bits { IsWhole batch.now → (t : ℕ) → t < self.tables
            → slice_index_or result.bits t 0 ≡ marked_after (slice_index_or self.bits t 0) (image_of batch.now t) }
    {
        let mut bits = self.bits;
        for table in 0..self.tables {
            bits[table] = marks_after(self.of_block(table), batch, table as u32);
        }
        BitmapMarks {
            tables: self.tables,
            bits,
        }
    }
}

/// The set bits of a block after a batch, from those before it.
fn marks_after(before: u32, batch: &BatchBuf, block: u32) -> u32
    ensures { IsWhole batch.now → result ≡ marked_after before (image_of batch.now block) }
{
    match image(batch, block) {
        Some(image) => used_blocks(image),
        None => before,
    }
}

/// The image of a block; `None` if the batch has no such block.
fn image(batch: &BatchBuf, block: u32) -> Option<&[u8]>
    ensures known { IsWhole batch.now → option_map (λ image. image.now) result ≡ image_of batch.now block }
    ensures size { IfSome result (λ image. length image.now ≡ 4096) }
{
    let images = batch.images();
    let place = place_of(batch.numbers(), block)?;
    if place >= BATCH_BLOCKS || images.len() < BLOCK_SIZE * place + BLOCK_SIZE {
        return None;
    }
    let start = BLOCK_SIZE * place;
    Some(&images[start..start + BLOCK_SIZE])
}

/// The first place of a number, or `None` if it does not occur.
fn place_of(numbers: &[u32], number: u32) -> Option<usize>
    ensures first { result ≡ position (λ n. n == number) numbers.now }
    ensures within { IfSome result (λ place. place < length numbers.now) }
{
    numbers.iter().position(|n| *n == number)
}

/// The set bits of a logical block, by one read of the device.
fn read_marks<D: Disk>(journal: &mut Journal<D>, block: u64) -> Result<u32, JournalError>
    // A ready journal, which has this block.
    requires ready { IsReady journal.old }
    requires below { block < journal.old.size }

    // How many bits are set, and what stays of the volume.
    ensures ready { OnOk result (IsReady journal.new) }
    ensures value { IsTrue (D.device journal.old.disk).tells → IfOk result (λ bits. bits ≡ marked journal.old.blocks block) }
    ensures same { IsTrue (D.device journal.old.disk).tells → journal.new.blocks ≡ journal.old.blocks }
    ensures label { journal.new.label ≡ journal.old.label }
    ensures format { journal.new.format ≡ journal.old.format }
    ensures size { journal.new.size ≡ journal.old.size }
    ensures tells { (D.device journal.new.disk).tells ≡ (D.device journal.old.disk).tells }

    // What a refusal leaves, and what it shows of the device.
    ensures fault { IfErr result (λ error. error ≡ JournalError.Fault) }
    ensures halts { OnErr result (journal.new.halted ≡ true) }
    ensures failures { CountsFailures result (D.device journal.old.disk) (D.device journal.new.disk) }

    // The time that has passed, and what a crash in it has left.
    ensures time { Elapses (D.device journal.old.disk) (D.device journal.new.disk) }
    ensures since { LeftAs (D.device journal.old.disk) (D.device journal.new.disk) journal.old.format journal.old.label
        journal.old.blocks }
{
    let mut octets = [0; BLOCK_SIZE];
    journal.load(block, &mut octets)?;
    Ok(used_blocks(&octets))
}
