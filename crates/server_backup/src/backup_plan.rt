//! What a backup has in common with its volume.

ghost use Rattle.std.specs.Prelude.{◌≡◌, ◌≤◌, length, IfOk};

use copy_writing::CopyPlan;
use disk::Disk;
use journal::Journal;
use std::alloc::{AllocError, Global};

/// The label, the blocks and the format of a volume.
#[derive(Drop)]
pub struct BackupPlan {
    label: Vec<u8>,
    blocks: u64,
    format: u32,
    ghost labelled: { length label.items ≡ 128 },
    ghost low: { 1024 ≤ blocks },
    ghost high: { blocks ≤ 4194304 },
    ghost known: { (1 ≤ format) × (format ≤ 3) },
}

impl BackupPlan {
    /// Those of an opened volume. Refused only for want of memory.
    pub fn of<D: Disk>(alloc: Global, journal: &Journal<D>) -> Result<BackupPlan, AllocError>
        ensures { IfOk result (λ plan. (plan.label.items ≡ journal.now.label) × (plan.blocks ≡ journal.now.size)
            × (plan.format ≡ journal.now.format)) }
    {
        Ok(BackupPlan {
            label: Vec::from_slice(alloc, journal.label())?,
            blocks: journal.blocks(),
            format: journal.format_number(),
        })
    }

    /// The number of blocks, 1,024 to 4,194,304.
    pub(crate) fn blocks(&self) -> u64
        ensures blocks { result ≡ self.now.blocks }
        ensures low { 1024 ≤ result }
        ensures high { result ≤ 4194304 }
    {
        self.blocks
    }

    /// The plan of a copy.
    pub(crate) fn copy(&self) -> CopyPlan<'_>
        ensures label { result.label.now ≡ self.now.label.items }
        ensures blocks { result.blocks ≡ self.now.blocks }
        ensures format { result.format ≡ self.now.format }
    {
        CopyPlan {
            label: self.label.as_slice(),
            blocks: self.blocks,
            format: self.format,
        }
    }
}
