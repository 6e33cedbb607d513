//! Why a renewal stops.

ghost use Rattle.std.specs.Prelude.{◌≡◌};
ghost use Rattle.volume_store.specs.Room.{lack_for};
ghost use Rattle.volume_renewing.specs.Stopping.{shortage_of, stop_of};
ghost use Rattle.volume_renewing.specs.declared.errors.RenewalError.TheVariants.{Memory};

use disk::Disk;
use journal::JournalError;
use model::Change;
use std::alloc::AllocError;
use thiserror::Error;
use volume_store::{Lack, Store};

/// Why a renewal stopped before its end.
#[derive(Clone, Copy, Debug, Drop, PartialEq, Eq, Error)]
pub enum RenewalError {
    /// The new volume has changes already, or belongs to another host.
    #[error("the new volume isn't an empty one of the same host")]
    NotNew,
    /// The new volume has no room for the change with this serial. What was copied before it is durable.
    #[error("E6 Full: change {0}")]
    Full(u64),
    /// An allocation was refused.
    #[error("E2 Memory")]
    Memory,
    /// The new volume's device failed, or had failed before.
    #[error("{0}")]
    Device(JournalError),
}

impl From<AllocError> for RenewalError {
    ghost from_gives = { λ _ refused. refused ≡ Memory };

    fn from(_error: AllocError) -> RenewalError {
        RenewalError::Memory
    }
}

impl From<JournalError> for RenewalError {
    ghost from_gives = { λ error refused. refused ≡ stop_of error };

    fn from(error: JournalError) -> RenewalError {
        match error {
            JournalError::Memory => RenewalError::Memory,
            JournalError::Fault => RenewalError::Device(JournalError::Fault),
            JournalError::NotAVolume => RenewalError::Device(JournalError::NotAVolume),
            JournalError::Halted => RenewalError::Device(JournalError::Halted),
        }
    }
}

/// What the new volume has too little of for a change.
#[derive(Clone, Copy, Debug, PartialEq, Eq, Error)]
pub enum Shortage {
    #[error("too few blocks are free")]
    Blocks,
    /// A group takes three inodes, an article or an expiry one. An article leaves some to the operator's changes.
    #[error("too few inodes are free")]
    Inodes,
    /// There are blocks and inodes enough, but a file that the change extends is full, or the volume has 4,096 groups.
    #[error("one of its groups takes no more articles")]
    Files,
}

/// What a volume has too little of for a change that found no room in it.
pub fn shortage_for<D: Disk>(store: &Store<D>, change: &Change) -> Shortage
    ensures { result ≡ shortage_of (lack_for store.now.spool change.now) }
{
    match store.lack_for(change) {
        Some(Lack::Blocks) => Shortage::Blocks,
        Some(Lack::Inodes) => Shortage::Inodes,
        None => Shortage::Files,
    }
}
