//! The logical blocks in memory, what they were before the last change, and the blocks that changed since the last batch.
#![tactic(auto)]

mod batch_room;
mod block_parts;
mod chunks;
mod number_set;
mod pieces;
mod volume;

pub use batch_room::BatchBuf;
pub use chunks::Chunks;
pub use number_set::NumberSet;
pub use volume::Volume;

/// The most blocks that a batch has.
pub const BATCH_BLOCKS: usize = 512;
