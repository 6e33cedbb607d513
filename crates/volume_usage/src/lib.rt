//! How many blocks of a volume are used, by the bits of the bitmap and from batch to batch. Also what is counted while a
//! volume is served.
#![tactic(auto)]

mod bitmap;
mod tables;
mod tally;
mod used_marks;

pub use bitmap::{bits_are_used_blocks, used_blocks};
pub use tables::BitmapMarks;
pub use tally::{Tallied, Tally, VolumeFacts};
