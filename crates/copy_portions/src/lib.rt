//! A copy of a volume's blocks that is made while they change. `Left` says which blocks the copy lacks, a `Portion` carries blocks to
//! it. `specs/Copying.antt` says what a copy is on its way, and that one that lacks nothing is alike.
#![tactic(auto)]

mod laws;
mod left;
mod portion;

pub use laws::each_copy_ends_alike;
pub use left::Left;
pub use portion::{PORTION_BLOCKS, Portion};
