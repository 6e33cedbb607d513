//! The parts of a file system in its blocks: the bitmap, the inodes, the directory, and pointers to data.
#![tactic(auto)]

pub mod bitmap;
pub mod bits;
mod errors;
pub mod inodes;
pub mod records;
pub mod slots;

pub use errors::FsError;
