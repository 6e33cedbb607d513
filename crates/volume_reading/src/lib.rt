//! A volume as it is described to a person: its superblock, its open segments, its logical blocks and its inodes, read
//! straight from the device, without the journal and the file system. A look ends with a text about the first thing
//! that is wrong (docs/FORMATS.md). Nothing depends on what is read or said here: the journal and the kernel refuse an
//! opening, by their contracts, and no function here promises anything.
#![tactic(auto)]

/// Ends a look with a text that says what is wrong.
#[macro_export]
macro_rules! wrong {
    ($alloc:expr; $($text:tt)+) => {
        return Err($crate::ReadStop::of(format!(in $alloc; $($text)+)))
    };
}

/// Ends a look with a text if a condition doesn't hold.
#[macro_export]
macro_rules! wrong_unless {
    ($alloc:expr; $holds:expr, $($text:tt)+) => {
        if !$holds {
            $crate::wrong!($alloc; $($text)+);
        }
    };
}

mod device;
mod grouped;
mod open_segments;
mod reads;
mod superblock_look;

pub use device::{Block, ReadStop};
pub use grouped::Grouped;
pub use reads::{DirectoryEntry, Pointers, ReadVolume, Record};
pub use superblock_look::ReadSizes;
