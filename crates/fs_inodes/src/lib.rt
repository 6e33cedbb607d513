//! The octets of files, by inode: read, replaced, appended and cut off.
#![tactic(auto)]

mod file_reading;
mod file_room;
mod file_writing;
mod growing;
mod pieces;
mod shrinking;

pub use file_reading::{piece, read_entry};
pub use file_room::has_room_for;
pub use file_writing::overwrite;
pub use fs_layout::inodes::size_of;
pub use growing::{extend, extend_zeros};
pub use shrinking::{remove_empty, shrink_to};
