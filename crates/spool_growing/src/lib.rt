//! Adds one more change to the files of a spool, to their places and to the index. `file_calls` has the calls of the file system
//! that this takes, with what they cost.
#![tactic(auto)]

mod file_calls;
mod growing;
mod index_lines;
mod kept;
mod putting;
mod staging;

pub use file_calls::{BLOCKS_ASKED, Free, Piece, append_all, append_to, create_file, make_file};
pub use growing::grow;
pub use kept::{Kept, NewChange};
pub use putting::PlaceKind;
