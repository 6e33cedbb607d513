//! What is read from the files of a volume before a spool is opened (docs/FORMATS.md). The files are sorted, those of
//! changes by serial, in the pack, too, and the others by name, and the file of each change is read exactly.
#![tactic(auto)]

mod change_contents;
mod errors;
mod inode_files;
mod inodes;
mod laws;
mod packs;
mod pass;
mod sorting;

pub use change_contents::{StoredChange, read_change};
pub use errors::ReadSpoolError;
pub use inode_files::{NamedFile, file_at, file_in, file_name_at, file_size_at, read_file};
pub use inodes::Inodes;
pub use laws::files_are_sorted_by_serial;
pub use pass::sort;
pub use sorting::{Files, SERIAL_SIZE, is_change};
