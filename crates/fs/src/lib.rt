//! A map of names to octets, in files over numbered blocks: bitmap, inodes, directory, data. Each call borrows the
//! blocks and is given the number of inodes. A caller that knows the inode of a file, as `create` answers it, reads and
//! changes the file by the calls of `by_inode`, without a search for its name.
#![tactic(auto)]

mod directory;
mod octets;
mod whole;

pub use directory::{create, create_absent, names, size, unlink};
pub use fs_check::check;
pub use fs_inodes as by_inode;
pub use fs_layout::FsError;
pub use fs_layout::bitmap::free_block_count;
pub use fs_layout::inodes::free_inode_count;
pub use octets::{append, read_at, truncate, write_at};
pub use whole::{bitmap_block, make_empty};
