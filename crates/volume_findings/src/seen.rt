//! A file as it is judged, whether it has an inode of its own or stands in the pack.

use spool_records::FileKind;
use std::fmt::{self, Display, Formatter};

/// Where a file is.
#[derive(Clone, Copy)]
pub(crate) enum Home {
    /// It is the file of this inode.
    Inode(u32),
    /// It stands in the pack, under a name of this kind.
    Pack(FileKind),
}

/// A file: its name, the number of its octets, and the first of them.
#[derive(Clone, Copy)]
pub(crate) struct Seen<'a> {
    pub name: &'a [u8],
    pub size: u64,
    pub head: &'a [u8],
    pub home: Home,
}

impl Display for Seen<'_> {
    /// The file by its name.
    fn fmt<W: fmt::Write>(&self, f: &mut Formatter<W>) -> fmt::Result {
        let name = self.name.escape_ascii();
        match self.home {
            Home::Inode(_) => write!(f, "file {name}"),
            Home::Pack(_) => write!(f, "file {name} in the pack"),
        }
    }
}
