//! Whether an open file is still as its device left it.

ghost use Rattle.std.specs.Prelude.{◌↔◌, ◌≤◌, IsTrue};
ghost use Rattle.disk_file.specs.Standing.{IsAsLeft};

use std::fs::Metadata;
use std::os::unix::fs::MetadataExt;

/// When a file was last written: seconds since 1970, and nanoseconds.
#[derive(Clone, Copy, Drop, PartialEq, Eq)]
pub(crate) struct Stamp {
    seconds: i64,
    nanos: i64,
}

/// What the system says of an open file.
#[derive(Clone, Copy, Drop)]
pub(crate) struct Seen {
    /// How many names it has.
    links: u64,
    octets: u64,
    written: Stamp,
}

impl Seen {
    /// What this says of a file.
    pub(crate) fn of(metadata: &Metadata) -> Seen {
        Seen {
            links: metadata.nlink(),
            octets: metadata.len(),
            written: Stamp {
                seconds: metadata.mtime(),
                nanos: metadata.mtime_nsec(),
            },
        }
    }

    pub(crate) fn written(&self) -> Stamp {
        self.written
    }

    /// Whether the file has a name and this many octets at least, and wasn't written since this moment, if one is given.
    pub(crate) fn is_intact(&self, octets: u64, rests: Option<Stamp>) -> bool
        ensures { IsTrue result ↔ ((1 ≤ self.now.links) × (octets ≤ self.now.octets) × IsAsLeft rests self.now.written) }
    {
        let is_as_left = match rests {
            Some(stamp) => stamp == self.written,
            None => true,
        };
        is_as_left && self.links >= 1 && self.octets >= octets
    }
}
