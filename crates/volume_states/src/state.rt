//! The state of a volume as a value.

ghost use Rattle.std.specs.Prelude.{◌≡◌, ◌-◌, ◌/◌, ◌<◌, ◌≤◌};

use model::{Status, Text};

/// The size of an overview, in octets, up to which its group takes articles: 12,288 less than that of the largest file
/// of formats 2 and 3. Each volume that is served has format 3.
pub const OVERVIEW_ROOM: u32 = 4_294_950_912;

/// The octets of a block.
const BLOCK: u64 = 4096;

/// How much there is of something, and how much of it is used.
#[derive(Clone, Copy, Debug, PartialEq, Eq)]
pub struct Share {
    pub all: u32,
    pub used: u32,
    ghost some: { 0 < all },
    ghost within: { used ≤ all },
}

impl Share {
    /// How much of it is free.
    pub fn free(&self) -> u32
        ensures { result ≡ self.now.all - self.now.used }
    {
        self.all - self.used
    }
}

/// The state of a group.
#[derive(Drop)]
pub struct GroupStatus {
    pub name: Text,
    /// The lowest number that is still in it.
    pub low: u64,
    /// The highest number, which is the number of articles ever filed in it.
    pub high: u64,
    /// The number of articles in it.
    pub count: u64,
    /// Whether clients may post to it.
    pub status: Status,
    /// The size of its overview in octets.
    pub overview: u32,
}

/// The articles that are in none of their groups any more, and what a renewal gives back of them.
#[derive(Clone, Copy, Debug, PartialEq, Eq)]
pub struct Gone {
    pub articles: u64,
    /// Those of which there is more than the husk that a renewal leaves.
    pub texts: u64,
    /// The octets that a renewal gives back of them at least: what each text has more than its husk, less 17.
    pub octets: u64,
}

impl Gone {
    /// The blocks that a renewal gives back of them at least.
    pub fn blocks(&self) -> u64
        ensures { result ≡ self.now.octets / 4096 }
    {
        self.octets / BLOCK
    }
}

/// The state of a volume.
#[derive(Drop)]
pub struct VolumeStatus {
    pub host: Text,
    /// The volume's format, 1 to 3.
    pub format: u32,
    pub blocks: Share,
    pub inodes: Share,
    /// The number of accepted changes.
    pub changes: u64,
    pub gone: Gone,
    /// The groups in rising serial.
    pub groups: Vec<GroupStatus>,
}
