//! A new volume: its sizes, the octets of its device, its label, and how it is made. docs/FORMATS.md has the layouts.
#![tactic(auto)]

mod calls;
mod formatting;
mod laws;
mod laying;
mod magic;
mod new_superblock;

ghost use Rattle.std.specs.Prelude.{◌≡◌, ◌≤◌, length, vec_len, IfOk, IsTrue};
ghost use Rattle.model.specs.Layout.{label_octets};
ghost use Rattle.model.specs.Names.{is_host};
ghost use Rattle.volume_new.specs.Sizes.{are_sizes, device_size};

pub use formatting::format;
pub use fs_layout::inodes::FEWEST_INODES;
use fs_layout::inodes::{FEWEST_DATA, MOST_INODES, first_data};
pub use journal_layout::layout::MOST_BLOCKS;
use journal_layout::layout::{FEWEST_BLOCKS, SEGMENTS, home_block, start_of};
pub use laws::an_image_stands;
pub use new_superblock::superblock;
use std::alloc::{AllocError, Global};

/// The number of octets of a label.
const LABEL: usize = 128;

/// The format in which a file has at most 4,235,264 octets.
pub const FORMAT_1: u32 = 1;

/// The format in which a file has at most 4,294,963,200 octets.
pub const FORMAT_2: u32 = 2;

/// The format in which files may stand in a pack, too.
pub const FORMAT_3: u32 = 3;

/// The most blocks of a small volume. The programs that know format 1 alone take no larger one, and a device in memory
/// has room for none.
pub const SMALL_BLOCKS: u64 = 65_536;

/// The most inodes of a small volume.
pub const SMALL_INODES: u64 = 32_768;

/// The plan of a new volume. Its words follow their grammars and its numbers are within their ranges.
#[derive(Drop)]
pub struct VolumePlan<'a> {
    pub host: &'a [u8],
    pub blocks: u64,
    pub inodes: u64,
    /// 1 to 3.
    pub format: u32,
    ghost named: { IsTrue (is_host host.now) },
    ghost short: { length host.now ≤ 64 },
    ghost sized: { IsTrue (are_sizes blocks inodes) },
    ghost known: { (1 ≤ format) × (format ≤ 3) },
}

/// Whether a volume may have this many blocks and inodes.
pub fn are_sizes(blocks: u64, inodes: u64) -> bool
    ensures { result ≡ are_sizes blocks inodes }
{
    if blocks < FEWEST_BLOCKS
        || MOST_BLOCKS < blocks
        || inodes < FEWEST_INODES
        || MOST_INODES < inodes
    {
        return false;
    }
    inodes % 64 == 0 && u64::from(first_data(blocks as u32, inodes as u32)) + FEWEST_DATA <= blocks
}

/// The number of octets of the device for a volume with this many blocks.
pub fn device_octets(blocks: u64) -> u64
    requires { blocks ≤ 4194304 }
    ensures { result ≡ device_size blocks }
{
    start_of(home_block(SEGMENTS, blocks))
}

/// The label of a volume: inodes, the length of the host's name, the name, zeros.
pub fn label(alloc: Global, host: &[u8], inodes: u32) -> Result<Vec<u8>, AllocError>
    requires { length host.now ≤ 64 }
    ensures octets { IfOk result (λ label. label.items ≡ label_octets inodes host.now) }
    ensures whole { IfOk result (λ label. vec_len label ≡ 128) }
{
    let mut label = Vec::with_capacity(alloc, LABEL)?;
    label.extend_from_slice(&inodes.to_le_bytes())?;
    label.push(host.len() as u8)?;
    label.extend_from_slice(host)?;
    label.resize(LABEL, 0)?;
    Ok(label)
}
