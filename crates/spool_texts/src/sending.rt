//! The octets of a file, sent as a block of lines.

ghost use Rattle.std.specs.Prelude.{◌≡◌, ◌++◌, ◌<◌, take, drop, OnOk};
ghost use Rattle.model.specs.Files.{HasRoom, IsFile, IsFileSystem, content_of, entry};
ghost use Rattle.model.specs.Stream.{stuffed};

use fs_blocks::Blocks;
use fs_inodes::piece;
use fs_layout::inodes::size_of;
use session_replies::{Stuffing, push_end};
use std::alloc::AllocError;

/// The number of octets of the line that ends a block of lines (RFC 3977, section 3.1.1).
pub(crate) const END_SIZE: u64 = 3;

/// Appends the octets of the file of an inode from a place up to its size, at most `count`, dot-stuffed and with the
/// line that ends them (RFC 3977, section 3.1.1). Each octet is copied once, to a reply that grows once for all of
/// them, and again only for added dots. Refused only for want of memory; then the reply may hold any octets, and the
/// caller discards it.
pub fn push_stuffed<B: Blocks>(
    blocks: &B,
    inodes: u32,
    at: u32,
    place: u64,
    count: u64,
    reply: &mut Vec<u8>,
) -> Result<(), AllocError>
    requires room { HasRoom inodes (B.blocks blocks.now) }
    requires rule { IsFileSystem inodes (B.blocks blocks.now) }
    requires below { at < inodes }
    requires file { IsFile (entry inodes (B.blocks blocks.now) at) }
    ensures { OnOk result (reply.new.items ≡ reply.old.items ++ stuffed
        (take count (drop place (content_of (B.blocks blocks.now) (entry inodes (B.blocks blocks.now) at))))) }
{
    let end = size_of(blocks, inodes, at).min(place.saturating_add(count));
    reply.reserve(end.saturating_sub(place).saturating_add(END_SIZE) as usize)?;
    let mut from = place;
    let mut stuffing = Stuffing::new();
    while from < end {
        let octets = piece(blocks, inodes, at, from, end - from);
        stuffing.push(reply, octets)?;
        from += octets.len() as u64;
    }
    push_end(reply)
}
