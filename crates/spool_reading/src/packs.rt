//! The files in the pack, one after the other (docs/FORMATS.md).

ghost use Rattle.std.specs.Prelude.{◌≡◌, ◌<◌, ◌≤◌, ◌↔◌, ◌==◌, ◌||◌, ℕ, List, drop, length, take, IfErr, IfOk};
ghost use Rattle.std.specs.Prelude.{IsTrue, MatchOption};
ghost use Rattle.byteorder.specs.Endian.{little_bytes};
ghost use Rattle.fs_layout.specs.Table.{IsFileAt};
ghost use Rattle.model.specs.Files.{File, HasRoom, IsFileSystem, files_in, largest_file, table};
ghost use Rattle.model.specs.Layout.{Holds};
ghost use Rattle.model.specs.Packs.{HasNoPack, pack_name};
ghost use Rattle.model.specs.Spool.{Spool};
ghost use Rattle.spool_reading.specs.Sorting.{HasPackFile, IsMemberOf, IsPack, MayBeMember};

use crate::errors::ReadSpoolError;
use crate::inode_files::{file_size_at, read_file};
use crate::sorting::{SERIAL_SIZE, serial_in};
use byteorder::{ByteOrder, LittleEndian};
use fs_blocks::Blocks;
use fs_layout::records::find;
use fs_layout::slots::slot_for;
use std::alloc::{AllocError, Global};

/// The number of octets in the name of a file in the pack: two for its kind, ten digits.
const NAME_SIZE: usize = 12;

/// The number of octets before the content of such a file: the length of its name, the name, the length of the content.
const HEAD_SIZE: usize = 17;

/// The number of octets that are read of such a file: up to the end of its serial.
const FRONT_SIZE: usize = HEAD_SIZE + SERIAL_SIZE;

/// The pack of a volume.
#[derive(Clone, Copy, Debug)]
pub(crate) struct Pack {
    /// its inode
    pub inode: u32,
    /// the number of its octets
    pub size: u64,
}

/// What is read of a file in the pack.
#[derive(Clone, Copy, Debug)]
pub(crate) struct Member {
    /// the number of octets that it takes in the pack
    pub size: u32,
    /// the serial of its change
    pub serial: u64,
}

/// Whether this is the name of the pack.
pub(crate) fn is_pack(name: &[u8]) -> bool
    ensures { IsTrue result ↔ (name.now ≡ pack_name) }
{
    name == b"p".as_slice()
}

/// The pack of a volume, if there is one.
pub(crate) fn find_pack<B: Blocks>(blocks: &B, inodes: u32) -> Option<Pack>
    requires room { HasRoom inodes (B.blocks blocks.now) }
    requires rule { IsFileSystem inodes (B.blocks blocks.now) }
    ensures { MatchOption result (HasNoPack (files_in (table inodes (B.blocks blocks.now))))
        (λ pack. HasPackFile (table inodes (B.blocks blocks.now)) pack.inode pack.size) }
{
    let Some(inode) = find(blocks, inodes, &slot_for(b"p")) else {
        return None;
    };
    let size = file_size_at(blocks, inodes, inode);
    Some(Pack { inode, size })
}

/// Whether the name of a file in the pack may begin with this octet: that of an article or of an expiry does.
fn is_packed_kind(octet: u8) -> bool
    ensures { result ≡ (octet == 97 || octet == 120) }
{
    octet == b'a' || octet == b'x'
}

/// The number of octets that a file's content has, at the start of these octets.
fn content_size_in(octets: &[u8]) -> u32
    requires { 4 ≤ length octets.now }
    ensures { take 4 octets.now ≡ little_bytes 4 result }
{
    let (front, _) = octets.split_at(4);
    LittleEndian::read_u32(front)
}

/// The file in the pack that begins with these octets, where the pack has `left` octets from there on; `None` if no
/// spool has a file in the pack that begins so.
fn member_of(front: &[u8], left: u64) -> Option<Member>
    requires { left ≤ largest_file }
    ensures { (octets : List ℕ) → front.now ≡ take 25 octets → left ≡ length octets → MatchOption result
        (MayBeMember octets → ⊥) (λ member. IsMemberOf octets member.size member.serial) }
{
    if front.len() < FRONT_SIZE {
        return None;
    }
    if usize::from(front[0]) != NAME_SIZE || !is_packed_kind(front[1]) {
        return None;
    }
    let size = HEAD_SIZE as u64 + u64::from(content_size_in(&front[NAME_SIZE + 1..]));
    if size < FRONT_SIZE as u64 || size > left {
        return None;
    }
    let serial = serial_in(&front[HEAD_SIZE..])?;
    Some(Member {
        size: size as u32,
        serial,
    })
}

/// The file in the pack whose octets begin at a place before the pack's end; `None` if no spool has a file in the pack
/// that begins so.
pub(crate) fn member_at<B: Blocks>(
    alloc: Global,
    blocks: &B,
    inodes: u32,
    pack: &Pack,
    from: u64,
) -> Result<Option<Member>, AllocError>
    requires room { HasRoom inodes (B.blocks blocks.now) }
    requires rule { IsFileSystem inodes (B.blocks blocks.now) }
    requires there { HasPackFile (table inodes (B.blocks blocks.now)) pack.now.inode pack.now.size }
    requires within { from < pack.now.size }
    ensures { IfOk result (λ found. (content : List ℕ) → IsFileAt (table inodes (B.blocks blocks.now)) pack.now.inode pack_name content
        → MatchOption found (MayBeMember (drop from content) → ⊥)
        (λ member. IsMemberOf (drop from content) member.size member.serial)) }
{
    let front = read_file(alloc, blocks, inodes, pack.inode, from, FRONT_SIZE as u64)?;
    Ok(member_of(&front, pack.size - from))
}

/// The number of files in the pack. `Damaged` only if the blocks hold no spool, under any host: the pack is empty, or
/// its octets are not those of files of articles and expiries. Of each file only its first octets are read.
pub(crate) fn count_members<B: Blocks>(
    alloc: Global,
    blocks: &B,
    inodes: u32,
    pack: &Pack,
) -> Result<u32, ReadSpoolError>
    requires room { HasRoom inodes (B.blocks blocks.now) }
    requires rule { IsFileSystem inodes (B.blocks blocks.now) }
    requires there { HasPackFile (table inodes (B.blocks blocks.now)) pack.now.inode pack.now.size }
    ensures ok { IfOk result (λ count. (members : List File) × IsPack (table inodes (B.blocks blocks.now)) pack.now.inode members
        × (count ≡ length members)) }
    ensures damaged { IfErr result (λ e. e ≡ ReadSpoolError.Damaged → (host : List ℕ) (S : Spool)
        → Holds host inodes (B.blocks blocks.now) S → ⊥) }
{
    if pack.size == 0 {
        return Err(ReadSpoolError::Damaged);
    }
    let mut count = 0;
    let mut from = 0;
    while from < pack.size {
        let Some(member) = member_at(alloc, blocks, inodes, pack, from)? else {
            return Err(ReadSpoolError::Damaged);
        };
        from += u64::from(member.size);
        count += 1;
    }
    Ok(count)
}
