//! The files in inodes.

ghost use Rattle.std.specs.Prelude.{◌≡◌, ◌<◌, ◌≤◌, Option, Some, None, drop, length, option_map, slice_index_or, take, IfOk};
ghost use Rattle.model.specs.Files.{File, HasRoom, IsFileSystem, table, largest_file};
ghost use Rattle.model.specs.Indexed.{IsAt};
ghost use Rattle.model.specs.Packs.{member_octets};
ghost use Rattle.spool_index.specs.Viewed.{place_of};

use fs_blocks::Blocks;
use fs_inodes::read_entry;
use fs_layout::inodes::{MOST_OCTETS, size_of};
use fs_layout::records::{RECORD_SIZE, get_slot};
use fs_layout::slots::name_of;
use spool_index::ChangePlace;
use std::alloc::{AllocError, Global};

/// The number of octets of a length in the pack.
const LENGTH_SIZE: usize = 4;

/// The name of the file of an inode, if it has one. Refused only for want of memory.
pub fn file_name_at<B: Blocks>(
    alloc: Global,
    blocks: &B,
    inodes: u32,
    at: u32,
) -> Result<Option<Vec<u8>>, AllocError>
    requires room { HasRoom inodes (B.blocks blocks.now) }
    requires rule { IsFileSystem inodes (B.blocks blocks.now) }
    requires below { at < inodes }
    ensures { IfOk result (λ name. option_map (λ n. n.items) name ≡ option_map (λ f. f.name)
        (slice_index_or (table inodes (B.blocks blocks.now)) at None)) }
{
    let mut slot = [0; RECORD_SIZE];
    get_slot(blocks, inodes, at, &mut slot);
    if slot[0] == 0 {
        return Ok(None);
    }
    let name = name_of(alloc, &slot)?;
    Ok(Some(name))
}

/// At most `count` octets of the file of an inode that has one, from a place on. Refused only for want of memory.
pub fn read_file<B: Blocks>(
    alloc: Global,
    blocks: &B,
    inodes: u32,
    at: u32,
    place: u64,
    count: u64,
) -> Result<Vec<u8>, AllocError>
    requires room { HasRoom inodes (B.blocks blocks.now) }
    requires rule { IsFileSystem inodes (B.blocks blocks.now) }
    requires there { (f : File) × (slice_index_or (table inodes (B.blocks blocks.now)) at None ≡ Some f) }
    ensures { IfOk result (λ octets. (f : File) → slice_index_or (table inodes (B.blocks blocks.now)) at None ≡ Some f
        → (octets.items ≡ take count (drop place f.content)) × (length f.content ≤ largest_file)) }
{
    let octets = read_entry(alloc, blocks, inodes, at, place, count)?;
    Ok(octets)
}

/// The name and the content of a file.
#[derive(Drop)]
pub struct NamedFile {
    pub name: Vec<u8>,
    pub content: Vec<u8>,
}

/// The whole file of an inode that has one. Refused only for want of memory.
pub fn file_at<B: Blocks>(
    alloc: Global,
    blocks: &B,
    inodes: u32,
    at: u32,
) -> Result<NamedFile, AllocError>
    requires room { HasRoom inodes (B.blocks blocks.now) }
    requires rule { IsFileSystem inodes (B.blocks blocks.now) }
    requires below { at < inodes }
    requires there { (f : File) × (slice_index_or (table inodes (B.blocks blocks.now)) at None ≡ Some f) }
    ensures is { IfOk result (λ f. slice_index_or (table inodes (B.blocks blocks.now)) at None
        ≡ Some (record { name = f.name.items; content = f.content.items })) }
    ensures short { IfOk result (λ f. length f.content.items ≤ largest_file) }
{
    let Some(name) = file_name_at(alloc, blocks, inodes, at)? else {
        unreachable!()
    };
    let content = read_file(alloc, blocks, inodes, at, 0, MOST_OCTETS)?;
    Ok(NamedFile { name, content })
}

/// The whole file at a place, where there is one.
pub fn file_in<B: Blocks>(
    alloc: Global,
    blocks: &B,
    inodes: u32,
    place: ChangePlace,
) -> Result<NamedFile, AllocError>
    requires room { HasRoom inodes (B.blocks blocks.now) }
    requires rule { IsFileSystem inodes (B.blocks blocks.now) }
    requires there { (f : File) × IsAt (table inodes (B.blocks blocks.now)) (place_of place) f }
    ensures is { IfOk result (λ file. (f : File) → IsAt (table inodes (B.blocks blocks.now)) (place_of place) f
        → f ≡ record { name = file.name.items; content = file.content.items }) }
    ensures short { IfOk result (λ file. length file.content.items ≤ largest_file) }
{
    match place {
        ChangePlace::Alone(inode) => file_at(alloc, blocks, inodes, inode),
        ChangePlace::Packed { inode, from, size } => {
            let octets = read_file(
                alloc,
                blocks,
                inodes,
                inode,
                u64::from(from),
                u64::from(size),
            )?;
            member_in(alloc, &octets)
        }
    }
}

/// The file whose octets in the pack these are.
fn member_in(alloc: Global, octets: &[u8]) -> Result<NamedFile, AllocError>
    requires there { (f : File) × (octets.now ≡ member_octets f) }
    ensures is { IfOk result (λ file. (f : File) → octets.now ≡ member_octets f
        → f ≡ record { name = file.name.items; content = file.content.items }) }
    ensures short { IfOk result (λ file. length file.content.items ≤ length octets.now) }
{
    let (front, rest) = octets.split_at(1);
    let (name, rest) = rest.split_at(usize::from(front[0]));
    let (_, content) = rest.split_at(LENGTH_SIZE);
    Ok(NamedFile {
        name: name.to_vec(alloc)?,
        content: content.to_vec(alloc)?,
    })
}

/// The number of octets in the file of an inode. If the inode has no file, the number means nothing.
pub fn file_size_at<B: Blocks>(blocks: &B, inodes: u32, at: u32) -> u64
    requires room { HasRoom inodes (B.blocks blocks.now) }
    requires rule { IsFileSystem inodes (B.blocks blocks.now) }
    requires below { at < inodes }
    ensures { (f : File) → slice_index_or (table inodes (B.blocks blocks.now)) at None ≡ Some f → result ≡ length f.content }
{
    size_of(blocks, inodes, at)
}
