//! Checks that the files are those of the changes that were replayed, and no others.

ghost use Rattle.std.specs.Prelude.{◌≡◌, ◌<◌, ◌↔◌, ℕ, List, true, length, IfOk, IsTrue, MatchOption};
ghost use Rattle.model.specs.Files.{HasRoom, IsFileSystem, table};
ghost use Rattle.model.specs.Spool as spool;
ghost use Rattle.model.specs.Spool.{Spool};
ghost use Rattle.model.specs.FileKinds.{is_of_change};
ghost use Rattle.model.specs.SpoolFiles.{numbers_file, overview_file};
ghost use Rattle.spool_index.specs.View.{Indexes};
ghost use Rattle.spool_opening.specs.Ended.{AreAsMany, IsNameOf, IsWholeAt};
ghost use Rattle.spool_opening.specs.Replayed.{IsBounded};

use crate::continued_lines::NUMBER_SIZE;
use fs_blocks::Blocks;
use fs_layout::inodes::free_inode_count;
use spool_admission::find_group;
use spool_index::Index;
use spool_reading::{file_name_at, file_size_at};
use spool_records::{FileKind, kind_of};
use std::alloc::{AllocError, Global};

/// The name of the pack.
const PACK_NAME: &[u8] = b"p";

/// Whether a file of this name belongs to a change.
fn names_change(name: &[u8]) -> bool
    ensures { (content : List ℕ) → is_of_change (record { name = name.now; content = content }) ≡ result }
{
    let Some(first) = name.first() else {
        return false;
    };
    *first == b'g' || (*first == b'a' || *first == b'x')
}

/// The number of octets in the numbers of a group; `None` if it does not exist.
fn numbers_size(index: &Index, group: &[u8]) -> Option<u64>
    requires { IsBounded index.now }
    ensures { (S : Spool) → Indexes S index.now
        → MatchOption result (spool.is_here S group.now ≡ true
        → ⊥) (λ n. (spool.is_here S group.now ≡ true) × (n ≡ length (numbers_file S group.now))) }
{
    let Some(found) = find_group(index, group) else {
        return None;
    };
    let high = found.high();
    Some(NUMBER_SIZE * high)
}

/// The number of octets in the overview of a group; `None` if it does not exist.
fn overview_size(index: &Index, group: &[u8]) -> Option<u64>
    ensures { (S : Spool) → Indexes S index.now
        → MatchOption result (spool.is_here S group.now ≡ true
        → ⊥) (λ n. (spool.is_here S group.now ≡ true) × (n ≡ length (overview_file S group.now))) }
{
    let Some(found) = find_group(index, group) else {
        return None;
    };
    Some(found.overview_size())
}

/// The size of the file with this name, if it is the numbers or the overview of an existing group.
fn size_by_name(index: &Index, name: &[u8]) -> Option<u64>
    requires { IsBounded index.now }
    ensures { (S : Spool) → Indexes S index.now → MatchOption result ((n : ℕ) → IsNameOf S name.now n → ⊥) (λ n. IsNameOf S name.now n) }
{
    match kind_of(name) {
        Some((FileKind::Numbers, group)) => numbers_size(index, group),
        Some((FileKind::Overview, group)) => overview_size(index, group),
        Some((FileKind::Group, _)) => None,
        Some((FileKind::Article, _)) => None,
        Some((FileKind::Expiry, _)) => None,
        None => None,
    }
}

/// Whether the file of an inode, if it has one, belongs to a change, is the pack, or is the numbers or the overview of an
/// existing group. The latter must have as many octets as the articles filed in the group give.
fn is_whole<B: Blocks>(
    alloc: Global,
    blocks: &B,
    inodes: u32,
    index: &Index,
    at: u32,
) -> Result<bool, AllocError>
    requires room { HasRoom inodes (B.blocks blocks.now) }
    requires rule { IsFileSystem inodes (B.blocks blocks.now) }
    requires below { at < inodes }
    requires bounded { IsBounded index.now }
    ensures { IfOk result (λ whole. (S : Spool) → Indexes S index.now
        → (IsTrue whole ↔ IsWholeAt (table inodes (B.blocks blocks.now)) S at)) }
{
    let Some(name) = file_name_at(alloc, blocks, inodes, at)? else {
        return Ok(true);
    };
    let octets = name.as_slice();
    if names_change(octets) {
        return Ok(true);
    }
    if octets == PACK_NAME {
        return Ok(true);
    }
    let Some(size) = size_by_name(index, octets) else {
        return Ok(false);
    };
    Ok(file_size_at(blocks, inodes, at) == size)
}

/// Whether each file belongs to a change, is the pack, or belongs to an existing group and has its size.
pub fn are_whole<B: Blocks>(
    alloc: Global,
    blocks: &B,
    inodes: u32,
    index: &Index,
) -> Result<bool, AllocError>
    requires room { HasRoom inodes (B.blocks blocks.now) }
    requires rule { IsFileSystem inodes (B.blocks blocks.now) }
    requires bounded { IsBounded index.now }
    ensures { IfOk result (λ whole. (S : Spool) → Indexes S index.now
        → (IsTrue whole ↔ ((k : ℕ) → k < inodes → IsWholeAt (table inodes (B.blocks blocks.now)) S k))) }
{
    for at in 0..inodes {
        if !is_whole(alloc, blocks, inodes, index, at)? {
            return Ok(false);
        }
    }
    Ok(true)
}

/// Whether there are as many files as the changes have, with `packed` of them in the pack: one for each change, and two
/// more for each group.
pub fn are_as_many<B: Blocks>(blocks: &B, inodes: u32, packed: u32, index: &Index) -> bool
    requires room { HasRoom inodes (B.blocks blocks.now) }
    requires rule { IsFileSystem inodes (B.blocks blocks.now) }
    requires bounded { IsBounded index.now }
    ensures { (S : Spool) → Indexes S index.now → (IsTrue result ↔ AreAsMany (table inodes (B.blocks blocks.now)) packed S) }
{
    let free = free_inode_count(blocks, inodes) as u64;
    let group_count = index.groups().len() as u64;
    // the pack has an inode itself
    let pack_inodes = u64::from(packed.min(1));
    free + pack_inodes + index.len() + 2 * group_count == inodes as u64 + packed as u64
}
