//! Names, and the inodes that they name.

ghost use Rattle.std.specs.Prelude.{◌≡◌, ◌≢◌, ◌+◌, ◌<◌, ℕ, List, length, map, slice_index_or, None, IfErr, OnOk, IfOk};
ghost use Rattle.model.specs.Files.{HasRoom, IsFileSystem, table};
ghost use Rattle.fs.specs.Changes.{SameMarks};
ghost use Rattle.fs.specs.Touches.{Touches, touched_by_cut};
ghost use Rattle.fs.specs.Calls.{IsName, IsThere, IsFileAt, Creates, HasNoFreeInode, Unlinks, file_names};

use fs_blocks::Blocks;
use fs_inodes::{remove_empty, shrink_to};
use fs_layout::FsError;
use fs_layout::inodes::{FILE_KIND, size_of};
use fs_layout::records::{RECORD_SIZE, find, find_from, get_slot, put_inode, put_slot};
use fs_layout::slots::{name_of, slot_for};
use std::alloc::{AllocError, Global};

/// The size of a file in octets. `NotFound` exactly if no file has the name.
pub fn size<B: Blocks>(blocks: &B, inodes: u32, name: &[u8]) -> Result<u64, FsError>
    requires room { HasRoom inodes (B.blocks blocks.now) }
    requires name { IsName name.now }
    requires rule { IsFileSystem inodes (B.blocks blocks.now) }
    ensures found { IfOk result (λ size. (k : ℕ) × (content : List ℕ)
        × IsFileAt (table inodes (B.blocks blocks.now)) k name.now content × (size ≡ length content)) }
    ensures refused { IfErr result (λ e. (e ≡ FsError.NotFound) × (¬ (IsThere (table inodes (B.blocks blocks.now)) name.now))) }
{
    let Some(at) = find(blocks, inodes, &slot_for(name)) else {
        return Err(FsError::NotFound);
    };
    Ok(size_of(blocks, inodes, at))
}

/// Makes an empty file in the lowest free inode, and answers that inode. `Exists` exactly if a file has the name, else
/// `Full` exactly if no inode is free; both change nothing. After `Memory` the caller must drop the stage.
pub fn create<B: Blocks>(blocks: &mut B, inodes: u32, name: &[u8]) -> Result<u32, FsError>
    // A file system, and a name for a file.
    requires room { HasRoom inodes (B.blocks blocks.old) }
    requires name { IsName name.now }
    requires rule { IsFileSystem inodes (B.blocks blocks.old) }

    // The new file, which takes no block, and how many blocks change at most.
    ensures created { IfOk result (λ at. Creates inodes name.now at (B.blocks blocks.old) (B.blocks blocks.new)) }
    ensures touches { OnOk result (Touches 2 (B.blocks blocks.old) (B.blocks blocks.new)) }
    ensures marks { OnOk result (SameMarks (B.blocks blocks.old) (B.blocks blocks.new)) }

    // The cause of each refusal, and what it leaves.
    ensures exists { IfErr result (λ e. e ≡ FsError.Exists
        → IsThere (table inodes (B.blocks blocks.old)) name.now × (blocks.new ≡ blocks.old)) }
    ensures full { IfErr result (λ e. e ≡ FsError.Full
        → (¬ (IsThere (table inodes (B.blocks blocks.old)) name.now))
        × HasNoFreeInode inodes (B.blocks blocks.old) × (blocks.new ≡ blocks.old)) }
    ensures no_other { IfErr result (λ e. (e ≢ FsError.Damaged) × (e ≢ FsError.NotFound)) }

    // Only the stage changes.
    ensures kept { B.applied blocks.new ≡ B.applied blocks.old }
{
    if let Some(_) = find(blocks, inodes, &slot_for(name)) {
        return Err(FsError::Exists);
    }
    create_absent(blocks, inodes, name, 0)
}

/// Makes an empty file of a new name in the lowest free inode, and answers that inode. No file may have the name, and
/// no inode below `from` may be free: the search for a free inode starts at `from`, and the name is not searched for.
/// `Full` exactly if no inode is free; it changes nothing. After `Memory` the caller must drop the stage.
pub fn create_absent<B: Blocks>(
    blocks: &mut B,
    inodes: u32,
    name: &[u8],
    from: u32,
) -> Result<u32, FsError>
    // A file system, a new name, and where the search may start.
    requires room { HasRoom inodes (B.blocks blocks.old) }
    requires name { IsName name.now }
    requires rule { IsFileSystem inodes (B.blocks blocks.old) }
    requires absent { ¬ (IsThere (table inodes (B.blocks blocks.old)) name.now) }
    requires used { (k : ℕ) → k < from → slice_index_or (table inodes (B.blocks blocks.old)) k None ≢ None }

    // The new file, which takes no block, and how many blocks change at most.
    ensures created { IfOk result (λ at. Creates inodes name.now at (B.blocks blocks.old) (B.blocks blocks.new)) }
    ensures touches { OnOk result (Touches 2 (B.blocks blocks.old) (B.blocks blocks.new)) }
    ensures marks { OnOk result (SameMarks (B.blocks blocks.old) (B.blocks blocks.new)) }

    // The cause of a refusal, and what it leaves.
    ensures full { IfErr result (λ e. e ≡ FsError.Full → HasNoFreeInode inodes (B.blocks blocks.old) × (blocks.new ≡ blocks.old)) }
    ensures no_other { IfErr result (λ e. (e ≢ FsError.Damaged) × (e ≢ FsError.NotFound) × (e ≢ FsError.Exists)) }

    // Only the stage changes.
    ensures kept { B.applied blocks.new ≡ B.applied blocks.old }
{
    let Some(at) = find_from(blocks, inodes, from, &[0; RECORD_SIZE]) else {
        return Err(FsError::Full);
    };
    let slot = slot_for(name);
    let mut inode = [0; RECORD_SIZE];
    inode[0] = FILE_KIND;
    put_slot(blocks, inodes, at, &slot)?;
    put_inode(blocks, at, &inode)?;
    Ok(at)
}

/// Removes a file and frees its blocks. `NotFound` exactly if no file has the name; it changes nothing. After `Memory`
/// the caller must drop the stage.
pub fn unlink<B: Blocks>(blocks: &mut B, inodes: u32, name: &[u8]) -> Result<(), FsError>
    // A file system, and a name for a file.
    requires room { HasRoom inodes (B.blocks blocks.old) }
    requires name { IsName name.now }
    requires rule { IsFileSystem inodes (B.blocks blocks.old) }

    // The files without this one, and how many blocks change at most.
    ensures unlinked { OnOk result (Unlinks inodes name.now (B.blocks blocks.old) (B.blocks blocks.new)) }
    ensures touches { OnOk result ((k : ℕ) (content : List ℕ) → IsFileAt (table inodes (B.blocks blocks.old)) k name.now content
        → Touches (1 + touched_by_cut (length content) 0) (B.blocks blocks.old) (B.blocks blocks.new)) }

    // The cause of a refusal, and what it leaves.
    ensures not_found { IfErr result (λ e. e ≡ FsError.NotFound
        → (¬ (IsThere (table inodes (B.blocks blocks.old)) name.now)) × (blocks.new ≡ blocks.old)) }
    ensures no_other { IfErr result (λ e. (e ≢ FsError.Damaged) × (e ≢ FsError.Full) × (e ≢ FsError.Exists)) }

    // Only the stage changes.
    ensures kept { B.applied blocks.new ≡ B.applied blocks.old }
{
    let Some(at) = find(blocks, inodes, &slot_for(name)) else {
        return Err(FsError::NotFound);
    };
    shrink_to(blocks, inodes, at, 0)?;
    remove_empty(blocks, inodes, at)?;
    Ok(())
}

/// The names of all files, by rising inode.
pub fn names<B: Blocks>(alloc: Global, blocks: &B, inodes: u32) -> Result<Vec<Vec<u8>>, AllocError>
    requires room { HasRoom inodes (B.blocks blocks.now) }
    requires rule { IsFileSystem inodes (B.blocks blocks.now) }
    ensures { IfOk result (λ names. map (λ name. name.items) names.items ≡ file_names (table inodes (B.blocks blocks.now))) }
{
    let mut names = Vec::new(alloc);
    let mut slot = [0; RECORD_SIZE];
    for at in 0..inodes {
        get_slot(blocks, inodes, at, &mut slot);
        if slot[0] > 0 {
            names.push(name_of(alloc, &slot)?)?;
        }
    }
    Ok(names)
}
