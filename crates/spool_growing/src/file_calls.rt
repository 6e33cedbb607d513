//! The calls on files that a change of the spool makes, by inode. Each is one call on the list of files, in any order
//! of inodes.

ghost use Rattle.std.specs.Prelude.{◌≡◌, ◌+◌, ◌*◌, ◌/◌, ◌<◌, ◌≤◌, ℕ, List, length, IfOk, OnOk};
ghost use Rattle.model.specs.Files.{HasRoom, IsFileSystem, files_in, free_blocks, table, largest_file};
ghost use Rattle.fs.specs.Calls.{IsFileAt, IsName, IsThere};
ghost use Rattle.fs.specs.Touches.{Touches, touched_by_growth};
ghost use Rattle.spool_growing.specs.Calls.{AppendsAt, AppendsFirst, CreatesAt, IsKnown, MakesAt, MayAllGrow, MayGrow, blocks_for_more};
ghost use Rattle.spool_growing.specs.Calls.{touched_by_pieces};

use fs::by_inode::extend;
use fs::{FsError, create_absent};
use fs_blocks::Blocks;
use std::alloc::AllocError;

/// A change is refused as `Full` (E6) if fewer blocks than this are free.
pub const BLOCKS_ASKED: u32 = 256;

/// What is known of the free blocks and inodes, and of the pack.
#[derive(Clone, Copy)]
pub struct Free {
    /// No inode below this one is free.
    pub inode: u32,
    /// No block below this one is free.
    pub block: u32,
    /// The number of free inodes.
    pub inodes: u32,
    /// The number of free blocks.
    pub blocks: u32,
    /// The inode of the pack, once it is known. If it is not, there may be a pack nevertheless.
    pub pack: Option<u32>,
}

/// Makes an empty file of a new name in the lowest free inode, and answers that inode. An inode must be free. Refused
/// only for want of memory; then the caller must drop the stage.
pub fn create_file<B: Blocks>(
    blocks: &mut B,
    inodes: u32,
    free: &mut Free,
    name: &[u8],
) -> Result<u32, AllocError>
    requires room { HasRoom inodes (B.blocks blocks.old) }
    requires rule { IsFileSystem inodes (B.blocks blocks.old) }
    requires name { IsName name.now }
    requires new { ¬ (IsThere (table inodes (B.blocks blocks.old)) name.now) }
    requires few { length (files_in (table inodes (B.blocks blocks.old))) < inodes }
    requires known { IsKnown inodes free.old (B.blocks blocks.old) }
    ensures created { IfOk result (λ at. CreatesAt inodes at name.now (B.blocks blocks.old) (B.blocks blocks.new)) }
    ensures known { OnOk result (IsKnown inodes free.new (B.blocks blocks.new)) }
    ensures touches { OnOk result (Touches 2 (B.blocks blocks.old) (B.blocks blocks.new)) }
    ensures kept { B.applied blocks.new ≡ B.applied blocks.old }
{
    match create_absent(blocks, inodes, name, free.inode) {
        Ok(at) => {
            free.inode = at;
            free.inodes -= 1;
            Ok(at)
        }
        Err(FsError::Full) => unreachable!(),
        Err(_) => Err(AllocError),
    }
}

/// Appends octets to the file of an inode, which must have room for them. Refused only for want of memory; then the
/// caller must drop the stage.
pub fn append_to<B: Blocks>(
    blocks: &mut B,
    inodes: u32,
    free: &mut Free,
    at: u32,
    octets: &[u8],
) -> Result<(), AllocError>
    requires room { HasRoom inodes (B.blocks blocks.old) }
    requires rule { IsFileSystem inodes (B.blocks blocks.old) }
    requires there { MayGrow inodes at (length octets.now) (B.blocks blocks.old) }
    requires free { blocks_for_more (length octets.now) ≤ free_blocks (B.blocks blocks.old) }
    requires known { IsKnown inodes free.old (B.blocks blocks.old) }
    ensures appended { OnOk result (AppendsAt inodes at octets.now (B.blocks blocks.old) (B.blocks blocks.new)) }
    ensures known { OnOk result (IsKnown inodes free.new (B.blocks blocks.new)) }
    ensures touches { OnOk result ((name content : List ℕ) → IsFileAt (table inodes (B.blocks blocks.old)) at name content
        → Touches (touched_by_growth (length content) (length octets.now)) (B.blocks blocks.old) (B.blocks blocks.new)) }
    ensures kept { B.applied blocks.new ≡ B.applied blocks.old }
{
    let taken = extend(blocks, inodes, free.block, at, octets)?;
    free.blocks -= taken;
    Ok(())
}

/// Makes a file of a new name with these octets in the lowest free inode, and answers that inode. There must be room
/// for it. Refused only for want of memory; then the caller must drop the stage. docs/FORMATS.md gives the form of the
/// file under "Files".
pub fn make_file<B: Blocks>(
    blocks: &mut B,
    inodes: u32,
    free: &mut Free,
    name: &[u8],
    octets: &[u8],
) -> Result<u32, AllocError>
    requires room { HasRoom inodes (B.blocks blocks.old) }
    requires rule { IsFileSystem inodes (B.blocks blocks.old) }
    requires name { IsName name.now }
    requires new { ¬ (IsThere (table inodes (B.blocks blocks.old)) name.now) }
    requires few { length (files_in (table inodes (B.blocks blocks.old))) < inodes }
    requires small { length octets.now ≤ largest_file }
    requires free { blocks_for_more (length octets.now) ≤ free_blocks (B.blocks blocks.old) }
    requires known { IsKnown inodes free.old (B.blocks blocks.old) }
    ensures made { IfOk result (λ at. MakesAt inodes at name.now octets.now (B.blocks blocks.old) (B.blocks blocks.new)) }
    ensures known { OnOk result (IsKnown inodes free.new (B.blocks blocks.new)) }
    ensures touches { OnOk result (Touches (2 + touched_by_growth 0 (length octets.now)) (B.blocks blocks.old) (B.blocks blocks.new)) }
    ensures kept { B.applied blocks.new ≡ B.applied blocks.old }
{
    let at = create_file(blocks, inodes, free, name)?;
    append_to(blocks, inodes, free, at, octets)?;
    Ok(at)
}

/// Octets to append to a file.
#[derive(Drop)]
pub struct Piece {
    /// The inode of the file.
    pub at: u32,
    /// The octets to append, at most 8,191.
    pub octets: Vec<u8>,
}

/// Appends pieces to their files, one after the other. There must be room for all, and no two may go to one file.
/// Refused only for want of memory; then the caller must drop the stage.
pub fn append_all<B: Blocks>(
    blocks: &mut B,
    inodes: u32,
    free: &mut Free,
    pieces: &[Piece],
) -> Result<(), AllocError>
    requires room { HasRoom inodes (B.blocks blocks.old) }
    requires rule { IsFileSystem inodes (B.blocks blocks.old) }
    requires there { MayAllGrow inodes pieces.now (B.blocks blocks.old) }
    requires free { 4 * length pieces.now ≤ free_blocks (B.blocks blocks.old) }
    requires known { IsKnown inodes free.old (B.blocks blocks.old) }
    ensures appended { OnOk result (AppendsFirst inodes pieces.now (length pieces.now) (B.blocks blocks.old) (B.blocks blocks.new)) }
    ensures known { OnOk result (IsKnown inodes free.new (B.blocks blocks.new)) }
    ensures touches { OnOk result (Touches (touched_by_pieces (table inodes (B.blocks blocks.old)) pieces.now)
        (B.blocks blocks.old) (B.blocks blocks.new)) }
    ensures kept { B.applied blocks.new ≡ B.applied blocks.old }
{
    for piece in pieces {
        append_to(blocks, inodes, free, piece.at, &piece.octets)?;
    }
    Ok(())
}
