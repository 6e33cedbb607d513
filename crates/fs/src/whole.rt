//! The file system as a whole.

ghost use Rattle.std.specs.Prelude.{◌≡◌, ◌<◌, None, length, replicate, IfErr, OnOk};
ghost use Rattle.std.specs.List.{All};
ghost use Rattle.model.specs.Files.{HasRoom};
ghost use Rattle.fs.specs.Calls.{Makes};
ghost use Rattle.fs.specs.Emptying.{MarksFirst, PutsBitmap};
ghost use Rattle.fs.specs.Touches.{Touches};

use fs_blocks::{BLOCK_SIZE, Blocks};
use fs_layout::FsError;
use fs_layout::bitmap::BLOCK_BITS;
use fs_layout::bits::set_front;
use fs_layout::inodes::{bitmap_blocks, first_data};
use std::alloc::AllocError;

/// Makes the empty file system on zeroed blocks. After `Memory` the caller must drop the stage.
pub fn make_empty<B: Blocks>(blocks: &mut B, inodes: u32) -> Result<(), FsError>
    requires room { HasRoom inodes (B.blocks blocks.old) }
    requires zeros { All (λ block. All (λ octet. octet ≡ 0) block) (B.blocks blocks.old) }
    ensures made { OnOk result (Makes inodes (replicate inodes None) (B.blocks blocks.new)) }
    ensures count { OnOk result (length (B.blocks blocks.new) ≡ length (B.blocks blocks.old)) }
    ensures touches { OnOk result (Touches 0 (B.blocks blocks.old) (B.blocks blocks.new)) }
    ensures memory { IfErr result (λ e. e ≡ FsError.Memory) }
    ensures kept { B.applied blocks.new ≡ B.applied blocks.old }
{
    let tables = bitmap_blocks(blocks.len());
    let first = first_data(blocks.len(), inodes);
    for table in 0..tables {
        put_bitmap(blocks, table, first)?;
    }
    Ok(())
}

/// The block of the bitmap with this number, counted from 0, of a volume whose first blocks are marked as used, this
/// many, and no others.
pub fn bitmap_block(table: u32, first: u32) -> [u8; BLOCK_SIZE]
    ensures { MarksFirst table first result }
{
    let mut bitmap = [0; BLOCK_SIZE];
    let start = BLOCK_BITS * table as usize;
    let marked = (first as usize).saturating_sub(start).min(BLOCK_BITS);
    set_front(&mut bitmap, marked);
    bitmap
}

// Puts that block.
fn put_bitmap<B: Blocks>(blocks: &mut B, table: u32, first: u32) -> Result<(), AllocError>
    requires { table < length (B.blocks blocks.old) }
    ensures done { OnOk result (PutsBitmap table first (B.blocks blocks.old) (B.blocks blocks.new)) }
    ensures kept { B.applied blocks.new ≡ B.applied blocks.old }
{
    blocks.put(table, &bitmap_block(table, first))
}
