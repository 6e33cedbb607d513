//! The used blocks of a volume, by the bits of its bitmap.

ghost use Rattle.std.specs.Prelude.{◌≡◌, ◌≤◌, length};
ghost use Rattle.volume_usage.specs.Usage.{BitsAreUsedBlocks, used_in};

use fs_layout::bits::count_clear;

/// The number of blocks that a block of the bitmap marks as used: its set bits. The sum over all blocks of the bitmap
/// is the number of used blocks of a volume, as `bits_are_used_blocks` says.
pub fn used_blocks(bitmap: &[u8]) -> u32
    requires { length bitmap.now ≤ 4096 }
    ensures { result ≡ used_in bitmap.now }
{
    let bits = 8 * bitmap.len();
    bits as u32 - count_clear(bitmap, bits)
}

/// In the bitmap of a volume as many bits are set as the volume has blocks that are not free. The function does
/// nothing, and its contract is the law.
pub fn bits_are_used_blocks()
    ensures { BitsAreUsedBlocks }
{}
