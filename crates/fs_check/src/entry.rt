//! Checks whether an entry is free, or a file.

ghost use Rattle.std.specs.Prelude.{◌≡◌, ◌⊎◌, ℕ, ◌-◌, ◌/◌, ◌<◌, ◌≤◌, ◌↔◌, [], length, IsTrue};
ghost use Rattle.std.specs.List.{All};
ghost use Rattle.model.specs.Volume.{number_at};
ghost use Rattle.model.specs.Files.{HasRoom, entry_of, indirect_for, indirect_pointer, pointer, first_data, most_blocks, most_inodes};
ghost use Rattle.model.specs.Files.{most_octets};
ghost use Rattle.fs_layout.specs.Blocks.{IsThere};
ghost use Rattle.fs_check.specs.Checking.{IsSlot, HasNumber, HasTables, HasPointers, HasSmallEntry};

use disk_numbers::{number32, number64};
use fs_blocks::Blocks;
use fs_layout::inodes::{
    BLOCK_POINTERS, DIRECT_POINTERS, DOUBLE_AT, SIZE_AT, SPARE_AT, content_blocks, first_data,
    indirect_at, most_octets, pointer_at,
};
use fs_layout::records::{RECORD_SIZE, get_inode, get_slot};
use fs_layout::slots::{NAME_MAX, slot_for};

const FREE_KIND: u32 = 0;

const FILE_KIND: u32 = 1;

// Whether the entry of an inode is free, or a file that is not too large for the format and whose double-indirect block
// and blocks of pointers lie within the data.
pub fn is_entry<B: Blocks>(blocks: &B, inodes: u32, format: u32, at: u32) -> bool
    requires room { HasRoom inodes (B.blocks blocks.now) }
    requires below { at < inodes }
    ensures { IsTrue result ↔ HasSmallEntry (most_octets format) inodes (B.blocks blocks.now) at }
{
    let mut inode = [0; RECORD_SIZE];
    let mut slot = [0; RECORD_SIZE];
    get_inode(blocks, at, &mut inode);
    get_slot(blocks, inodes, at, &mut slot);
    match number32(&inode, 0) {
        FREE_KIND => are_zeros(&inode) && are_zeros(&slot),
        FILE_KIND => is_slot(&slot) && has_pointers(blocks, inodes, format, &inode),
        _ => false,
    }
}

// Whether all octets are zero.
fn are_zeros(octets: &[u8]) -> bool
    ensures { IsTrue result ↔ All (λ octet. octet ≡ 0) octets.now }
{
    octets.iter().all(|octet| *octet == 0)
}

// Whether a slot has a name.
fn is_slot(slot: &[u8]) -> bool
    requires { length slot.now ≡ 64 }
    ensures { IsTrue result ↔ IsSlot slot.now }
{
    let size = slot[0] as usize;
    if size == 0 || size > NAME_MAX {
        return false;
    }
    let end = 1 + size;
    let whole = slot_for(&slot[1..end]);
    slot == whole.as_slice()
}

// Whether the octets of an inode and of the blocks that name its blocks are those of a file that is not too large for
// the format.
fn has_pointers<B: Blocks>(blocks: &B, inodes: u32, format: u32, inode: &[u8]) -> bool
    requires room { HasRoom inodes (B.blocks blocks.now) }
    requires whole { length inode.now ≡ 64 }
    ensures { IsTrue result ↔ HasPointers (most_octets format) (first_data (length (B.blocks blocks.now)) inodes)
        (length (B.blocks blocks.now))
        (entry_of (B.blocks blocks.now) inode.now []) }
{
    let size = number64(inode, SIZE_AT);
    if size > most_octets(format) || number32(inode, SPARE_AT) > 0 {
        return false;
    }
    let count = content_blocks(size);
    let tables = tables_for(count);
    if !has_double(blocks, inodes, inode, tables) || !has_tables(blocks, inodes, inode, tables) {
        return false;
    }
    ends_at(blocks, inodes, inode, count)
}

// The number of blocks of pointers of a file whose octets take this many blocks.
pub fn tables_for(count: u32) -> u32
    requires { count ≤ 1048575 }
    ensures { result ≡ indirect_for count }
{
    (count + BLOCK_POINTERS - 1 - DIRECT_POINTERS) / BLOCK_POINTERS
}

// Whether a block lies within the data.
fn is_within<B: Blocks>(blocks: &B, inodes: u32, number: u32) -> bool
    requires room { HasRoom inodes (B.blocks blocks.now) }
    ensures { IsTrue result ↔ ((first_data (length (B.blocks blocks.now)) inodes ≤ number) × (number < length (B.blocks blocks.now))) }
{
    first_data(blocks.len(), inodes) <= number && number < blocks.len()
}

// Whether an inode has a double-indirect block within the data if it has more than one block of pointers, or else none.
fn has_double<B: Blocks>(blocks: &B, inodes: u32, inode: &[u8], tables: u32) -> bool
    requires room { HasRoom inodes (B.blocks blocks.now) }
    requires whole { length inode.now ≡ 64 }
    ensures { IsTrue result ↔ HasNumber (first_data (length (B.blocks blocks.now)) inodes) (length (B.blocks blocks.now)) 1 tables
        (number_at 56 4 inode.now) }
{
    let double = number32(inode, DOUBLE_AT);
    if 1 < tables {
        return is_within(blocks, inodes, double);
    }
    double == 0
}

// The number of places for blocks of pointers in an inode that has this many of them: the first, and those in its
// double-indirect block if it has one.
fn table_places(tables: u32) -> u32
    ensures { ((1 < tables) × (result ≡ 1025)) ⊎ ((tables ≤ 1) × (result ≡ 1)) }
{
    if 1 < tables { BLOCK_POINTERS + 1 } else { 1 }
}

// Whether an inode has exactly this many blocks of pointers, all within the data.
fn has_tables<B: Blocks>(blocks: &B, inodes: u32, inode: &[u8], tables: u32) -> bool
    requires room { HasRoom inodes (B.blocks blocks.now) }
    requires whole { length inode.now ≡ 64 }
    requires few { tables ≤ 1024 }
    requires double { HasNumber (first_data (length (B.blocks blocks.now)) inodes) (length (B.blocks blocks.now)) 1 tables
        (number_at 56 4 inode.now) }
    ensures { IsTrue result ↔ HasTables (first_data (length (B.blocks blocks.now)) inodes) (length (B.blocks blocks.now)) tables
        (entry_of (B.blocks blocks.now) inode.now []) }
{
    for p in 0..table_places(tables) {
        if !has_table(blocks, inodes, inode, tables, p) {
            return false;
        }
    }
    true
}

// Whether an inode has a p-th block of pointers within the data if p is below `tables`, or else none.
fn has_table<B: Blocks>(blocks: &B, inodes: u32, inode: &[u8], tables: u32, p: u32) -> bool
    requires room { HasRoom inodes (B.blocks blocks.now) }
    requires whole { length inode.now ≡ 64 }
    requires few { p < 1025 }
    requires double { 0 < p → IsThere (number_at 56 4 inode.now) (B.blocks blocks.now) }
    ensures { IsTrue result ↔ HasNumber (first_data (length (B.blocks blocks.now)) inodes) (length (B.blocks blocks.now)) p tables
        (indirect_pointer (entry_of (B.blocks blocks.now) inode.now []) p) }
{
    let number = indirect_at(blocks, inode, p);
    if p < tables {
        return is_within(blocks, inodes, number);
    }
    number == 0
}

// Whether an inode has no pointer from a place on.
fn ends_at<B: Blocks>(blocks: &B, inodes: u32, inode: &[u8], from: u32) -> bool
    requires room { HasRoom inodes (B.blocks blocks.now) }
    requires whole { length inode.now ≡ 64 }
    requires few { from ≤ 1048575 }
    requires double { HasNumber (first_data (length (B.blocks blocks.now)) inodes) (length (B.blocks blocks.now)) 1 (indirect_for from)
        (number_at 56 4 inode.now) }
    requires tables { HasTables (first_data (length (B.blocks blocks.now)) inodes) (length (B.blocks blocks.now)) (indirect_for from)
        (entry_of (B.blocks blocks.now) inode.now []) }
    ensures { IsTrue result ↔ ((i : ℕ) → from ≤ i → pointer (entry_of (B.blocks blocks.now) inode.now []) i ≡ 0) }
{
    let end = DIRECT_POINTERS + BLOCK_POINTERS * tables_for(from);
    for i in from..end {
        if pointer_at(blocks, inode, i) > 0 {
            return false;
        }
    }
    true
}
