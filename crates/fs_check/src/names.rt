//! The names of files, which are distinct. Most files are articles (docs/FORMATS.md): the names of these begin with `a`
//! and end with the digits of a serial, and since a new file takes the lowest free inode, the serials rise with the
//! inodes. So a number tells each of them from all before it, and only the names of the other files are gathered.

ghost use Rattle.std.specs.Prelude.{◌≡◌, ◌≤◌, ◌<◌, ◌↔◌, ℕ, length, IfOk, IfSome, IsTrue};
ghost use Rattle.model.specs.Files.{HasRoom};
ghost use Rattle.fs_check.specs.Checking.{HasDistinctNames, HasEntry, rank};

use byteorder::{BigEndian, ByteOrder};
use fs_blocks::Blocks;
use fs_layout::records::{RECORD_SIZE, get_slot};
use std::alloc::{AllocError, Global};
use std::collections::BTreeSet;

/// The place in a slot of the first octet of a name.
const NAME_AT: usize = 1;

/// The place in a slot of the last eight digits of an article's name.
const DIGITS_AT: usize = 5;

/// Whether no two files have the same name. It takes linear time and the memory of the names that no rank tells apart,
/// or, if the ranks don't rise with the inodes, n log n and the memory of all names.
pub fn are_names_distinct<B: Blocks>(
    alloc: Global,
    blocks: &B,
    inodes: u32,
) -> Result<bool, AllocError>
    requires room { HasRoom inodes (B.blocks blocks.now) }
    requires entries { (k : ℕ) → k < inodes → HasEntry inodes (B.blocks blocks.now) k }
    ensures { IfOk result (λ distinct. IsTrue distinct ↔ HasDistinctNames inodes inodes (B.blocks blocks.now)) }
{
    match are_told_apart(alloc, blocks, inodes)? {
        Some(distinct) => Ok(distinct),
        None => are_gathered_apart(alloc, blocks, inodes),
    }
}

// A number that tells the names of articles apart, if these octets are a slot with such a name; 0 for most others.
#[tactic(auto, unfolding(crate::specs::Checking::rank))]
fn rank_of(slot: &[u8]) -> u64
    requires { length slot.now ≡ 64 }
    ensures { result ≡ rank slot.now }
{
    if slot[NAME_AT] != b'a' {
        return 0;
    }
    BigEndian::read_u64(&slot[DIGITS_AT..])
}

// Whether no two files have the same name; `None` if a rank isn't above all before it.
fn are_told_apart<B: Blocks>(
    alloc: Global,
    blocks: &B,
    inodes: u32,
) -> Result<Option<bool>, AllocError>
    requires room { HasRoom inodes (B.blocks blocks.now) }
    requires entries { (k : ℕ) → k < inodes → HasEntry inodes (B.blocks blocks.now) k }
    ensures { IfOk result (λ told. IfSome told (λ distinct. IsTrue distinct ↔ HasDistinctNames inodes inodes (B.blocks blocks.now))) }
{
    let mut others = BTreeSet::new(alloc);
    let mut slot = [0; RECORD_SIZE];
    let mut last = 0;
    for at in 0..inodes {
        get_slot(blocks, inodes, at, &mut slot);
        let next = rank_of(&slot);
        if next > 0 {
            if next <= last {
                return Ok(None);
            }
            last = next;
        } else if slot[0] > 0 && !others.insert(slot)? {
            return Ok(Some(false));
        }
    }
    Ok(Some(true))
}

// Whether no two files have the same name, whatever their order.
fn are_gathered_apart<B: Blocks>(alloc: Global, blocks: &B, inodes: u32) -> Result<bool, AllocError>
    requires room { HasRoom inodes (B.blocks blocks.now) }
    requires entries { (k : ℕ) → k < inodes → HasEntry inodes (B.blocks blocks.now) k }
    ensures { IfOk result (λ distinct. IsTrue distinct ↔ HasDistinctNames inodes inodes (B.blocks blocks.now)) }
{
    let mut slots = BTreeSet::new(alloc);
    let mut slot = [0; RECORD_SIZE];
    for at in 0..inodes {
        get_slot(blocks, inodes, at, &mut slot);
        if slot[0] > 0 && !slots.insert(slot)? {
            return Ok(false);
        }
    }
    Ok(true)
}
