//! Parts of blocks, and sets of their numbers. Block `n` has the 16 parts whose numbers begin with `16 * n`.

ghost use Rattle.std.specs.Prelude.{◌≡◌, ◌↔◌, ℕ, ◌*◌, ◌/◌, ◌^◌, ◌<◌, List, [], ◌∷◌, ◌++◌, length, slice_index, is_ok, if◌then◌else◌};
ghost use Rattle.std.specs.Prelude.{IfOk, IsTrue};
ghost use Rattle.std.specs.List.{Contains};
ghost use Rattle.journal_volume.specs.Chunks.{HasOctets};
ghost use Rattle.journal_volume.specs.Numbers.{Numbers, IsNumbers};
ghost use Rattle.journal_volume.specs.Parts.{IsPartSet, part_of, with_part};

use crate::chunks::Chunks;
use crate::number_set::NumberSet;
use std::alloc::{AllocError, Global};
use std::marker::Model;

/// The number of octets in a part.
pub(crate) const PART_SIZE: usize = 256;

/// The number of parts in a block.
pub(crate) const BLOCK_PARTS: usize = 16;

/// The octets of a part.
pub(crate) fn part_of(blocks: &Chunks, number: usize) -> &[u8]
    requires { number / 16 < length blocks.now.blocks }
    ensures octets { result.now ≡ part_of blocks.now.blocks number }
    ensures whole { length result.now ≡ 256 }
{
    // for the proof: the number of a block fits
    let _count = blocks.len();
    let start = number % BLOCK_PARTS * PART_SIZE;
    &blocks.block((number / BLOCK_PARTS) as u32)[start..start + PART_SIZE]
}

/// Exchanges the octets of a part, whose block has octets, for others.
pub(crate) fn swap_part(blocks: &mut Chunks, number: usize, other: &mut [u8])
    requires there { number / 16 < length blocks.old.blocks }
    requires room { HasOctets blocks.old.made (number / 16) }
    requires whole { length other.old ≡ 256 }
    ensures blocks { blocks.new ≡ record blocks.old { blocks = with_part blocks.old.blocks number other.old } }
    ensures other { other.new ≡ part_of blocks.old.blocks number }
{
    // for the proof: the number of a block fits
    let _count = blocks.len();
    let mut before = [0; PART_SIZE];
    before.copy_from_slice(part_of(blocks, number));
    let at = number % BLOCK_PARTS * PART_SIZE;
    blocks.put_at((number / BLOCK_PARTS) as u32, at, other);
    other.copy_from_slice(&before);
}

/// Distinct numbers of parts, in the order in which they were inserted. What it takes grows with its members, and not with
/// the number of parts that there are.
#[derive(Drop)]
pub(crate) struct PartSet {
    // the blocks of the members
    blocks: NumberSet,
    // for each of these blocks whether each of its parts is a member
    flags: Vec<bool>,
    members: Vec<usize>,
}

impl Model for PartSet {
    ghost Value = { Numbers };

    ghost view = { λ s. record { bound = 16 * s.blocks.bound; members = s.members.items } };

    ghost invariant = { λ s. IsPartSet s.blocks s.flags.items s.members.items };
}

impl PartSet {
    /// The empty set of parts of as many blocks as the bound of this set. It allocates nothing.
    pub(crate) fn of(alloc: Global, blocks: NumberSet) -> PartSet
        requires none { blocks.members ≡ [] }
        requires valid { IsNumbers blocks }
        requires few { blocks.bound < 2 ^ 32 }
        ensures empty { result ≡ record { bound = 16 * blocks.bound; members = [] } }
        ensures valid { IsNumbers result }
    {
        PartSet {
            blocks,
            flags: Vec::new(alloc),
            members: Vec::new(alloc),
        }
    }

    /// The members.
    pub(crate) fn as_slice(&self) -> &[usize]
        ensures members { result.now ≡ self.now.members }
        ensures valid { IsNumbers self.now }
    {
        &self.members
    }

    /// Whether a part is a member.
    pub(crate) fn has(&self, number: usize) -> bool
        requires { number < self.now.bound }
        ensures { IsTrue result ↔ Contains self.now.members number }
    {
        match self.blocks.place((number / BLOCK_PARTS) as u32) {
            Some(place) => self.flags[place * BLOCK_PARTS + number % BLOCK_PARTS],
            None => false,
        }
    }

    /// Adds a part that is not a member, after the others. If memory is refused, nothing changes.
    pub(crate) fn insert(&mut self, number: usize) -> Result<(), AllocError>
        requires below { number < self.old.bound }
        requires other { ¬ (Contains self.old.members number) }
        ensures added { self.new ≡ (if is_ok result
            then record { bound = self.old.bound; members = self.old.members ++ number ∷ [] } else self.old) }
        ensures valid { IsNumbers self.new }
    {
        let place = flags_of(
            &mut self.blocks,
            &mut self.flags,
            (number / BLOCK_PARTS) as u32,
        )?;
        self.members.push(number)?;
        self.flags[place * BLOCK_PARTS + number % BLOCK_PARTS] = true;
        Ok(())
    }

    /// Removes all members.
    pub(crate) fn clear(&mut self)
        ensures cleared { self.new ≡ record { bound = self.old.bound; members = [] } }
        ensures valid { IsNumbers self.new }
    {
        self.blocks.clear();
        self.flags.clear();
        self.members.clear();
    }
}

// The place of a block among those that have flags. A block that has none gets flags that are not set. If memory is refused,
// nothing changes.
fn flags_of(blocks: &mut NumberSet, flags: &mut Vec<bool>, block: u32) -> Result<usize, AllocError>
    requires { block < blocks.old.bound }
    ensures bound { blocks.new.bound ≡ blocks.old.bound }
    ensures kept { (members : List ℕ) → IsPartSet blocks.old flags.old.items members → IsPartSet blocks.new flags.new.items members }
    ensures place { IfOk result (λ i. (i < length blocks.new.members) × (slice_index blocks.new.members i ≡ block)) }
{
    if let Some(place) = blocks.place(block) {
        return Ok(place);
    }
    let place = blocks.as_slice().len();
    flags.extend_from_slice(&[false; BLOCK_PARTS])?;
    blocks.insert(block);
    Ok(place)
}
