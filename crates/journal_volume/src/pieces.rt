//! Room for blocks, in pieces that get octets when the first of their blocks needs them.

ghost use Rattle.std.specs.Prelude.{◌≡◌, ℕ, ◌*◌, ◌+◌, ◌<◌, ◌≤◌, [], length, replicate, slice_index_or, slice_set, IfOk, OnErr, OnOk};
ghost use Rattle.std.specs.List.{All};
ghost use Rattle.disk.specs.Image.{overwritten};
ghost use Rattle.journal_volume.specs.Pieces.{PiecesView, ArePieces, IsMade, block_in, octets_of, view_of, zero_block};

use fs_blocks::{BLOCK_SIZE, block_of, put_in_block};
use std::alloc::{AllocError, Global};
use std::marker::Model;

// The number of blocks in a piece.
const PIECE_BLOCKS: usize = 256;

const PIECE_SIZE: usize = PIECE_BLOCKS * BLOCK_SIZE;

/// Blocks of 4,096 octets. A piece of 256 of them takes no memory before one of them is to have octets.
#[derive(Drop)]
pub(crate) struct Pieces {
    count: u32,
    // the last piece may have room for more blocks than there are
    pieces: Vec<Vec<u8>>,
}

impl Model for Pieces {
    ghost Value = { PiecesView };

    ghost view = { λ c. view_of c.count (octets_of c.pieces.items) };

    ghost invariant = { λ c. ArePieces c.count (octets_of c.pieces.items) };
}

impl Pieces {
    /// Blocks of zeros.
    pub(crate) fn new(alloc: Global, count: u32) -> Result<Pieces, AllocError>
        ensures { IfOk result (λ c. c.blocks ≡ replicate count zero_block) }
    {
        let pieces = empty_pieces(alloc, count as usize / PIECE_BLOCKS + 1)?;
        Ok(Pieces { count, pieces })
    }

    /// The number of blocks.
    pub(crate) fn len(&self) -> u32
        ensures count { result ≡ length self.now.blocks }
        ensures whole { All (λ octets. length octets ≡ 4096) self.now.blocks }
    {
        self.count
    }

    /// The octets of a block.
    pub(crate) fn block(&self, number: usize) -> &[u8]
        requires { number < length self.now.blocks }
        ensures octets { result.now ≡ slice_index_or self.now.blocks number [] }
        ensures whole { length result.now ≡ 4096 }
    {
        let piece = self.pieces[number / PIECE_BLOCKS].as_slice();
        block_of_piece(piece, number % PIECE_BLOCKS)
    }

    /// Gives octets to the piece of a block, so that a put of the block takes no memory. If memory is refused,
    /// nothing changes.
    pub(crate) fn make_room(&mut self, number: usize) -> Result<(), AllocError>
        requires { number < length self.old.blocks }
        ensures blocks { self.new.blocks ≡ self.old.blocks }
        ensures room { OnOk result (IsMade self.new.made number) }
        ensures kept { (n : ℕ) → IsMade self.old.made n → IsMade self.new.made n }
    {
        fill_up(&mut self.pieces[number / PIECE_BLOCKS], PIECE_SIZE)?;
        Ok(())
    }

    /// Replaces octets of a block whose piece has octets, from a place in the block on.
    pub(crate) fn put_at(&mut self, number: usize, at: usize, part: &[u8])
        requires there { number < length self.old.blocks }
        requires room { IsMade self.old.made number }
        requires fits { at + length part.now ≤ 4096 }
        ensures { self.new ≡ record self.old {
          blocks = slice_set self.old.blocks number (overwritten at part.now (slice_index_or self.old.blocks number []));
        } }
    {
        let piece = self.pieces[number / PIECE_BLOCKS].as_mut_slice();
        put_in_block(piece, number % PIECE_BLOCKS, at, part);
    }
}

// So many pieces without octets.
fn empty_pieces(alloc: Global, many: usize) -> Result<Vec<Vec<u8>>, AllocError>
    ensures { IfOk result (λ pieces. octets_of pieces.items ≡ replicate many []) }
{
    let mut pieces = Vec::with_capacity(alloc, many)?;
    for _i in 0..many {
        pieces.push(Vec::new(alloc))?;
    }
    Ok(pieces)
}

// Gives a piece without octets so many zeros, and leaves one that has octets. If memory is refused, nothing changes.
fn fill_up(piece: &mut Vec<u8>, size: usize) -> Result<(), AllocError>
    requires { 0 < length piece.old.items → length piece.old.items ≡ size }
    ensures size { OnOk result (length piece.new.items ≡ size) }
    ensures blocks { (k : ℕ) → 4096 * k + 4096 ≤ size → block_in piece.new.items k ≡ block_in piece.old.items k }
    ensures refused { OnErr result (piece.new.items ≡ piece.old.items) }
{
    piece.resize(size, 0)?;
    Ok(())
}

// The octets of a block of a piece.
fn block_of_piece(piece: &[u8], number: usize) -> &[u8]
    requires below { number < 256 }
    requires whole { 0 < length piece.now → length piece.now ≡ 1048576 }
    ensures octets { result.now ≡ block_in piece.now number }
    ensures whole { length result.now ≡ 4096 }
{
    if piece.is_empty() {
        return &[0; BLOCK_SIZE];
    }
    block_of(piece, number)
}
