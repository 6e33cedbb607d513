//! A spool over a volume in memory, together with what a device would hold.

ghost use Rattle.std.specs.Prelude.{IsTrue};
ghost use Rattle.model.specs.Files.{HasRoom};

use fs_blocks::{BLOCK_SIZE, Blocks};
use journal_volume::{BATCH_BLOCKS, BatchBuf, Volume};
use model::Text;
use spool::Spool;
use spool_reading::ReadSpoolError;
use std::alloc::{AllocError, Global};
use text_names::is_host;

/// The inodes of the volumes that are tested.
pub const INODES: u32 = 64;

/// The format of the volumes that are tested.
const FORMAT: u32 = 3;

/// The blocks of the volumes that are tested.
pub const COUNT: u32 = 1024;

/// The host of the spools that are tested.
pub const HOST: &[u8] = b"news.example";

/// A spool, and the octets of the blocks that batches have written.
pub struct Stored {
    pub spool: Spool,
    octets: Vec<u8>,
    batch: BatchBuf,
}

// By hand: a crate of tests that drops one would otherwise prove the derived one again, field by field.
impl Drop for Stored {
    fn drop(self) {
        let Stored {
            spool: _,
            octets: _,
            batch: _,
        } = self;
    }
}

impl Stored {
    /// The spool without changes, in the empty file system.
    pub fn new(alloc: Global) -> Result<Stored, ReadSpoolError> {
        let octets = empty(alloc, COUNT)?;
        let Ok(batch) = BatchBuf::new(alloc) else {
            return Err(ReadSpoolError::Memory);
        };
        Ok(Stored {
            spool: opened(alloc, &octets, &[])?,
            octets,
            batch,
        })
    }

    /// Takes the dirty blocks as a batch, and answers how many there are; `None` if there are more than a batch may
    /// have.
    pub fn carry(&mut self) -> Option<usize> {
        if self.spool.dirty_len() > BATCH_BLOCKS {
            return None;
        }
        self.spool.copy_dirty(&mut self.batch);
        lay(&mut self.octets, &self.batch);
        Some(self.batch.numbers().len())
    }

    /// The octets of the blocks, as the batches have written them.
    pub fn octets(&self) -> &[u8] {
        self.octets.as_slice()
    }

    /// Opens what the batches have written, in place of the spool. A refusal changes nothing.
    pub fn reopen(&mut self, alloc: Global) -> Result<(), ReadSpoolError> {
        self.spool = opened(alloc, &self.octets, &[])?;
        Ok(())
    }

    /// Why what the batches have written is not opened after octets in it are replaced; `None` if it is opened.
    pub fn refusal(&self, alloc: Global, changed: &[Octet]) -> Option<ReadSpoolError> {
        opened(alloc, &self.octets, changed).err()
    }

    /// Opens what the batches have written after these bits of an octet are changed in it. The octet must be in a block
    /// of the volume.
    pub fn flipped(
        &self,
        alloc: Global,
        number: u32,
        place: usize,
        bits: u8,
    ) -> Result<Spool, ReadSpoolError> {
        match self
            .octets
            .get(number as usize * BLOCK_SIZE + place % BLOCK_SIZE)
        {
            Some(was) => opened(alloc, &self.octets, &[(number, place, *was ^ bits)]),
            None => Err(ReadSpoolError::Memory),
        }
    }
}

/// An octet to replace: its block, its place there, and the new octet.
pub type Octet = (u32, usize, u8);

// The octets of the empty file system: the bitmap marks its own two blocks, the block of the inodes and that of the
// slots.
fn empty(alloc: Global, count: u32) -> Result<Vec<u8>, ReadSpoolError> {
    let mut octets = vec![in alloc; 0; count as usize * BLOCK_SIZE]?;
    if let Some(marks) = octets.first_mut() {
        *marks = 0x0f;
    }
    Ok(octets)
}

fn host(alloc: Global) -> Result<Text, AllocError> {
    Ok(Text::new(Vec::from_slice(alloc, HOST)?))
}

// Whether a volume has room for a spool, and at least as many blocks as the tests use.
fn has_room(volume: &Volume) -> bool
    ensures { IsTrue result → HasRoom 64 volume.now.seen }
{
    let count = volume.len();
    1024 <= count && count <= 65_536
}

// Replaces the octets of the blocks in a batch.
fn lay(octets: &mut [u8], batch: &BatchBuf) {
    for (number, image) in batch
        .numbers()
        .iter()
        .zip(batch.images().chunks(BLOCK_SIZE))
    {
        let start = *number as usize * BLOCK_SIZE;
        for (place, octet) in image.iter().enumerate() {
            if let Some(replaced) = octets.get_mut(start.saturating_add(place)) {
                *replaced = *octet;
            }
        }
    }
}

// The spool in these octets, after some are replaced.
fn opened(alloc: Global, octets: &[u8], changed: &[Octet]) -> Result<Spool, ReadSpoolError> {
    let mut octets = octets.to_vec(alloc)?;
    for (number, place, octet) in changed {
        match octets.get_mut(*number as usize * BLOCK_SIZE + *place % BLOCK_SIZE) {
            Some(replaced) => *replaced = *octet,
            None => return Err(ReadSpoolError::Memory),
        }
    }
    open(alloc, octets, COUNT)
}

fn open(alloc: Global, octets: Vec<u8>, count: u32) -> Result<Spool, ReadSpoolError> {
    let host = host(alloc)?;
    if !is_host(host.as_slice()) || octets.len() != count as usize * BLOCK_SIZE {
        return Err(ReadSpoolError::Memory);
    }
    let volume = Volume::of(alloc, octets, count)?;
    if !has_room(&volume) {
        return Err(ReadSpoolError::Memory);
    }
    Spool::open(alloc, host, INODES, FORMAT, volume)
}
