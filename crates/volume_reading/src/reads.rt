//! Reads of a volume whose superblock and open segments are right.

use crate::device::{Block, ReadStop, read};
use crate::open_segments::{self, Place};
use crate::superblock_look::{self, ReadSizes};
use disk::Disk;
use disk_numbers::{number32, number64};
use fs_layout::inodes::{
    BLOCK_POINTERS, DIRECT_POINTERS, DOUBLE_AT, FILE_KIND, INDIRECT_AT, MOST_OCTETS, POINTERS_AT,
    SIZE_AT, bitmap_blocks, content_blocks, first_data,
};
use fs_layout::records::RECORD_SIZE;
use fs_layout::slots::NAME_MAX;
use journal_layout::layout::BLOCK;
use std::alloc::Global;
use std::fmt::{self, Display, Formatter};

/// The octets of an inode or a slot.
pub type Record = [u8; RECORD_SIZE];

/// The inodes of a block.
const IN_A_BLOCK: u32 = 64;

/// An inode and its slot in the directory.
#[derive(Clone, Copy)]
pub struct DirectoryEntry {
    pub number: u32,
    pub inode: Record,
    pub slot: Record,
}

impl Display for DirectoryEntry {
    /// The file by its name.
    fn fmt<W: fmt::Write>(&self, f: &mut Formatter<W>) -> fmt::Result {
        write!(f, "file {}", self.name().escape_ascii())
    }
}

impl DirectoryEntry {
    /// The kind: 0 is free, 1 a file.
    pub fn kind(&self) -> u32 {
        number32(&self.inode, 0)
    }

    /// Whether the inode is that of a file.
    pub fn is_file(&self) -> bool {
        self.kind() == u32::from(FILE_KIND)
    }

    /// The size in octets, which may be more than a file can have.
    pub fn size(&self) -> u64 {
        number64(&self.inode, SIZE_AT)
    }

    /// The pointer to the double-indirect block; 0 if there is none.
    pub fn double(&self) -> u32 {
        number32(&self.inode, DOUBLE_AT)
    }

    /// The number of blocks of the content, which is the number of pointers that the file needs.
    pub fn block_count(&self) -> u32 {
        content_blocks(self.size().min(MOST_OCTETS))
    }

    /// The number of blocks of pointers that the file needs.
    pub fn table_count(&self) -> u32 {
        self.block_count()
            .saturating_sub(DIRECT_POINTERS)
            .div_ceil(BLOCK_POINTERS)
    }

    /// The number of places for blocks of pointers: one in the inode, and those in a double-indirect block.
    pub fn table_places(&self) -> u32 {
        if self.double() == 0 {
            1
        } else {
            1 + BLOCK_POINTERS
        }
    }

    /// The number of places for pointers: those in the inode, and those in the blocks of pointers that the file needs.
    pub fn pointer_places(&self) -> u32 {
        BLOCK_POINTERS
            .saturating_mul(self.table_count())
            .saturating_add(DIRECT_POINTERS)
    }

    /// The name, of which a slot has room for 63 octets.
    pub fn name(&self) -> &[u8] {
        let size = (self.slot[0] as usize).min(NAME_MAX);
        &self.slot[1..1 + size]
    }
}

/// The pointers of a file. The block of pointers that was read last is kept, so that a walk in order reads each once.
#[derive(Drop)]
pub struct Pointers {
    inode: Record,
    /// The double-indirect block; zeros if there is none.
    double: Block,
    /// The block of pointers that was read last, and its number; zeros, and 0, before the first is read.
    table: Block,
    number: u32,
}

impl Pointers {
    /// The pointers of a file, whose double-indirect block is one of the volume's.
    pub fn of<D: Disk>(
        volume: &mut ReadVolume<D>,
        entry: &DirectoryEntry,
    ) -> Result<Pointers, ReadStop> {
        let mut double = [0; BLOCK];
        if entry.double() != 0 {
            volume.read(entry.double(), 0, &mut double)?;
        }
        Ok(Pointers {
            inode: entry.inode,
            double,
            table: [0; BLOCK],
            number: 0,
        })
    }

    /// The number of the block of pointers of this index, counted from 0; 0 if there is none.
    pub fn table(&self, index: u32) -> u32 {
        if index == 0 {
            return number32(&self.inode, INDIRECT_AT);
        }
        let place = index - 1;
        if place >= BLOCK_POINTERS {
            return 0;
        }
        number32(&self.double, 4 * place as usize)
    }

    /// The pointer of this index, counted from 0, whose block of pointers is one of the volume's.
    pub fn get<D: Disk>(
        &mut self,
        volume: &mut ReadVolume<D>,
        index: u32,
    ) -> Result<u32, ReadStop> {
        if index < DIRECT_POINTERS {
            return Ok(number32(&self.inode, POINTERS_AT + 4 * index as usize));
        }
        let place = index - DIRECT_POINTERS;
        self.keep(volume, self.table(place / BLOCK_POINTERS))?;
        Ok(number32(&self.table, 4 * (place % BLOCK_POINTERS) as usize))
    }

    /// Reads a block of pointers, unless it was read last.
    fn keep<D: Disk>(&mut self, volume: &mut ReadVolume<D>, number: u32) -> Result<(), ReadStop> {
        if number != self.number {
            volume.read(number, 0, &mut self.table)?;
            self.number = number;
        }
        Ok(())
    }
}

/// A volume whose superblock and open segments are right.
#[derive(Drop)]
pub struct ReadVolume<D> {
    pub alloc: Global,
    pub sizes: ReadSizes,
    disk: D,
    places: Vec<Place>,
}

impl<D: Disk + Drop> ReadVolume<D> {
    /// Looks at the superblock and at the open segments. `Wrong` says what isn't as it must be in a volume, `Unseen`
    /// that a read failed or memory was refused.
    pub fn open(alloc: Global, mut disk: D) -> Result<ReadVolume<D>, ReadStop> {
        let sizes = superblock_look::look(alloc, &mut disk)?;
        let places = open_segments::look(alloc, &mut disk, sizes)?;
        Ok(ReadVolume {
            alloc,
            sizes,
            disk,
            places,
        })
    }
}

impl<D: Disk> ReadVolume<D> {
    /// The first block of the inodes, which is the number of blocks of the bitmap.
    pub fn inodes_at(&self) -> u32 {
        bitmap_blocks(self.sizes.blocks)
    }

    /// The first block of the data.
    pub fn data_start(&self) -> u32 {
        first_data(self.sizes.blocks, self.sizes.inodes)
    }

    /// Fills `into` with the octets of a logical block from a place in it on.
    fn read(&mut self, block: u32, at: usize, into: &mut [u8]) -> Result<(), ReadStop> {
        match self.places.get(block as usize).copied() {
            Some(place) => read(&mut self.disk, place.block, at, into),
            None => Err(ReadStop::Unseen),
        }
    }

    /// The octets of a logical block.
    pub fn block(&mut self, block: u32) -> Result<Block, ReadStop> {
        let mut octets = [0; BLOCK];
        self.read(block, 0, &mut octets)?;
        Ok(octets)
    }

    /// The inode of this number, and its slot.
    pub fn entry(&mut self, number: u32) -> Result<DirectoryEntry, ReadStop> {
        let table = self.inodes_at().saturating_add(number / IN_A_BLOCK);
        let at = RECORD_SIZE * (number % IN_A_BLOCK) as usize;
        let mut inode = [0; RECORD_SIZE];
        self.read(table, at, &mut inode)?;
        let mut slot = [0; RECORD_SIZE];
        let directory = table.saturating_add(self.sizes.inodes / IN_A_BLOCK);
        self.read(directory, at, &mut slot)?;
        Ok(DirectoryEntry {
            number,
            inode,
            slot,
        })
    }

    /// The first octets of a file: those in its first block.
    pub fn head(&mut self, entry: &DirectoryEntry) -> Result<Vec<u8>, ReadStop> {
        let size = entry.size().min(BLOCK as u64) as usize;
        let mut head = vec![in self.alloc; 0; size]?;
        if size > 0 {
            let block = number32(&entry.inode, POINTERS_AT);
            self.read(block, 0, head.as_mut_slice())?;
        }
        Ok(head)
    }
}
