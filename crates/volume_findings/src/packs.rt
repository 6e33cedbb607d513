//! Walks through the pack, in which the files of articles and expiries stand one after the other.

use crate::owners::Names;
use crate::seen::{Home, Seen};
use disk::Disk;
use disk_numbers::number32;
use fs_blocks::BLOCK_SIZE;
use fs_layout::slots::slot_for;
use spool_records::{FileKind, SERIAL_DIGITS, kind_of, serial_of};
use volume_reading::{
    Block, DirectoryEntry, Grouped, Pointers, ReadStop, ReadVolume, wrong, wrong_unless,
};

/// The first format with a pack.
const FIRST_WITH_PACK: u32 = 3;

/// The name of the pack.
const PACK_NAME: &[u8] = b"p";

/// The octets of a name in the pack: two for its kind, and a serial's digits.
const NAME_SIZE: usize = 2 + SERIAL_DIGITS;

/// The octets before a file's content: the size of its name, the name, the size of the content.
const HEAD_SIZE: usize = 1 + NAME_SIZE + 4;

/// The pack of a volume.
#[derive(Drop)]
pub(crate) struct Pack {
    entry: DirectoryEntry,
    pointers: Pointers,
}

/// A file in the pack.
#[derive(Drop)]
pub(crate) struct Member {
    /// The octets of its head, and the first ones of its content.
    octets: Vec<u8>,
    /// Its kind, and the serial in its name.
    pub kind: FileKind,
    pub serial: u64,
    /// The number of octets of its content.
    size: u64,
}

impl Member {
    /// The file.
    pub(crate) fn seen(&self) -> Seen<'_> {
        let octets = self.octets.as_slice();
        Seen {
            name: octets.get(1..1 + NAME_SIZE).unwrap_or(&[]),
            size: self.size,
            head: octets.get(HEAD_SIZE..).unwrap_or(&[]),
            home: Home::Pack(self.kind),
        }
    }

    /// The place after it, if it begins at this one.
    pub(crate) fn end(&self, from: u64) -> u64 {
        from.saturating_add(HEAD_SIZE as u64)
            .saturating_add(self.size)
    }
}

/// Whether this is the pack of a volume of this format.
pub(crate) fn is_pack(format: u32, entry: &DirectoryEntry) -> bool {
    format >= FIRST_WITH_PACK && entry.name() == PACK_NAME
}

impl Pack {
    /// The pack of a volume, if there is one; it isn't empty.
    pub(crate) fn of<D: Disk>(
        volume: &mut ReadVolume<D>,
        names: &Names,
    ) -> Result<Option<Pack>, ReadStop> {
        let Some(number) = names.get(&slot_for(PACK_NAME)).copied() else {
            return Ok(None);
        };
        let entry = volume.entry(number)?;
        if !is_pack(volume.sizes.format, &entry) {
            return Ok(None);
        }
        wrong_unless!(volume.alloc; entry.size() > 0, "{entry}, the pack, is empty");
        let pointers = Pointers::of(volume, &entry)?;
        Ok(Some(Pack { entry, pointers }))
    }

    /// The number of octets.
    pub(crate) fn size(&self) -> u64 {
        self.entry.size()
    }

    /// The number of files in it, each of which has the form that it must have.
    pub(crate) fn count<D: Disk>(&mut self, volume: &mut ReadVolume<D>) -> Result<usize, ReadStop> {
        let size = self.size();
        let mut count: usize = 0;
        let mut from = 0;
        // each file takes an octet at least
        for _ in 0..size {
            if from >= size {
                break;
            }
            let member = self.member(volume, from)?;
            count = count.saturating_add(1);
            from = member.end(from);
        }
        Ok(count)
    }

    /// The file that begins at a place before the end of the pack.
    pub(crate) fn member<D: Disk>(
        &mut self,
        volume: &mut ReadVolume<D>,
        from: u64,
    ) -> Result<Member, ReadStop> {
        let alloc = volume.alloc;
        let pack = self.entry;
        let at = Grouped(from);
        let octets = self.octets(volume, from, HEAD_SIZE + BLOCK_SIZE)?;
        wrong_unless!(alloc; octets.len() >= HEAD_SIZE, "{pack} ends in the head of its file at octet {at}");
        let name_size = octets[0];
        wrong_unless!(alloc; name_size as usize == NAME_SIZE,
            "the file at octet {at} of {pack} has a name of {name_size} octets, where one in the pack has {NAME_SIZE}");
        let size = u64::from(number32(&octets, 1 + NAME_SIZE));
        let name = &octets[1..1 + NAME_SIZE];
        let Some((kind, serial)) = packed_kind(name) else {
            wrong!(alloc; "the file at octet {at} of {pack} has a name of no form for a file in the pack");
        };
        let member = Member {
            octets,
            kind,
            serial,
            size,
        };
        wrong_unless!(alloc; member.end(from) <= pack.size(), "{pack} ends in its file at octet {at}");
        Ok(member)
    }

    /// At most `most` octets of the pack, from a place on.
    fn octets<D: Disk>(
        &mut self,
        volume: &mut ReadVolume<D>,
        from: u64,
        most: usize,
    ) -> Result<Vec<u8>, ReadStop> {
        let end = from.saturating_add(most as u64).min(self.size());
        let mut octets = Vec::new(volume.alloc);
        let first = from / BLOCK_SIZE as u64;
        for index in first..end.div_ceil(BLOCK_SIZE as u64) {
            let start = index.saturating_mul(BLOCK_SIZE as u64);
            let Ok(index) = u32::try_from(index) else {
                return Err(ReadStop::Unseen);
            };
            let pointer = self.pointers.get(volume, index)?;
            let block: Block = volume.block(pointer)?;
            let low = from.saturating_sub(start).min(BLOCK_SIZE as u64) as usize;
            let high = end.saturating_sub(start).min(BLOCK_SIZE as u64) as usize;
            octets.extend_from_slice(block.get(low..high).unwrap_or(&[]))?;
        }
        Ok(octets)
    }
}

/// The kind and the serial of the name of a file that may stand in the pack.
fn packed_kind(name: &[u8]) -> Option<(FileKind, u64)> {
    match kind_of(name) {
        Some((kind @ (FileKind::Article | FileKind::Expiry), digits)) => {
            let serial = serial_of(digits)?;
            Some((kind, serial))
        }
        _ => None,
    }
}
