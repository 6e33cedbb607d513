//! A volume over such a device, its files, and the batches that are committed.

ghost use Rattle.std.specs.Prelude.{IsTrue, IfSome};
ghost use Rattle.model.specs.Files.{HasRoom, IsFileSystem};
ghost use Rattle.fs.specs.Calls.{IsName};

use crate::sparse::Sparse;
use fs::{append, check, create, read_at};
use fs_blocks::{BLOCK_SIZE, Blocks};
use journal::{Journal, Progress};
use journal_layout::{are_below, are_distinct};
use journal_volume::{BATCH_BLOCKS, BatchBuf, Volume};
use std::alloc::Global;
use text_names::is_host;
use volume_new::{FORMAT_3, VolumePlan, are_sizes, device_octets, format};

const HOST: &[u8] = b"news.example";

const INODES: u32 = 64;

const MOST_BLOCKS: u32 = 4_194_304;

/// The most steps to a commit.
const STEPS: u32 = 10_000;

/// The most octets of a file that are read.
const MOST_OCTETS: u64 = 1 << 20;

/// A volume that is open, and the journal of its device.
#[derive(Drop)]
pub(crate) struct Open {
    journal: Journal<Sparse>,
    volume: Volume,
}

/// The plan of a volume. The number is no constant here, because a proof would count with it.
fn plan(blocks: u64) -> Option<VolumePlan<'static>> {
    if !is_host(HOST) || HOST.len() > 64 || !are_sizes(blocks, INODES as u64) {
        return None;
    }
    Some(VolumePlan {
        host: HOST,
        blocks,
        inodes: INODES as u64,
        format: FORMAT_3,
    })
}

/// A device with an empty volume of this many blocks.
pub(crate) fn formatted(alloc: Global, blocks: u64) -> Option<Sparse> {
    let plan = plan(blocks)?;
    let disk = Sparse::new(alloc, device_octets(plan.blocks));
    match format(alloc, disk, &plan) {
        Ok(disk) => Some(disk),
        Err(_) => None,
    }
}

/// Opens a device.
pub(crate) fn opened(alloc: Global, disk: Sparse) -> Option<Open> {
    let Ok(mut journal) = Journal::open(alloc, disk) else {
        return None;
    };
    match journal_loading::open(alloc, &mut journal) {
        Ok(volume) => Some(Open { journal, volume }),
        Err(_) => None,
    }
}

/// The device after a crash.
pub(crate) fn crashed(open: Open) -> Sparse {
    let Open { journal, volume: _ } = open;
    journal.into_disk().crash()
}

fn has_room(volume: &Volume) -> bool
    ensures { IsTrue result → HasRoom 64 volume.now.seen }
{
    let count = volume.len();
    1024 <= count && count <= MOST_BLOCKS
}

/// Whether a volume keeps the rule of blocks.
fn is_sound(alloc: Global, volume: &Volume) -> bool
    ensures room { IsTrue result → HasRoom 64 volume.now.seen }
    ensures rule { IsTrue result → IsFileSystem 64 volume.now.seen }
{
    if !has_room(volume) {
        return false;
    }
    check(alloc, volume, INODES, FORMAT_3).is_ok()
}

fn is_name(name: &[u8]) -> bool
    ensures { IsTrue result → IsName name.now }
{
    1 <= name.len() && name.len() <= 63
}

fn make(alloc: Global, volume: &mut Volume, name: &[u8]) -> Option<u32> {
    if !is_name(name) || !is_sound(alloc, volume) {
        return None;
    }
    create(volume, INODES, name).ok()
}

fn grow(alloc: Global, volume: &mut Volume, name: &[u8], octets: &[u8]) -> Option<()> {
    if !is_name(name) || !is_sound(alloc, volume) {
        return None;
    }
    append(volume, INODES, FORMAT_3, name, octets).ok()
}

/// Makes a file of these octets, which no batch has yet.
pub(crate) fn write_file(alloc: Global, open: &mut Open, name: &[u8], octets: &[u8]) -> Option<()> {
    make(alloc, &mut open.volume, name)?;
    grow(alloc, &mut open.volume, name, octets)?;
    open.volume.apply();
    Some(())
}

/// The octets of a file, if there is one.
pub(crate) fn read_file(alloc: Global, open: &Open, name: &[u8]) -> Option<Vec<u8>> {
    if !is_name(name) || !is_sound(alloc, &open.volume) {
        return None;
    }
    read_at(alloc, &open.volume, INODES, name, 0, MOST_OCTETS).ok()
}

/// Commits what was changed.
pub(crate) fn commit(alloc: Global, open: &mut Open) -> Option<()> {
    let mut batch = BatchBuf::new(alloc).ok()?;
    if open.volume.dirty_len() > BATCH_BLOCKS {
        return None;
    }
    open.volume.copy_dirty(&mut batch);
    begin(&mut open.journal, batch.numbers(), batch.images())?;
    committed(&mut open.journal)
}

fn begin(journal: &mut Journal<Sparse>, numbers: &[u32], images: &[u8]) -> Option<()> {
    if !journal.is_idle() || numbers.is_empty() || BATCH_BLOCKS < numbers.len() {
        return None;
    }
    if !are_below(numbers, journal.blocks()) || !are_distinct(numbers) {
        return None;
    }
    if images.len() != BLOCK_SIZE * numbers.len() {
        return None;
    }
    journal.begin(1, numbers, images);
    Some(())
}

fn committed(journal: &mut Journal<Sparse>) -> Option<()> {
    for _ in 0..STEPS {
        match journal.step() {
            Ok(Progress::Committed(_)) => return Some(()),
            Ok(_) => (),
            Err(_) => return None,
        }
    }
    None
}
