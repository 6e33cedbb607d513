//! Opens the volume on a device.

ghost use Rattle.std.specs.Prelude.{MatchResult, ◌≤◌, ◌⊎◌, OnOk, IfOk, IfErr, IsTrue, ◌≡◌, ◌+◌, ◌<◌, [], true, false, length, slice_index};
ghost use Rattle.std.specs.Prelude.{sum};
ghost use Rattle.disk.specs.Device.{Elapses, LeavesOnly};
ghost use Rattle.model.specs.Volume.{StandsFor, format_number, open_segments};
ghost use Rattle.journal_segments.specs.Staged.{staged_at};
ghost use Rattle.journal_segments.specs.Found.{IsQuiet, IsStill};
ghost use Rattle.journal.specs.Inside.{IsFound, IsSynced, IsVolume, LeftAs};
ghost use Rattle.journal.specs.Journal.{IsCaused, IsDuring, IsReady, LeavesAdmitted, HasWholeBlocks, sizes, still_open};
ghost use Rattle.journal_segments.specs.Found.{Rejects};
ghost use Rattle.journal.specs.Order.{closings};
ghost use Rattle.journal.specs.Opening.{Costs, IsMore, NeverSyncs, Opens, Refuses, SyncsFirst, home_syncs, home_writes};

use crate::{Journal, JournalError, Next, Refused};
use disk::{Disk, DiskError};
use disk_numbers::zeros;
use journal_layout::layout::{BLOCK, SEGMENTS};
use journal_segments::{Segment, SegmentError, find_open, load_superblock};
use std::alloc::{AllocError, Global};

impl<D: Disk> Journal<D> {
    /// Opens the volume on the device: one sync, then the reads. The images of the open segments are carried home in
    /// rising batch number and these are closed, as in the second half of a batch. All the memory that the
    /// journal needs is taken here, before the first call.
    ///
    /// `Fault` if the device failed in this call; `Memory` if an allocation was refused, here or to the device.
    /// `NotAVolume` if the length, the superblock or an open segment's descriptor is not valid, or two open segments
    /// share a batch number. Each refusal returns the device, which may be opened again as it is. A crash at any moment
    /// leaves the logical blocks of an image that a crash at the start might have left. From the first good sync on
    /// they are those that a read gives.
    pub fn open(alloc: Global, disk: D) -> Result<Journal<D>, Refused<D>>
        ensures ok { IfOk result (Opens D.device disk) }
        ensures err { IfErr result (λ refused. Refuses D.device disk refused.disk refused.error) }
        ensures moment { MatchResult result (λ journal. SyncsFirst D.device disk journal.disk)
            (λ refused. SyncsFirst D.device disk refused.disk ⊎ NeverSyncs D.device disk refused.disk) }
        ensures judged { IfErr result (λ refused. refused.error ≡ JournalError.NotAVolume → SyncsFirst D.device disk refused.disk) }
        ensures cost { IsTrue (D.device disk).tells
            → IfOk result (λ journal. Costs 1 (D.device disk).content (D.device disk) (D.device journal.disk)) }
    {
        match Room::new(alloc) {
            Ok(room) => open_in(room, disk),
            Err(_) => Err(Refused {
                disk,
                error: JournalError::Memory,
            }),
        }
    }
}

// The room that a journal needs.
#[derive(Drop)]
struct Room {
    superblock: Vec<u8>,
    segments: Vec<Segment>,
    ghost superblock_size: { length superblock.items ≡ 4096 },
    ghost many: { length segments.items ≡ 8 },
    ghost place: { (staged_at segments.items 0).place ≡ 0 },
}

impl Room {
    fn new(alloc: Global) -> Result<Room, AllocError> {
        let superblock = zeros(alloc, BLOCK)?;
        let segments = room_for_all(alloc)?;
        Ok(Room {
            superblock,
            segments,
        })
    }
}

fn room_for_all(alloc: Global) -> Result<Vec<Segment>, AllocError>
    ensures many { IfOk result (λ room. length room.items ≡ 8) }
    ensures place { IfOk result (λ room. (staged_at room.items 0).place ≡ 0) }
{
    let mut room = Vec::new(alloc);
    for place in 0..SEGMENTS {
        room.push(Segment::new(alloc, place)?)?;
    }
    Ok(room)
}

// Truncates the room to the first n.
fn leave_first(room: &mut Vec<Segment>, n: usize)
    requires some { 0 < n }
    requires few { n ≤ length room.old.items }
    ensures count { length room.new.items ≡ n }
    ensures first { staged_at room.new.items 0 ≡ staged_at room.old.items 0 }
{
    room.truncate(n);
}

fn open_in<D: Disk>(room: Room, mut disk: D) -> Result<Journal<D>, Refused<D>>
    ensures ok { IfOk result (Opens D.device disk) }
    ensures err { IfErr result (λ refused. Refuses D.device disk refused.disk refused.error) }
    ensures moment { MatchResult result (λ journal. SyncsFirst D.device disk journal.disk)
        (λ refused. SyncsFirst D.device disk refused.disk ⊎ NeverSyncs D.device disk refused.disk) }
    ensures judged { IfErr result (λ refused. refused.error ≡ JournalError.NotAVolume → SyncsFirst D.device disk refused.disk) }
    ensures cost { IsTrue (D.device disk).tells
        → IfOk result (λ journal. Costs 1 (D.device disk).content (D.device disk) (D.device journal.disk)) }
{
    match sync_first(&mut disk) {
        Ok(()) => open_synced(room, disk),
        Err(error) => Err(Refused { disk, error }),
    }
}

// Opens the volume on a device that was synced.
fn open_synced<D: Disk>(room: Room, mut disk: D) -> Result<Journal<D>, Refused<D>>
    requires { IsTrue (D.device disk).tells → LeavesOnly (D.device disk) (D.device disk).content }
    ensures cost { IsTrue (D.device disk).tells
        → IfOk result (λ journal. Costs 0 (D.device disk).content (D.device disk) (D.device journal.disk)) }
    ensures ok { IfOk result (Opens D.device disk) }
    ensures err { IfErr result (λ refused. Refuses D.device disk refused.disk refused.error) }
{
    let Room {
        mut superblock,
        mut segments,
    } = room;
    match load(&mut disk, &mut superblock, &mut segments) {
        Ok((blocks, 0)) => Ok(at_rest(disk, superblock, blocks, segments)),
        Ok((blocks, found)) => replay(to_be_replayed(disk, superblock, blocks, segments, found)),
        Err(error) => Err(Refused {
            disk,
            error: JournalError::from(error),
        }),
    }
}

fn replay<D: Disk>(mut journal: Journal<D>) -> Result<Journal<D>, Refused<D>>
    // The journal is about to carry images home, and a crash leaves what it admits.
    requires next { journal.next ≡ Next.Home 0 0 }
    requires running { journal.halted ≡ false }
    requires some { (0 < length (sizes journal).counts) × (0 < slice_index (sizes journal).counts 0) }
    requires now { LeavesAdmitted D.device journal }

    // What this costs, and a ready journal with the same blocks.
    ensures cost { IfOk result (λ after. IsMore (sum (sizes journal).counts + closings (sizes journal)) (D.device journal.disk).writes
        (D.device after.disk).writes × IsMore (1 + closings (sizes journal)) (D.device journal.disk).syncs (D.device after.disk).syncs) }
    ensures ok { IfOk result (λ after. IsReady after × IsDuring D.device journal after
        × ((D.device after.disk).failures ≡ (D.device journal.disk).failures)) }

    // A refusal has a cause in the device, which still holds the volume.
    ensures err { IfErr result (λ refused. IsCaused refused.error (D.device journal.disk) (D.device refused.disk)
        × Elapses (D.device journal.disk) (D.device refused.disk)
        × LeftAs (D.device journal.disk) (D.device refused.disk) journal.format journal.label journal.blocks) }
    ensures left { IfErr result (λ refused. IsTrue (D.device journal.disk).tells
        → IsVolume journal.format journal.label journal.blocks (D.device refused.disk).content) }
{
    match journal.carry_home() {
        Ok(()) => Ok(journal),
        Err(error) => Err(Refused {
            disk: journal.into_disk(),
            error,
        }),
    }
}

// A journal whose segments are all closed.
fn at_rest<D: Disk>(disk: D, superblock: Vec<u8>, blocks: u64, room: Vec<Segment>) -> Journal<D>
    // The opening found no open segment.
    requires found { IsFound (D.device disk) superblock.items blocks room.items 0 }

    // The same device, and nothing in flight or to be carried home.
    ensures disk { result.disk ≡ disk }
    ensures none { IsTrue (D.device disk).tells → open_segments (D.device disk).content ≡ [] }
    ensures next { result.next ≡ Next.Idle }
    ensures rest { still_open result ≡ [] }
    ensures running { result.halted ≡ false }

    // The device's content stands for the blocks, and so does what a crash leaves.
    ensures stands { IsTrue (D.device disk).tells → StandsFor (D.device disk).content result.label result.blocks }
    ensures format { IsTrue (D.device disk).tells → format_number (D.device disk).content ≡ result.format }
    ensures whole { HasWholeBlocks D.device result }
    ensures now { LeavesAdmitted D.device result }
{
    Journal {
        disk,
        superblock,
        blocks,
        next: Next::Idle,
        halted: false,
        room,
        filled: 0,
        is_last: true, // no segment counts as open
    }
}

// A journal with open segments, whose images are still to be carried home.
fn to_be_replayed<D: Disk>(
    disk: D,
    superblock: Vec<u8>,
    blocks: u64,
    room: Vec<Segment>,
    found: usize,
) -> Journal<D>
    // The opening found open segments.
    requires some { 0 < found }
    requires found { IsFound (D.device disk) superblock.items blocks room.items found }

    // The same device, and the writes and syncs that the replay makes.
    ensures disk { result.disk ≡ disk }
    ensures open { IsTrue (D.device disk).tells
        → home_writes (D.device disk).content (open_segments (D.device disk).content)
        ≡ sum (sizes result).counts + closings (sizes result) }
    ensures syncs { IsTrue (D.device disk).tells
        → home_syncs (D.device disk).content (open_segments (D.device disk).content) ≡ 1 + closings (sizes result) }

    // The next call writes the first image home.
    ensures next { result.next ≡ Next.Home 0 0 }
    ensures rest { result.is_last ≡ true }
    ensures running { result.halted ≡ false }
    ensures some { (0 < length (sizes result).counts) × (0 < slice_index (sizes result).counts 0) }

    // The device's content stands for the blocks, and so does what a crash leaves.
    ensures stands { IsTrue (D.device disk).tells → StandsFor (D.device disk).content result.label result.blocks }
    ensures format { IsTrue (D.device disk).tells → format_number (D.device disk).content ≡ result.format }
    ensures whole { HasWholeBlocks D.device result }
    ensures now { LeavesAdmitted D.device result }
{
    Journal {
        disk,
        superblock,
        blocks,
        next: Next::Home(0, 0),
        halted: false,
        room,
        filled: found - 1,
        is_last: true,
    }
}

// Reads the number of logical blocks and the open segments of the volume.
fn load<D: Disk>(
    disk: &mut D,
    superblock: &mut Vec<u8>,
    room: &mut Vec<Segment>,
) -> Result<(u64, usize), SegmentError>
    // Room for a superblock and eight segments, and a device that was synced.
    requires superblock { length superblock.old.items ≡ 4096 }
    requires many { length room.old.items ≡ 8 }
    requires place { (staged_at room.old.items 0).place ≡ 0 }
    requires synced { IsTrue (D.device disk.old).tells → LeavesOnly (D.device disk.old) (D.device disk.old).content }

    // The device is only read, and after `Ok` no read has failed.
    ensures quiet { IsQuiet (D.device disk.old) (D.device disk.new) }
    ensures still { OnOk result (IsStill (D.device disk.old) (D.device disk.new)) }

    // What was found, or the cause of a refusal.
    ensures found { IfOk result (λ found. IsFound (D.device disk.new) superblock.new.items found.0 room.new.items found.1) }
    ensures err { IfErr result (λ error. Rejects error (D.device disk.old) (D.device disk.new)) }
{
    match load_superblock(disk, superblock) {
        Ok(volume) => {
            leave_first(room, volume.segments as usize);
            match find_open(disk, volume, room) {
                Ok(found) => Ok((volume.blocks, found)),
                Err(error) => Err(error),
            }
        }
        Err(error) => Err(error),
    }
}

fn sync_first<D: Disk>(disk: &mut D) -> Result<(), JournalError>
    ensures quiet { IsQuiet (D.device disk.old) (D.device disk.new) }
    ensures synced { OnOk result (IsSynced (D.device disk.old) (D.device disk.new)) }
    ensures durable { IsTrue (D.device disk.old).tells → OnOk result (LeavesOnly (D.device disk.new) (D.device disk.old).content) }
    ensures cause { IfErr result (λ error. IsCaused error (D.device disk.old) (D.device disk.new)) }
    ensures left { IsTrue (D.device disk.old).tells
        → IfErr result (λ error. error ≡ JournalError.Memory → (D.device disk.new).content ≡ (D.device disk.old).content) }
{
    match disk.sync() {
        Ok(()) => Ok(()),
        Err(DiskError::Fault) => Err(JournalError::Fault),
        Err(DiskError::Memory) => Err(JournalError::Memory),
    }
}
