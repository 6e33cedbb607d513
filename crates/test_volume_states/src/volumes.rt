//! A spool in memory, together with the octets of a device that holds its blocks.

ghost use Rattle.std.specs.Prelude.{IsTrue};
ghost use Rattle.model.specs.Files.{HasRoom};

use fs_blocks::{BLOCK_SIZE, Blocks};
use journal_volume::Volume;
use spool_reading::ReadSpoolError;
use std::alloc::Global;
use std::test::Fail;
use test_support_spool::{Answer, Call, Stored, make};
use volume_states::{VolumeStatus, volume_status};

/// The inodes and the blocks of the volumes of `Stored`.
const INODES: u32 = 64;

const COUNT: u32 = 1024;

/// The octets of the volume after some calls, whose answers are ignored. Each call is a batch.
pub(crate) fn octets_after(alloc: Global, calls: &[Call<'_>]) -> Result<Vec<u8>, Fail> {
    let Ok(mut stored) = Stored::new(alloc) else {
        return Err("no spool")?;
    };
    for call in calls {
        if let Answer::Memory = make(alloc, &mut stored, *call) {
            return Err("memory")?;
        }
        if stored.carry().is_none() {
            return Err("too much at once")?;
        }
    }
    Ok(stored.octets().to_vec(alloc)?)
}

/// Whether a volume has room for a spool.
fn has_room(volume: &Volume) -> bool
    ensures { IsTrue result → HasRoom 64 volume.now.seen }
{
    let count = volume.len();
    1024 <= count && count <= 65_536
}

/// The state of a volume of this format with these octets, under this host.
pub(crate) fn state_of(
    alloc: Global,
    octets: Vec<u8>,
    format: u32,
    host: &[u8],
) -> Result<VolumeStatus, ReadSpoolError> {
    if octets.len() != COUNT as usize * BLOCK_SIZE {
        return Err(ReadSpoolError::Memory);
    }
    let volume = Volume::of(alloc, octets, COUNT)?;
    if !has_room(&volume) {
        return Err(ReadSpoolError::Memory);
    }
    volume_status(alloc, &volume, INODES, format, host)
}
