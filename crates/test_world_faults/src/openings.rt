//! Each read of an opening fails. The calls of the script read nothing else.

use crate::failing::{crashed, way};
use std::alloc::Global;
use std::test::Fail;
use test_support_world::{
    Device, DiskCall, NotOpened, OpenError, Sim, SimError, batches, shows, with_open_segments,
};

/// The device after an opening, and whether that showed the whole script.
fn reopened(alloc: Global, device: Device) -> Result<(Device, bool), SimError> {
    let sim = Sim::over(alloc, device)?;
    let is_shown = shows(alloc, &sim, 8)?;
    Ok((sim.into_device(), is_shown))
}

/// The device after an opening in which this read fails, and whether it was refused for that. It is opened if it has
/// fewer reads.
fn refused(alloc: Global, device: Device, call: u64) -> Result<(Device, bool), SimError> {
    let mut device = crashed(device, way(call));
    device.fail_kind(DiskCall::Read, call);
    match Sim::open(alloc, device) {
        Ok(sim) => Ok((sim.into_device(), false)),
        Err(refused) => {
            let NotOpened { device, error } = refused;
            if error == OpenError::Fault {
                return Ok((device, true));
            }
            Err(SimError::NotOpened(error))
        }
    }
}

/// Opens a device with the first read failing, then with the second, and so on, up to `most`. Answers how many reads
/// there are.
fn refused_at_each(alloc: Global, device: Device, most: u64) -> Result<(Device, u64), SimError> {
    let mut device = device;
    for before in 0..most {
        let (next, is_refused) = refused(alloc, device, before.wrapping_add(1))?;
        device = next;
        if !is_refused {
            device.fail_kind(DiskCall::Read, 0);
            return Ok((device, before));
        }
    }
    Ok((device, most))
}

/// The reads while segments are open: the superblock, the eight gates, and the descriptors and images of the segments.
const OF_OPEN_SEGMENTS: u64 = 63;

/// The reads while no segment is open: the superblock, the eight gates and the logical blocks, in four pieces.
const OF_CLOSED_SEGMENTS: u64 = 13;

#[test]
fn a_fault_at_each_read_of_an_opening(rt: HostRuntime) -> Result<(), Fail> {
    let alloc = rt.alloc();
    let device = with_open_segments(alloc, batches())?;
    let (before, _) = device.counts();
    let (device, open) = refused_at_each(alloc, device, OF_OPEN_SEGMENTS)?;
    let (still, _) = device.counts();
    let (device, is_first_whole) = reopened(alloc, device)?;
    let (written, _) = device.counts();
    let (device, closed) = refused_at_each(alloc, device, 2000)?;
    let (_, is_last_whole) = reopened(alloc, device)?;
    assert!(rt; is_first_whole && is_last_whole, "{is_first_whole}");
    assert_eq!(rt; (open, closed), (OF_OPEN_SEGMENTS, OF_CLOSED_SEGMENTS));
    assert_eq!(rt;
        (still.wrapping_sub(before), written.wrapping_sub(still)),
        (0, 47)
    );
    Ok(())
}

// everything is carried home before the first logical block is read
#[test]
fn a_fault_at_a_logical_block(rt: HostRuntime) -> Result<(), Fail> {
    let alloc = rt.alloc();
    let (device, is_refused) = refused(
        alloc,
        with_open_segments(alloc, batches())?,
        OF_OPEN_SEGMENTS + 1,
    )?;
    let (before, _) = device.counts();
    let (device, is_whole) = reopened(alloc, device)?;
    let (after, _) = device.counts();
    assert!(rt;
        is_refused && is_whole && after == before,
        "{is_refused} {is_whole}"
    );
    Ok(())
}
