//! Each single call of a kind fails, and the device is opened again: by each pick of a crash, and without a crash.

use std::alloc::Global;
use std::test::Fail;
use test_support_world::{
    Calls, Device, DiskCall, NotOpened, OpenError, Pick, Sim, SimError, batches, claims_all,
    claims_no_more, play, settling, shows,
};

/// What a crash makes of the touched octets; `None` if the device is opened without a crash.
pub(crate) type Again = Option<Pick>;

const WAYS: [Again; 5] = [
    Some(Pick::Old),
    Some(Pick::New),
    Some(Pick::Fill(0x01)),
    Some(Pick::Fill(0x4d)),
    None,
];

/// The k-th way to open a device again; the ways repeat.
pub(crate) fn way(k: u64) -> Again {
    WAYS[(k % 5) as usize]
}

/// Where the count of calls begins; it goes up to the opening at the end.
#[derive(Clone, Copy)]
enum Counted {
    /// From the first batch on. All images are carried home.
    Batches,
    /// From the last commit on, after which the device is opened with eight open segments.
    Opening,
}

/// A call that fails, and how the device is opened again.
#[derive(Clone, Copy)]
struct Case {
    counted: Counted,
    kind: DiskCall,
    call: u64,
    again: Again,
}

/// The outcome of a case.
#[derive(Clone, Copy, Debug, PartialEq)]
enum Outcome {
    /// The call failed, and nothing that was reported as durable is lost.
    Survived,
    /// There are fewer calls than this, and nothing is lost.
    NotMade,
    Lost,
}

pub(crate) fn crashed(device: Device, again: Again) -> Device {
    let mut device = device;
    if let Some(pick) = again {
        device.crash(pick);
    }
    device
}

/// Opens a device, and opens it again if the first opening meets the call that fails.
fn reopened(
    alloc: Global,
    device: Device,
    again: Again,
    calls: &mut Calls,
) -> Result<Sim, SimError> {
    match Sim::open(alloc, crashed(device, again)) {
        Ok(sim) => Ok(sim),
        Err(refused) => {
            let NotOpened { device, error } = refused;
            if error != OpenError::Fault {
                return Err(SimError::NotOpened(error));
            }
            calls.faults = calls.faults.wrapping_add(1);
            Sim::over(alloc, crashed(device, again))
        }
    }
}

/// Plays the script with the call that fails.
fn play_case(alloc: Global, sim: &mut Sim, case: &Case, calls: &mut Calls) -> Result<(), SimError> {
    match case.counted {
        Counted::Batches => {
            sim.fail_kind(case.kind, case.call);
            play(alloc, sim, batches(), calls)?;
            play(alloc, sim, settling(), calls)
        }
        Counted::Opening => {
            play(alloc, sim, batches(), calls)?;
            sim.fail_kind(case.kind, case.call);
            Ok(())
        }
    }
}

/// Plays the script over a device with a new volume, and answers whether no released reply claims more than was
/// committed. Without a fault the replies must claim everything.
fn played(
    alloc: Global,
    device: Device,
    case: &Case,
    calls: &mut Calls,
) -> Result<(Device, bool), SimError> {
    let mut sim = Sim::over(alloc, device)?;
    play_case(alloc, &mut sim, case, calls)?;
    let is_held = claims_no_more(&sim, *calls) && (calls.faults > 0 || claims_all(&sim));
    Ok((sim.into_device(), is_held))
}

/// Whether a world shows what was committed, and continues.
fn is_right(alloc: Global, sim: &mut Sim, commits: u64) -> Result<bool, SimError> {
    let is_shown = shows(alloc, sim, commits)?;
    let joined = sim.tell(alloc, "join")?;
    Ok(is_shown && joined.as_str() == "joined 1")
}

/// Opens the device again, and answers whether it shows what was committed. After another crash an opening shows the
/// same: it syncs first.
fn opened(
    alloc: Global,
    device: Device,
    case: &Case,
    calls: &mut Calls,
) -> Result<(Device, bool), SimError> {
    let mut sim = reopened(alloc, device, case.again, calls)?;
    let is_first_right = is_right(alloc, &mut sim, calls.commits)?;
    let (shown, _, _) = sim.counts();
    let mut device = sim.into_device();
    device.fail_kind(case.kind, 0);
    if case.again.is_some() {
        return Ok((device, is_first_right));
    }
    let mut sim = Sim::over(alloc, crashed(device, Some(Pick::Old)))?;
    let is_second_right = is_right(alloc, &mut sim, shown)?;
    Ok((sim.into_device(), is_first_right && is_second_right))
}

fn came_to(alloc: Global, device: Device, case: &Case) -> Result<(Device, Outcome), SimError> {
    let mut calls = Calls::none();
    let (device, is_held) = played(alloc, device, case, &mut calls)?;
    let (device, is_shown) = opened(alloc, device, case, &mut calls)?;
    let outcome = match (is_held && is_shown, calls.faults) {
        (true, 0) => Outcome::NotMade,
        (true, 1) => Outcome::Survived,
        _ => Outcome::Lost,
    };
    Ok((device, outcome))
}

/// More calls of a kind than are made.
const MANY: u64 = 1000;

/// Fails the first call of a kind, then the second, and so on. It answers the first case with another outcome than
/// survival: how many calls came before it, and the outcome.
fn first_other(
    alloc: Global,
    counted: Counted,
    kind: DiskCall,
    again: Again,
) -> Result<(u64, Outcome), SimError> {
    let mut fresh = Device::new(alloc)?;
    let mut device = Device::new(alloc)?;
    for before in 0..MANY {
        device.copy_volume(alloc, &mut fresh)?;
        let case = Case {
            counted,
            kind,
            call: before.wrapping_add(1),
            again,
        };
        let (next, outcome) = came_to(alloc, device, &case)?;
        device = next;
        if outcome != Outcome::Survived {
            return Ok((before, outcome));
        }
    }
    Ok((MANY, Outcome::Survived))
}

/// Whether each of exactly this many calls of a kind is survived, in each way to open the device again. Answers the
/// first other case.
fn first_lost(
    alloc: Global,
    counted: Counted,
    kind: DiskCall,
    made: u64,
) -> Result<Option<(Again, u64, Outcome)>, SimError> {
    for k in 0..5 {
        let (before, outcome) = first_other(alloc, counted, kind, way(k))?;
        if before != made || outcome != Outcome::NotMade {
            return Ok(Some((way(k), before, outcome)));
        }
    }
    Ok(None)
}

// the images of eight batches, 46 in all, their descriptors and gates, the images carried home, and the epoch
#[test]
fn a_fault_at_each_write(rt: HostRuntime) -> Result<(), Fail> {
    let lost = first_lost(rt.alloc(), Counted::Batches, DiskCall::Write, 109)?;
    assert!(rt; lost.is_none(), "{lost:?}");
    Ok(())
}

// two for each batch, one for the images at home, one for the epoch, and the one of the opening
#[test]
fn a_fault_at_each_sync(rt: HostRuntime) -> Result<(), Fail> {
    let lost = first_lost(rt.alloc(), Counted::Batches, DiskCall::Sync, 19)?;
    assert!(rt; lost.is_none(), "{lost:?}");
    Ok(())
}

#[test]
fn a_fault_at_each_write_of_an_opening(rt: HostRuntime) -> Result<(), Fail> {
    let lost = first_lost(rt.alloc(), Counted::Opening, DiskCall::Write, 47)?;
    assert!(rt; lost.is_none(), "{lost:?}");
    Ok(())
}

#[test]
fn a_fault_at_each_sync_of_an_opening(rt: HostRuntime) -> Result<(), Fail> {
    let lost = first_lost(rt.alloc(), Counted::Opening, DiskCall::Sync, 3)?;
    assert!(rt; lost.is_none(), "{lost:?}");
    Ok(())
}
