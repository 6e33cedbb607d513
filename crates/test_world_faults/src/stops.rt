//! The script is stopped after each step of its journal, and the device crashes by each pick. For each stop it is
//! stated which changes are opened. The checkpoint at the end closes all segments by the other epoch, so each pick is
//! played on a volume of each epoch.

use std::alloc::Global;
use std::test::Fail;
use test_support_world::{
    Calls, Device, Pick, Sim, SimError, batches, claims_committed, play, settling, shows,
};

/// The step that commits each batch, a sync. In the step before it the batch's gate is opened.
const COMMITS: [u64; 8] = [8, 19, 29, 39, 49, 59, 69, 79];

/// All steps of the script: 127 device calls, and one step that finds nothing to do, after the first batch.
const STEPS: u64 = 128;

/// The place of the epoch.
const EPOCH_AT: u64 = 150;

/// What a crash makes of a gate whose opening is not synced.
#[derive(Clone, Copy, PartialEq)]
enum Gate {
    Closed,
    Open,
}

/// The number of changes that are opened after a stop and a crash: those that were committed, and also the one whose
/// gate was opened last if the crash leaves that gate open.
fn changes_after(steps: u64, gate: Gate) -> u64 {
    let last = match gate {
        Gate::Closed => steps,
        Gate::Open => steps.wrapping_add(1),
    };
    COMMITS.iter().filter(|commit| **commit <= last).count() as u64
}

/// Plays the script over a device with a new volume, stops it after this many steps, and crashes the device. It answers
/// whether the device shows exactly what it must, and no reply claimed more than was committed.
fn stopped(
    alloc: Global,
    device: Device,
    steps: u64,
    pick: Pick,
    changes: u64,
) -> Result<(Device, bool), SimError> {
    let mut calls = Calls::up_to(steps);
    let mut sim = Sim::over(alloc, device)?;
    play(alloc, &mut sim, batches(), &mut calls)?;
    play(alloc, &mut sim, settling(), &mut calls)?;
    let is_held = calls.is_stopped() && claims_committed(&sim, calls);
    let sim = sim.crash(alloc, pick)?;
    let is_shown = shows(alloc, &sim, calls.commits)?
        && sim.counts() == (changes, changes, changes);
    Ok((sim.into_device(), is_held && is_shown))
}

/// The first step after which the opened changes are not the expected ones. The new volume has this epoch.
fn first_wrong(alloc: Global, epoch: u8, pick: Pick, gate: Gate) -> Result<Option<u64>, SimError> {
    let mut fresh = Device::new(alloc)?;
    fresh.put(EPOCH_AT, epoch)?;
    let mut device = Device::new(alloc)?;
    for steps in 1..=STEPS {
        device.copy_volume(alloc, &mut fresh)?;
        let changes = changes_after(steps, gate);
        let (next, is_right) = stopped(alloc, device, steps, pick, changes)?;
        device = next;
        if !is_right {
            return Ok(Some(steps));
        }
    }
    Ok(None)
}

/// Fails with the first step after which the opened changes are not the expected ones.
fn are_right(alloc: Global, epoch: u8, pick: Pick, gate: Gate) -> Result<(), Fail> {
    if let Some(step) = first_wrong(alloc, epoch, pick, gate)? {
        return Err(step)?;
    }
    Ok(())
}

#[test]
fn all_steps_of_the_script(rt: HostRuntime) -> Result<(), Fail> {
    let mut sim = Sim::new(rt.alloc())?;
    let mut calls = Calls::none();
    play(rt.alloc(), &mut sim, batches(), &mut calls)?;
    play(rt.alloc(), &mut sim, settling(), &mut calls)?;
    assert_eq!(rt; (calls.steps, calls.commits, calls.faults), (STEPS, 8, 0));
    Ok(())
}

#[test]
fn a_stop_after_each_step_that_keeps_the_old_octets(rt: HostRuntime) -> Result<(), Fail> {
    are_right(rt.alloc(), 1, Pick::Old, Gate::Closed)
}

#[test]
fn a_stop_after_each_step_that_takes_the_new_octets(rt: HostRuntime) -> Result<(), Fail> {
    are_right(rt.alloc(), 1, Pick::New, Gate::Open)
}

#[test]
fn a_stop_after_each_step_that_leaves_zeros(rt: HostRuntime) -> Result<(), Fail> {
    are_right(rt.alloc(), 1, Pick::Fill(0), Gate::Closed)
}

#[test]
fn a_stop_after_each_step_that_leaves_ones(rt: HostRuntime) -> Result<(), Fail> {
    are_right(rt.alloc(), 1, Pick::Fill(1), Gate::Open)
}

#[test]
fn a_stop_after_each_step_that_leaves_twos(rt: HostRuntime) -> Result<(), Fail> {
    are_right(rt.alloc(), 1, Pick::Fill(2), Gate::Closed)
}

#[test]
fn a_stop_after_each_step_that_leaves_other_octets(rt: HostRuntime) -> Result<(), Fail> {
    are_right(rt.alloc(), 1, Pick::Fill(0x4d), Gate::Closed)
}

#[test]
fn a_stop_after_each_step_that_keeps_the_old_octets_in_epoch_2(
    rt: HostRuntime,
) -> Result<(), Fail> {
    are_right(rt.alloc(), 2, Pick::Old, Gate::Closed)
}

#[test]
fn a_stop_after_each_step_that_takes_the_new_octets_in_epoch_2(
    rt: HostRuntime,
) -> Result<(), Fail> {
    are_right(rt.alloc(), 2, Pick::New, Gate::Open)
}

#[test]
fn a_stop_after_each_step_that_leaves_zeros_in_epoch_2(rt: HostRuntime) -> Result<(), Fail> {
    are_right(rt.alloc(), 2, Pick::Fill(0), Gate::Closed)
}

#[test]
fn a_stop_after_each_step_that_leaves_ones_in_epoch_2(rt: HostRuntime) -> Result<(), Fail> {
    are_right(rt.alloc(), 2, Pick::Fill(1), Gate::Closed)
}

#[test]
fn a_stop_after_each_step_that_leaves_twos_in_epoch_2(rt: HostRuntime) -> Result<(), Fail> {
    are_right(rt.alloc(), 2, Pick::Fill(2), Gate::Open)
}

#[test]
fn a_stop_after_each_step_that_leaves_other_octets_in_epoch_2(rt: HostRuntime) -> Result<(), Fail> {
    are_right(rt.alloc(), 2, Pick::Fill(0x4d), Gate::Closed)
}
