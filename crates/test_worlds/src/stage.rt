//! A world or a device, and what the lines of a script do with it.

use crate::errors::RowError;
use crate::playing::{play, play_line};
use crate::tally::Tally;
use crate::words::read;
use program_script::Line;
use std::alloc::Global;
use std::marker::Model;
use test_support_world::{Device, NotOpened, Sim};

/// A world, or a device that is not open.
pub(crate) struct Stage {
    sim: Option<Sim>,
    device: Option<Device>,
    /// A device with a new volume.
    fresh: Option<Device>,
    /// The answers to device calls since the last planned fault.
    calls: Tally,
    /// The octet that was put last, with the one that was there.
    was: (u64, u8),
    /// The writes and syncs that are not counted.
    zero: (u64, u64),
}

// By hand: a caller would otherwise prove the derived one again, field by field.
impl Drop for Stage {
    fn drop(self) {
        let Stage {
            sim: _,
            device: _,
            fresh: _,
            calls: _,
            was: _,
            zero: _,
        } = self;
    }
}

impl Model for Stage {
    ghost Value = { Unit };

    ghost view = { λ s. tt };
}

impl Stage {
    pub(crate) fn new(alloc: Global) -> Stage {
        Stage {
            sim: None,
            device: None,
            fresh: None,
            calls: Tally::new(alloc),
            was: (0, 0),
            zero: (0, 0),
        }
    }

    pub(crate) fn sim(&self) -> Result<&Sim, RowError> {
        self.sim.as_ref().ok_or(RowError::NoWorld)
    }

    fn take_device(&mut self) -> Result<Device, RowError> {
        self.device.take().ok_or(RowError::NoDevice)
    }

    /// The answers to device calls since the last planned fault.
    pub(crate) fn calls(&self, alloc: Global) -> Result<String, RowError> {
        Ok(self.calls.said(alloc, ", ")?)
    }

    /// A new volume, and a world over it. It takes the device that is there, because a new one costs much time.
    pub(crate) fn renew(&mut self, alloc: Global) -> Result<(), RowError> {
        let mut device = self.any_device(alloc)?;
        let mut fresh = self.fresh_device(alloc)?;
        device.fail_at(0);
        device.copy_volume(alloc, &mut fresh)?;
        self.fresh = Some(fresh);
        self.sim = Some(Sim::over(alloc, device)?);
        self.calls.clear();
        Ok(())
    }

    fn any_device(&mut self, alloc: Global) -> Result<Device, RowError> {
        match self.sim.take() {
            Some(sim) => Ok(sim.into_device()),
            None => match self.device.take() {
                Some(device) => Ok(device),
                None => Ok(Device::new(alloc)?),
            },
        }
    }

    fn fresh_device(&mut self, alloc: Global) -> Result<Device, RowError> {
        match self.fresh.take() {
            Some(device) => Ok(device),
            None => Ok(Device::new(alloc)?),
        }
    }

    pub(crate) fn close(&mut self) -> Result<(), RowError> {
        match self.sim.take() {
            Some(sim) => {
                self.device = Some(sim.into_device());
                Ok(())
            }
            None => Err(RowError::NoWorld),
        }
    }

    /// Opens the device, and answers in words.
    pub(crate) fn open(&mut self, alloc: Global) -> Result<String, RowError> {
        let device = self.take_device()?;
        match Sim::open(alloc, device) {
            Ok(sim) => {
                self.sim = Some(sim);
                Ok(String::from_str(alloc, "opened")?)
            }
            Err(refused) => {
                let NotOpened { device, error } = refused;
                self.device = Some(device);
                Ok(format!(in alloc; "{error}")?)
            }
        }
    }

    /// Crashes the device: each touched octet becomes what the line says.
    pub(crate) fn damage(&mut self, alloc: Global, line: &str) -> Result<(), RowError> {
        match read(alloc, line)? {
            Line::Crash(pick) => {
                let mut device = self.take_device()?;
                device.crash(pick);
                self.device = Some(device);
                Ok(())
            }
            _ => Err(RowError::Unreadable),
        }
    }

    /// Plans a fault.
    pub(crate) fn fail(&mut self, alloc: Global, line: &str) -> Result<(), RowError> {
        self.calls.clear();
        let line = read(alloc, line)?;
        match (&mut self.sim, &mut self.device) {
            (Some(sim), _) => plan(sim, &line),
            (None, Some(device)) => plan_closed(device, &line),
            (None, None) => Err(RowError::NoDevice),
        }
    }

    /// Writes an octet.
    pub(crate) fn put(&mut self, at: u64, octet: u8) -> Result<(), RowError> {
        match &mut self.device {
            Some(device) => {
                let was = device.put(at, octet)?;
                self.was = (at, was);
                Ok(())
            }
            None => Err(RowError::NoDevice),
        }
    }

    /// Writes the octet that was there before the last `put`.
    pub(crate) fn undo(&mut self) -> Result<(), RowError> {
        let (at, octet) = self.was;
        self.put(at, octet)
    }

    pub(crate) fn octet(&mut self, at: u64) -> Result<u8, RowError> {
        match &mut self.device {
            Some(device) => Ok(device.octet(at)?),
            None => Err(RowError::NoDevice),
        }
    }

    /// Counts writes and syncs from now on.
    pub(crate) fn zero(&mut self) -> Result<(), RowError> {
        match &self.device {
            Some(device) => {
                self.zero = device.counts();
                Ok(())
            }
            None => Err(RowError::NoDevice),
        }
    }

    /// The writes and syncs of the device.
    pub(crate) fn counted(&self) -> Result<(u64, u64), RowError> {
        match &self.device {
            Some(device) => {
                let (writes, syncs) = device.counts();
                let (first, second) = self.zero;
                Ok((writes.wrapping_sub(first), syncs.wrapping_sub(second)))
            }
            None => Err(RowError::NoDevice),
        }
    }

    /// Plays lines by `World::run`, and answers how many events it went through.
    pub(crate) fn run(&mut self, alloc: Global, lines: &[String]) -> Result<u64, RowError> {
        match &mut self.sim {
            Some(sim) => Ok(sim.run(alloc, lines)?),
            None => Err(RowError::NoWorld),
        }
    }

    /// Plays lines without their answers.
    pub(crate) fn quietly(&mut self, alloc: Global, lines: &[String]) -> Result<(), RowError> {
        match &mut self.sim {
            Some(sim) => play(alloc, sim, lines, &mut self.calls),
            None => Err(RowError::NoWorld),
        }
    }

    /// Plays a line, and answers what it answers.
    pub(crate) fn tell(&mut self, alloc: Global, line: &str) -> Result<String, RowError> {
        match &mut self.sim {
            Some(sim) => play_line(alloc, sim, line, &mut self.calls),
            None => Err(RowError::NoWorld),
        }
    }
}

/// Plans a fault of the device under a world.
fn plan(sim: &mut Sim, line: &Line) -> Result<(), RowError> {
    match line {
        Line::FailAt(call) => sim.fail_at(*call),
        Line::FailKind(kind, call) => sim.fail_kind(*kind, *call),
        _ => return Err(RowError::Unreadable),
    }
    Ok(())
}

/// Plans a fault of a device.
fn plan_closed(device: &mut Device, line: &Line) -> Result<(), RowError> {
    match line {
        Line::FailAt(call) => device.fail_at(*call),
        Line::FailKind(kind, call) => device.fail_kind(*kind, *call),
        _ => return Err(RowError::Unreadable),
    }
    Ok(())
}
