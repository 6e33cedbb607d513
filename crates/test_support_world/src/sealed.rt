//! A device and a world over it, sealed: the proof of a caller learns nothing about them.

use crate::copying::Room;
use crate::errors::SimError;
use crate::events::{event, said, traced};
use disk::{Disk, DiskCall, Faults};
use disk_memory::{MemDisk, Pick};
use journal_layout::layout::BLOCK;
use kernel_shared::SESSIONS;
use model::Part;
use session_lookups::LookUps;
use std::alloc::Global;
use std::marker::Model;
use text_names::is_host;
use volume_new::{FORMAT_3, VolumePlan, are_sizes, device_octets, format};
use world::{Event, OpenError, Refused, StepAnswer, StepError, World};

/// The logical blocks of the device.
const BLOCKS: u64 = 1024;

const INODES: u64 = 64;

const HOST: &[u8] = b"news.example";

/// A device in memory.
pub struct Device {
    disk: MemDisk,
}

// By hand: a caller would otherwise prove the derived one again, field by field.
impl Drop for Device {
    fn drop(self) {
        let Device { disk: _ } = self;
    }
}

impl Model for Device {
    ghost Value = { Unit };

    ghost view = { λ d. tt };
}

impl Device {
    /// A device with a new volume of `BLOCKS` blocks, whose label states 64 inodes and the host `news.example`.
    pub fn new(alloc: Global) -> Result<Device, SimError> {
        match plan(BLOCKS) {
            Some(plan) => formatted(alloc, &plan),
            None => Err(SimError::NotMade),
        }
    }

    fn into_disk(self) -> MemDisk {
        let Device { disk } = self;
        disk
    }

    /// The numbers of writes and syncs that were asked of it since it was made.
    pub fn counts(&self) -> (u64, u64) {
        self.disk.counts()
    }

    /// Makes the n-th device call from now on fail.
    pub fn fail_at(&mut self, call: u64) {
        self.disk.fail_at(call);
    }

    /// Makes the n-th device call of this kind from now on fail; 0 fails none.
    pub fn fail_kind(&mut self, kind: DiskCall, call: u64) {
        self.disk.fail_kind(kind, call);
    }

    /// Crashes the device: each touched octet becomes what the pick says.
    pub fn crash(&mut self, pick: Pick) {
        self.disk.crash(&[pick]);
    }

    /// Writes an octet, and answers the one that was there.
    pub fn put(&mut self, at: u64, octet: u8) -> Result<u8, SimError> {
        if at >= self.disk.len() {
            return Err(SimError::NoPlace);
        }
        let mut was = [0];
        if self.disk.read(at, &mut was).is_err() || self.disk.write(at, &[octet]).is_err() {
            return Err(SimError::NoPlace);
        }
        Ok(was[0])
    }

    /// An octet.
    pub fn octet(&mut self, at: u64) -> Result<u8, SimError> {
        let mut octet = [0];
        if at >= self.disk.len() || self.disk.read(at, &mut octet).is_err() {
            return Err(SimError::NoPlace);
        }
        Ok(octet[0])
    }

    /// Makes each block equal to that of another device.
    pub fn copy_volume(&mut self, alloc: Global, from: &mut Device) -> Result<(), SimError> {
        let mut room = Room::new(alloc)?;
        for block in 0..self.disk.len() / BLOCK as u64 {
            room.copy(&mut from.disk, &mut self.disk, block)?;
        }
        Ok(())
    }
}

/// The plan of a volume with this many blocks. The number is not a constant here, because a proof would count with it.
fn plan(blocks: u64) -> Option<VolumePlan<'static>> {
    if !is_host(HOST) || !are_sizes(blocks, INODES) {
        return None;
    }
    Some(VolumePlan {
        host: HOST,
        blocks,
        inodes: INODES,
        format: FORMAT_3,
    })
}

/// A device with a new volume.
fn formatted(alloc: Global, plan: &VolumePlan<'_>) -> Result<Device, SimError> {
    let disk = MemDisk::new(alloc, device_octets(plan.blocks))?;
    match format(alloc, disk, plan) {
        Ok(disk) => Ok(Device { disk }),
        Err(_) => Err(SimError::NotMade),
    }
}

/// A world over a device in memory.
pub struct Sim {
    world: World<MemDisk>,
}

impl Drop for Sim {
    fn drop(self) {
        let Sim { world: _ } = self;
    }
}

impl Model for Sim {
    ghost Value = { Unit };

    ghost view = { λ s. tt };
}

/// A device that was not opened, and why.
#[derive(Drop)]
pub struct NotOpened {
    pub device: Device,
    pub error: OpenError,
}

impl Sim {
    /// Opens a device.
    pub fn open(alloc: Global, device: Device) -> Result<Sim, NotOpened> {
        match opened(alloc, device.into_disk()) {
            Ok(world) => Ok(Sim { world }),
            Err(refused) => {
                let Refused { disk, error } = refused;
                Err(NotOpened {
                    device: Device { disk },
                    error,
                })
            }
        }
    }

    /// Opens a device whose opening must succeed.
    pub fn over(alloc: Global, device: Device) -> Result<Sim, SimError> {
        match Sim::open(alloc, device) {
            Ok(sim) => Ok(sim),
            Err(refused) => Err(SimError::NotOpened(refused.error)),
        }
    }

    /// Over a device with a new volume.
    pub fn new(alloc: Global) -> Result<Sim, SimError> {
        Sim::over(alloc, Device::new(alloc)?)
    }

    /// Crashes the device, each touched octet becoming what this pick says, and opens it again.
    pub fn crash(self, alloc: Global, pick: Pick) -> Result<Sim, SimError> {
        let mut device = self.into_device();
        device.crash(pick);
        Sim::over(alloc, device)
    }

    pub fn into_device(self) -> Device {
        let Sim { world } = self;
        Device {
            disk: world.into_disk(),
        }
    }

    /// Does what a line asks, and answers in words.
    pub fn tell(&mut self, alloc: Global, line: &str) -> Result<String, SimError> {
        let event = event(alloc, line)?;
        Ok(said(alloc, stepped(alloc, &mut self.world, &event))?)
    }

    /// Makes all changes durable and hands out all replies by `World::drain`, and answers in words.
    pub fn drain(&mut self, alloc: Global) -> Result<String, SimError> {
        Ok(said(alloc, drained(alloc, &mut self.world))?)
    }

    /// Does what the lines ask by `World::run`, and answers how many events it went through.
    pub fn run(&mut self, alloc: Global, lines: &[String]) -> Result<u64, SimError> {
        let mut events = Vec::new(alloc);
        for line in lines {
            events.push(event(alloc, line.as_str())?)?;
        }
        Ok(ran(alloc, &mut self.world, &events))
    }

    /// Makes the n-th device call from now on fail.
    pub fn fail_at(&mut self, call: u64) {
        self.world.fail_at(call);
    }

    /// Makes the n-th device call of this kind from now on fail; 0 fails none.
    pub fn fail_kind(&mut self, kind: DiskCall, call: u64) {
        self.world.fail_kind(kind, call);
    }

    /// The numbers of changes at the opening, of durable changes, and of accepted changes.
    pub fn counts(&self) -> (u64, u64, u64) {
        (
            self.world.opened(),
            self.world.durable(),
            self.world.spool().len(),
        )
    }

    /// The entries of the trace in words.
    pub fn trace(&self, alloc: Global) -> Result<Vec<String>, SimError> {
        let mut entries = Vec::new(alloc);
        for entry in self.world.trace() {
            entries.push(traced(alloc, entry)?)?;
        }
        Ok(entries)
    }

    pub fn arrived(&self, session: u64) -> &[u8] {
        self.world.arrived(session)
    }

    pub fn released(&self, session: u64) -> &[u8] {
        self.world.released(session)
    }

    /// The serial of the group of this name, if it exists.
    pub fn serial(&self, name: &[u8]) -> Option<u64> {
        let group = self.world.spool().group(name)?;
        Some(group.serial)
    }

    /// The article with this serial in the form in which it is sent; `None` if the change is no article.
    pub fn article(&self, alloc: Global, serial: u64) -> Result<Option<Vec<u8>>, SimError> {
        let spool = self.world.spool();
        if spool.moment(serial).is_none() {
            return Ok(None);
        }
        let mut octets = Vec::new(alloc);
        spool.push_part(&Part::Whole, serial, &mut octets)?;
        Ok(Some(octets))
    }

    /// The lowest and the highest number of a group, if it exists.
    pub fn numbers(&self, name: &[u8]) -> Option<(u64, u64)> {
        let group = self.world.spool().group(name)?;
        Some((group.low, group.high))
    }
}

fn opened(alloc: Global, disk: MemDisk) -> Result<World<MemDisk>, Refused<MemDisk>> {
    World::open(alloc, disk, SESSIONS)
}

fn stepped(
    alloc: Global,
    world: &mut World<MemDisk>,
    event: &Event,
) -> Result<StepAnswer, StepError> {
    world.step(alloc, event)
}

fn ran(alloc: Global, world: &mut World<MemDisk>, events: &[Event]) -> u64 {
    world.run(alloc, events)
}

fn drained(alloc: Global, world: &mut World<MemDisk>) -> Result<StepAnswer, StepError> {
    world.drain(alloc)?;
    Ok(StepAnswer::Done)
}
