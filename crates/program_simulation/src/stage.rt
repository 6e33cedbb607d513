//! What the events of a script act on.

use crate::renewing::NotRenewed;
use crate::sim::{Closed, Sim};
use crate::sim_devices::Device;
use disk::DiskCall;
use disk_memory::Pick;
use std::alloc::Global;
use volume_new::VolumePlan;
use world::OpenError;

/// A world, or the device if the last opening was refused: a crash opens it again.
#[derive(Drop)]
pub(crate) struct Stage<'a, D: Device> {
    /// What each volume of the simulation has.
    plan: &'a VolumePlan<'a>,
    pub(crate) sim: Option<Sim<D>>,
    closed: Option<Closed<D>>,
}

impl<'a, D: Device> Stage<'a, D> {
    /// The world of a device, which has a volume of this plan.
    pub(crate) fn open(
        alloc: Global,
        plan: &'a VolumePlan<'a>,
        device: Closed<D>,
    ) -> Result<Stage<'a, D>, OpenError> {
        match device.open(alloc) {
            Ok(sim) => Ok(Stage {
                plan,
                sim: Some(sim),
                closed: None,
            }),
            Err((_, error)) => Err(error),
        }
    }

    /// Makes the n-th device call from now on fail.
    pub(crate) fn fail_at(&mut self, call: u64) {
        if let Some(sim) = &mut self.sim {
            sim.fail_at(call);
        }
        if let Some(device) = &mut self.closed {
            device.fail_at(call);
        }
    }

    /// Makes the n-th device call of this kind from now on fail.
    pub(crate) fn fail_kind(&mut self, kind: DiskCall, call: u64) {
        if let Some(sim) = &mut self.sim {
            sim.fail_kind(kind, call);
        }
        if let Some(device) = &mut self.closed {
            device.fail_kind(kind, call);
        }
    }

    /// Crashes the device, each touched octet becoming what this pick says, and opens it again. Answers the number of
    /// its changes.
    pub(crate) fn crash(&mut self, alloc: Global, pick: Pick) -> Result<u64, OpenError> {
        match self.take_device() {
            Some(device) => self.reopen(alloc, device.crashed(alloc, pick)),
            // one of the two is always there
            None => Err(OpenError::Fault),
        }
    }

    /// Copies the volume into a new one, as a renewal does, and opens that one. What was written counts, as after a crash that
    /// picks the new octets. Answers the number of its changes. After a refusal the old device is there, and is not open.
    pub(crate) fn renew(&mut self, alloc: Global) -> Result<u64, NotRenewed> {
        match self.take_device() {
            Some(device) => self.replace(alloc, device.crashed(alloc, Pick::New)),
            // one of the two is always there
            None => Err(NotRenewed::NotOpened(OpenError::Fault)),
        }
    }

    /// Takes the device out.
    fn take_device(&mut self) -> Option<Closed<D>> {
        match self.sim.take() {
            Some(sim) => Some(sim.close()),
            None => self.closed.take(),
        }
    }

    /// Opens a renewed device in place of the one that was taken out.
    fn replace(&mut self, alloc: Global, device: Closed<D>) -> Result<u64, NotRenewed> {
        match device.renewed(alloc, self.plan) {
            Ok(sim) => {
                let opened = sim.opened();
                self.sim = Some(sim);
                Ok(opened)
            }
            Err((device, error)) => {
                self.closed = Some(device);
                Err(error)
            }
        }
    }

    /// Opens a device in place of the one that was taken out.
    fn reopen(&mut self, alloc: Global, device: Closed<D>) -> Result<u64, OpenError> {
        match device.open(alloc) {
            Ok(sim) => {
                let opened = sim.opened();
                self.sim = Some(sim);
                Ok(opened)
            }
            Err((device, error)) => {
                self.closed = Some(device);
                Err(error)
            }
        }
    }
}
