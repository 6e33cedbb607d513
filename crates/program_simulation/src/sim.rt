//! The simulated system, sealed: a proof learns nothing about it except what `World` promises.

use crate::renewing::{NotRenewed, renewed};
use crate::sim_devices::Device;
use disk::DiskCall;
use disk_memory::Pick;
use kernel_outbox::ReadyBuf;
use kernel_shared::SESSIONS;
use std::alloc::Global;
use std::marker::Model;
use volume_new::VolumePlan;
use world::{Event, OpenError, Refused, Spool, StepAnswer, StepError, World};

/// A world over a device of the simulation.
#[derive(Drop)]
pub(crate) struct Sim<D: Device> {
    world: World<D>,
}

impl<D: Device> Model for Sim<D> {
    ghost Value = { Unit };

    ghost view = { λ s. tt };
}

/// A device that is not open.
#[derive(Drop)]
pub(crate) struct Closed<D: Device> {
    disk: D,
}

impl<D: Device> Model for Closed<D> {
    ghost Value = { Unit };

    ghost view = { λ c. tt };
}

impl<D: Device> Closed<D> {
    pub(crate) fn new(disk: D) -> Closed<D> {
        Closed { disk }
    }

    /// Opens it. A refusal returns it.
    pub(crate) fn open(self, alloc: Global) -> Result<Sim<D>, (Closed<D>, OpenError)> {
        match World::open(alloc, self.disk, SESSIONS) {
            Ok(world) => Ok(Sim { world }),
            Err(Refused { disk, error }) => Err((Closed { disk }, error)),
        }
    }

    /// Copies its volume into a new one of this plan, and opens that. A refusal returns the old device.
    pub(crate) fn renewed(
        self,
        alloc: Global,
        plan: &VolumePlan<'_>,
    ) -> Result<Sim<D>, (Closed<D>, NotRenewed)> {
        let (old, new) = renewed(alloc, self.disk, plan);
        let opened = match new {
            Ok(disk) => Closed::new(disk).open(alloc),
            Err(error) => return Err((Closed::new(old), error)),
        };
        match opened {
            Ok(sim) => Ok(sim),
            Err((_, error)) => Err((Closed::new(old), NotRenewed::NotOpened(error))),
        }
    }

    /// The device after a crash: each touched octet becomes what the pick says.
    pub(crate) fn crashed(self, alloc: Global, pick: Pick) -> Closed<D> {
        Closed::new(self.disk.crashed(alloc, pick))
    }

    /// Makes the n-th device call from now on fail.
    pub(crate) fn fail_at(&mut self, call: u64) {
        self.disk.fail_at(call);
    }

    /// Makes the n-th device call of this kind from now on fail.
    pub(crate) fn fail_kind(&mut self, kind: DiskCall, call: u64) {
        self.disk.fail_kind(kind, call);
    }
}

impl<D: Device> Sim<D> {
    /// Makes one event happen.
    pub(crate) fn step(&mut self, alloc: Global, event: &Event) -> Result<StepAnswer, StepError> {
        self.world.step(alloc, event)
    }

    /// Makes all accepted changes durable.
    pub(crate) fn settle(&mut self, alloc: Global) -> Result<(), StepError> {
        self.world.settle(alloc)
    }

    /// Makes the n-th device call from now on fail.
    pub(crate) fn fail_at(&mut self, call: u64) {
        self.world.fail_at(call);
    }

    /// Makes the n-th device call of this kind from now on fail.
    pub(crate) fn fail_kind(&mut self, kind: DiskCall, call: u64) {
        self.world.fail_kind(kind, call);
    }

    /// The number of changes at the opening.
    pub(crate) fn opened(&self) -> u64 {
        self.world.opened()
    }

    /// The number of durable changes.
    pub(crate) fn durable(&self) -> u64 {
        self.world.durable()
    }

    /// What the last release handed out.
    pub(crate) fn ready(&self) -> &ReadyBuf {
        self.world.ready()
    }

    /// The accepted changes.
    pub(crate) fn spool(&self) -> &Spool {
        self.world.spool()
    }

    /// Takes the device out.
    pub(crate) fn close(self) -> Closed<D> {
        Closed::new(self.world.into_disk())
    }
}
