//! Copies the volume of a simulation into a new one.

use crate::new_device::formatted;
use crate::sim_devices::Device;
use program_printing::Failure;
use std::alloc::Global;
use thiserror::Error;
use volume_new::VolumePlan;
use volume_renewing::{RenewalCounts, RenewalError, Watcher, renew};
use volume_store::Store;
use world::{OpenError, Refused};

/// Why a volume was not renewed.
#[derive(Debug, Drop, Error)]
pub(crate) enum NotRenewed {
    /// The old volume or the new one was not opened.
    #[error(transparent)]
    NotOpened(OpenError),
    /// The new volume was not made.
    #[error(transparent)]
    NotMade(Failure),
    /// The copy came to no end.
    #[error(transparent)]
    Stopped(RenewalError),
}

impl From<OpenError> for NotRenewed {
    fn from(error: OpenError) -> NotRenewed {
        NotRenewed::NotOpened(error)
    }
}

impl From<Failure> for NotRenewed {
    fn from(failure: Failure) -> NotRenewed {
        NotRenewed::NotMade(failure)
    }
}

impl From<RenewalError> for NotRenewed {
    fn from(error: RenewalError) -> NotRenewed {
        NotRenewed::Stopped(error)
    }
}

/// Nobody is told how far a renewal of a simulation is.
#[derive(Drop)]
struct Unwatched;

impl Watcher for Unwatched {
    fn progress(&mut self, _counts: &RenewalCounts, _all: u64) {}
}

/// Copies the volume on a device into a new one of this plan, as `volume_renewing::renew` does. Answers the old device, and the
/// new one unless that is refused. The old one is then as its opening left it.
pub(crate) fn renewed<D: Device>(
    alloc: Global,
    disk: D,
    plan: &VolumePlan<'_>,
) -> (D, Result<D, NotRenewed>) {
    match Store::open(alloc, disk) {
        Ok(old) => {
            let new = copied(alloc, &old, plan);
            (old.into_disk(), new)
        }
        Err(Refused { disk, error }) => (disk, Err(NotRenewed::NotOpened(error))),
    }
}

/// A new device of this plan with a copy of the volume.
fn copied<D: Device>(
    alloc: Global,
    old: &Store<D>,
    plan: &VolumePlan<'_>,
) -> Result<D, NotRenewed> {
    let disk = D::over(alloc, formatted(alloc, plan)?);
    let mut new = opened(alloc, disk)?;
    renew(alloc, old.spool(), &mut new, &mut Unwatched)?;
    Ok(new.into_disk())
}

/// Opens the volume on a new device.
fn opened<D: Device>(alloc: Global, disk: D) -> Result<Store<D>, OpenError> {
    match Store::open(alloc, disk) {
        Ok(store) => Ok(store),
        Err(Refused { disk: _, error }) => Err(error),
    }
}
