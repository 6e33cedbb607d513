//! A device that a server gives back when it has ended.

use disk::{Disk, DiskCall, DiskError, Faults};
use std::sync::Mutex;

/// A device that is put into its place when it is dropped. All else is the device's own.
pub(crate) struct Lent<'a, D: Disk + Drop> {
    disk: D,
    place: &'a Mutex<Option<D>>,
}

impl<'a, D: Disk + Drop> Lent<'a, D> {
    pub(crate) fn new(disk: D, place: &'a Mutex<Option<D>>) -> Lent<'a, D> {
        Lent { disk, place }
    }
}

impl<'a, D: Disk + Drop> Drop for Lent<'a, D> {
    fn drop(self) {
        let Lent { disk, place } = self;
        if let Some(mut place) = place.try_lock() {
            *place = Some(disk);
        }
    }
}

impl<'a, D: Disk + Drop> Disk for Lent<'a, D> {
    ghost device = { λ lent. D.device lent.disk };

    ghost write_grows = { D.write_grows };

    ghost sync_grows = { D.sync_grows };

    fn len(&self) -> u64 {
        self.disk.len()
    }

    fn read(&mut self, at: u64, into: &mut [u8]) -> Result<(), DiskError> {
        self.disk.read(at, into)
    }

    fn write(&mut self, at: u64, from: &[u8]) -> Result<(), DiskError> {
        self.disk.write(at, from)
    }

    fn sync(&mut self) -> Result<(), DiskError> {
        self.disk.sync()
    }

    ghost image_size = { λ lent. D.image_size lent.disk };

    ghost counts_content = { λ lent. D.counts_content lent.disk };

    ghost counts_now = { λ lent. D.counts_now lent.disk };

    ghost only_now = { λ lent. D.only_now lent.disk };
}

impl<'a, D: Faults + Drop> Faults for Lent<'a, D> {
    ghost plans = { λ n old new. D.plans n old.disk new.disk };

    ghost plans_kind = { λ kind n old new. D.plans_kind kind n old.disk new.disk };

    fn fail_at(&mut self, n: u64) {
        self.disk.fail_at(n);
    }

    fn fail_kind(&mut self, kind: DiskCall, n: u64) {
        self.disk.fail_kind(kind, n);
    }
}
