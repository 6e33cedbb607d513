//! A map of fingerprints to serials.

ghost use Rattle.std.specs.Prelude.{◌≡◌, [], ℕ, if◌then◌else◌, Some, OnOk, OnErr};
ghost use Rattle.spool_index.specs.Ids.{is_same, serial_under};

use std::alloc::{AllocError, Global};
use std::collections::BTreeMap;
use std::marker::Model;

/// Serials by fingerprints.
#[derive(Drop)]
pub(crate) struct Prints {
    serials: BTreeMap<u64, u64>,
}

impl Model for Prints {
    ghost use Rattle.std.specs.Prelude.{List, ℕ};

    ghost Value = { List (ℕ × ℕ) };

    ghost view = { λ x. x.serials.entries };
}

impl Prints {
    /// A map without fingerprints. It takes no memory.
    pub(crate) fn new(alloc: Global) -> Prints
        ensures { result ≡ [] }
    {
        Prints {
            serials: BTreeMap::new(alloc),
        }
    }

    /// The serial under a fingerprint.
    pub(crate) fn get(&self, print: u64) -> Option<u64>
        ensures { result ≡ serial_under self.now print }
    {
        self.serials.get(&print).copied()
    }

    /// Puts a serial under a fingerprint, in place of any that was there. Refused only for want of memory, and then
    /// nothing changes.
    pub(crate) fn insert(&mut self, print: u64, serial: u64) -> Result<(), AllocError>
        ensures ok { OnOk result ((q : ℕ) → serial_under self.new q ≡ (if is_same print q then Some serial else serial_under self.old q)) }
        ensures err { OnErr result (self.new ≡ self.old) }
    {
        let Ok(_) = self.serials.insert(print, serial) else {
            return Err(AllocError);
        };
        Ok(())
    }
}
