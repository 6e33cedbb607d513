//! The changes, read from their files.

ghost use Rattle.std.specs.Prelude.{◌≡◌, ◌-◌, ◌≤◌, Some, length, slice_get, IfOk};

use crate::Spool;
use model::Change;
use spool_texts::change;
use std::alloc::AllocError;

impl Spool {
    /// The change with this serial, from 1 to `len`, read once from its file.
    pub fn change(&self, serial: u64) -> Result<Change, AllocError>
        requires from { 1 ≤ serial }
        requires to { serial ≤ length self.now.changes }
        ensures { IfOk result (λ change. slice_get self.now.changes (serial - 1) ≡ Some change) }
    {
        change(
            self.alloc,
            &self.kept.volume,
            self.kept.inodes,
            &self.kept.places,
            serial,
        )
    }
}
