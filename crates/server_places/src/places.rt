//! The places under their lock.

use crate::{Held, NoPlace, Table};
use std::alloc::{AllocError, Global};
use std::sync::{Mutex, Wait};
use text_networks::Guest;

/// The places of a server. Its lock is held for a few instructions, and no other is taken under it.
#[derive(Drop)]
pub struct Places {
    table: Mutex<Table>,
}

impl Places {
    /// Places that are free, for the sessions of so many writers.
    pub fn new(alloc: Global, writers: usize) -> Result<Places, AllocError> {
        Ok(Places {
            table: Mutex::new(Table::new(alloc, writers)?),
        })
    }

    /// A session that has no place asks for one (`Table::ask`), and never waits here. `None` if it needs none.
    pub fn ask<R: Wait>(
        &self,
        rt: &R,
        writer: usize,
        guest: Guest,
    ) -> Result<Option<Held>, NoPlace> {
        self.table.lock(rt).ask(writer, guest)
    }

    /// Whether a session that asked has to wait on (`Table::has_to_wait`).
    pub fn has_to_wait<R: Wait>(&self, rt: &R, writer: usize) -> bool {
        self.table.lock(rt).has_to_wait(writer)
    }

    /// Frees a place (`Table::free`). Answers the writer of the session that was given it, whose thread has to be woken.
    pub fn free<R: Wait>(&self, rt: &R, held: Held) -> Option<usize> {
        self.table.lock(rt).free(held)
    }

    /// A session waits no more (`Table::forget`). If it was given a place, that is freed, and this answers as `free` does.
    pub fn forget<R: Wait>(&self, rt: &R, writer: usize) -> Option<usize> {
        let mut table = self.table.lock(rt);
        let held = table.forget(writer)?;
        table.free(held)
    }

    /// From now on nobody needs a place, as the kernel is halted (`Table::open`).
    pub fn open<R: Wait>(&self, rt: &R) {
        self.table.lock(rt).open();
    }
}
