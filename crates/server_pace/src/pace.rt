//! The table under its lock, by the clock.

use crate::Table;
use std::alloc::{AllocError, Global};
use std::net::IpAddr;
use std::sync::{Mutex, Wait};
use std::time::{Clock, Duration, Instant};

/// The seconds of a minute.
const MINUTE: u64 = 60;

/// When the articles of an address are read, where it may have a limited number read in a minute. The first minute begins with the server.
/// The lock is held for one look at each address that is remembered, and no other is taken under it.
#[derive(Drop)]
pub struct Pace {
    table: Mutex<Table>,
    since: Instant,
}

impl Pace {
    /// An address may have so many articles read in a minute, from now on. Refused where memory is.
    pub fn new(alloc: Global, most: u32, now: Instant) -> Result<Pace, AllocError> {
        Ok(Pace {
            table: Mutex::new(Table::new(alloc, most)?),
            since: now,
        })
    }

    /// When the next article of an address may be read, which has its turn then (`Table::reserve`). `None` if it may be read at once, as
    /// where the clock can't be read.
    pub fn reserve<R: Wait + Clock>(&self, rt: &R, address: IpAddr) -> Option<Instant> {
        let now = Instant::now(rt).ok()?;
        let minute = now.duration_since(self.since).as_secs() / MINUTE;
        let turn = self.table.lock(rt).reserve(address, minute)?;
        if turn <= minute {
            return None;
        }
        self.since
            .checked_add(Duration::from_secs(turn.saturating_mul(MINUTE)))
    }
}
