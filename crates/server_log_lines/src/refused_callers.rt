//! Refused callers of which the log has not told yet, summed up by address and cause.

ghost use Rattle.std.specs.Prelude.{◌≡◌, ◌≤◌, ◌<◌, ◌⊎◌, ◌↔◌, IfNone, IfOk, IfSome, IsTrue, false, vec_len};

use crate::event_line::LogEntry;
use crate::log_events::{LogEvent, RefusedCallers, SessionRefusal};
use model::Moment;
use std::alloc::{AllocError, Global};
use std::net::SocketAddr;

/// The most sums at a time. The callers of further addresses and causes are not counted here.
const ROWS: usize = 64;

/// Callers of one address that were refused for one cause, and when the first of them was.
#[derive(Clone, Copy)]
struct Row {
    moment: Moment,
    callers: RefusedCallers,
}

/// Sums of refused callers, at most 64.
#[derive(Drop)]
pub struct Refusals {
    rows: Vec<Row>,
}

impl Refusals {
    /// No callers. The memory for all sums is taken at once.
    pub fn new(alloc: Global) -> Result<Refusals, AllocError>
        ensures { IfOk result (λ sums. vec_len sums.rows ≡ 0) }
    {
        Ok(Refusals {
            rows: Vec::with_capacity(alloc, ROWS)?,
        })
    }

    /// Whether no caller is counted.
    pub fn is_empty(&self) -> bool
        ensures { IsTrue result ↔ (vec_len self.now.rows ≡ 0) }
    {
        self.rows.is_empty()
    }

    /// The number of sums.
    pub fn len(&self) -> usize
        ensures { result ≡ vec_len self.now.rows }
    {
        self.rows.len()
    }

    /// Counts a caller that was refused at this moment. Answers false, and counts nothing, if it would need one sum more than there
    /// may be.
    pub fn count(&mut self, moment: Moment, peer: SocketAddr, why: SessionRefusal) -> bool
        ensures bound { (vec_len self.new.rows ≤ 64) ⊎ (vec_len self.new.rows ≡ vec_len self.old.rows) }
        ensures kept { result ≡ false → self.new.rows.items ≡ self.old.rows.items }
    {
        if let Some(at) = self.place_of(peer, why) {
            let times = self.rows[at].callers.times;
            self.rows[at].callers.times = times.saturating_add(1);
            return true;
        }
        if self.rows.len() >= ROWS {
            return false;
        }
        let callers = RefusedCallers {
            peer,
            why,
            times: 1,
        };
        self.rows.push(Row { moment, callers }).is_ok()
    }

    /// The place of the sum to which a caller belongs.
    fn place_of(&self, peer: SocketAddr, why: SessionRefusal) -> Option<usize>
        ensures { IfSome result (λ at. at < vec_len self.now.rows) }
    {
        self.rows.iter().position(|row| row.callers.peer.ip() == peer.ip()
            && row.callers.why == why)
    }

    /// The entry of the sum in this place, counted from 0. `None` if there are no more than so many sums.
    pub fn entry(&self, at: usize) -> Option<LogEntry>
        ensures some { IfSome result (λ entry. at < vec_len self.now.rows) }
        ensures none { IfNone result (vec_len self.now.rows ≤ at) }
    {
        let Row { moment, callers } = *self.rows.get(at)?;
        Some(LogEntry {
            moment,
            event: LogEvent::Refused(callers),
        })
    }

    /// Forgets all callers.
    pub fn clear(&mut self)
        ensures { vec_len self.new.rows ≡ 0 }
    {
        self.rows.clear();
    }
}
