//! What the operator is told of a running server.

use crate::service::OperatorService;
use crate::sessions::States;
use kernel_shared::{Kern, KernelCounts};
use std::alloc::{AllocError, Global};
use std::fmt::{self, Display, Formatter};
use std::sync::Wait;
use std::time::Clock;
use volume_usage::Tallied;

/// The volume and the kernel at one moment.
#[derive(Drop)]
pub struct Status {
    host: String,
    format: u32,
    blocks: u64,
    inodes: u64,
    counts: KernelCounts,
    states: States,
    tallied: Tallied,
}

impl Status {
    /// Reads the counts.
    pub(crate) fn of<R: Wait + Clock, K: Kern>(
        service: &OperatorService<'_, R, K>,
    ) -> Result<Status, AllocError> {
        let OperatorService {
            rt,
            alloc,
            kern,
            tally,
            facts,
            writers,
            ..
        } = service;
        Ok(Status {
            host: host_of(*alloc, facts.host)?,
            format: facts.format,
            blocks: facts.blocks,
            inodes: facts.inodes,
            counts: kern.counts(*rt),
            states: States::of(*rt, writers),
            tallied: tally.read(),
        })
    }
}

/// The text of a host, whose octets are all ASCII.
fn host_of(alloc: Global, octets: &[u8]) -> Result<String, AllocError> {
    let mut host = String::new(alloc);
    for octet in octets {
        host.push(char::from(*octet))?;
    }
    Ok(host)
}

/// A line of names, each followed by its number (docs/OPERATING.md).
impl Display for Status {
    fn fmt<W: fmt::Write>(&self, f: &mut Formatter<W>) -> fmt::Result {
        let KernelCounts {
            sessions,
            inodes,
            accepted,
            durable,
        } = self.counts;
        let Tallied {
            batches,
            used_blocks,
            syncs,
            ..
        } = self.tallied;
        write!(
            f,
            "host {} format {} blocks {used_blocks} of {} inodes {inodes} of {} sessions {sessions} {} \
            accepted {accepted} durable {durable} batches {batches} syncs {syncs}",
            self.host, self.format, self.blocks, self.inodes, self.states
        )
    }
}
