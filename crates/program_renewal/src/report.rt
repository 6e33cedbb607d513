//! What a renewal did, for a person or as JSON.

use serde_json::{Value, json};
use std::alloc::{AllocError, Global};
use std::fmt::{self, Display, Formatter};
use volume_renewing::RenewalCounts;

/// How much there is of something, and how much of it is used.
#[derive(Clone, Copy, Debug, PartialEq, Eq)]
pub struct Amount {
    pub all: u64,
    pub used: u64,
}

/// What a volume has, and what of it is used.
#[derive(Clone, Copy, Debug, PartialEq, Eq)]
pub struct Usage {
    pub blocks: Amount,
    pub inodes: Amount,
}

/// What a renewal did.
#[derive(Clone, Copy, Debug, Drop, PartialEq, Eq)]
pub struct Report {
    /// The changes that it copied.
    pub counts: RenewalCounts,
    /// The old volume.
    pub before: Usage,
    /// The new one.
    pub after: Usage,
}

impl Display for Amount {
    fn fmt<W: fmt::Write>(&self, f: &mut Formatter<W>) -> fmt::Result {
        write!(f, "{} of {}", self.used, self.all)
    }
}

impl Display for Usage {
    fn fmt<W: fmt::Write>(&self, f: &mut Formatter<W>) -> fmt::Result {
        write!(f, "{} blocks, {} inodes", self.blocks, self.inodes)
    }
}

impl Display for Report {
    /// Six lines. The last one has no line end.
    fn fmt<W: fmt::Write>(&self, f: &mut Formatter<W>) -> fmt::Result {
        writeln!(f, "groups {}", self.counts.groups)?;
        writeln!(f, "kept {}", self.counts.kept)?;
        writeln!(f, "husks {}", self.counts.husks)?;
        writeln!(f, "expiries {}", self.counts.expiries)?;
        writeln!(f, "before {}", self.before)?;
        write!(f, "after {}", self.after)
    }
}

/// What a renewal did as one JSON object, with no space and no end of line.
pub fn json_text(alloc: Global, report: &Report) -> Result<String, AllocError> {
    report_value(alloc, report)?.to_string(alloc)
}

fn report_value(alloc: Global, report: &Report) -> Result<Value, AllocError> {
    let before = usage_value(alloc, &report.before)?;
    let after = usage_value(alloc, &report.after)?;
    // the keys are in falling order, so that each member is put before the others
    json!(in alloc; {
        "kept": report.counts.kept,
        "husks": report.counts.husks,
        "groups": report.counts.groups,
        "expiries": report.counts.expiries,
        "before": before,
        "after": after,
    })
}

fn usage_value(alloc: Global, usage: &Usage) -> Result<Value, AllocError> {
    let blocks = amount_value(alloc, usage.blocks)?;
    let inodes = amount_value(alloc, usage.inodes)?;
    json!(in alloc; {"inodes": inodes, "blocks": blocks})
}

fn amount_value(alloc: Global, amount: Amount) -> Result<Value, AllocError> {
    let free = amount.all.saturating_sub(amount.used);
    json!(in alloc; {"used": amount.used, "free": free, "all": amount.all})
}
