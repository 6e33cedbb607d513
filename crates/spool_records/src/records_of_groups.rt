//! The record of a group: serial, moment, status, description.

ghost use Rattle.std.specs.Prelude.{◌≡◌, ◌∷◌, ◌++◌, List, ℕ, IfOk, MatchOption};
ghost use Rattle.byteorder.specs.Endian.{little_bytes};
ghost use Rattle.model.specs.Records as model_records;
ghost use Rattle.model.specs.Spool.{NewsGroup, news_group};

use crate::cutting::{cut8, cut64};
use model::NewGroup;
use std::alloc::{AllocError, Global};

/// The octets of a group's record before its description.
const GROUP_HEAD: usize = 17;

/// The contents of a group's file. The group's name is in the name of the file.
#[derive(Clone, Copy)]
pub struct GroupRecord<'a> {
    pub serial: u64,
    /// seconds since 1970
    pub moment: u64,
    /// the octet that stands for its status
    pub status: u8,
    pub description: &'a [u8],
}

/// The record of a group, which the change with this serial makes. Refused only for want of memory.
pub fn group_record(alloc: Global, serial: u64, group: &NewGroup) -> Result<Vec<u8>, AllocError>
    ensures { IfOk result (λ octets. octets.items ≡ model_records.group_record (news_group serial group.now)) }
{
    let description = group.description.as_slice();
    let size = GROUP_HEAD.saturating_add(description.len());
    let mut octets = Vec::with_capacity(alloc, size)?;
    octets.extend_from_slice(&serial.to_le_bytes())?;
    octets.extend_from_slice(&group.moment.seconds().to_le_bytes())?;
    octets.push(group.status.octet())?;
    octets.extend_from_slice(description)?;
    Ok(octets)
}

/// Reads a group's record, whatever octet stands for its status; `None` if the octets are not the record of a group.
pub fn read_group(octets: &[u8]) -> Option<GroupRecord<'_>>
    ensures { MatchOption result
        ((g : NewsGroup) → octets.now ≡ model_records.group_record g → ⊥)
        (λ r. octets.now ≡ little_bytes 8 r.serial ++ little_bytes 8 r.moment ++ r.status ∷ r.description.now) }
{
    let (serial, rest) = cut64(octets)?;
    let (moment, rest) = cut64(rest)?;
    let (status, description) = cut8(rest)?;
    Some(GroupRecord {
        serial,
        moment,
        status,
        description,
    })
}
