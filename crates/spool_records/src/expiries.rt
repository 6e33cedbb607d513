//! The record of an expiry: serial, number, the group's name after its length.

ghost use Rattle.std.specs.Prelude.{◌≡◌, ◌<◌, length, IfOk, MatchOption};
ghost use Rattle.model.specs.Records as model_records;
ghost use Rattle.model.specs.Spool.{NewsExpiry};

use crate::cutting::{NAME_SIZE, cut_name, cut32, cut64};
use std::alloc::{AllocError, Global};

/// The octets of an expiry's record before its group.
const EXPIRY_HEAD: usize = 12;

/// The contents of an expiry's file.
#[derive(Clone, Copy)]
pub struct ExpiryRecord<'a> {
    pub serial: u64,
    pub group: &'a [u8],
    pub number: u32,
}

/// The record of an expiry.
pub fn expiry_record(
    alloc: Global,
    serial: u64,
    group: &[u8],
    number: u32,
) -> Result<Vec<u8>, AllocError>
    requires { length group.now < 256 }
    ensures { IfOk result (λ octets. octets.items ≡ model_records.expiry_record
        (record { serial = serial; group = group.now; number = number })) }
{
    let mut octets = Vec::with_capacity(alloc, EXPIRY_HEAD + NAME_SIZE)?;
    octets.extend_from_slice(&serial.to_le_bytes())?;
    octets.extend_from_slice(&number.to_le_bytes())?;
    octets.push(group.len() as u8)?;
    octets.extend_from_slice(group)?;
    Ok(octets)
}

/// Reads an expiry's record; `None` if the octets are not the record of an expiry.
pub fn read_expiry(octets: &[u8]) -> Option<ExpiryRecord<'_>>
    ensures { MatchOption result
        ((e : NewsExpiry) → octets.now ≡ model_records.expiry_record e → ⊥)
        (λ r. octets.now ≡ model_records.expiry_record (record { serial = r.serial; group = r.group.now; number = r.number })) }
{
    let (serial, rest) = cut64(octets)?;
    let (number, rest) = cut32(rest)?;
    let Some((group, behind)) = cut_name(rest) else {
        return None;
    };
    if !behind.is_empty() {
        return None;
    }
    Some(ExpiryRecord {
        serial,
        group,
        number,
    })
}
