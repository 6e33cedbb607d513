//! The fields that the server adds to a posted text.

ghost use Rattle.std.specs.Prelude.{◌≡◌, ◌+◌, ◌++◌, ◌==◌, ◌<◌, ◌≤◌, ◌^◌, codes, count_by, length, map, IfOk, IsTrue, OnOk};
ghost use Rattle.model.specs.Article.{is_named};
ghost use Rattle.model.specs.Calendar.{date_header};
ghost use Rattle.model.specs.Names.{is_host};
ghost use Rattle.text_article.specs.Stored as stored;

use itoa::Buffer;
use model::Moment;
use std::alloc::{AllocError, Global};
use text_dates::{HEADER_OCTETS, push_date_header};
use text_fields::count;

/// The number of octets of a made message-id besides its serial and its host: `<`, `@` and `>`.
const ID_MARKS: usize = 3;

/// The number of octets of a field of one line besides its name and its content: a colon, SP and CRLF.
const FIELD_MARKS: usize = 4;

/// At most this many fields are added: Path, Date and Message-ID.
pub(crate) const ADDED_AT_MOST: usize = 3;

/// What follows the host in Path.
const PATH_TAIL: &[u8] = b"!not-for-mail";

/// Whether none of the posted fields has this name.
fn lacks(fields: &[&[u8]], name: &[u8]) -> bool
    ensures { result ≡ (count_by (is_named name.now) (map (λ field. field.now) fields.now) == 0) }
{
    count(fields, name) == 0
}

/// The number of octets of a field of one line that is added if none of the posted fields has its name. It is exact
/// where it is below 2^64.
fn missing_length(fields: &[&[u8]], name: &[u8], content: usize) -> usize
    ensures exact { length name.now + content + FIELD_MARKS < 2 ^ 64
        → result ≡ stored.missing_length (map (λ field. field.now) fields.now) name.now content }
    ensures high { result ≤ length name.now + content + FIELD_MARKS }
{
    if lacks(fields, name) {
        name.len()
            .saturating_add(content)
            .saturating_add(FIELD_MARKS)
    } else {
        0
    }
}

/// The number of octets of the fields that are put before a posted text, at any moment, since dates have a fixed size.
/// It is exact for a valid host.
pub(crate) fn added_length(fields: &[&[u8]], serial: u64, host: &[u8]) -> usize
    ensures { IsTrue (is_host host.now) → result ≡ length (stored.front host.now serial 0 (map (λ field. field.now) fields.now)) }
{
    let mut buffer = Buffer::new();
    let digits = buffer.format(serial).len();
    let path = missing_length(fields, b"Path", host.len().saturating_add(PATH_TAIL.len()));
    let date = missing_length(fields, b"Date", HEADER_OCTETS);
    let id = missing_length(
        fields,
        b"Message-ID",
        host.len().saturating_add(ID_MARKS + digits),
    );
    path.saturating_add(date).saturating_add(id)
}

/// Appends a message-id that a host makes, of these digits.
fn push_made_id(octets: &mut Vec<u8>, host: &[u8], number: &[u8]) -> Result<(), AllocError>
    ensures { OnOk result (octets.new.items ≡ octets.old.items
        ++ (codes "<" ++ number.now ++ codes "@" ++ host.now ++ codes ">")) }
{
    octets.extend_from_slice(b"<")?;
    octets.extend_from_slice(number)?;
    octets.extend_from_slice(b"@")?;
    octets.extend_from_slice(host)?;
    octets.extend_from_slice(b">")?;
    Ok(())
}

/// The message-id that a host makes for a serial: `<`, the serial in decimal digits, `@`, the host and `>`.
pub fn made_id(alloc: Global, host: &[u8], serial: u64) -> Result<Vec<u8>, AllocError>
    ensures { IfOk result (λ id. id.items ≡ stored.made_id host.now serial) }
{
    let mut buffer = Buffer::new();
    let number = buffer.format(serial).as_bytes();
    let mut id = Vec::with_capacity(alloc, host.len().saturating_add(ID_MARKS + number.len()))?;
    push_made_id(&mut id, host, number)?;
    Ok(id)
}

/// Appends Path, if none of the posted fields has its name.
fn push_path(octets: &mut Vec<u8>, fields: &[&[u8]], host: &[u8]) -> Result<(), AllocError>
    ensures { OnOk result (octets.new.items ≡ octets.old.items
        ++ stored.added_to (map (λ field. field.now) fields.now) (codes "Path") (stored.path_of host.now)) }
{
    if !lacks(fields, b"Path") {
        return Ok(());
    }
    octets.extend_from_slice(b"Path: ")?;
    octets.extend_from_slice(host)?;
    octets.extend_from_slice(PATH_TAIL)?;
    octets.extend_from_slice(b"\r\n")?;
    Ok(())
}

/// Appends Date, if none of the posted fields has its name.
fn push_date(octets: &mut Vec<u8>, fields: &[&[u8]], moment: Moment) -> Result<(), AllocError>
    ensures { OnOk result (octets.new.items ≡ octets.old.items
        ++ stored.added_to (map (λ field. field.now) fields.now) (codes "Date") (date_header moment)) }
{
    if !lacks(fields, b"Date") {
        return Ok(());
    }
    octets.extend_from_slice(b"Date: ")?;
    push_date_header(octets, moment)?;
    octets.extend_from_slice(b"\r\n")?;
    Ok(())
}

/// Appends Message-ID, if none of the posted fields has its name.
fn push_id(
    octets: &mut Vec<u8>,
    fields: &[&[u8]],
    serial: u64,
    host: &[u8],
) -> Result<(), AllocError>
    ensures { OnOk result (octets.new.items ≡ octets.old.items
        ++ stored.added_to (map (λ field. field.now) fields.now) (codes "Message-ID") (stored.made_id host.now serial)) }
{
    if !lacks(fields, b"Message-ID") {
        return Ok(());
    }
    let mut buffer = Buffer::new();
    octets.extend_from_slice(b"Message-ID: ")?;
    push_made_id(octets, host, buffer.format(serial).as_bytes())?;
    octets.extend_from_slice(b"\r\n")?;
    Ok(())
}

/// Appends the fields that are put before a posted text: Path, Date and Message-ID, where they are missing. Refused only
/// for want of memory; then any octets may follow those that were already there.
pub(crate) fn push_front(
    octets: &mut Vec<u8>,
    fields: &[&[u8]],
    serial: u64,
    host: &[u8],
    moment: Moment,
) -> Result<(), AllocError>
    ensures { OnOk result (octets.new.items ≡ octets.old.items
        ++ stored.front host.now serial moment (map (λ field. field.now) fields.now)) }
{
    push_path(octets, fields, host)?;
    push_date(octets, fields, moment)?;
    push_id(octets, fields, serial, host)?;
    Ok(())
}
