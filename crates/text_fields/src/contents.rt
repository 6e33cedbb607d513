//! The contents of header fields.

ghost use Rattle.std.specs.Prelude.{◌≡◌, ◌+◌, ◌++◌, length, drop, map, find, count_by, option_map, reverse, IfOk};
ghost use Rattle.std.specs.Prelude.{OnOk};
ghost use Rattle.std.specs.List.{list_all};
ghost use Rattle.model.specs.Article as article;
ghost use Rattle.model.specs.Names as names;
ghost use Rattle.text_fields.specs.Contents.{content_in, is_blank_in};

use crate::fields::name_of;
use crate::text_lines::line_length;
use bstr::ByteSlice;
use std::alloc::{AllocError, Global};

/// SP and TAB (RFC 5322, 2.2.2).
const BLANKS: &[u8] = b" \t";

/// Whether the field has this name, regardless of case (RFC 5536, 2.2).
fn is_named(name: &[u8], field: &[u8]) -> bool
    ensures { result ≡ article.is_named name.now field.now }
{
    // most fields have another name: no colon stands where this one would end, so none is searched for
    if name.len() < field.len() && field[name.len()] != b':' {
        return false;
    }
    name_of(field).eq_ignore_ascii_case(name)
}

/// The number of fields with this name.
pub fn count(fields: &[&[u8]], name: &[u8]) -> usize
    ensures { result ≡ count_by (article.is_named name.now) (map (λ field. field.now) fields.now) }
{
    fields.iter().filter(|field| is_named(name, field)).count()
}

/// The first field with this name.
pub fn find_field<'t>(fields: &[&'t [u8]], name: &[u8]) -> Option<&'t [u8]>
    ensures { option_map (λ field. field.now) result ≡ find (article.is_named name.now) (map (λ field. field.now) fields.now) }
{
    fields.iter().find(|field| is_named(name, field)).copied()
}

/// The part of a field after its name, the colon and one SP. It is empty if the field is shorter.
pub fn value_of(field: &[u8]) -> &[u8]
    ensures { result.now ≡ drop (length (article.name_of field.now) + 2) field.now }
{
    let start = name_of(field).len() + 2;
    if start <= field.len() {
        &field[start..]
    } else {
        &field[..0]
    }
}

/// A line without its CRLF.
fn line_text(line: &[u8]) -> &[u8]
    ensures { result.now ≡ article.line_text line.now }
{
    if line.ends_with(b"\r\n") {
        &line[..line.len() - 2]
    } else {
        line
    }
}

/// Whether each octet is SP or TAB.
fn are_blank(octets: &[u8]) -> bool
    ensures { result ≡ list_all names.is_blank octets.now }
{
    octets.find_not_byteset(BLANKS).is_none()
}

/// Whether a text holds only SP, TAB and line ends.
fn is_blank_text(text: &[u8]) -> bool
    ensures { result ≡ list_all names.is_blank (article.unfolded text.now) }
{
    let mut rest = text;
    while !rest.is_empty() {
        let (line, later) = rest.split_at(line_length(rest));
        if !are_blank(line_text(line)) {
            return false;
        }
        rest = later;
    }
    true
}

/// Whether one of the fields has this name and holds only SP, TAB and line ends.
pub fn is_blank_field(fields: &[&[u8]], name: &[u8]) -> bool
    ensures { result ≡ is_blank_in (map (λ field. field.now) fields.now) name.now }
{
    fields.iter().any(|field| is_named(name, field) && is_blank_text(value_of(field)))
}

/// A text without its line ends (RFC 5322, 2.2.3).
pub fn unfold(alloc: Global, text: &[u8]) -> Result<Vec<u8>, AllocError>
    ensures { IfOk result (λ unfolded. unfolded.items ≡ article.unfolded text.now) }
{
    text.replace(alloc, b"\r\n", b"")
}

/// Appends a text without its line ends. Refused only for want of memory; then any octets may follow those that were
/// already there.
fn push_unfolded(octets: &mut Vec<u8>, text: &[u8]) -> Result<(), AllocError>
    ensures { OnOk result (octets.new.items ≡ octets.old.items ++ article.unfolded text.now) }
{
    let mut rest = text;
    while !rest.is_empty() {
        let (line, later) = rest.split_at(line_length(rest));
        octets.extend_from_slice(line_text(line))?;
        rest = later;
    }
    Ok(())
}

/// Appends the content of the first field of this name, or nothing if there is none. Refused only for want of memory;
/// then any octets may follow those that were already there.
pub fn push_content(octets: &mut Vec<u8>, fields: &[&[u8]], name: &[u8]) -> Result<(), AllocError>
    ensures { OnOk result (octets.new.items ≡ octets.old.items ++ content_in name.now (map (λ field. field.now) fields.now)) }
{
    match find_field(fields, name) {
        Some(field) => push_unfolded(octets, value_of(field)),
        None => Ok(()),
    }
}

/// A text without its leading SP and TAB.
fn trim_start(text: &[u8]) -> &[u8]
    ensures { result.now ≡ article.trimmed_start text.now }
{
    match text.find_not_byteset(BLANKS) {
        Some(first) => &text[first..],
        None => &text[..0],
    }
}

/// A text without its trailing SP and TAB.
fn trim_end(text: &[u8]) -> &[u8]
    ensures { result.now ≡ reverse (article.trimmed_start (reverse text.now)) }
{
    match text.rfind_not_byteset(BLANKS) {
        Some(last) => &text[..last + 1],
        None => &text[..0],
    }
}

/// A text without leading and trailing SP and TAB.
pub fn trim(text: &[u8]) -> &[u8]
    ensures { result.now ≡ article.trimmed text.now }
{
    trim_end(trim_start(text))
}

/// The message-id that a field holds. It is never folded (RFC 5536, 3.1.3), so no line end is removed from it.
pub fn id_in_field(field: &[u8]) -> &[u8]
    ensures { result.now ≡ article.id_in_field field.now }
{
    trim(line_text(value_of(field)))
}
