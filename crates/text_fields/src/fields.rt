//! The fields of a header.

ghost use Rattle.std.specs.Prelude.{◌≡◌, ◌++◌, ◌≤◌, ◌||◌, length, map, IfOk, OnOk};
ghost use Rattle.std.specs.List.{list_all};
ghost use Rattle.model.specs.Article as article;
ghost use Rattle.model.specs.Names as names;
ghost use Rattle.text_fields.specs.Header.{EndsField};

use crate::text_lines::{is_empty_line, line_length};
use bstr::ByteSlice;
use std::alloc::{AllocError, Global};
use std::cmp::min;
use text_names::is_visible;

/// Most articles have no more fields than this, so the list of their fields is allocated once.
const USUAL_FIELDS: usize = 16;

/// Whether the octet is SP or TAB.
fn is_blank(octet: u8) -> bool
    ensures { result ≡ names.is_blank octet }
{
    octet == b' ' || octet == b'\t'
}

/// Whether a line continues the field of the line before it.
fn begins_blank(line: &[u8]) -> bool
    ensures { result ≡ names.begins names.is_blank line.now }
{
    match line {
        [first, ..] => is_blank(*first),
        [] => false,
    }
}

/// The part of a field before its first colon, or the whole field if it has none.
pub fn name_of(field: &[u8]) -> &[u8]
    ensures { result.now ≡ article.name_of field.now }
{
    match field.find_byte(b':') {
        Some(end) => &field[..end],
        None => field,
    }
}

/// Whether a line begins a field: name, colon, SP (RFC 5536, 2.2).
fn begins_field(line: &[u8]) -> bool
    ensures { result ≡ article.begins_field line.now }
{
    let name = name_of(line);
    is_visible_run(name) && line[name.len()..].starts_with(b": ")
}

/// Whether each octet is visible: one from 33 to 126.
fn are_visible(octets: &[u8]) -> bool
    ensures { result ≡ list_all names.is_visible octets.now }
{
    octets.iter().all(|octet| is_visible(*octet))
}

/// Whether a name has only visible octets, at least one.
fn is_visible_run(name: &[u8]) -> bool
    ensures { result ≡ names.is_run_of names.is_visible name.now }
{
    !name.is_empty() && are_visible(name)
}

/// Whether a header line after the first begins a field or continues one.
fn is_field_line(line: &[u8]) -> bool
    ensures { result ≡ (names.begins names.is_blank line.now || article.begins_field line.now) }
{
    begins_blank(line) || begins_field(line)
}

/// Whether each header line of a text begins a field or continues one.
fn are_fields_or_go_on(text: &[u8]) -> bool
    ensures { result ≡ list_all (λ line. names.begins names.is_blank line || article.begins_field line) (article.header_lines text.now) }
{
    let mut rest = text;
    while !rest.is_empty() {
        let (line, later) = rest.split_at(line_length(rest));
        if is_empty_line(line) {
            return true;
        }
        if !is_field_line(line) {
            return false;
        }
        rest = later;
    }
    true
}

/// Whether the header of a text consists of fields: the first line begins one, each other line begins one or continues
/// one. A text without a header line passes.
pub fn has_fields_alone(text: &[u8]) -> bool
    ensures { result ≡ article.has_fields_alone (article.header_lines text.now) }
{
    if text.is_empty() {
        return true;
    }
    let (first, later) = text.split_at(line_length(text));
    if is_empty_line(first) {
        return true;
    }
    begins_field(first) && are_fields_or_go_on(later)
}

/// The place at which the field of the first line ends, with the lines that continue it. The first line ends at
/// `first`.
fn field_end(text: &[u8], first: usize) -> usize
    requires { first ≤ length text.now }
    ensures low { first ≤ result }
    ensures within { result ≤ length text.now }
    ensures field { EndsField text.now first result }
{
    let mut end = first;
    let mut rest = &text[first..];
    while begins_blank(rest) {
        let (line, later) = rest.split_at(line_length(rest));
        end += line.len();
        rest = later;
    }
    end
}

/// The fields of a text's header in their order, each with the lines that continue it. Nothing after the header and its
/// empty line is read.
pub fn fields_of<'t>(alloc: Global, text: &'t [u8]) -> Result<Vec<&'t [u8]>, AllocError>
    ensures { IfOk result (λ fields. map (λ field. field.now) fields.items ≡ article.fields text.now) }
{
    let mut fields = Vec::with_capacity(alloc, USUAL_FIELDS)?;
    push_fields(&mut fields, text)?;
    Ok(fields)
}

/// Appends the fields that `fields_of` gives. Refused only for want of memory; then some of them may have been appended.
pub fn push_fields<'t>(fields: &mut Vec<&'t [u8]>, text: &'t [u8]) -> Result<(), AllocError>
    ensures { OnOk result (map (λ field. field.now) fields.new.items
        ≡ map (λ field. field.now) fields.old.items ++ article.fields text.now) }
{
    let mut rest = text;
    while !rest.is_empty() {
        let first = line_length(rest);
        if is_empty_line(&rest[..first]) {
            return Ok(());
        }
        let (field, later) = rest.split_at(field_end(rest, first));
        fields.push(field)?;
        rest = later;
    }
    Ok(())
}
