//! Checks of names, hosts, message-ids and numbers, on plain octets.

ghost use Rattle.std.specs.Prelude.{◌≡◌, ◌-◌, ◌<◌, ◌≤◌, true, ◌==◌, ◌&&◌, length, slice_index, count_by};
ghost use Rattle.std.specs.List.{list_all};
ghost use Rattle.std.specs.Char.{is_ascii_digit};
ghost use Rattle.std.specs.Str.Parse.{digits_value};
ghost use Rattle.text_names.specs.Ranges.{range_from};
ghost use Rattle.model.specs.Names as model;

use memchr::{memchr, memrchr};
use model::Range;

/// The octets of the longest group name (this project's rule).
pub const GROUP_NAME_LIMIT: usize = 40;

/// The octets of the longest host (this project's rule).
pub const HOST_LIMIT: usize = 64;

/// The octets of the longest message-id (RFC 3977, 3.6).
pub const MESSAGE_ID_LIMIT: usize = 250;

/// The digits of the longest number (RFC 3977, 9.8).
pub const NUMBER_LIMIT: usize = 16;

/// Whether the octet is printable ASCII but not a space: 33 to 126 (RFC 3977, 9.8).
pub fn is_visible(octet: u8) -> bool
    ensures { result ≡ model.is_visible octet }
{
    33 <= octet && octet <= 126
}

/// Whether the octet may occur in a group name (RFC 5536, 3.1.4).
fn is_group_octet(octet: u8) -> bool
    ensures { result ≡ model.is_group_octet octet }
{
    octet.is_ascii_alphanumeric() || octet == b'+' || octet == b'-' || octet == b'_'
}

/// Whether the octet may occur in a host.
fn is_host_octet(octet: u8) -> bool
    ensures { result ≡ model.is_host_octet octet }
{
    octet.is_ascii_alphanumeric() || octet == b'-'
}

/// Whether the octets are a component of a group name, as between two dots.
fn is_group_component(part: &[u8]) -> bool
    ensures { result ≡ model.is_run_of model.is_group_octet part.now }
{
    !part.is_empty() && part.iter().all(|octet| is_group_octet(*octet))
}

/// Whether the octets are a component of a host, as between two dots.
fn is_host_component(part: &[u8]) -> bool
    ensures { result ≡ model.is_run_of model.is_host_octet part.now }
{
    !part.is_empty() && part.iter().all(|octet| is_host_octet(*octet))
}

/// Whether the text is a group name: components of letters, digits, `+`, `-` and `_`, separated by dots, at most 40
/// octets.
pub fn is_group_name(text: &[u8]) -> bool
    ensures { result ≡ model.is_group_name text.now }
{
    text.len() <= GROUP_NAME_LIMIT
        && text
            .split(|octet| *octet == b'.')
            .all(|part| is_group_component(part))
}

/// Whether the text is a host: components of letters, digits and `-`, separated by dots, at most 64 octets.
pub fn is_host(text: &[u8]) -> bool
    ensures { result ≡ model.is_host text.now }
{
    text.len() <= HOST_LIMIT
        && text
            .split(|octet| *octet == b'.')
            .all(|part| is_host_component(part))
}

/// Whether the text is a message-id: `<`, visible octets without `>`, and `>`, 3 to 250 octets (RFC 3977, 3.6).
pub fn is_message_id(text: &[u8]) -> bool
    ensures { result ≡ model.is_message_id text.now }
{
    if text.len() < 3 || text.len() > MESSAGE_ID_LIMIT {
        return false;
    }
    text.iter().all(|octet| is_visible(*octet)) && has_brackets(text)
}

/// Whether the text begins with `<`, ends with `>`, and has no other `>` between them.
fn has_brackets(text: &[u8]) -> bool
    requires { 0 < length text.now }
    ensures { result ≡ ((slice_index text.now 0 == 60 && slice_index text.now (length text.now - 1) == 62) && count_by
        (λ octet. octet == 62) text.now == 1) }
{
    let end = text.len() - 1;
    if text[0] != b'<' || text[end] != b'>' {
        return false;
    }
    text.iter().filter(|octet| **octet == b'>').count() == 1
}

/// Whether a message-id is of this host: the part between its last `@` and the `>` is the host.
pub fn is_of_host(host: &[u8], id: &[u8]) -> bool
    ensures { result ≡ model.is_of_host host.now id.now }
{
    if id.is_empty() {
        return false;
    }
    let inside = &id[..id.len() - 1];
    match memrchr(b'@', inside) {
        Some(at) => &inside[at + 1..] == host,
        None => false,
    }
}

/// The number that 1 to 16 digits write (RFC 3977, 9.8).
pub fn number_of(text: &[u8]) -> Option<u64>
    ensures { result ≡ model.number_of text.now }
{
    if text.len() > NUMBER_LIMIT || !is_numeral(text) {
        return None;
    }
    Some(value_of(text))
}

/// Whether the octets are digits, at least one.
fn is_numeral(text: &[u8]) -> bool
    ensures { result ≡ model.is_run_of is_ascii_digit text.now }
{
    !text.is_empty() && text.iter().all(|octet| octet.is_ascii_digit())
}

/// The number that the digits write.
fn value_of(digits: &[u8]) -> u64
    requires digits { list_all is_ascii_digit digits.now ≡ true }
    requires small { length digits.now ≤ 16 }
    ensures { result ≡ digits_value 10 digits.now }
{
    let mut value = 0;
    for octet in digits {
        value = value * 10 + u64::from(*octet - b'0');
    }
    value
}

/// The range that `n`, `n-` or `n-m` writes (RFC 3977, 9.8). If m is less than n, the range is empty.
pub fn range_of(text: &[u8]) -> Option<Range>
    ensures { result ≡ model.range_of text.now }
{
    match memchr(b'-', text) {
        None => {
            let first = number_of(text)?;
            Some(Range {
                first,
                last: Some(first),
            })
        }
        Some(dash) => range_from(number_of(&text[..dash])?, &text[dash + 1..]),
    }
}

/// The range from this number on, up to the number after the dash.
fn range_from(first: u64, last: &[u8]) -> Option<Range>
    ensures { result ≡ range_from first last.now }
{
    if last.is_empty() {
        return Some(Range { first, last: None });
    }
    let last = number_of(last)?;
    Some(Range {
        first,
        last: Some(last),
    })
}
