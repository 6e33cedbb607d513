//! Line ends of texts.

ghost use Rattle.std.specs.Prelude.{◌≡◌, ◌+◌, ◌<◌, ◌==◌, ◌&&◌, ◌++◌, length, drop, slice_index, IfOk, OnOk};
ghost use Rattle.model.specs.Names.{begins};
ghost use Rattle.text_rnews.specs.LineEnds as ends;

use std::alloc::{AllocError, Global};

/// The text with each CRLF replaced by an LF.
pub fn with_lf(alloc: Global, octets: &[u8]) -> Result<Vec<u8>, AllocError>
    ensures { IfOk result (λ text. text.items ≡ ends.with_lf octets.now) }
{
    let mut text = Vec::with_capacity(alloc, octets.len())?;
    for (at, octet) in octets.iter().enumerate() {
        if !is_crlf_at(octets, at) {
            text.push(*octet)?;
        }
    }
    Ok(text)
}

/// Whether a CRLF begins at this place.
fn is_crlf_at(octets: &[u8], at: usize) -> bool
    requires { at < length octets.now }
    ensures { result ≡ (slice_index octets.now at == 13 && begins (λ octet. octet == 10) (drop (at + 1) octets.now)) }
{
    octets[at] == b'\r' && octets[at + 1..].first() == Some(&b'\n')
}

/// The text with each LF that follows no CR replaced by CRLF.
pub fn with_crlf(alloc: Global, octets: &[u8]) -> Result<Vec<u8>, AllocError>
    ensures { IfOk result (λ text. text.items ≡ ends.with_crlf octets.now) }
{
    let mut text = Vec::with_capacity(alloc, octets.len())?;
    let mut before = 0;
    for octet in octets {
        push_octet(&mut text, before, *octet)?;
        before = *octet;
    }
    Ok(text)
}

/// Appends an octet, as CRLF if it is an LF that follows no CR.
fn push_octet(text: &mut Vec<u8>, before: u8, octet: u8) -> Result<(), AllocError>
    ensures { OnOk result (text.new.items ≡ text.old.items ++ ends.with_cr before octet) }
{
    if octet == b'\n' && before != b'\r' {
        text.push(b'\r')?;
    }
    text.push(octet)?;
    Ok(())
}
