//! Octets from texts in quotes.

use crate::arguments::RowError;
use std::alloc::Global;

/// What of an escape is read.
#[derive(Clone, Copy)]
enum Escape {
    None,
    Begun,
    Hex,
    Digit(u8),
}

/// The octets of a text in quotes, from what is between the quotes.
pub fn unescaped(alloc: Global, text: &str) -> Result<Vec<u8>, RowError> {
    let mut octets = Vec::new(alloc);
    let mut escape = Escape::None;
    for octet in text.as_bytes() {
        escape = take_octet(&mut octets, escape, *octet)?;
    }
    match escape {
        Escape::None => Ok(octets),
        _ => Err(RowError::Unreadable),
    }
}

fn take_octet(octets: &mut Vec<u8>, escape: Escape, octet: u8) -> Result<Escape, RowError> {
    match (escape, octet) {
        (Escape::None, b'\\') => return Ok(Escape::Begun),
        (Escape::None, _) => octets.push(octet)?,
        (Escape::Begun, b'x') => return Ok(Escape::Hex),
        (Escape::Begun, _) => octets.push(meaning(octet)?)?,
        (Escape::Hex, _) => return Ok(Escape::Digit(digit(octet)?)),
        (Escape::Digit(high), _) => octets.push((high << 4) | digit(octet)?)?,
    }
    Ok(Escape::None)
}

fn meaning(octet: u8) -> Result<u8, RowError> {
    match octet {
        b'r' => Ok(b'\r'),
        b'n' => Ok(b'\n'),
        b't' => Ok(b'\t'),
        b'\\' | b'"' => Ok(octet),
        _ => Err(RowError::Unreadable),
    }
}

fn digit(octet: u8) -> Result<u8, RowError> {
    match octet {
        b'0'..=b'9' => Ok(octet - b'0'),
        b'a'..=b'f' => Ok(octet - b'a' + 10),
        _ => Err(RowError::Unreadable),
    }
}
