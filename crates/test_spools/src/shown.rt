//! What is found, in words.

use crate::errors::RowError;
use std::alloc::{AllocError, Global};

/// A number that is found; `none` without one.
pub(crate) fn number_found(alloc: Global, found: Option<u64>) -> Result<String, RowError> {
    match found {
        Some(number) => Ok(format!(in alloc; "{number}")?),
        None => Ok(String::from_str(alloc, "none")?),
    }
}

/// Octets in their printed form: CR as `\r`, LF as `\n`, TAB as `\t`. The texts have only these and printable ones.
pub(crate) fn shown(alloc: Global, octets: &[u8]) -> Result<String, RowError> {
    if octets.is_empty() {
        return Ok(String::from_str(alloc, "empty")?);
    }
    let mut text = String::new(alloc);
    for octet in octets {
        push(&mut text, *octet)?;
    }
    Ok(text)
}

fn push(text: &mut String, octet: u8) -> Result<(), AllocError> {
    match octet {
        b'\r' => text.push_str("\\r"),
        b'\n' => text.push_str("\\n"),
        b'\t' => text.push_str("\\t"),
        32..=126 => text.push(char::from(octet)),
        _ => text.push('?'),
    }
}
