//! A text in the form of a batch, and the first text of a batch.

ghost use Rattle.std.specs.Prelude.{◌≡◌, ◌+◌, ◌-◌, ◌≤◌, Some, None, Ok, Err, length, take, drop, IfOk, IfErr, MatchOption};
ghost use Rattle.text_rnews.specs.Batch as batch;

use itoa::Buffer;
use memchr::memchr;
use std::alloc::{AllocError, Global};
use text_names::number_of;
use thiserror::Error;

/// The octets of the longest text that may be an article.
pub const TEXT_LIMIT: usize = 262_144;

/// What each header line begins with.
const KEYWORD: &[u8] = b"#! rnews ";

/// A first line with this many octets is not a header line.
const LINE_LIMIT: usize = 26;

/// Why no text is read.
#[derive(Clone, Copy, Debug, PartialEq, Eq, Error)]
pub enum BatchCause {
    /// The text does not follow a header line.
    #[error("no line `#! rnews LENGTH`")]
    NoHeader,
    /// The length in a header line is not 1 to 16 digits.
    #[error("the length is no number")]
    NoNumber,
    /// The octets end within a header line or a text.
    #[error("the batch is cut short")]
    CutShort,
}

/// A text with its header line, as in a batch.
pub fn entry(alloc: Global, text: &[u8]) -> Result<Vec<u8>, AllocError>
    ensures { IfOk result (λ octets. octets.items ≡ batch.entry text.now) }
{
    let mut buffer = Buffer::new();
    let mut octets = Vec::from_slice(alloc, KEYWORD)?;
    octets.extend_from_slice(buffer.format(text.len()).as_bytes())?;
    octets.push(b'\n')?;
    octets.extend_from_slice(text)?;
    Ok(octets)
}

/// Where the first text of a batch stands.
#[derive(Clone, Copy, Debug, PartialEq, Eq)]
pub enum Front {
    /// It begins and ends at these places.
    Text(usize, usize),
    /// It begins at this place, and has so many octets, which are too many for an article.
    TooLong(usize, u64),
}

/// Where the first text of a batch stands, or `None` if more octets are needed. `Err` if no batch begins with these octets.
#[tactic(auto, unfolding(crate::specs::Batch::first))]
pub fn find_text(octets: &[u8]) -> Result<Option<Front>, BatchCause>
    ensures found { IfOk result (λ found. MatchOption found (batch.first octets.now ≡ Ok None) (batch.IsFront octets.now)) }
    ensures err { IfErr result (λ cause. batch.first octets.now ≡ Err cause) }
{
    let end = line_length(octets);
    if end >= octets.len() {
        return Ok(None);
    }
    let start = end + 1;
    let size = size_of(&octets[..end])?;
    if size > TEXT_LIMIT as u64 {
        return Ok(Some(Front::TooLong(start, size)));
    }
    let size = size as usize;
    if size > octets.len() - start {
        return Ok(None);
    }
    Ok(Some(Front::Text(start, start + size)))
}

/// The number of octets before the first LF, or of all octets if they have no LF; at most 26.
fn line_length(octets: &[u8]) -> usize
    ensures { result ≡ batch.line_length octets.now }
{
    let front = first_octets(octets);
    match memchr(b'\n', front) {
        Some(at) => at,
        None => front.len(),
    }
}

/// The octets that decide whether the batch begins with a header line.
fn first_octets(octets: &[u8]) -> &[u8]
    ensures { result.now ≡ take 26 octets.now }
{
    if octets.len() <= LINE_LIMIT {
        octets
    } else {
        &octets[..LINE_LIMIT]
    }
}

/// The size that a header line names.
fn size_of(line: &[u8]) -> Result<u64, BatchCause>
    ensures { result ≡ batch.size_of line.now }
{
    if !line.starts_with(KEYWORD) {
        return Err(BatchCause::NoHeader);
    }
    match number_of(&line[KEYWORD.len()..]) {
        None => Err(BatchCause::NoNumber),
        Some(size) => Ok(size),
    }
}
