//! What a release hands out.

use kernel_outbox::ReadyBuf;
use std::alloc::AllocError;
use test_support_data::Answer;

/// The octets that are shown of each edge.
const EDGE: usize = 12;

/// Each entry: the session, its octets, and whether it ends after them.
pub fn answer_entries(ready: &ReadyBuf, answer: &mut Answer) -> Result<(), AllocError> {
    if ready.is_empty() {
        answer.word("empty")?;
    }
    for index in 0..ready.len() {
        let (number, octets, ends) = ready.entry(index);
        answer.number(number)?;
        answer.octets(octets)?;
        answer.is(ends)?;
    }
    Ok(())
}

/// Each entry: the session, the number of its octets, the first and the last of them, and whether it ends after them.
pub fn answer_edges(ready: &ReadyBuf, answer: &mut Answer) -> Result<(), AllocError> {
    for index in 0..ready.len() {
        let (number, octets, ends) = ready.entry(index);
        let edge = octets.len().min(EDGE);
        answer.number(number)?;
        answer.number(octets.len() as u64)?;
        answer.octets(&octets[..edge])?;
        answer.octets(&octets[octets.len() - edge..])?;
        answer.is(ends)?;
    }
    Ok(())
}
