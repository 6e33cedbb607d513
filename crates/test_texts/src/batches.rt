//! Batches of rnews, however they are cut into pieces, and line ends.

use std::alloc::Global;
use test_support_data::{Answer, Area, Arguments, RowError};
use text_rnews::{
    BatchError, BatchReader, BatchRefusal, Member, TEXT_LIMIT, entry, with_crlf, with_lf,
};

#[derive(Drop)]
pub struct Batches;

impl Area for Batches {
    /// `batch SIZE OCTETS`: the texts that are read when the octets arrive in pieces of this size, with `long` and its size for one that
    /// is too long, and the refusal, if one ends them. `entry TEXT`: the text in a batch. `lf TEXT`, `crlf TEXT`: the text with other line
    /// ends.
    fn answer(
        &mut self,
        alloc: Global,
        call: &str,
        arguments: &mut Arguments<'_>,
        answer: &mut Answer,
    ) -> Result<(), RowError> {
        match call {
            "batch" => {
                let size = arguments.small()? as usize;
                let octets = arguments.octets()?;
                answer_batch(alloc, octets.as_slice(), size, answer)
            }
            "limit" => Ok(answer.number(TEXT_LIMIT as u64)?),
            _ => answer_text(alloc, call, arguments.octets()?.as_slice(), answer),
        }
    }
}

fn answer_text(
    alloc: Global,
    call: &str,
    text: &[u8],
    answer: &mut Answer,
) -> Result<(), RowError> {
    let made = match call {
        "entry" => entry(alloc, text)?,
        "lf" => with_lf(alloc, text)?,
        "crlf" => with_crlf(alloc, text)?,
        _ => return Err(RowError::Unreadable),
    };
    Ok(answer.octets(made.as_slice())?)
}

fn answer_batch(
    alloc: Global,
    octets: &[u8],
    size: usize,
    answer: &mut Answer,
) -> Result<(), RowError> {
    if size == 0 {
        return Err(RowError::Unreadable);
    }
    let mut reader = BatchReader::new(alloc);
    for piece in octets.chunks(size) {
        reader.feed(piece)?;
        if let Some(refusal) = answer_texts(&mut reader, answer)? {
            return answer_refusal(refusal, answer);
        }
    }
    match reader.end() {
        Ok(()) => Ok(answer.word("end")?),
        Err(refusal) => answer_refusal(refusal, answer),
    }
}

/// Takes the complete texts, and answers the refusal, if one ends them.
fn answer_texts(
    reader: &mut BatchReader,
    answer: &mut Answer,
) -> Result<Option<BatchRefusal>, RowError> {
    for _ in 0..u64::MAX {
        match reader.next() {
            Ok(Some(Member::Text(text))) => answer.octets(text.as_slice())?,
            Ok(Some(Member::TooLong(size))) => {
                answer.word("long")?;
                answer.number(size)?;
            }
            Ok(None) => return Ok(None),
            Err(BatchError::Refused(refusal)) => return Ok(Some(refusal)),
            Err(BatchError::Memory) => return Err(RowError::Memory),
        }
    }
    Ok(None)
}

fn answer_refusal(refusal: BatchRefusal, answer: &mut Answer) -> Result<(), RowError> {
    let BatchRefusal { cause, place } = refusal;
    answer.shown(&cause)?;
    answer.number(place)?;
    Ok(())
}
