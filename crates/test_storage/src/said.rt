//! What calls answer.

use anyhow::Result;
use disk::DiskError;
use journal::JournalError;
use std::io::Write;

/// What a call answers.
#[derive(Drop)]
pub enum Said {
    Word(&'static str),
    Number(u64),
    /// A word and a number, as `committed 7`.
    Of(&'static str, u64),
    /// How many writes and syncs a device was asked.
    Counts(u64, u64),
    Octets(Vec<u8>),
    /// Blocks, each with the octet that fills it.
    Filled(Vec<(u32, u8)>),
}

pub const DONE: Said = Said::Word("done");

/// The call's preconditions do not hold, so it was not made.
pub const NOT_ASKED: Said = Said::Word("not asked");

/// Memory was refused.
pub const NO_MEMORY: Said = Said::Word("no memory");

/// A block whose octets differ.
pub const MIXED: Said = Said::Word("mixed");

pub const UNREADABLE: Said = Said::Word("unreadable row");

pub fn of_device(answer: Result<(), DiskError>) -> Said {
    match answer {
        Ok(()) => DONE,
        Err(DiskError::Fault) => Said::Word("fault"),
        Err(DiskError::Memory) => NO_MEMORY,
    }
}

pub fn of_journal(answer: Result<(), JournalError>) -> Said {
    match answer {
        Ok(()) => DONE,
        Err(error) => refused(error),
    }
}

pub fn refused(error: JournalError) -> Said {
    Said::Word(match error {
        JournalError::Fault => "fault",
        JournalError::Memory => "no memory",
        JournalError::NotAVolume => "not a volume",
        JournalError::Halted => "halted",
    })
}

/// Octets that a call answers, or that memory was refused.
pub fn of_octets(octets: Option<Vec<u8>>) -> Said {
    match octets {
        Some(octets) => Said::Octets(octets),
        None => NO_MEMORY,
    }
}

/// The octet that fills a block; `None` if its octets differ.
pub fn fill_of(block: &[u8]) -> Option<u8> {
    match block.first() {
        Some(first) if block.iter().all(|x| *x == *first) => Some(*first),
        _ => None,
    }
}

pub fn print_said<W: Write>(output: &mut W, said: &Said) -> Result<()> {
    match said {
        Said::Word(word) => write!(output, "{word}")?,
        Said::Number(number) => write!(output, "{number}")?,
        Said::Of(word, number) => write!(output, "{word} {number}")?,
        Said::Counts(writes, syncs) => write!(output, "writes {writes} syncs {syncs}")?,
        Said::Octets(octets) => print_octets(output, octets.as_slice())?,
        Said::Filled(blocks) => print_filled(output, blocks.as_slice())?,
    }
    Ok(())
}

/// Letters stand as they are, any other octet as its number after a backslash.
fn print_octets<W: Write>(output: &mut W, octets: &[u8]) -> Result<()> {
    for octet in octets {
        if octet.is_ascii_alphabetic() {
            write!(output, "{}", char::from(*octet))?;
        } else {
            write!(output, "\\{octet}")?;
        }
    }
    Ok(())
}

fn print_filled<W: Write>(output: &mut W, blocks: &[(u32, u8)]) -> Result<()> {
    write!(output, "{} blocks", blocks.len())?;
    for (number, octet) in blocks {
        write!(output, " {number}:{octet}")?;
    }
    Ok(())
}
