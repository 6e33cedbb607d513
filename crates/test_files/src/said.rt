//! What calls answer.

use anyhow::Result;
use fs::FsError;
use journal::JournalError;
use std::io::Write;

/// What a call answers.
#[derive(Drop)]
pub enum Said {
    Word(&'static str),
    Number(u64),
    /// This many octets, all of which have this value.
    Same(u64, u8),
    /// A number and the text that goes with it.
    With(u64, String),
    Text(String),
    Refused(FsError),
    NotOpened(JournalError),
    /// The files that there are: the name, the size and the sum of each.
    Files(Vec<FileSum>),
    Errors(&'static [FsError]),
}

/// A file: its name of one octet, its size, and the sum of its octets.
#[derive(Clone, Copy)]
pub struct FileSum {
    pub name: u8,
    pub size: u64,
    pub sum: u64,
}

pub const DONE: Said = Said::Word("done");

/// The call's preconditions do not hold, so it was not made.
pub const NOT_ASKED: Said = Said::Word("not asked");

/// Memory was refused.
pub const NO_MEMORY: Said = Said::Word("no memory");

pub const UNREADABLE: Said = Said::Word("unreadable row");

/// This many octets of one value, or that they differ.
pub fn same(octets: &[u8]) -> Said {
    match octets.first() {
        None => Said::Number(0),
        Some(first) if octets.iter().all(|octet| *octet == *first) => {
            Said::Same(octets.len() as u64, *first)
        }
        Some(_) => Said::Word("mixed"),
    }
}

/// A sum that tells octets apart: each octet and 1 is added to 31 times the sum of those before it.
pub fn sum_of(octets: &[u8]) -> u64 {
    let mut sum = 0u64;
    for octet in octets {
        sum = sum
            .wrapping_mul(31)
            .wrapping_add(u64::from(*octet))
            .wrapping_add(1);
    }
    sum
}

pub fn print_said<W: Write>(output: &mut W, said: &Said) -> Result<()> {
    match said {
        Said::Word(word) => write!(output, "{word}")?,
        Said::Number(number) => write!(output, "{number}")?,
        Said::Same(count, octet) => write!(output, "{count} of {octet}")?,
        Said::With(number, text) => write!(output, "{number} {text}")?,
        Said::Text(text) => write!(output, "{text}")?,
        Said::Refused(error) => write!(output, "{error}")?,
        Said::NotOpened(error) => write!(output, "{error}")?,
        Said::Files(files) => print_files(output, files.as_slice())?,
        Said::Errors(errors) => print_errors(output, errors)?,
    }
    Ok(())
}

fn print_files<W: Write>(output: &mut W, files: &[FileSum]) -> Result<()> {
    write!(output, "{} files", files.len())?;
    for file in files {
        let FileSum { name, size, sum } = *file;
        write!(output, " {}:{size}:{sum}", char::from(name))?;
    }
    Ok(())
}

fn print_errors<W: Write>(output: &mut W, errors: &[FsError]) -> Result<()> {
    let mut mark = "";
    for error in errors {
        write!(output, "{mark}{error}")?;
        mark = ", ";
    }
    Ok(())
}
