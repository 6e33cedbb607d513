//! The words of a row.

use crate::errors::RowError;
use program_script::{Line, ParseError, number, parse};
use std::alloc::Global;

/// The words that are left of a row.
#[derive(Drop)]
pub(crate) struct Words<'a> {
    rest: &'a str,
}

impl<'a> Words<'a> {
    pub(crate) fn of(row: &'a str) -> Words<'a> {
        Words { rest: row }
    }

    /// The next word; empty if there is none.
    pub(crate) fn next(&mut self) -> &'a str {
        match self.rest.split_once(' ') {
            Some((word, rest)) => {
                self.rest = rest;
                word
            }
            None => self.all(),
        }
    }

    /// All that is left.
    pub(crate) fn all(&mut self) -> &'a str {
        let word = self.rest;
        self.rest = "";
        word
    }

    /// The next word, which is a number.
    pub(crate) fn number(&mut self) -> Result<u64, RowError> {
        number(self.next().as_bytes()).ok_or(RowError::Unreadable)
    }

    /// The next word, two hexadecimal digits.
    pub(crate) fn octet(&mut self) -> Result<u8, RowError> {
        match u8::from_str_radix(self.next(), 16) {
            Ok(octet) => Ok(octet),
            Err(_) => Err(RowError::Unreadable),
        }
    }
}

/// What a line of a script of `newsd sim` asks for.
pub(crate) fn read(alloc: Global, line: &str) -> Result<Line, RowError> {
    match parse(alloc, line.as_bytes()) {
        Ok(line) => Ok(line),
        Err(ParseError::Bad) => Err(RowError::Unreadable),
        Err(ParseError::Memory) => Err(RowError::Memory),
    }
}
