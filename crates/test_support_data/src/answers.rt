//! What a call answers, as a row prints it.

use crate::quotes::{push_escaped, push_quoted};
use std::alloc::{AllocError, Global};
use std::fmt::Debug;

/// The words of an answer, each after a space.
#[derive(Drop)]
pub struct Answer {
    text: String,
}

impl Answer {
    pub fn new(alloc: Global) -> Answer {
        Answer {
            text: String::new(alloc),
        }
    }

    pub fn as_str(&self) -> &str {
        self.text.as_str()
    }

    pub fn word(&mut self, word: &str) -> Result<(), AllocError> {
        self.text.push(' ')?;
        self.text.push_str(word)
    }

    pub fn number(&mut self, number: u64) -> Result<(), AllocError> {
        write!(self.text, " {number}")
    }

    /// A number that may be below zero.
    pub fn signed(&mut self, number: i64) -> Result<(), AllocError> {
        write!(self.text, " {number}")
    }

    /// A number, or `none`.
    pub fn found(&mut self, number: Option<u64>) -> Result<(), AllocError> {
        match number {
            Some(number) => self.number(number),
            None => self.word("none"),
        }
    }

    pub fn is(&mut self, is: bool) -> Result<(), AllocError> {
        self.word(if is { "true" } else { "false" })
    }

    /// Octets in quotes.
    pub fn octets(&mut self, octets: &[u8]) -> Result<(), AllocError> {
        self.text.push(' ')?;
        push_quoted(&mut self.text, octets)
    }

    /// Octets without quotes.
    pub fn plain(&mut self, octets: &[u8]) -> Result<(), AllocError> {
        self.text.push(' ')?;
        for octet in octets {
            push_escaped(&mut self.text, *octet)?;
        }
        Ok(())
    }

    /// A value as `Debug` writes it.
    pub fn shown<T: Debug>(&mut self, value: &T) -> Result<(), AllocError> {
        write!(self.text, " {value:?}")
    }

    /// Octets in quotes, or `none`.
    pub fn octets_or_none(&mut self, octets: Option<&[u8]>) -> Result<(), AllocError> {
        match octets {
            Some(octets) => self.octets(octets),
            None => self.word("none"),
        }
    }

    /// A text of several lines, each with a mark before it. One that ends its last line has a mark at the end.
    pub fn lines(&mut self, text: &str) -> Result<(), AllocError> {
        self.text.push_str("\n| ")?;
        for letter in text.chars() {
            if letter == '\n' {
                self.text.push_str("\n| ")?;
            } else {
                self.text.push(letter)?;
            }
        }
        Ok(())
    }
}
