//! The arguments of a call.

use crate::literals::unescaped;
use crate::quotes::split_outside_quotes;
use std::alloc::{AllocError, AllocFailed, Global};

/// Why a row is not played.
#[derive(Debug, Clone, Copy, PartialEq, Drop)]
pub enum RowError {
    Memory,
    /// A call or an argument that is none, or arguments for which the call's precondition does not hold.
    Unreadable,
}

impl From<AllocError> for RowError {
    fn from(_: AllocError) -> RowError {
        RowError::Memory
    }
}

impl<T: Drop> From<AllocFailed<T>> for RowError {
    fn from(_: AllocFailed<T>) -> RowError {
        RowError::Memory
    }
}

#[derive(Drop)]
struct NamedText {
    name: String,
    octets: Vec<u8>,
}

/// The texts that have names.
#[derive(Drop)]
pub struct Texts {
    texts: Vec<NamedText>,
}

impl Texts {
    pub fn new(alloc: Global) -> Texts {
        Texts {
            texts: Vec::new(alloc),
        }
    }

    /// Names a text: `NAME OCTETS`.
    pub fn push(&mut self, alloc: Global, line: &str) -> Result<(), RowError> {
        let (name, octets) = line.split_once(' ').ok_or(RowError::Unreadable)?;
        let octets = self.octets(alloc, octets)?;
        let name = String::from_str(alloc, name)?;
        self.texts.push(NamedText { name, octets })?;
        Ok(())
    }

    /// The octets that an argument stands for.
    pub fn octets(&self, alloc: Global, argument: &str) -> Result<Vec<u8>, RowError> {
        let mut octets = Vec::new(alloc);
        for piece in &split_outside_quotes(alloc, argument, '+')? {
            self.push_piece(alloc, piece.as_str(), &mut octets)?;
        }
        Ok(octets)
    }

    fn push_piece(&self, alloc: Global, piece: &str, octets: &mut Vec<u8>) -> Result<(), RowError> {
        let parts = split_outside_quotes(alloc, piece, '*')?;
        let (count, text) = match parts.as_slice() {
            [text] => (1, text.as_str()),
            [count, text] => (count_of(count.as_str())?, text.as_str()),
            _ => return Err(RowError::Unreadable),
        };
        let part = self.part(alloc, text)?;
        for _ in 0..count {
            octets.extend_from_slice(part.as_slice())?;
        }
        Ok(())
    }

    fn part(&self, alloc: Global, text: &str) -> Result<Vec<u8>, RowError> {
        if let Some(text) = text.strip_prefix("\"") {
            let text = text.strip_suffix("\"").ok_or(RowError::Unreadable)?;
            return unescaped(alloc, text);
        }
        for named in &self.texts {
            if named.name.as_str() == text {
                return Ok(named.octets.clone()?);
            }
        }
        Err(RowError::Unreadable)
    }
}

fn count_of(text: &str) -> Result<u32, RowError> {
    text.parse::<u32>().ok().ok_or(RowError::Unreadable)
}

/// The arguments of a call that are not yet read.
#[derive(Drop)]
pub struct Arguments<'a> {
    alloc: Global,
    texts: &'a Texts,
    words: &'a [String],
}

impl<'a> Arguments<'a> {
    pub fn new(alloc: Global, texts: &'a Texts, words: &'a [String]) -> Arguments<'a> {
        Arguments {
            alloc,
            texts,
            words,
        }
    }

    /// Whether all arguments are read.
    pub fn is_empty(&self) -> bool {
        self.words.is_empty()
    }

    /// How many arguments are not yet read.
    pub fn len(&self) -> usize {
        self.words.len()
    }

    pub fn word(&mut self) -> Result<&'a str, RowError> {
        let (word, rest) = self.words.split_first().ok_or(RowError::Unreadable)?;
        self.words = rest;
        Ok(word.as_str())
    }

    pub fn octets(&mut self) -> Result<Vec<u8>, RowError> {
        let word = self.word()?;
        self.texts.octets(self.alloc, word)
    }

    /// A text in quotes that is UTF-8.
    pub fn text(&mut self) -> Result<String, RowError> {
        String::from_utf8(self.octets()?)
            .ok()
            .ok_or(RowError::Unreadable)
    }

    pub fn number(&mut self) -> Result<u64, RowError> {
        self.word()?.parse::<u64>().ok().ok_or(RowError::Unreadable)
    }

    pub fn small(&mut self) -> Result<u32, RowError> {
        count_of(self.word()?)
    }

    /// A number that may be below zero.
    pub fn signed(&mut self) -> Result<i64, RowError> {
        self.word()?.parse::<i64>().ok().ok_or(RowError::Unreadable)
    }

    pub fn is(&mut self) -> Result<bool, RowError> {
        match self.word()? {
            "true" => Ok(true),
            "false" => Ok(false),
            _ => Err(RowError::Unreadable),
        }
    }
}
