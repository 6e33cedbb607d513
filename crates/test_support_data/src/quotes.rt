//! Texts in quotes: where a line is split, and how octets are printed.

use std::alloc::{AllocError, Global};

/// A run of so many equal octets is printed as a number and the octet.
const LONG_RUN: usize = 16;

/// A text that is being split.
#[derive(Drop)]
struct Splitter {
    parts: Vec<String>,
    part: String,
    is_quoted: bool,
    is_escaped: bool,
}

impl Splitter {
    fn take(&mut self, alloc: Global, letter: char, separator: char) -> Result<(), AllocError> {
        if letter == separator && !self.is_quoted {
            let part = std::mem::replace(&mut self.part, String::new(alloc));
            self.parts.push(part)?;
            return Ok(());
        }
        if letter == '"' && !self.is_escaped {
            self.is_quoted = !self.is_quoted;
        }
        self.is_escaped = letter == '\\' && self.is_quoted && !self.is_escaped;
        self.part.push(letter)
    }
}

/// The parts of a text between the separators that are outside quotes.
pub fn split_outside_quotes(
    alloc: Global,
    text: &str,
    separator: char,
) -> Result<Vec<String>, AllocError> {
    let mut splitter = Splitter {
        parts: Vec::new(alloc),
        part: String::new(alloc),
        is_quoted: false,
        is_escaped: false,
    };
    for letter in text.chars() {
        splitter.take(alloc, letter, separator)?;
    }
    let Splitter {
        mut parts,
        part,
        ..
    } = splitter;
    parts.push(part)?;
    Ok(parts)
}

/// Octets that are being printed.
#[derive(Drop)]
struct Quoting<'a> {
    text: &'a mut String,
    is_begun: bool,
    is_open: bool,
}

impl Quoting<'_> {
    fn begin_piece(&mut self) -> Result<(), AllocError> {
        if self.is_begun {
            self.text.push('+')?;
        }
        self.is_begun = true;
        Ok(())
    }

    fn close(&mut self) -> Result<(), AllocError> {
        if self.is_open {
            self.text.push('"')?;
        }
        self.is_open = false;
        Ok(())
    }

    fn push_run(&mut self, octet: u8, count: usize) -> Result<(), AllocError> {
        if count >= LONG_RUN {
            return self.push_long_run(octet, count);
        }
        if count > 0 && !self.is_open {
            self.begin_piece()?;
            self.text.push('"')?;
            self.is_open = true;
        }
        for _ in 0..count {
            push_escaped(self.text, octet)?;
        }
        Ok(())
    }

    fn push_long_run(&mut self, octet: u8, count: usize) -> Result<(), AllocError> {
        self.close()?;
        self.begin_piece()?;
        write!(self.text, "{count}*\"")?;
        push_escaped(self.text, octet)?;
        self.text.push('"')
    }

    fn end(&mut self) -> Result<(), AllocError> {
        if !self.is_begun {
            self.text.push_str("\"\"")?;
        }
        self.close()
    }
}

/// Adds octets in quotes. Long runs of an octet go outside: `"DATE"+506*" "`.
pub fn push_quoted(text: &mut String, octets: &[u8]) -> Result<(), AllocError> {
    let mut quoting = Quoting {
        text,
        is_begun: false,
        is_open: false,
    };
    let mut run = (0u8, 0usize);
    for octet in octets {
        if run.0 != *octet {
            quoting.push_run(run.0, run.1)?;
            run = (*octet, 0);
        }
        run.1 = run.1.saturating_add(1);
    }
    quoting.push_run(run.0, run.1)?;
    quoting.end()
}

/// Adds an octet as it is written between quotes.
pub fn push_escaped(text: &mut String, octet: u8) -> Result<(), AllocError> {
    match octet {
        b'\r' => text.push_str("\\r"),
        b'\n' => text.push_str("\\n"),
        b'\t' => text.push_str("\\t"),
        b'\\' => text.push_str("\\\\"),
        b'"' => text.push_str("\\\""),
        b' '..=b'~' => text.push(char::from(octet)),
        _ => write!(text, "\\x{octet:02x}"),
    }
}
