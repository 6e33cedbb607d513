//! The text of lines, and what it is written to.

ghost use Rattle.std.specs.Prelude.{◌≡◌, ◌≢◌, ◌≤◌, ◌==◌, ◌++◌, [], Some, None, count_by, length, true, false};
ghost use Rattle.server_log_lines.specs.Line.{line_of};

use crate::{LogEntry, line};
use model::Moment;
use std::alloc::{AllocError, Global};
use std::io::Write;

/// Lines that are written together.
#[derive(Drop)]
pub(crate) struct Lines {
    alloc: Global,
    text: Vec<u8>,
    /// The time of the first of them. `None` if there is none.
    since: Option<Moment>,
}

impl Lines {
    /// No line.
    pub(crate) fn new(alloc: Global) -> Lines
        ensures text { result.text.items ≡ [] }
        ensures since { result.since ≡ None }
    {
        Lines {
            alloc,
            text: Vec::new(alloc),
            since: None,
        }
    }

    /// Adds the line of an entry. Answers false, and adds nothing, if memory for it is refused.
    pub(crate) fn add(&mut self, entry: &LogEntry) -> bool
        ensures added { result ≡ true → self.new.text.items ≡ self.old.text.items ++ line_of entry.now.moment entry.now.event }
        ensures first { result ≡ true → self.old.since ≡ None → self.new.since ≡ Some entry.now.moment }
        ensures later { self.old.since ≢ None → self.new.since ≡ self.old.since }
        ensures refused { result ≡ false → (self.new.text.items ≡ self.old.text.items) × (self.new.since ≡ self.old.since) }
    {
        let is_added = match line(self.alloc, entry) {
            Ok(line) => self.text.extend_from_slice(line.as_slice()).is_ok(),
            Err(AllocError) => false,
        };
        if is_added && self.since.is_none() {
            self.since = Some(entry.moment);
        }
        is_added
    }

    /// Their text.
    pub(crate) fn text(&self) -> &[u8]
        ensures { result.now ≡ self.now.text.items }
    {
        self.text.as_slice()
    }

    /// The time of the first of them.
    pub(crate) fn since(&self) -> Option<Moment>
        ensures { result ≡ self.now.since }
    {
        self.since
    }
}

/// What the lines are written to.
#[derive(Drop)]
pub(crate) struct Output<F> {
    faults: F,
    /// Its last line has no LF, because the rest of it could not be written.
    is_cut: bool,
}

impl<F: Write + Drop> Output<F> {
    pub(crate) fn new(faults: F) -> Output<F> {
        Output {
            faults,
            is_cut: false,
        }
    }

    /// Writes lines, in one write where all of them are taken at once. Answers how many could not be written whole. If a part of one
    /// was written, the next lines begin with an LF.
    pub(crate) fn write_lines(&mut self, text: &[u8]) -> u64 {
        if self.is_cut && !self.rest_of(b"\n").is_empty() {
            return ends_in(text);
        }
        let rest = self.rest_of(text);
        self.is_cut = !text[..text.len() - rest.len()].ends_with(b"\n") && rest.len() < text.len();
        if rest.is_empty() && self.faults.flush().is_err() {
            return ends_in(text);
        }
        ends_in(rest)
    }

    /// Writes octets, and answers those that could not be written.
    fn rest_of<'a>(&mut self, octets: &'a [u8]) -> &'a [u8]
        ensures { length result.now ≤ length octets.now }
    {
        let mut rest = octets;
        for _ in 0..octets.len() {
            match self.faults.write(rest) {
                Ok(count) if count > 0 => rest = &rest[count..],
                _ => break,
            }
            if rest.is_empty() {
                break;
            }
        }
        rest
    }
}

/// How many lines end in this text.
fn ends_in(text: &[u8]) -> u64
    ensures { result ≡ count_by (λ octet. octet == 10) text.now }
{
    text.iter().filter(|octet| **octet == b'\n').count() as u64
}
