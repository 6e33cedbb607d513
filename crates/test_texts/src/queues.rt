//! The queues of sessions 1 and 2.

use crate::released::{answer_edges, answer_entries};
use kernel_outbox::{Lines, Outgoing, Queue, ReadyBuf};
use std::alloc::{AllocError, Global};
use test_support_data::{Answer, Area, Arguments, RowError};

/// The most entries of a release.
const MOST_ENTRIES: usize = 64;

/// The queues, and the buffer of a release.
#[derive(Drop)]
pub struct Queues {
    first: Queue,
    second: Queue,
    ready: ReadyBuf,
}

impl Queues {
    pub fn new(alloc: Global) -> Result<Queues, AllocError> {
        Ok(Queues {
            first: Queue::new(alloc),
            second: Queue::new(alloc),
            ready: ReadyBuf::new(alloc)?,
        })
    }

    fn queue(&self, number: u64) -> &Queue {
        if number == 1 {
            &self.first
        } else {
            &self.second
        }
    }

    /// `push SESSION OCTETS DEPENDENCY ENDS`: an output, the change on which it depends, and whether the session ends
    /// after it.
    fn push(&mut self, arguments: &mut Arguments<'_>) -> Result<(), RowError> {
        let number = arguments.number()?;
        let octets = Outgoing::whole(arguments.octets()?);
        self.put(number, octets, arguments)
    }

    /// `number SESSION OCTETS FIRST COUNT DEPENDENCY ENDS`: the same with lines of consecutive numbers after the octets,
    /// and the line that ends a block.
    fn number(&mut self, arguments: &mut Arguments<'_>) -> Result<(), RowError> {
        let number = arguments.number()?;
        let octets = arguments.octets()?;
        let first = arguments.number()?;
        let count = arguments.number()?;
        if first == 0 || first.checked_add(count).is_none() {
            return Err(RowError::Unreadable);
        }
        let octets = Outgoing::numbered(octets, first, count)?;
        self.put(number, octets, arguments)
    }

    /// `lines SESSION OCTETS COUNT DEPENDENCY ENDS`: octets, and lines of a source after them, which have so many octets.
    fn lines(
        &mut self,
        arguments: &mut Arguments<'_>,
        answer: &mut Answer,
    ) -> Result<(), RowError> {
        let number = arguments.number()?;
        let octets = arguments.octets()?;
        let lines = Lines {
            group: 0,
            next: 1,
            end: 1,
            octets: arguments.number()?,
        };
        match Outgoing::lined(octets, lines) {
            Ok(octets) => self.put(number, octets, arguments),
            Err(_) => {
                let _dependency = arguments.number()?;
                let _ends = arguments.is()?;
                Ok(answer.word("refused")?)
            }
        }
    }

    fn put(
        &mut self,
        number: u64,
        octets: Outgoing,
        arguments: &mut Arguments<'_>,
    ) -> Result<(), RowError> {
        let dependency = arguments.number()?;
        let ends = arguments.is()?;
        if number == 1 {
            push(&mut self.first, octets, dependency, ends)
        } else {
            push(&mut self.second, octets, dependency, ends)
        }
    }

    /// Whether each session ends; the buffer holds what is handed out.
    fn give(&mut self, durable: u64, answer: &mut Answer) -> Result<(), RowError> {
        self.ready.clear();
        answer.is(give(&mut self.first, 1, durable, &mut self.ready)?)?;
        Ok(answer.is(give(&mut self.second, 2, durable, &mut self.ready)?)?)
    }

    /// Whether each session ends, and what the buffer holds.
    fn release(&mut self, durable: u64, answer: &mut Answer) -> Result<(), RowError> {
        self.give(durable, answer)?;
        Ok(answer_entries(&self.ready, answer)?)
    }

    /// The same, but of the octets how many they are, the first and the last.
    fn edges(&mut self, durable: u64, answer: &mut Answer) -> Result<(), RowError> {
        self.give(durable, answer)?;
        Ok(answer_edges(&self.ready, answer)?)
    }
}

/// Adds an output after the others, if they can still be counted.
fn push(queue: &mut Queue, octets: Outgoing, dependency: u64, ends: bool) -> Result<(), RowError> {
    queue.reserve(1)?;
    if queue.buffered() > u64::MAX - octets.len() {
        return Err(RowError::Unreadable);
    }
    queue.push(octets, dependency, ends);
    Ok(())
}

/// Hands out of a session's queue, if the buffer has room for an entry, and answers whether the session ends.
fn give(
    queue: &mut Queue,
    number: u64,
    durable: u64,
    ready: &mut ReadyBuf,
) -> Result<bool, RowError> {
    if ready.len() >= MOST_ENTRIES {
        return Err(RowError::Unreadable);
    }
    Ok(test_support_lines::give(queue, number, durable, ready))
}

impl Area for Queues {
    /// `release DURABLE`: whatever depends on this change at most is handed out of both queues; so does `edges DURABLE`.
    /// `buffered SESSION`, `last_dependency SESSION` and `is_empty SESSION` ask a queue.
    fn answer(
        &mut self,
        _alloc: Global,
        call: &str,
        arguments: &mut Arguments<'_>,
        answer: &mut Answer,
    ) -> Result<(), RowError> {
        if call == "push" {
            return self.push(arguments);
        }
        if call == "number" {
            return self.number(arguments);
        }
        if call == "lines" {
            return self.lines(arguments, answer);
        }
        let number = arguments.number()?;
        match call {
            "release" => self.release(number, answer)?,
            "edges" => self.edges(number, answer)?,
            "buffered" => answer.number(self.queue(number).buffered())?,
            "last_dependency" => answer.number(self.queue(number).last_dependency())?,
            "is_empty" => answer.is(self.queue(number).is_empty())?,
            _ => return Err(RowError::Unreadable),
        }
        Ok(())
    }
}
