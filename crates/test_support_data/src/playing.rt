//! Rows, and how they are played.

use crate::answers::Answer;
use crate::arguments::{Arguments, RowError, Texts};
use crate::quotes::split_outside_quotes;
use std::alloc::Global;
use std::io::{self, Write};

/// What a row calls. It keeps what one call leaves for the next.
pub trait Area {
    /// Makes a call, and prints what it answers.
    fn answer(
        &mut self,
        alloc: Global,
        call: &str,
        arguments: &mut Arguments<'_>,
        answer: &mut Answer,
    ) -> Result<(), RowError>;
}

/// A row: the calls of an area that are made in turn.
#[derive(Drop)]
pub struct Row {
    pub area: String,
    pub name: String,
    pub calls: Vec<String>,
}

impl Row {
    /// The row that a line `== AREA: NAME` begins, from what is behind the mark.
    fn read(alloc: Global, line: &str) -> Result<Row, RowError> {
        let (area, name) = line.split_once(": ").ok_or(RowError::Unreadable)?;
        Ok(Row {
            area: String::from_str(alloc, area)?,
            name: String::from_str(alloc, name)?,
            calls: Vec::new(alloc),
        })
    }
}

/// The rows of an input, and the texts that it names.
#[derive(Drop)]
pub struct Rows {
    pub texts: Texts,
    pub rows: Vec<Row>,
}

impl Rows {
    pub fn new(alloc: Global) -> Rows {
        Rows {
            texts: Texts::new(alloc),
            rows: Vec::new(alloc),
        }
    }

    /// Takes a line of the input.
    pub fn take_line(&mut self, alloc: Global, line: &str) -> Result<(), RowError> {
        if line.is_empty() || line.starts_with("# ") {
            return Ok(());
        }
        if let Some(named) = line.strip_prefix("-- ") {
            return self.texts.push(alloc, named);
        }
        if let Some(row) = line.strip_prefix("== ") {
            let row = Row::read(alloc, row)?;
            self.rows.push(row)?;
            return Ok(());
        }
        self.push_call(alloc, line)
    }

    fn push_call(&mut self, alloc: Global, line: &str) -> Result<(), RowError> {
        let row = self.rows.last_mut().ok_or(RowError::Unreadable)?;
        let call = String::from_str(alloc, line)?;
        row.calls.push(call)?;
        Ok(())
    }
}

/// Plays a row: prints its calls, each with its answer.
pub fn play<A: Area, W: Write>(
    alloc: Global,
    area: &mut A,
    row: &Row,
    texts: &Texts,
    output: &mut W,
) -> io::Result<()> {
    writeln!(output, "== {}: {}", row.area, row.name)?;
    for line in &row.calls {
        let mut answer = Answer::new(alloc);
        match answer_line(alloc, area, line.as_str(), texts, &mut answer) {
            Ok(()) => writeln!(output, "{line} ->{}", answer.as_str())?,
            Err(RowError::Unreadable) => writeln!(output, "{line} -> unreadable row")?,
            Err(RowError::Memory) => writeln!(output, "{line} -> no memory")?,
        }
    }
    Ok(())
}

/// Makes the call of a line. An argument that is not read makes it unreadable.
fn answer_line<A: Area>(
    alloc: Global,
    area: &mut A,
    line: &str,
    texts: &Texts,
    answer: &mut Answer,
) -> Result<(), RowError> {
    let words = split_outside_quotes(alloc, line, ' ')?;
    let mut arguments = Arguments::new(alloc, texts, words.as_slice());
    let call = arguments.word()?;
    area.answer(alloc, call, &mut arguments, answer)?;
    if arguments.is_empty() {
        Ok(())
    } else {
        Err(RowError::Unreadable)
    }
}
