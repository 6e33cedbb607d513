//! The scripts of the input.

use crate::errors::RowError;
use crate::words::Words;
use std::alloc::Global;

/// A script.
#[derive(Drop)]
pub(crate) struct Script {
    name: String,
    is_played: bool,
    lines: Vec<String>,
}

impl Script {
    fn new(alloc: Global, name: &str, is_played: bool) -> Result<Script, RowError> {
        Ok(Script {
            name: String::from_str(alloc, name)?,
            is_played,
            lines: Vec::new(alloc),
        })
    }

    pub(crate) fn name(&self) -> &str {
        self.name.as_str()
    }

    pub(crate) fn is_played(&self) -> bool {
        self.is_played
    }

    pub(crate) fn lines(&self) -> &[String] {
        self.lines.as_slice()
    }

    /// Adds a line to the script; `+ N NAME` stands for the lines of an earlier script, N times.
    fn push(&mut self, alloc: Global, line: &str, earlier: &[Script]) -> Result<(), RowError> {
        let Some(used) = line.strip_prefix("+ ") else {
            return self.push_line(alloc, line);
        };
        let mut words = Words::of(used);
        let times = words.number()?;
        let lines = lines_of(earlier, words.all())?;
        for _ in 0..times {
            self.push_lines(alloc, lines)?;
        }
        Ok(())
    }

    fn push_lines(&mut self, alloc: Global, lines: &[String]) -> Result<(), RowError> {
        for line in lines {
            self.push_line(alloc, line.as_str())?;
        }
        Ok(())
    }

    fn push_line(&mut self, alloc: Global, line: &str) -> Result<(), RowError> {
        self.lines.push(String::from_str(alloc, line)?)?;
        Ok(())
    }
}

/// The lines of a script.
pub(crate) fn lines_of<'a>(scripts: &'a [Script], name: &str) -> Result<&'a [String], RowError> {
    match scripts.iter().find(|script| script.name.as_str() == name) {
        Some(script) => Ok(script.lines()),
        None => Err(RowError::Unreadable),
    }
}

/// Takes a line of the input.
pub(crate) fn take_line(
    alloc: Global,
    scripts: &mut Vec<Script>,
    line: &str,
) -> Result<(), RowError> {
    if let Some(name) = line.strip_prefix("== ") {
        scripts.push(Script::new(alloc, name, true)?)?;
    } else if let Some(name) = line.strip_prefix("-- ") {
        scripts.push(Script::new(alloc, name, false)?)?;
    } else if let Some((script, earlier)) = scripts.split_last_mut() {
        script.push(alloc, line, earlier)?;
    }
    Ok(())
}
