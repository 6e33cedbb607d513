//! The scripts of the input.

use crate::errors::RowError;
use std::alloc::Global;

/// Rows with a name.
#[derive(Drop)]
pub(crate) struct Script {
    name: String,
    is_played: bool,
    rows: Vec<String>,
}

impl Script {
    fn new(alloc: Global, name: &str, is_played: bool) -> Result<Script, RowError> {
        Ok(Script {
            name: String::from_str(alloc, name)?,
            is_played,
            rows: Vec::new(alloc),
        })
    }

    pub(crate) fn name(&self) -> &str {
        self.name.as_str()
    }

    pub(crate) fn is_played(&self) -> bool {
        self.is_played
    }

    pub(crate) fn rows(&self) -> &[String] {
        self.rows.as_slice()
    }

    /// Adds a row to the script; `+ NAME` stands for the rows of an earlier script.
    fn push(&mut self, alloc: Global, row: &str, earlier: &[Script]) -> Result<(), RowError> {
        let Some(name) = row.strip_prefix("+ ") else {
            return self.push_row(alloc, row);
        };
        for row in rows_of(earlier, name)? {
            self.push_row(alloc, row.as_str())?;
        }
        Ok(())
    }

    fn push_row(&mut self, alloc: Global, row: &str) -> Result<(), RowError> {
        self.rows.push(String::from_str(alloc, row)?)?;
        Ok(())
    }
}

/// The rows of a script.
pub(crate) fn rows_of<'a>(scripts: &'a [Script], name: &str) -> Result<&'a [String], RowError> {
    match scripts.iter().find(|script| script.name.as_str() == name) {
        Some(script) => Ok(script.rows()),
        None => Err(RowError::NoRows),
    }
}

/// Takes a line of the input.
pub(crate) fn take_line(
    alloc: Global,
    scripts: &mut Vec<Script>,
    line: &str,
) -> Result<(), RowError> {
    if let Some(name) = line.strip_prefix("== ") {
        scripts.push(Script::new(alloc, name, true)?)?;
    } else if let Some(name) = line.strip_prefix("-- ") {
        scripts.push(Script::new(alloc, name, false)?)?;
    } else if let Some((script, earlier)) = scripts.split_last_mut() {
        script.push(alloc, line, earlier)?;
    }
    Ok(())
}
