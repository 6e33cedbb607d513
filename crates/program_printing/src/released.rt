//! What an event of a simulation prints.

use crate::Failure;
use kernel_outbox::ReadyBuf;
use program_script::escaped;
use std::alloc::Global;
use std::fmt::Display;
use std::io::{self, Write};

/// Prints a refusal on a line of its own.
pub fn print_refusal<E: Display, W: Write>(error: &E, output: &mut W) -> io::Result<()> {
    writeln!(output, "{error}")
}

/// Prints what was handed out: for each session its octets, if there are any, and then its end, if it ends.
pub fn print_released<W: Write>(
    alloc: Global,
    ready: &ReadyBuf,
    output: &mut W,
) -> Result<(), Failure> {
    for index in 0..ready.len() {
        let (session, octets, ends) = ready.entry(index);
        if !octets.is_empty() {
            // this comes before any part of the line is printed, because memory may be refused
            let text = escaped(alloc, octets)?;
            write!(output, "out {session} ")?;
            output.write_all(text.as_slice())?;
            writeln!(output)?;
        }
        if ends {
            writeln!(output, "end {session}")?;
        }
    }
    Ok(())
}
