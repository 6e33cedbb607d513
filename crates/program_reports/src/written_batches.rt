//! Writes the articles of a volume as a batch.

use program_files::open_to_read;
use program_printing::CommandError;
use std::alloc::Global;
use std::fs::File;
use std::io::Write;
use std::rt::Files;
use text_names::GroupName;
use volume_exporting::LineEnds;

/// Writes the articles that are in a group of a volume, or in any, as `volume_exporting::export` does.
pub fn export<R: Files<File = File>, W: Write>(
    rt: &R,
    alloc: Global,
    path: &str,
    group: Option<&GroupName>,
    ends: LineEnds,
    output: &mut W,
) -> Result<(), CommandError> {
    let opened = open_to_read(rt, alloc, path)?;
    volume_exporting::export(alloc, opened.kernel.spool(), group, ends, output)?;
    output.flush()?;
    Ok(())
}
