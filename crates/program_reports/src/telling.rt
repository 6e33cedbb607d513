//! Reports the state of a volume.

use program_files::{VolumeFile, find_to_read, new_counts, refusal_of};
use program_printing::CommandError;
use std::alloc::Global;
use std::fs::File;
use std::io::Write;
use std::rt::Files;
use volume_states::{VolumeStatus, json_text, state_on, table_text};

/// Prints the state of a volume, for a person or as JSON on one line.
pub fn status<R: Files<File = File>, W: Write>(
    rt: &R,
    alloc: Global,
    path: &str,
    is_json: bool,
    output: &mut W,
) -> Result<(), CommandError> {
    let state = state_of(rt, alloc, path)?;
    if is_json {
        let text = json_text(alloc, &state)?;
        writeln!(output, "{text}")?;
    } else {
        output.write_all(table_text(alloc, &state)?.as_slice())?;
    }
    output.flush()?;
    Ok(())
}

/// The state of the volume in a file.
fn state_of<R: Files<File = File>>(
    rt: &R,
    alloc: Global,
    path: &str,
) -> Result<VolumeStatus, CommandError> {
    let counts = new_counts(alloc)?;
    let file = VolumeFile::new(path, &counts);
    let disk = find_to_read(rt, alloc, file)?;
    match state_on(alloc, disk) {
        Ok(examined) => Ok(examined.state),
        Err(refused) => {
            let error = refused.error;
            // so that the file is no longer locked
            drop(refused);
            Err(refusal_of(rt, alloc, file, error))
        }
    }
}
