//! The version, and the commit that the build told the program.

use program_command_line::VERSION;
use program_printing::Failure;
use std::fs::File;
use std::io::{self, Write};
use std::os::unix::fs::FileExt;
use std::rt::Files;

/// The program's own file, as Linux shows it (proc(5)).
const OWN_FILE: &str = "/proc/self/exe";

/// How many octets at the end of that file say the commit, where `bin/stamp` wrote it: `BEGIN`, the commit, blanks and an
/// LF. They stand behind the program that was linked, so no proof and no octet of it depends on them.
const STAMP_OCTETS: usize = 64;

/// What these octets begin with.
const BEGIN: &[u8] = b"newsd commit ";

/// Prints `newsd VERSION+COMMIT`, or `newsd VERSION` if the build told no commit or the program's file can't be read.
pub(crate) fn print_version<R: Files<File = File>, W: Write>(
    rt: &R,
    output: &mut W,
) -> Result<(), Failure> {
    let mut stamp = [0u8; STAMP_OCTETS];
    let _ = read_stamp(rt, &mut stamp);
    write!(output, "newsd {VERSION}")?;
    if let Some(commit) = commit_in(&stamp) {
        write!(output, "+{commit}")?;
    }
    Ok(writeln!(output)?)
}

/// Reads the last octets of the program's own file. A refusal leaves the stamp without a commit.
fn read_stamp<R: Files<File = File>>(rt: &R, stamp: &mut [u8; STAMP_OCTETS]) -> io::Result<()> {
    let file = File::open(rt, OWN_FILE)?;
    let octets = file.metadata()?.len();
    file.read_exact_at(stamp, octets.saturating_sub(STAMP_OCTETS as u64))
}

/// The commit in a stamp, if it is one: small letters, digits and dots.
fn commit_in(stamp: &[u8]) -> Option<&str> {
    let commit = stamp.strip_prefix(BEGIN)?.trim_ascii_end();
    if commit.is_empty() || !commit.iter().all(is_of_commit) {
        return None;
    }
    str::from_utf8(commit).ok()
}

/// Whether an octet may stand in the text of a commit.
fn is_of_commit(octet: &u8) -> bool {
    matches!(octet, b'a'..=b'z' | b'0'..=b'9' | b'.')
}
