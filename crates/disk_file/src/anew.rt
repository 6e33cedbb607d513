//! Files that are made anew, and whether two paths name one file.

use std::fs::{self, File, Metadata, OpenOptions};
use std::io::{self, ErrorKind};
use std::os::unix::fs::{MetadataExt, OpenOptionsExt, fchown};
use std::rt::Files;

/// Makes a file at this path that wasn't there, to be read and written, with this mode less what the process leaves out of modes. What
/// stands there is removed first, and is neither opened nor followed: so nothing is written through a link, and a pipe holds up nobody.
/// Refused where a directory stands there, where the system doesn't remove what stands there, and where something else has come there
/// meanwhile; what stands there then stays.
pub fn make_anew<R: Files<File = File>>(rt: &R, path: &str, mode: u32) -> io::Result<File> {
    match fs::remove_file(rt, path) {
        Ok(()) => {}
        Err(error) if error.kind() == ErrorKind::NotFound => {}
        Err(error) => return Err(error),
    }
    let mut options = OpenOptions::new();
    options
        .read(true)
        .write(true)
        .create_new(true)
        .mode(mode)
        .open(rt, path)
}

/// Gives an open file the owner, the group and the mode of another file. Refused where the process may not do so; then it may have some of
/// them.
pub fn take_after(file: &File, other: &Metadata) -> io::Result<()> {
    fchown(file, Some(other.uid()), Some(other.gid()))?;
    file.set_permissions(other.permissions())
}

/// Gives a file that was made at `part` the name `path`, which no file has, and takes the one away under which it was made. Where the file
/// system has no second names, it is renamed. Refused where something has come to `path`. A refusal leaves what stands there, and nothing
/// at `part`.
pub fn give_name<R: Files<File = File>>(rt: &R, part: &str, path: &str) -> io::Result<()> {
    let named = match rt.hard_link(part, path) {
        Err(error) if error.kind() != ErrorKind::AlreadyExists => fs::rename(rt, part, path),
        linked => linked,
    };
    // a renamed one isn't there any more
    let _ = fs::remove_file(rt, part);
    named
}

/// Whether two paths name one file, by its device and its inode, however they name it: by a symbolic link, by a second name, or by
/// another way through the folders. A path at which the system doesn't look names no other's.
pub fn are_one<R: Files<File = File>>(rt: &R, a: &str, b: &str) -> bool {
    match (fs::metadata(rt, a), fs::metadata(rt, b)) {
        (Ok(a), Ok(b)) => a.dev() == b.dev() && a.ino() == b.ino(),
        _ => false,
    }
}
