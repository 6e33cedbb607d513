//! Files that are made anew, two paths of one file, and calls of the system.

use crate::said::{Said, of_system};
use crate::words::Words;
use disk_file::{are_one, make_anew, take_after};
use std::fs::{self, File, FileTimes};
use std::io::{self, Write};
use std::os::unix::fs::{MetadataExt, PermissionsExt, symlink};
use std::rt::HostRuntime;
use std::time::{Duration, SystemTime};

/// A mode that no mask changes.
const OWN: u32 = 0o600;

/// What is asked of a file; `None` if the row can't be read.
pub(crate) fn ask_files(rt: &HostRuntime, word: &str, words: &mut Words<'_>) -> Option<Said> {
    let path = words.path();
    match word {
        "put" => Some(of_system(fs::write(rt, path, words.next().as_bytes()))),
        "remove" => Some(of_system(fs::remove_file(rt, path))),
        "folder" => Some(of_system(fs::create_dir(rt, path))),
        "no-folder" => Some(of_system(fs::remove_dir(rt, path))),
        "show" => Some(octets_of(rt, path)),
        "is" => Some(what_is(rt, path)),
        "cut" => Some(of_system(cut(rt, path, words.number()?))),
        "touch" => Some(of_system(touch(rt, path))),
        "mode" => Some(of_system(set_mode(rt, path, words.mode()?))),
        _ => ask_two(rt, word, path, words.path()),
    }
}

fn ask_two(rt: &HostRuntime, word: &str, path: &str, other: &str) -> Option<Said> {
    match word {
        "move" => Some(of_system(fs::rename(rt, path, other))),
        "link" => Some(of_system(symlink(rt, path, other))),
        "name" => Some(of_system(fs::hard_link(rt, path, other))),
        "anew" => Some(of_system(write_anew(rt, path, other))),
        "take" => Some(of_system(take(rt, path, other))),
        "like" => Some(likeness(rt, path, other)),
        "one" => Some(Said::Both(are_one(rt, path, other), are_one(rt, other, path))),
        _ => None,
    }
}

fn octets_of(rt: &HostRuntime, path: &str) -> Said {
    match fs::read(rt, path) {
        Ok(octets) => Said::Octets(octets),
        Err(error) => Said::System(error.kind()),
    }
}

/// What stands at a path. A link isn't followed.
fn what_is(rt: &HostRuntime, path: &str) -> Said {
    match fs::symlink_metadata(rt, path) {
        Ok(seen) if seen.is_file() => Said::File(seen.len(), seen.mode() & 0o777),
        Ok(seen) if seen.is_dir() => Said::Word("a folder"),
        Ok(_) => Said::Word("no file"),
        Err(error) => Said::System(error.kind()),
    }
}

fn cut(rt: &HostRuntime, path: &str, len: u64) -> io::Result<()> {
    File::options().write(true).open(rt, path)?.set_len(len)
}

fn touch(rt: &HostRuntime, path: &str) -> io::Result<()> {
    let moment = SystemTime::UNIX_EPOCH + Duration::from_secs(1_000_000_000);
    let file = File::options().write(true).open(rt, path)?;
    file.set_times(FileTimes::new().set_modified(moment))
}

fn set_mode(rt: &HostRuntime, path: &str, mode: u32) -> io::Result<()> {
    fs::set_permissions(rt, path, fs::Permissions::from_mode(mode))
}

fn write_anew(rt: &HostRuntime, path: &str, text: &str) -> io::Result<()> {
    make_anew(rt, path, OWN)?.write_all(text.as_bytes())
}

fn take(rt: &HostRuntime, path: &str, other: &str) -> io::Result<()> {
    let other = fs::metadata(rt, other)?;
    take_after(&File::open(rt, path)?, &other)
}

/// Whether a file has the mode, the owner and the group of another one.
fn likeness(rt: &HostRuntime, path: &str, other: &str) -> Said {
    match (fs::metadata(rt, path), fs::metadata(rt, other)) {
        (Ok(seen), Ok(other)) => Said::Both(
            seen.mode() == other.mode(),
            (seen.uid(), seen.gid()) == (other.uid(), other.gid()),
        ),
        _ => Said::Word("no such files"),
    }
}
