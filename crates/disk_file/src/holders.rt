//! Which process holds a file.

use std::alloc::Global;
use std::fs::{self, File};
use std::io::Read;
use std::os::unix::fs::MetadataExt;
use std::rt::Files;

/// Where Linux lists the locks of files, one a line: `1: FLOCK  ADVISORY  WRITE 1234 fe:00:2302187 0 EOF` (proc_locks(5)).
const LOCKS: &str = "/proc/locks";

/// A file as the list of locks names it. Files of two devices may have one inode number.
#[derive(Clone, Copy, PartialEq, Eq)]
pub struct Node {
    major: u64,
    minor: u64,
    inode: u64,
}

impl Node {
    /// The file with this inode on the device of this number, whose hexadecimal digits are `MMMMMmmmmmmMMMmm`: those of
    /// the major and of the minor number, each in two parts (makedev(3)).
    pub fn new(device: u64, inode: u64) -> Node {
        Node {
            major: (device >> 8) & 0xfff | (device >> 32) & 0xffff_f000,
            minor: device & 0xff | (device >> 12) & 0xffff_ff00,
            inode,
        }
    }

    /// Reads `MAJOR:MINOR:INODE`, of which the first two are in hexadecimal.
    fn read(text: &str) -> Option<Node> {
        let mut numbers = text.split(':');
        Some(Node {
            major: u64::from_str_radix(numbers.next()?, 16).ok()?,
            minor: u64::from_str_radix(numbers.next()?, 16).ok()?,
            inode: numbers.next()?.parse::<u64>().ok()?,
        })
    }
}

/// The number of the process that holds the lock of the file at `path`. `None` if there is none, or the system doesn't
/// tell.
pub fn holder<R: Files<File = File>>(rt: &R, alloc: Global, path: &str) -> Option<u32> {
    let metadata = fs::metadata(rt, path).ok()?;
    let mut locks = String::new(alloc);
    let _ = File::open(rt, LOCKS).ok()?.read_to_string(&mut locks).ok()?;
    holder_in(locks.as_str(), Node::new(metadata.dev(), metadata.ino()))
}

/// The process that holds the lock of this file, according to a list of locks such as `/proc/locks`.
pub fn holder_in(locks: &str, node: Node) -> Option<u32> {
    locks.lines().find_map(|line| holder_by(line, node))
}

/// The process of a line, if it holds the lock of this file. A waiting process has an arrow after the line's number. A
/// process that isn't visible from here has the number 0.
fn holder_by(line: &str, node: Node) -> Option<u32> {
    let mut words = line.split_ascii_whitespace();
    if words.nth(1)? != "FLOCK" {
        return None;
    }
    let process = words.nth(2)?.parse::<u32>().ok()?;
    if process == 0 || Node::read(words.next()?)? != node {
        return None;
    }
    Some(process)
}
