//! An empty file system in memory, and calls of it whose preconditions are checked as they are made.

ghost use Rattle.std.specs.Prelude.{◌≤◌, IsTrue, IfOk};
ghost use Rattle.model.specs.Files.{HasRoom, IsFileSystem};
ghost use Rattle.fs.specs.Calls.{IsName};

use crate::said::{DONE, FileSum, NOT_ASKED, Said, UNREADABLE, same, sum_of};
use fs::{
    FsError, append, check, create, free_block_count, free_inode_count, make_empty, names, read_at,
    size, truncate, unlink, write_at,
};
use fs_blocks::{BLOCK_SIZE, Blocks};
use journal_volume::{BATCH_BLOCKS, BatchBuf, Volume};
use std::alloc::Global;

/// The inodes of each volume.
const INODES: u32 = 64;

/// The most octets that a call writes.
const MOST_OCTETS: u64 = 1 << 24;

/// The errors of the calls.
const ERRORS: &[FsError] = &[
    FsError::Memory,
    FsError::Damaged,
    FsError::Full,
    FsError::Exists,
    FsError::NotFound,
];

/// A volume with files, and its format.
#[derive(Drop)]
pub struct Files {
    volume: Volume,
    format: u32,
}

/// A volume of this many blocks and this format, without files; `None` if memory is refused.
pub fn new_files(alloc: Global, blocks: u64, format: u64) -> Option<Files> {
    if blocks < 1024 || 65_536 < blocks || 3 < format {
        return None;
    }
    let volume = empty_of(alloc, blocks as u32).ok()?;
    Some(Files {
        volume,
        format: format as u32,
    })
}

// The number of blocks is a variable: the prover would expand a literal.
fn empty_of(alloc: Global, count: u32) -> Result<Volume, FsError>
    requires some { 1024 ≤ count }
    requires few { count ≤ 65536 }
{
    let octets = vec![in alloc; 0; count as usize * BLOCK_SIZE]?;
    let mut volume = Volume::of(alloc, octets, count)?;
    make_empty(&mut volume, INODES)?;
    Ok(volume)
}

fn has_room(volume: &Volume) -> bool
    ensures { IsTrue result → HasRoom 64 volume.now.seen }
{
    let count = volume.len();
    1024 <= count && count <= 65_536
}

/// Whether a volume keeps the rule of blocks of this format.
fn is_sound(alloc: Global, volume: &Volume, format: u32) -> Result<bool, FsError>
    ensures room { IfOk result (λ sound. IsTrue sound → HasRoom 64 volume.now.seen) }
    ensures rule { IfOk result (λ sound. IsTrue sound → IsFileSystem 64 volume.now.seen) }
{
    if !has_room(volume) {
        return Ok(false);
    }
    match check(alloc, volume, INODES, format) {
        Ok(()) => Ok(true),
        Err(FsError::Damaged) => Ok(false),
        Err(error) => Err(error),
    }
}

fn is_name(name: &[u8]) -> bool
    ensures { IsTrue result → IsName name.now }
{
    1 <= name.len() && name.len() <= 63
}

fn answer_of(answer: Result<Said, FsError>) -> Said {
    match answer {
        Ok(said) => said,
        Err(error) => Said::Refused(error),
    }
}

fn done(answer: Result<(), FsError>) -> Result<Said, FsError> {
    answer?;
    Ok(DONE)
}

/// What is asked of a file with a name. The volume has to keep the rule of blocks before it.
///
/// - `create NAME`: its inode
/// - `unlink NAME`, `truncate NAME SIZE`
/// - `append NAME OCTET COUNT`, `begin NAME OCTET COUNT`: writes so many octets of one value at the end or over the
///   first ones; `write NAME PLACE OCTET COUNT` writes them at a place, or at the end if the file is shorter
/// - `size NAME`
/// - `read NAME PLACE COUNT`: how many octets of which value there are from a place on, of at most so many
pub fn answer_named(
    alloc: Global,
    files: &mut Files,
    word: &str,
    name: &[u8],
    numbers: &[u64],
) -> Said {
    let format = files.format;
    answer_of(named(alloc, &mut files.volume, (format, word), name, numbers))
}

fn named(
    alloc: Global,
    volume: &mut Volume,
    call: (u32, &str),
    name: &[u8],
    numbers: &[u64],
) -> Result<Said, FsError> {
    let (format, word) = call;
    if !is_name(name) || !is_sound(alloc, volume, format)? {
        return Err(FsError::Damaged);
    }
    match (word, numbers) {
        ("create", []) => Ok(Said::Number(u64::from(create(volume, INODES, name)?))),
        ("unlink", []) => done(unlink(volume, INODES, name)),
        ("truncate", [count]) => done(truncate(volume, INODES, format, name, *count)),
        ("size", []) => Ok(Said::Number(size(volume, INODES, name)?)),
        ("read", [place, count]) => {
            let octets = read_at(alloc, volume, INODES, name, *place, *count)?;
            Ok(same(&octets))
        }
        _ => write(alloc, volume, call, name, numbers),
    }
}

fn write(
    alloc: Global,
    volume: &mut Volume,
    call: (u32, &str),
    name: &[u8],
    numbers: &[u64],
) -> Result<Said, FsError>
    requires name { IsName name.now }
    requires room { HasRoom 64 volume.old.seen }
    requires rule { IsFileSystem 64 volume.old.seen }
{
    let (format, word) = call;
    match (word, numbers) {
        ("append", [value, count]) => {
            let octets = filled(alloc, *value, *count)?;
            done(append(volume, INODES, format, name, &octets))
        }
        ("begin", [value, count]) => {
            let octets = filled(alloc, *value, *count)?;
            done(write_at(volume, INODES, format, name, 0, &octets))
        }
        ("write", [place, value, count]) => {
            let octets = filled(alloc, *value, *count)?;
            done(write_within(volume, format, name, *place, &octets))
        }
        _ => Ok(UNREADABLE),
    }
}

/// Writes at a place, or at the end of the file if that comes before it.
fn write_within(
    volume: &mut Volume,
    format: u32,
    name: &[u8],
    place: u64,
    octets: &[u8],
) -> Result<(), FsError>
    requires name { IsName name.now }
    requires room { HasRoom 64 volume.old.seen }
    requires rule { IsFileSystem 64 volume.old.seen }
{
    let end = size(volume, INODES, name)?;
    write_at(volume, INODES, format, name, place.min(end), octets)
}

/// Octets of one value.
fn filled(alloc: Global, value: u64, count: u64) -> Result<Vec<u8>, FsError> {
    if MOST_OCTETS < count {
        return Err(FsError::Memory);
    }
    Ok(vec![in alloc; (value % 256) as u8; count as usize]?)
}

/// What is asked of a volume.
///
/// - `free-blocks`, `free-inodes`: how many there are
/// - `names`: the number of names, and the first
/// - `contents`: the files that there are of a to f, with their sizes and sums; no other may be there
/// - `create-many`: how many files are made before one is refused
/// - `apply` and `clean`: applies the stage, or takes a batch, and counts the dirty blocks that are left
/// - `block BLOCK`: how many octets of which value it has
/// - `set BLOCK PLACE OCTET ..`: replaces octets
/// - `check`: whether the blocks keep their rule
/// - `errors`: the errors of the calls
pub fn answer_whole(alloc: Global, files: &mut Files, word: &str, numbers: &[u64]) -> Said {
    let format = files.format;
    let volume = &mut files.volume;
    match (word, numbers) {
        ("create-many", []) => answer_of(create_many(alloc, volume, format)),
        ("apply", []) => apply(volume),
        ("clean", []) => clean(alloc, volume),
        ("block", [number]) => block(volume, *number),
        ("set", changes) => answer_of(set(volume, changes)),
        ("check", []) => checked(alloc, volume, format),
        ("errors", []) => Said::Errors(ERRORS),
        _ => answer_of(counted(alloc, volume, format, word)),
    }
}

fn counted(alloc: Global, volume: &Volume, format: u32, word: &str) -> Result<Said, FsError> {
    if !is_sound(alloc, volume, format)? {
        return Err(FsError::Damaged);
    }
    match word {
        "free-blocks" => Ok(Said::Number(u64::from(free_block_count(volume, INODES)))),
        "free-inodes" => Ok(Said::Number(u64::from(free_inode_count(volume, INODES)))),
        "names" => count_names(alloc, volume),
        "contents" => contents(alloc, volume),
        _ => Ok(UNREADABLE),
    }
}

fn checked(alloc: Global, volume: &Volume, format: u32) -> Said {
    match is_sound(alloc, volume, format) {
        Ok(true) => Said::Word("sound"),
        Ok(false) => Said::Word("damaged"),
        Err(error) => Said::Refused(error),
    }
}

fn count_names(alloc: Global, volume: &Volume) -> Result<Said, FsError>
    requires room { HasRoom 64 volume.now.seen }
    requires rule { IsFileSystem 64 volume.now.seen }
{
    let all = names(alloc, volume, INODES)?;
    let Some(first) = all.first() else {
        return Ok(Said::Number(0));
    };
    match str::from_utf8(first.as_slice()) {
        Ok(text) => Ok(Said::With(all.len() as u64, String::from_str(alloc, text)?)),
        Err(_) => Ok(NOT_ASKED),
    }
}

fn file_sum(alloc: Global, volume: &Volume, name: u8) -> Result<Option<FileSum>, FsError>
    requires room { HasRoom 64 volume.now.seen }
    requires rule { IsFileSystem 64 volume.now.seen }
{
    match read_at(alloc, volume, INODES, &[name], 0, u64::MAX) {
        Ok(octets) => Ok(Some(FileSum {
            name,
            size: octets.len() as u64,
            sum: sum_of(&octets),
        })),
        Err(FsError::NotFound) => Ok(None),
        Err(error) => Err(error),
    }
}

fn contents(alloc: Global, volume: &Volume) -> Result<Said, FsError>
    requires room { HasRoom 64 volume.now.seen }
    requires rule { IsFileSystem 64 volume.now.seen }
{
    let mut found = Vec::new(alloc);
    for name in b'a'..=b'f' {
        if let Some(file) = file_sum(alloc, volume, name)? {
            let Ok(()) = found.push(file) else {
                return Err(FsError::Memory);
            };
        }
    }
    if names(alloc, volume, INODES)?.len() != found.len() {
        return Err(FsError::Damaged);
    }
    Ok(Said::Files(found))
}

// How many files with names of one octet are made before the first one is refused.
fn create_many(alloc: Global, volume: &mut Volume, format: u32) -> Result<Said, FsError> {
    for octet in 128..u8::MAX {
        if !is_sound(alloc, volume, format)? {
            return Err(FsError::Damaged);
        }
        match create(volume, INODES, &[octet]) {
            Ok(_) => (),
            Err(FsError::Full) => return Ok(Said::Number(u64::from(octet - 128))),
            Err(error) => return Err(error),
        }
    }
    Ok(NOT_ASKED)
}

fn apply(volume: &mut Volume) -> Said {
    volume.apply();
    Said::Number(volume.dirty_len() as u64)
}

fn clean(alloc: Global, volume: &mut Volume) -> Said {
    let Ok(mut batch) = BatchBuf::new(alloc) else {
        return Said::Refused(FsError::Memory);
    };
    if volume.dirty_len() > BATCH_BLOCKS {
        return NOT_ASKED;
    }
    volume.copy_dirty(&mut batch);
    Said::Number(volume.dirty_len() as u64)
}

fn block(volume: &Volume, number: u64) -> Said {
    if number >= u64::from(volume.len()) {
        return NOT_ASKED;
    }
    same(volume.block(number as u32))
}

fn set(volume: &mut Volume, changes: &[u64]) -> Result<Said, FsError> {
    for change in changes.chunks(3) {
        match change {
            [number, place, octet] => replace(volume, *number, *place, *octet)?,
            _ => return Ok(UNREADABLE),
        }
    }
    Ok(DONE)
}

/// Replaces an octet of a block. `NotFound` if there is no such octet.
fn replace(volume: &mut Volume, number: u64, place: u64, octet: u64) -> Result<(), FsError> {
    if number >= u64::from(volume.len()) || place >= BLOCK_SIZE as u64 {
        return Err(FsError::NotFound);
    }
    volume.put_at(number as u32, place as usize, &[(octet % 256) as u8])?;
    Ok(())
}
