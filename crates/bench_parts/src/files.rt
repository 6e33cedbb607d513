//! Files over a volume in memory, beside a map in memory: a file that grows piece by piece and is read back, of 1 MiB and of
//! 4 MiB, and 250 and 1,000 new files.

ghost use Rattle.std.specs.Prelude.{◌≤◌, IfOk, OnOk};
ghost use Rattle.bench_parts.specs.Files.{HasFiles};

use anyhow::{Result, ensure};
use fs::{append, create, make_empty, read_at};
use fs_blocks::BLOCK_SIZE;
use journal_volume::Volume;
use std::alloc::{AllocError, Global};
use std::cmp::min;
use std::collections::BTreeMap;
use std::io::Print;
use std::time::{Clock, Instant};

/// Blocks of the volume.
const BLOCKS: u32 = 2048;

/// Blocks of a volume with 200 MiB of files.
const MANY_BLOCKS: u32 = 65_536;

/// Inodes of the volume.
const INODES: u32 = 1024;

/// How often the large files are read.
const READS: u32 = 20;

/// The files of 4 MiB that have 200 MiB.
const FILES: u32 = 50;

/// The format, by which a file may be larger than 1,034 blocks.
const FORMAT: u32 = 2;

/// Octets that one call appends.
const PIECE: usize = 65_536;

/// How often each is measured; the fastest counts.
const TIMES: u32 = 5;

/// The name of the file that grows.
const NAME: &[u8] = b"a";

/// Prints microseconds and ratios. If asked, it then reads one file of 200 MiB, and 50 of 4 MiB.
pub(crate) fn measure(rt: &(impl Print + Clock), alloc: Global, has_large: bool) -> Result<()> {
    show_filling(rt, alloc)?;
    show_making(rt, alloc)?;
    if has_large {
        show_reading(rt, alloc)?;
    }
    Ok(())
}

fn show_filling(rt: &(impl Print + Clock), alloc: Global) -> Result<()> {
    let less = filling(rt, alloc, 16)?;
    let more = filling(rt, alloc, 64)?;
    show(rt, "a file of 1 MiB and of 4 MiB", less, more)
}

fn show_making(rt: &(impl Print + Clock), alloc: Global) -> Result<()> {
    let less = making(rt, alloc, 250)?;
    let more = making(rt, alloc, 1_000)?;
    show(rt, "250 and 1,000 new files", less, more)
}

/// Prints the times of reading 200 MiB, and their ratio.
fn show_reading(rt: &(impl Print + Clock), alloc: Global) -> Result<()> {
    let (of_many, of_one) = reading(rt, alloc)?;
    let name = "200 MiB read, of 50 files and of one";
    println!(rt; "{name}: {of_many} us and {of_one} us")?;
    println!(rt; "{name}: ratio {} percent", ratio(of_many, of_one))?;
    Ok(())
}

/// Prints the times of less and of more, in a volume and in a map, and their ratios.
fn show<R: Print>(rt: &R, name: &str, less: (u128, u128), more: (u128, u128)) -> Result<()> {
    println!(rt; "{name}: {} us and {} us", less.0, more.0)?;
    println!(rt; "{name}: ratio {} percent", ratio(less.0, more.0))?;
    println!(rt;
        "{name}, to a map in memory: ratio {} percent",
        ratio(more.1, more.0)
    )?;
    Ok(())
}

/// One time in hundredths of another.
fn ratio(of: u128, time: u128) -> u128 {
    time.saturating_mul(100) / of.max(1)
}

/// A volume of this many blocks without files.
fn empty(alloc: Global, count: u32) -> Result<Volume>
    requires some { 1024 ≤ count }
    requires few { count ≤ 65536 }
    ensures { IfOk result (λ volume. HasFiles volume.seen) }
{
    let octets = vec![in alloc; 0; count as usize * BLOCK_SIZE]?;
    let mut volume = Volume::of(alloc, octets, count)?;
    make_empty(&mut volume, INODES)?;
    volume.apply();
    Ok(volume)
}

/// The microseconds that a file of this many pieces takes, in a volume and in a map.
fn filling(rt: &impl Clock, alloc: Global, pieces: u32) -> Result<(u128, u128)> {
    let piece = vec![in alloc; 97; PIECE]?;
    let (mut of_volume, mut of_map) = (u128::MAX, u128::MAX);
    for _ in 0..TIMES {
        of_volume = min(of_volume, filling_once(rt, alloc, pieces, &piece)?);
        let start = Instant::now(rt)?;
        fill_map(alloc, pieces, &piece)?;
        of_map = min(of_map, start.elapsed(rt)?.as_micros());
    }
    Ok((of_volume, of_map))
}

/// The microseconds that it takes once in a volume.
fn filling_once(rt: &impl Clock, alloc: Global, pieces: u32, piece: &[u8]) -> Result<u128> {
    let mut volume = empty(alloc, BLOCKS)?;
    let start = Instant::now(rt)?;
    fill(alloc, &mut volume, pieces, piece)?;
    Ok(start.elapsed(rt)?.as_micros())
}

/// Makes a file of this many pieces, applies each piece separately, and reads the file back.
fn fill(alloc: Global, volume: &mut Volume, pieces: u32, piece: &[u8]) -> Result<()>
    requires { HasFiles volume.old.seen }
{
    create(volume, INODES, NAME)?;
    for _ in 0..pieces {
        append(volume, INODES, FORMAT, NAME, piece)?;
        volume.apply();
    }
    let octets = read_at(alloc, &*volume, INODES, NAME, 0, u64::MAX)?;
    ensure!(octets.last() == piece.last(), "another end");
    Ok(())
}

/// The same in a map.
fn fill_map(alloc: Global, pieces: u32, piece: &[u8]) -> Result<()> {
    let mut map: BTreeMap<Vec<u8>, Vec<u8>> = BTreeMap::new(alloc);
    for _ in 0..pieces {
        let content = map.entry(NAME.to_vec(alloc)?)?.or_insert(Vec::new(alloc));
        content.extend_from_slice(piece)?;
    }
    let octets = match map.get(NAME) {
        Some(content) => content.as_slice().to_vec(alloc)?,
        None => Vec::new(alloc),
    };
    ensure!(octets.last() == piece.last(), "another end");
    Ok(())
}

/// Files by number, with this many pieces each.
#[derive(Clone, Copy)]
struct Files {
    first: u32,
    end: u32,
    pieces: u32,
}

/// 50 files of 4 MiB. All of them are more than a processor's caches hold.
const MANY: Files = Files {
    first: 0,
    end: FILES,
    pieces: 64,
};

/// One file of as many octets, the name of which is found as fast as those of the others.
const ONE: Files = Files {
    first: FILES / 2,
    end: FILES / 2 + 1,
    pieces: 64 * FILES,
};

/// The microseconds that it takes to read the 50 files, and to read the one.
fn reading(rt: &impl Clock, alloc: Global) -> Result<(u128, u128)> {
    let many = filled(alloc, MANY)?;
    let one = filled(alloc, ONE)?;
    read_in_turns(rt, alloc, &many, &one)
}

/// The same of volumes that have them. Both are read in turns, so what else the machine does slows both.
fn read_in_turns(
    rt: &impl Clock,
    alloc: Global,
    many: &Volume,
    one: &Volume,
) -> Result<(u128, u128)>
    requires many { HasFiles many.now.seen }
    requires one { HasFiles one.now.seen }
{
    let (mut of_many, mut of_one) = (u128::MAX, u128::MAX);
    for _ in 0..READS {
        let start = Instant::now(rt)?;
        read_all(alloc, many, MANY)?;
        of_many = min(of_many, start.elapsed(rt)?.as_micros());
        let start = Instant::now(rt)?;
        read_all(alloc, one, ONE)?;
        of_one = min(of_one, start.elapsed(rt)?.as_micros());
    }
    Ok((of_many, of_one))
}

/// A volume with these files, and empty ones of the other numbers.
fn filled(alloc: Global, files: Files) -> Result<Volume>
    ensures { IfOk result (λ volume. HasFiles volume.seen) }
{
    let piece = vec![in alloc; 97; PIECE]?;
    let mut volume = empty(alloc, MANY_BLOCKS)?;
    make(&mut volume, FILES)?;
    for number in files.first..files.end {
        grow(&mut volume, number, files.pieces, &piece)?;
    }
    Ok(volume)
}

/// Reads these files.
fn read_all(alloc: Global, volume: &Volume, files: Files) -> Result<()>
    requires { HasFiles volume.now.seen }
{
    for number in files.first..files.end {
        read_through(alloc, volume, number, files.pieces)?;
    }
    Ok(())
}

/// Puts this many pieces into a file, and applies each separately.
fn grow(volume: &mut Volume, number: u32, pieces: u32, piece: &[u8]) -> Result<()>
    requires { HasFiles volume.old.seen }
    ensures { OnOk result (HasFiles volume.new.seen) }
{
    let name = number.to_be_bytes();
    for _ in 0..pieces {
        append(volume, INODES, FORMAT, &name, piece)?;
        volume.apply();
    }
    Ok(())
}

/// Reads a file piece by piece.
fn read_through(alloc: Global, volume: &Volume, number: u32, pieces: u32) -> Result<()>
    requires { HasFiles volume.now.seen }
{
    let name = number.to_be_bytes();
    for at in 0..pieces {
        let place = u64::from(at) * PIECE as u64;
        let octets = read_at(alloc, volume, INODES, &name, place, PIECE as u64)?;
        ensure!(octets.len() == PIECE, "another size");
    }
    Ok(())
}

/// The microseconds that this many new files take, in a volume and in a map.
fn making(rt: &impl Clock, alloc: Global, count: u32) -> Result<(u128, u128)> {
    let (mut of_volume, mut of_map) = (u128::MAX, u128::MAX);
    for _ in 0..TIMES {
        of_volume = min(of_volume, making_once(rt, alloc, count)?);
        let start = Instant::now(rt)?;
        make_in_map(alloc, count)?;
        of_map = min(of_map, start.elapsed(rt)?.as_micros());
    }
    Ok((of_volume, of_map))
}

/// The microseconds that they take once in a volume.
fn making_once(rt: &impl Clock, alloc: Global, count: u32) -> Result<u128> {
    let mut volume = empty(alloc, BLOCKS)?;
    let start = Instant::now(rt)?;
    make(&mut volume, count)?;
    Ok(start.elapsed(rt)?.as_micros())
}

/// Makes this many files, and applies each separately.
fn make(volume: &mut Volume, count: u32) -> Result<()>
    requires { HasFiles volume.old.seen }
    ensures { OnOk result (HasFiles volume.new.seen) }
{
    for number in 0..count {
        create(volume, INODES, &number.to_be_bytes())?;
        volume.apply();
    }
    Ok(())
}

/// The same in a map.
fn make_in_map(alloc: Global, count: u32) -> Result<(), AllocError> {
    let mut map: BTreeMap<Vec<u8>, Vec<u8>> = BTreeMap::new(alloc);
    for number in 0..count {
        let name = number.to_be_bytes().to_vec(alloc)?;
        let _ = map.entry(name)?.or_insert(Vec::new(alloc));
    }
    Ok(())
}
