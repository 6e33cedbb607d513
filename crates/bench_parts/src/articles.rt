//! How the time to read an article grows with its text.

use anyhow::Result;
use std::alloc::{AllocError, Global};
use std::cmp::min;
use std::io::Print;
use std::time::{Clock, Instant};
use text_article::{Article, Origin};

/// How often a text is read.
const READS: u32 = 100;

/// The octets of the longest text that is stored.
const TEXT: usize = 262_144;

/// The fields of each text, except its short ones.
const FIELDS: &[u8] = b"Path: p!not-for-mail\r\nDate: Sun, 09 Sep 2001 01:46:40 +0000\r\n\
      Message-ID: <1@a.example>\r\nFrom: a@example.org\r\nNewsgroups: x.a\r\nSubject: one\r\n";

/// Prints the times of three pairs of texts. The second text of each has twice as much of what the pair is named after.
pub(crate) fn measure<R: Clock + Print>(rt: &R, alloc: Global) -> Result<()> {
    compare(
        rt,
        alloc,
        "short header lines",
        (4_096, TEXT),
        (8_192, TEXT),
    )?;
    compare(rt, alloc, "long body", (0, TEXT / 2), (0, TEXT))?;
    compare(
        rt,
        alloc,
        "header that is too long",
        (TEXT / 2, TEXT),
        (TEXT, TEXT),
    )
}

/// A text of about `size` octets, about `header` of them in its header, in lines of 6 octets.
fn text_of(alloc: Global, header: usize, size: usize) -> Result<Vec<u8>, AllocError> {
    let mut text = FIELDS.to_vec(alloc)?;
    for _ in 0..header.saturating_sub(text.len()) / 6 {
        text.extend_from_slice(b"a: b\r\n")?;
    }
    text.extend_from_slice(b"\r\n")?;
    for _ in 0..size.saturating_sub(text.len()).saturating_sub(2) {
        text.push(b'x')?;
    }
    text.extend_from_slice(b"\r\n")?;
    Ok(text)
}

/// The nanoseconds that the fastest reading of a text takes.
fn reading_time(rt: &impl Clock, alloc: Global, text: &[u8]) -> Result<u128> {
    let mut fastest = u128::MAX;
    for _ in 0..READS {
        let start = Instant::now(rt)?;
        let article = Article::read(alloc, text, Origin::Carried);
        fastest = min(fastest, start.elapsed(rt)?.as_nanos());
        drop(article);
    }
    Ok(fastest)
}

/// Prints the nanoseconds that two texts take, each with the octets of its header and of the whole text, and their
/// ratio.
fn compare<R: Clock + Print>(
    rt: &R,
    alloc: Global,
    name: &str,
    less: (usize, usize),
    more: (usize, usize),
) -> Result<()> {
    let first = reading_time(rt, alloc, text_of(alloc, less.0, less.1)?.as_slice())?;
    let second = reading_time(rt, alloc, text_of(alloc, more.0, more.1)?.as_slice())?;
    println!(rt; "{name}: {first} ns, then {second} ns")?;
    let ratio = second.saturating_mul(100) / first.max(1);
    println!(rt; "{name}: ratio {ratio} percent")?;
    Ok(())
}
