//! The time to match a name with a wildmat.

use anyhow::Result;
use std::alloc::Global;
use std::io::Print;
use std::time::{Clock, Instant};
use text_names::{GroupName, Wildmat};

/// How often a wildmat is matched.
const MATCHES: u32 = 100_000;

/// Prints the times of a wildmat that takes no name of the letter `a` alone, and of one that takes every name.
pub(crate) fn measure<R: Clock + Print>(rt: &R, alloc: Global) -> Result<()> {
    measure_wildmat(rt, alloc, b"*a*a*a*a*b")?;
    measure_wildmat(rt, alloc, b"*")
}

/// Prints the microseconds that all matches of a wildmat take.
fn measure_wildmat<R: Clock + Print>(rt: &R, alloc: Global, text: &[u8]) -> Result<()> {
    let name = GroupName::read(&[b'a'; 40])?;
    let wildmat = Wildmat::read(alloc, text)?;
    let start = Instant::now(rt)?;
    let mut taken = 0u32;
    for _ in 0..MATCHES {
        if wildmat.matches(&name) {
            taken = taken.wrapping_add(1);
        }
    }
    let time = start.elapsed(rt)?.as_micros();
    println!(rt; "{MATCHES} matches, {taken} taken: {time} us")?;
    Ok(())
}
