//! Measures parts of the server. The first word names the part:
//!
//! | Word | What is measured |
//! |---|---|
//! | `texts` | how long it takes to read a block of lines, to match a name with wildmats and to read articles |
//! | `files` | files over a volume in memory, beside a map in memory; with a further word also reading one file of 200 MiB, and 50 of 4 MiB |
//! | `journal` | what batches of 6 images ask of a device, the time of a batch, and that of a write to the cache that collects writes until a sync |
//!
//! Without a word it prints what batches ask of a device.
#![tactic(auto)]

mod articles;
mod batches;
mod cache;
mod carrying;
mod files;
mod messages;
mod segments;
mod wildmats;

use anyhow::Result;
use std::env;

fn main(rt: HostRuntime) -> Result<()> {
    let words: Vec<String> = env::args(&rt)?.collect(rt.alloc())?;
    let word = match words.get(1) {
        Some(word) => word.as_str(),
        None => "",
    };
    match word {
        "texts" => measure_texts(&rt),
        "files" => files::measure(&rt, rt.alloc(), words.len() > 2),
        "journal" => measure_journal(&rt),
        _ => count_calls(&rt, false),
    }
}

/// Prints the times of the text crates.
fn measure_texts(rt: &HostRuntime) -> Result<()> {
    messages::measure(rt, rt.alloc())?;
    wildmats::measure(rt, rt.alloc())?;
    articles::measure(rt, rt.alloc())
}

/// Prints what batches ask of a device, and their times.
fn measure_journal(rt: &HostRuntime) -> Result<()> {
    count_calls(rt, true)?;
    cache::measure(rt, rt.alloc())
}

/// Prints what batches ask of a device and, if asked, the time of a batch.
fn count_calls(rt: &HostRuntime, is_timed: bool) -> Result<()> {
    batches::measure(rt, is_timed)?;
    segments::measure(rt, rt.alloc())
}
