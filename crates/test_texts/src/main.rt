//! Plays rows over the public calls of the crates of texts, and prints each call with its answer. The rows stand in
//! `stdin`, and what each must answer in `stdout`; `test_support_data` says how they are written.
#![tactic(auto)]

mod articles;
mod batches;
mod callers;
mod command_lines;
mod files;
mod indexes;
mod logged;
mod moments;
mod name_texts;
mod queues;
mod released;
mod script_lines;
mod streams;

use anyhow::{Result, anyhow};
use articles::Articles;
use batches::Batches;
use callers::Callers;
use command_lines::CommandLines;
use files::Files;
use indexes::Indexes;
use logged::LogLines;
use name_texts::NameTexts;
use queues::Queues;
use script_lines::ScriptLines;
use std::alloc::Global;
use std::io::{self, BufRead, BufReader, BufWriter, Write};
use streams::Stream;
use test_support_data::{Row, Rows, Texts, play};

/// Plays a row of one of the areas.
fn play_row<W: Write>(alloc: Global, row: &Row, texts: &Texts, output: &mut W) -> io::Result<()> {
    match row.area.as_str() {
        "article" => play(alloc, &mut Articles, row, texts, output),
        "names" => play(alloc, &mut NameTexts, row, texts, output),
        "grammar" => play(alloc, &mut CommandLines, row, texts, output),
        "framing" => play(alloc, &mut Stream::new(alloc), row, texts, output),
        "rnews" => play(alloc, &mut Batches, row, texts, output),
        "records" => play(alloc, &mut Files, row, texts, output),
        "networks" => play(alloc, &mut Callers, row, texts, output),
        "queues" => play(alloc, &mut Queues::new(alloc)?, row, texts, output),
        "index" => play(alloc, &mut Indexes::new(alloc), row, texts, output),
        "script" => play(alloc, &mut ScriptLines, row, texts, output),
        "logging" => play(alloc, &mut LogLines, row, texts, output),
        area => writeln!(output, "no area {area}"),
    }
}

fn read_rows(rt: &impl Input, alloc: Global) -> Result<Rows> {
    let mut rows = Rows::new(alloc);
    for line in BufReader::new(alloc, rt.reader())?.lines(alloc) {
        let line = line?;
        if let Err(error) = rows.take_line(alloc, line.as_str()) {
            return Err(anyhow!("{error:?}: {line}"));
        }
    }
    Ok(rows)
}

fn main(rt: HostRuntime) -> Result<()> {
    let alloc = rt.alloc();
    let rows = read_rows(&rt, alloc)?;
    let mut output = BufWriter::new(alloc, rt.stdout())?;
    for row in &rows.rows {
        play_row(alloc, row, &rows.texts, &mut output)?;
    }
    output.flush()?;
    Ok(())
}
