//! Scripts of calls: how a program of tests reads and plays them. Each line of a script is a call, and its answer is a
//! line of the output.
//!
//! A line `== NAME` begins a script that is played, and its name is printed. A line `-- NAME` begins one that only `for`
//! plays. The script consists of the lines up to the next of these; a line that begins with `#` is a remark.
//!
//! `for A B NAME` plays an earlier script for each number from A to B, and prints the answers of each on one line. In it
//! the word `%` is the number, and `%-1` the number before it.
#![tactic(auto)]

use anyhow::{Result, anyhow};
use std::alloc::{AllocError, Global};
use std::io::Write;

/// What the calls of a script are asked of.
pub trait Subject: Drop {
    /// What the first call of a script is asked of.
    fn new() -> Self;

    /// Asks the call of a line, and prints its answer without the end of a line.
    fn answer<W: Write>(
        &mut self,
        alloc: Global,
        line: &str,
        round: u64,
        output: &mut W,
    ) -> Result<()>;
}

/// A script, and whether it is played by itself.
#[derive(Drop)]
pub struct Script {
    name: String,
    is_played: bool,
    lines: Vec<String>,
}

impl Script {
    fn new(alloc: Global, name: &str, is_played: bool) -> Result<Script, AllocError> {
        Ok(Script {
            name: String::from_str(alloc, name)?,
            is_played,
            lines: Vec::new(alloc),
        })
    }
}

/// Takes a line of the input.
pub fn take_line(alloc: Global, scripts: &mut Vec<Script>, line: &str) -> Result<(), AllocError> {
    if let Some(name) = line.strip_prefix("== ") {
        scripts.push(Script::new(alloc, name, true)?)?;
    } else if let Some(name) = line.strip_prefix("-- ") {
        scripts.push(Script::new(alloc, name, false)?)?;
    } else if let Some(script) = scripts.last_mut() {
        if !line.starts_with('#') {
            script.lines.push(String::from_str(alloc, line)?)?;
        }
    }
    Ok(())
}

/// Plays the scripts, each from a new subject on.
pub fn play_all<S: Subject, W: Write>(
    alloc: Global,
    scripts: &[Script],
    output: &mut W,
) -> Result<()> {
    for script in scripts {
        if script.is_played {
            writeln!(output, "== {}", script.name)?;
            let mut subject = S::new();
            play(alloc, &mut subject, script, scripts, output)?;
        }
    }
    Ok(())
}

fn play<S: Subject, W: Write>(
    alloc: Global,
    subject: &mut S,
    script: &Script,
    scripts: &[Script],
    output: &mut W,
) -> Result<()> {
    for line in &script.lines {
        match line.as_str().strip_prefix("for ") {
            Some(rounds) => play_rounds(alloc, subject, rounds, scripts, output)?,
            None => {
                subject.answer(alloc, line.as_str(), 0, output)?;
                writeln!(output)?;
            }
        }
    }
    Ok(())
}

/// Plays a script for each of some numbers: `A B NAME`.
fn play_rounds<S: Subject, W: Write>(
    alloc: Global,
    subject: &mut S,
    rounds: &str,
    scripts: &[Script],
    output: &mut W,
) -> Result<()> {
    let (first, last, name) = bounds(rounds).ok_or(anyhow!("no rounds: {rounds}"))?;
    let script = find(scripts, name).ok_or(anyhow!("no script: {name}"))?;
    for round in first..=last {
        play_round(alloc, subject, script, round, output)?;
    }
    Ok(())
}

fn play_round<S: Subject, W: Write>(
    alloc: Global,
    subject: &mut S,
    script: &Script,
    round: u64,
    output: &mut W,
) -> Result<()> {
    let mut mark = "";
    for line in &script.lines {
        write!(output, "{mark}")?;
        subject.answer(alloc, line.as_str(), round, output)?;
        mark = ", ";
    }
    writeln!(output)?;
    Ok(())
}

fn bounds(rounds: &str) -> Option<(u64, u64, &str)> {
    let (first, rest) = rounds.split_once(' ')?;
    let (last, name) = rest.split_once(' ')?;
    Some((first.parse().ok()?, last.parse().ok()?, name))
}

fn find<'a>(scripts: &'a [Script], name: &str) -> Option<&'a Script> {
    scripts.iter().find(|script| script.name.as_str() == name)
}

/// The first word of a line, and the rest.
pub fn first_word(line: &str) -> (&str, &str) {
    line.split_once(' ').unwrap_or((line, ""))
}

/// The numbers of a text, in a round with this number. A word may stand for a number that is named. `None` if a word is
/// no number, or if memory is refused.
pub fn numbers(alloc: Global, text: &str, round: u64, named: &[(&str, u64)]) -> Option<Vec<u64>> {
    let mut found = Vec::new(alloc);
    for word in text.split(' ') {
        if !word.is_empty() {
            found.push(number(word, round, named)?).ok()?;
        }
    }
    Some(found)
}

fn number(word: &str, round: u64, named: &[(&str, u64)]) -> Option<u64> {
    match word {
        "%" => Some(round),
        "%-1" => round.checked_sub(1),
        _ => match named.iter().find(|(name, _)| *name == word) {
            Some((_, number)) => Some(*number),
            None => word.parse().ok(),
        },
    }
}
