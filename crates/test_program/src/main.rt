//! Plays scripts through the program `newsd`, and prints what each run prints, its status, and then its faults.
//!
//! A line `== NAME` of standard input begins a script that is played, a line `-- NAME` one that only later scripts use.
//! The script consists of the lines up to the next of these. In it `$ WORD` is one of the program's words; without any
//! they are `newsd sim --host news.example`. `+ N NAME` stands for the lines of an earlier script, N times. `> N` gives
//! the output room for only N octets, prints how many are left, and gives the script's last line no LF. `? refusals` prints the
//! words of each refusal in place of a run.
#![tactic(auto)]

mod refusals;

use anyhow::{Result, anyhow};
use program::{AfterRun, Question, ServeOptions, import, renew, run};
use refusals::print_refusals;
use std::alloc::{AllocError, Global};
use std::fs::File;
use std::io::{BufRead, BufReader, BufWriter, Write};
use std::rt::Files;
use std::sync::Wait;
use std::time::Clock;

/// The program's words if a script gives none.
const WORDS: [&str; 4] = ["newsd", "sim", "--host", "news.example"];

/// A script, and the words of the program that plays it.
#[derive(Drop)]
struct Script {
    name: String,
    is_played: bool,
    words: Vec<String>,
    room: Option<usize>,
    /// It prints the words of each refusal.
    tells_refusals: bool,
    lines: String,
}

impl Script {
    fn new(alloc: Global, name: &str, is_played: bool) -> Result<Script, AllocError> {
        Ok(Script {
            name: String::from_str(alloc, name)?,
            is_played,
            words: Vec::new(alloc),
            room: None,
            tells_refusals: false,
            lines: String::new(alloc),
        })
    }

    /// Adds a line to the script; it may stand for those of earlier scripts.
    fn push(&mut self, alloc: Global, line: &str, earlier: &[Script]) -> Result<()> {
        if let Some(word) = line.strip_prefix("$ ") {
            self.words.push(String::from_str(alloc, word)?)?;
        } else if let Some(used) = line.strip_prefix("+ ") {
            self.push_lines(used, earlier)?;
        } else if let Some(room) = line.strip_prefix("> ") {
            self.room = Some(room.parse::<usize>()?);
        } else if line == "? refusals" {
            self.tells_refusals = true;
        } else {
            self.lines.push_str(line)?;
            self.lines.push('\n')?;
        }
        Ok(())
    }

    /// Adds the lines of an earlier script: `N NAME`.
    fn push_lines(&mut self, used: &str, earlier: &[Script]) -> Result<()> {
        let (times, name) = used.split_once(' ').ok_or(anyhow!("no name: {used}"))?;
        let times = times.parse::<u32>()?;
        let script = find(earlier, name).ok_or(anyhow!("no script: {name}"))?;
        for _ in 0..times {
            self.lines.push_str(script.lines.as_str())?;
        }
        Ok(())
    }

    /// Runs the program on the script, and prints what the program prints, its status and its faults.
    fn play<R: Files<File = File> + Wait + Clock, W: Write>(
        &self,
        rt: &R,
        alloc: Global,
        output: &mut W,
    ) -> Result<()> {
        writeln!(output, "== {}", self.name)?;
        if self.tells_refusals {
            return print_refusals(alloc, output);
        }
        let mut faults = Vec::new(alloc);
        let status = match self.room {
            None => self.run(rt, alloc, self.lines.as_bytes(), output, &mut faults)?,
            Some(size) => self.run_into(rt, alloc, size, output, &mut faults)?,
        };
        writeln!(output, "status {status}")?;
        output.write_all(faults.as_slice())?;
        Ok(())
    }

    /// Runs the program on the script with room for this many octets, and answers its status.
    fn run_into<R: Files<File = File> + Wait + Clock, W: Write>(
        &self,
        rt: &R,
        alloc: Global,
        size: usize,
        output: &mut W,
        faults: &mut Vec<u8>,
    ) -> Result<u8> {
        let mut octets = vec![in alloc; 0u8; size]?;
        let mut room = octets.as_mut_slice();
        let lines = self.lines.as_bytes();
        let lines = lines.strip_suffix(b"\n").unwrap_or(lines);
        let status = self.run(rt, alloc, lines, &mut room, faults)?;
        let left = room.len();
        output.write_all(octets.as_slice())?;
        writeln!(output)?;
        writeln!(output, "room {left}")?;
        Ok(status)
    }

    /// Runs the program on its words and these lines, and answers its status. No server is started here.
    fn run<R: Files<File = File> + Wait + Clock, W: Write>(
        &self,
        rt: &R,
        alloc: Global,
        lines: &[u8],
        output: &mut W,
        faults: &mut Vec<u8>,
    ) -> Result<u8> {
        let mut input = lines;
        let outcome = if self.words.is_empty() {
            run(rt, alloc, WORDS.as_slice(), &mut input, output, faults)
        } else {
            run(rt, alloc, self.words.as_slice(), &mut input, output, faults)
        };
        match outcome {
            AfterRun::Ends(status) => Ok(status),
            AfterRun::Imports(path) => {
                Ok(import(rt, alloc, path, &mut input, output, faults, false))
            }
            AfterRun::Renews(asked) => Ok(renew(rt, alloc, &asked, output, faults, false)),
            AfterRun::Asks(question) => {
                describe_question(output, &question)?;
                Ok(0)
            }
            AfterRun::Serves(service) => {
                describe(output, &service)?;
                Ok(0)
            }
        }
    }
}

/// Prints what the words ask of a running server.
fn describe_question<W: Write>(output: &mut W, question: &Question<'_>) -> Result<()> {
    write!(output, "asks {}", question.socket)?;
    for word in &question.words {
        write!(output, " '{word}'")?;
    }
    writeln!(output)?;
    Ok(())
}

/// Prints which server the words ask for.
fn describe<W: Write>(output: &mut W, service: &ServeOptions<'_>) -> Result<()> {
    describe_endpoints(output, service)?;
    describe_limits(output, service)?;
    if let Some(path) = service.metrics {
        write!(output, ", metrics {path}")?;
    }
    if let Some(path) = service.control {
        write!(output, ", control {path}")?;
    }
    writeln!(output)?;
    Ok(())
}

/// Prints the volume, and where the server is called.
fn describe_endpoints<W: Write>(output: &mut W, service: &ServeOptions<'_>) -> Result<()> {
    write!(output, "serves {} on", service.path)?;
    for endpoint in &service.endpoints {
        write!(output, " {endpoint}")?;
    }
    for endpoint in &service.proxied {
        write!(output, " proxied {endpoint}")?;
    }
    Ok(())
}

/// Prints whom the server lets in, and how quiet it is.
fn describe_limits<W: Write>(output: &mut W, service: &ServeOptions<'_>) -> Result<()> {
    let networks = service.networks.len();
    let quiet = if service.is_quiet { ", quiet" } else { "" };
    write!(output, ", networks {networks}{quiet}")?;
    write!(output, ", sessions {}", service.limits.sessions)?;
    if let Some(most) = service.limits.most_from {
        write!(output, ", most {most}")?;
    }
    if let Some(most) = service.limits.posts_from {
        write!(output, ", posts {most}")?;
    }
    Ok(())
}

fn find<'a>(scripts: &'a [Script], name: &str) -> Option<&'a Script> {
    scripts.iter().find(|script| script.name.as_str() == name)
}

/// Takes a line of the input.
fn take_line(alloc: Global, scripts: &mut Vec<Script>, line: &str) -> Result<()> {
    if let Some(name) = line.strip_prefix("== ") {
        scripts.push(Script::new(alloc, name, true)?)?;
    } else if let Some(name) = line.strip_prefix("-- ") {
        scripts.push(Script::new(alloc, name, false)?)?;
    } else if let Some((script, earlier)) = scripts.split_last_mut() {
        script.push(alloc, line, earlier)?;
    }
    Ok(())
}

fn main(rt: HostRuntime) -> Result<()> {
    let alloc = rt.alloc();
    let mut scripts = Vec::new(alloc);
    for line in BufReader::new(alloc, rt.reader())?.lines(alloc) {
        take_line(alloc, &mut scripts, line?.as_str())?;
    }
    let mut output = BufWriter::new(alloc, rt.stdout())?;
    for script in &scripts {
        if script.is_played {
            script.play(&rt, alloc, &mut output)?;
        }
    }
    output.flush()?;
    Ok(())
}
