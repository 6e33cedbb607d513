//! A script of eight batches: a group, and then seven articles that are posted and committed one by one, so that the serial
//! of each change is the number of its batch. The last batch leaves no closed segment.

use crate::errors::SimError;
use crate::sealed::{Device, Sim};
use std::alloc::{AllocError, Global};

/// A part of the script.
#[derive(Clone, Copy)]
pub enum Part {
    Line(&'static str),
    /// The article with this serial is posted, and what is ready is released.
    Post(u64),
    /// A batch is written up to its commit, the kernel learns of it, and what is ready is released.
    Commit,
    /// The device is called until the journal is idle.
    Settle,
}

const BATCHES: &[Part] = &[
    Part::Line("group x.a y 1000000000 test"),
    Part::Commit,
    Part::Settle,
    Part::Line("join"),
    Part::Post(2),
    Part::Commit,
    Part::Post(3),
    Part::Commit,
    Part::Post(4),
    Part::Commit,
    Part::Post(5),
    Part::Commit,
    Part::Post(6),
    Part::Commit,
    Part::Post(7),
    Part::Commit,
    Part::Post(8),
    Part::Commit,
];

/// The eight batches, each up to its commit. This and the next ones are functions, so that no proof of a test reads
/// them.
pub fn batches() -> &'static [Part] {
    BATCHES
}

const SETTLING: &[Part] = &[Part::Settle];

/// The images of all batches are carried home after them, and the segments are closed.
pub fn settling() -> &'static [Part] {
    SETTLING
}

const HEAD: &[&str] = &[
    "line 1 POST",
    "exec 1 1000000000",
    "line 1 Path: p!not-for-mail",
    "line 1 Date: Sun, 09 Sep 2001 01:46:40 +0000",
];

const REST: &[&str] = &[
    "line 1 From: a@example.org",
    "line 1 Newsgroups: x.a",
    "line 1 Subject: one",
    "line 1",
    "line 1 hi",
    "line 1 .",
    "exec 1 1000000000",
    "release",
];

/// The lines of a post before and after the line with its id.
fn lines() -> (&'static [&'static str], &'static [&'static str]) {
    (HEAD, REST)
}

/// The article with this serial, as it is sent to a client.
fn article(alloc: Global, serial: u64) -> Result<String, AllocError> {
    format!(in alloc;
        "Path: p!not-for-mail\r\nDate: Sun, 09 Sep 2001 01:46:40 +0000\r\n\
         Message-ID: <{serial}@a.example>\r\nFrom: a@example.org\r\nNewsgroups: x.a\r\n\
         Subject: one\r\n\r\nhi\r\n.\r\n"
    )
}

/// Counts of the device calls.
#[derive(Clone, Copy, Debug, Drop, PartialEq)]
pub struct Calls {
    /// The number of batches that were committed.
    pub commits: u64,
    /// The number of calls that failed.
    pub faults: u64,
    /// The number of steps of the journal: the device calls, and one step that made none.
    pub steps: u64,
    /// The script stops after this many steps.
    most: u64,
}

impl Calls {
    pub fn none() -> Calls {
        Calls::up_to(u64::MAX)
    }

    pub fn up_to(most: u64) -> Calls {
        Calls {
            commits: 0,
            faults: 0,
            steps: 0,
            most,
        }
    }

    pub fn is_stopped(&self) -> bool {
        self.steps >= self.most
    }

    fn note(&mut self, answer: &str) {
        self.steps = self.steps.wrapping_add(1);
        if answer == "E1 Fault" {
            self.faults = self.faults.wrapping_add(1);
        }
        if answer.starts_with("Committed(") {
            self.commits = self.commits.wrapping_add(1);
        }
    }
}

/// More calls than a batch has, including those that carry all images home.
const MANY_CALLS: u64 = 100;

/// Plays parts of the script, whatever the answers are, until it stops.
pub fn play(
    alloc: Global,
    sim: &mut Sim,
    parts: &[Part],
    calls: &mut Calls,
) -> Result<(), SimError> {
    for part in parts {
        if calls.is_stopped() {
            break;
        }
        play_part(alloc, sim, *part, calls)?;
    }
    Ok(())
}

fn play_part(alloc: Global, sim: &mut Sim, part: Part, calls: &mut Calls) -> Result<(), SimError> {
    match part {
        Part::Line(line) => tell(alloc, sim, line),
        Part::Post(serial) => post(alloc, sim, serial),
        Part::Commit => commit(alloc, sim, calls),
        Part::Settle => carry(alloc, sim, calls),
    }
}

fn tell(alloc: Global, sim: &mut Sim, line: &str) -> Result<(), SimError> {
    let _answer = sim.tell(alloc, line)?;
    Ok(())
}

fn tell_all(alloc: Global, sim: &mut Sim, lines: &[&str]) -> Result<(), SimError> {
    for line in lines {
        tell(alloc, sim, line)?;
    }
    Ok(())
}

fn post(alloc: Global, sim: &mut Sim, serial: u64) -> Result<(), SimError> {
    let (head, rest) = lines();
    let id = format!(in alloc; "line 1 Message-ID: <{serial}@a.example>")?;
    tell_all(alloc, sim, head)?;
    tell(alloc, sim, id.as_str())?;
    tell_all(alloc, sim, rest)
}

fn commit(alloc: Global, sim: &mut Sim, calls: &mut Calls) -> Result<(), SimError> {
    tell(alloc, sim, "take")?;
    carry(alloc, sim, calls)?;
    if calls.is_stopped() {
        return Ok(());
    }
    tell(alloc, sim, "told")?;
    tell(alloc, sim, "release")
}

/// Calls the device until a call does not answer that the batch continues, or the script stops.
fn carry(alloc: Global, sim: &mut Sim, calls: &mut Calls) -> Result<(), SimError> {
    for _ in 0..MANY_CALLS {
        let answer = sim.tell(alloc, "dev")?;
        calls.note(answer.as_str());
        if calls.is_stopped() || answer.as_str() != "Working" {
            return Ok(());
        }
    }
    Err(SimError::NoEvent)
}

/// A device with a new volume over which these parts were played: each batch is in an open segment.
pub fn with_open_segments(alloc: Global, parts: &[Part]) -> Result<Device, SimError> {
    let mut sim = Sim::new(alloc)?;
    play(alloc, &mut sim, parts, &mut Calls::none())?;
    Ok(sim.into_device())
}

/// The last change that a released reply depends on, or 0 if no reply depends on any. Each article's reply is `240`.
fn claimed(sim: &Sim) -> u64 {
    let released = sim.released(1);
    let mut last = 0u64;
    for at in 0..released.len() {
        if released[at..].starts_with(b"\n240 ") {
            last = last.max(1).wrapping_add(1);
        }
    }
    last
}

/// Whether exactly the committed changes are durable, and no released reply depends on any other change.
pub fn claims_no_more(sim: &Sim, calls: Calls) -> bool {
    let (opened, durable, _) = sim.counts();
    opened == 0 && durable == calls.commits && claimed(sim) <= calls.commits
}

/// Whether no released reply depends on a change that was not committed.
pub fn claims_committed(sim: &Sim, calls: Calls) -> bool {
    claimed(sim) <= calls.commits
}

/// Whether the replies report all seven articles as durable.
pub fn claims_all(sim: &Sim) -> bool {
    claimed(sim) == 8
}

/// Whether the opened and durable changes are the first ones of the script: those that were committed and at most one
/// more.
pub fn shows(alloc: Global, sim: &Sim, commits: u64) -> Result<bool, SimError> {
    let (opened, durable, accepted) = sim.counts();
    if opened < commits || opened.saturating_sub(commits) > 1 {
        return Ok(false);
    }
    for serial in 1..=opened {
        if !is_change(alloc, sim, serial)? {
            return Ok(false);
        }
    }
    Ok(durable == opened && accepted == opened)
}

/// Whether the change with this serial is that of the script.
fn is_change(alloc: Global, sim: &Sim, serial: u64) -> Result<bool, SimError> {
    if serial == 1 {
        return Ok(sim.serial(b"x.a") == Some(1));
    }
    let sent = article(alloc, serial)?;
    match sim.article(alloc, serial)? {
        Some(octets) => Ok(octets.as_slice() == sent.as_bytes()),
        None => Ok(false),
    }
}
