//! What the calls of a script are asked of. It promises nothing, so that no function carries a fact about it: each call
//! checks its own preconditions.

ghost use Rattle.std.specs.Prelude.{◌≡◌, ◌⊎◌};

use crate::cached::{call_blocks, zeros};
use crate::devices::{self, call_device, call_faults};
use crate::journals::call_journal;
use crate::said::{DONE, NO_MEMORY, NOT_ASKED, Said, UNREADABLE, of_device, refused};
use crate::scarce::Scarce;
use crate::words::pick;
use disk_cache::WCache;
use disk_memory::{MemDisk, Pick};
use journal::Journal;
use journal_gates::write_gates_back;
use journal_layout::format_with;
use journal_loading::LoadError;
use journal_volume::Volume;
use std::alloc::Global;
use std::marker::Model;
use std::mem::replace;

/// The logical blocks of a volume.
const BLOCKS: u64 = 1024;

/// Octets of a block.
const BLOCK: usize = 4096;

/// The format of a volume.
const FORMAT: u32 = 3;

/// What there is.
#[derive(Drop)]
pub enum State {
    Nothing,
    /// A device in memory.
    Plain(MemDisk),
    /// A device in memory and a cache over it.
    Cached(WCache<MemDisk>),
    /// A journal over a device in memory.
    Open(Journal<MemDisk>),
    /// Cached blocks.
    Blocks(Volume),
}

/// What the calls are asked of, with the counts of its device from which the next are reckoned.
pub struct Storage {
    state: State,
    counts: (u64, u64),
}

impl Drop for Storage {
    fn drop(self) {
        let Storage {
            state: _,
            counts: _,
        } = self;
    }
}

impl Model for Storage {
    ghost Value = { Unit };

    ghost view = { λ s. tt };
}

impl Storage {
    pub fn empty() -> Storage {
        Storage {
            state: State::Nothing,
            counts: (0, 0),
        }
    }

    /// Asks one call.
    pub fn asked(&mut self, alloc: Global, word: &str, numbers: &[u64]) -> Said {
        match made(alloc, word, numbers) {
            Some(state) => self.begin(alloc, word, state),
            None => {
                let state = replace(&mut self.state, State::Nothing);
                let (state, said) = asked_of(alloc, state, &mut self.counts, word, numbers);
                self.state = state;
                said
            }
        }
    }

    /// Makes something new of which the calls are asked. A `journal` is one that is opened on a new volume.
    fn begin(&mut self, alloc: Global, word: &str, state: State) -> Said {
        self.counts = (0, 0);
        let (state, said) = match state {
            State::Plain(disk) if word == "journal" => opened(alloc, disk, &mut self.counts),
            State::Plain(disk) => {
                self.counts = disk.counts();
                (State::Plain(disk), DONE)
            }
            State::Nothing => (State::Nothing, NO_MEMORY),
            _ => (state, DONE),
        };
        self.state = state;
        said
    }

    /// Writes a text: `PLACE TEXT`.
    pub fn write(&mut self, words: &str) -> Said {
        let Some((at, text)) = words.split_once(' ') else {
            return UNREADABLE;
        };
        let Ok(at) = at.parse::<u64>() else {
            return UNREADABLE;
        };
        match &mut self.state {
            State::Plain(disk) => devices::write(disk, at, text.as_bytes()),
            State::Cached(cache) => devices::write(cache, at, text.as_bytes()),
            _ => NOT_ASKED,
        }
    }
}

/// What a word makes: `device LENGTH` and `cache LENGTH` a device of zeros, `formatted SEGMENTS` one with a new volume of
/// 1 or 8 segments, and `blocks COUNT` cached blocks of zeros. `Nothing` if memory is refused, `None` for other words.
fn made(alloc: Global, word: &str, numbers: &[u64]) -> Option<State> {
    match (word, numbers) {
        ("device", [len]) => Some(plain(MemDisk::new(alloc, *len).ok())),
        ("cache", [len]) => Some(cached(alloc, *len)),
        ("formatted" | "journal", [1]) => Some(plain(formatted(alloc, 1))),
        ("formatted" | "journal", [8]) => Some(plain(formatted(alloc, 8))),
        ("blocks", [count]) => Some(match zeros(alloc, *count) {
            Some(volume) => State::Blocks(volume),
            None => State::Nothing,
        }),
        _ => None,
    }
}

fn plain(disk: Option<MemDisk>) -> State {
    match disk {
        Some(disk) => State::Plain(disk),
        None => State::Nothing,
    }
}

fn cached(alloc: Global, len: u64) -> State {
    match MemDisk::new(alloc, len) {
        Ok(disk) => State::Cached(WCache::new(alloc, disk)),
        Err(_) => State::Nothing,
    }
}

fn formatted(alloc: Global, segments: u32) -> Option<MemDisk>
    requires { (segments ≡ 1) ⊎ (segments ≡ 8) }
{
    let octets = BLOCK as u64 * (1 + 514 * u64::from(segments) + BLOCKS);
    match MemDisk::new(alloc, octets) {
        Ok(mut disk) => match format_with(alloc, &mut disk, segments, BLOCKS, &[0; 128], FORMAT) {
            Ok(()) => Some(disk),
            Err(_) => None,
        },
        Err(_) => None,
    }
}

// Opens a journal, and counts from here on.
fn opened(alloc: Global, disk: MemDisk, since: &mut (u64, u64)) -> (State, Said) {
    *since = disk.counts();
    match Journal::open(alloc, disk) {
        Ok(journal) => (State::Open(journal), DONE),
        Err(refusal) => (State::Plain(refusal.disk), refused(refusal.error)),
    }
}

fn asked_of(
    alloc: Global,
    state: State,
    since: &mut (u64, u64),
    word: &str,
    numbers: &[u64],
) -> (State, Said) {
    match state {
        State::Nothing => (State::Nothing, NOT_ASKED),
        State::Plain(disk) => asked_plain(alloc, disk, since, word, numbers),
        State::Cached(cache) => asked_cached(alloc, cache, since, word, numbers),
        State::Open(journal) => asked_open(alloc, journal, since, word, numbers),
        State::Blocks(mut volume) => {
            let said = call_blocks(alloc, &mut volume, word, numbers);
            (State::Blocks(volume), said)
        }
    }
}

/// On a device `open` opens a journal, and `recover PICK` does so after a crash. `again N` does one of four things by the
/// remainder of N: a crash that leaves what was synced, what was written, or zeros, or no crash; then it opens a
/// journal.
fn asked_plain(
    alloc: Global,
    mut disk: MemDisk,
    since: &mut (u64, u64),
    word: &str,
    numbers: &[u64],
) -> (State, Said) {
    match (word, numbers) {
        ("open", []) => opened(alloc, disk, since),
        ("recover", [number]) => {
            disk.crash(&[pick(*number)]);
            opened(alloc, disk, since)
        }
        ("again", [number]) => {
            crash_by(&mut disk, *number);
            opened(alloc, disk, since)
        }
        ("cached-back", []) => {
            let mut cache = WCache::new(alloc, disk);
            let said = devices::back_and_sync(alloc, &mut cache);
            (State::Plain(cache.into_inner()), said)
        }
        ("scarce-back", [refused]) => scarce_back(alloc, disk, *refused),
        _ => {
            let said = call_device(alloc, &mut disk, since, word, numbers);
            (State::Plain(disk), said)
        }
    }
}

fn crash_by(disk: &mut MemDisk, number: u64) {
    match number % 4 {
        0 => disk.crash(&[Pick::Old]),
        1 => disk.crash(&[Pick::New]),
        2 => disk.crash(&[Pick::Fill(0)]),
        _ => (),
    }
}

/// `scarce-back N` writes gates back to a device whose write N is refused for want of memory.
fn scarce_back(alloc: Global, disk: MemDisk, refused: u64) -> (State, Said) {
    let mut scarce = Scarce { disk, refused };
    let said = of_device(write_gates_back(alloc, &mut scarce));
    (State::Plain(scarce.disk), said)
}

/// On a cache `crash PICK..` loses what it had collected, and so does `counts`, as the device below is taken out.
fn asked_cached(
    alloc: Global,
    mut cache: WCache<MemDisk>,
    since: &mut (u64, u64),
    word: &str,
    numbers: &[u64],
) -> (State, Said) {
    if word == "crash" || word == "counts" {
        let mut disk = cache.into_inner();
        let said = call_device(alloc, &mut disk, since, word, numbers);
        return (State::Cached(WCache::new(alloc, disk)), said);
    }
    let said = call_faults(alloc, &mut cache, word, numbers);
    (State::Cached(cache), said)
}

/// A journal is closed by the words of its device, and by `load`, after which the calls are asked of its blocks.
fn asked_open(
    alloc: Global,
    mut journal: Journal<MemDisk>,
    since: &mut (u64, u64),
    word: &str,
    numbers: &[u64],
) -> (State, Said) {
    match word {
        "open" | "recover" | "again" | "counts" | "put" => {
            asked_plain(alloc, journal.into_disk(), since, word, numbers)
        }
        "load" => loaded(alloc, journal),
        _ => {
            let said = call_journal(alloc, &mut journal, word, numbers);
            (State::Open(journal), said)
        }
    }
}

fn loaded(alloc: Global, mut journal: Journal<MemDisk>) -> (State, Said) {
    if !journal.is_idle() {
        return (State::Open(journal), NOT_ASKED);
    }
    match journal_loading::open(alloc, &mut journal) {
        Ok(volume) => (State::Blocks(volume), DONE),
        Err(error) => (State::Open(journal), Said::Word(not_loaded(error))),
    }
}

fn not_loaded(error: LoadError) -> &'static str {
    match error {
        LoadError::Fault => "fault",
        LoadError::Memory => "no memory",
    }
}
