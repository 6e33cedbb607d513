//! Devices in which one bit was changed: a known error, or a spool that answers.
//!
//! Block 0 of a device is the superblock. A segment has 514 blocks: its gate, which for the first segment is block 1,
//! its descriptor, and its images. The logical blocks begin at 4113.

use std::alloc::Global;
use std::test::Fail;
use test_support_world::{
    Device, NotOpened, OpenError, Part, Row, Sim, SimError, batches, shows, with_open_segments,
};

/// The expected outcome for a device in which a bit was changed.
#[derive(Clone, Copy, PartialEq)]
pub(crate) enum Wanted {
    /// It is not opened, because it holds no volume.
    NotAVolume,
    /// It is not opened, because its blocks hold no spool.
    Damaged,
    /// It is opened with all changes.
    Whole,
    /// It is not opened, or it is opened with some changes.
    Any,
}

/// Octets each of which is changed in turn: their name, a block, the place of the first one in it, their number, and
/// the distance between them.
type Octets = (&'static str, u64, u64, u64, u64, Wanted);

/// The octets of a segment.
const SEGMENT: u64 = 514 * 4096;

/// All eight segments are closed by the second epoch, each of them had a batch, and each gate is the first epoch.
const CLOSED: &[Octets] = &[
    ("up to the segments", 0, 0, 20, 1, Wanted::NotAVolume),
    ("inodes and host", 0, 20, 17, 1, Wanted::Any),
    ("zeros of the label", 0, 37, 111, 1, Wanted::NotAVolume),
    ("the formats", 0, 148, 2, 1, Wanted::Whole),
    ("the epoch", 0, 150, 1, 1, Wanted::Whole),
    ("zeros after the epoch", 0, 151, 94, 42, Wanted::NotAVolume),
    ("gates", 1, 0, 8, SEGMENT, Wanted::Whole),
    ("the rest of gates", 1, 1, 8, SEGMENT + 500, Wanted::Whole),
    ("descriptors", 2, 0, 8, SEGMENT + 3, Wanted::Whole),
    ("images", 3, 0, 8, SEGMENT + 500, Wanted::Whole),
    ("the bitmap", 4113, 0, 16, 9, Wanted::Damaged),
    ("inodes and slots", 4115, 0, 90, 91, Wanted::Any),
    ("files", 4117, 0, 120, 341, Wanted::Any),
];

/// The first four segments are open, with the batches of a group and three articles, and the others never had a batch.
const OPEN: &[Octets] = &[
    ("the epoch", 0, 150, 1, 1, Wanted::Whole),
    ("open gates", 1, 0, 4, SEGMENT, Wanted::Any),
    ("closed gates", 2057, 0, 4, SEGMENT, Wanted::NotAVolume),
    ("the rest of gates", 1, 1, 8, SEGMENT + 500, Wanted::Whole),
    ("the first batch's number", 2, 0, 8, 1, Wanted::Any),
    ("its last serial", 2, 8, 8, 1, Wanted::Whole),
    ("its count, and zeros", 2, 16, 8, 1, Wanted::NotAVolume),
    ("its blocks", 2, 24, 16, 1, Wanted::Any),
    ("the rest of its descriptor", 2, 40, 60, 67, Wanted::Whole),
    ("its images", 3, 0, 64, 251, Wanted::Any),
    ("the last batch's number", 1544, 0, 8, 1, Wanted::Any),
    ("its last serial", 1544, 8, 8, 1, Wanted::Whole),
    ("its count", 1544, 16, 4, 1, Wanted::Any),
    ("zeros", 1544, 20, 4, 1, Wanted::NotAVolume),
    ("its blocks", 1544, 24, 24, 1, Wanted::Any),
    (
        "the rest of its descriptor",
        1544,
        48,
        60,
        67,
        Wanted::Whole,
    ),
    ("its images", 1545, 0, 96, 251, Wanted::Any),
    ("what it is carried to", 4113, 0, 16, 255, Wanted::Whole),
];

/// The octets, as functions, so that no proof of a test reads them.
fn of_closed() -> &'static [Octets] {
    CLOSED
}

fn of_open() -> &'static [Octets] {
    OPEN
}

/// A group and three articles.
const FOUR: &[Part] = &[
    Part::Line("group x.a y 1000000000 test"),
    Part::Commit,
    Part::Line("join"),
    Part::Post(2),
    Part::Commit,
    Part::Post(3),
    Part::Commit,
    Part::Post(4),
    Part::Commit,
];

fn four() -> &'static [Part] {
    FOUR
}

/// Questions to a spool that is opened, whatever it holds, and the answers.
fn questions() -> &'static [Row] {
    &[
        ("join", "joined 1"),
        ("line 1 GROUP x.a", "done"),
        ("exec 1 1000000000", "served, Some(Line) is next"),
        ("line 1 OVER 1-", "done"),
        ("exec 1 1000000000", "served, Some(Line) is next"),
        ("line 1 ARTICLE 1", "done"),
        ("exec 1 1000000000", "served, Some(Line) is next"),
        ("line 1 ARTICLE <4@a.example>", "done"),
        ("exec 1 1000000000", "served, Some(Line) is next"),
        ("line 1 LIST", "done"),
        ("exec 1 1000000000", "served, Some(Line) is next"),
        ("line 1 NEWNEWS * 20000101 000000", "done"),
        ("exec 1 1000000000", "served, Some(Line) is next"),
        ("line 1 QUIT", "done"),
        ("exec 1 1000000000", "served, None is next"),
        ("release", "done"),
    ]
}

/// Whether what was opened answers, from the greeting to the end of the session.
fn answers(alloc: Global, sim: &mut Sim) -> Result<bool, SimError> {
    for (line, want) in questions() {
        if sim.tell(alloc, line)?.as_str() != *want {
            return Ok(false);
        }
    }
    let released = sim.released(1);
    Ok(released.starts_with(b"200 ") && released.ends_with(b"205 Bye\r\n"))
}

/// Changes bits of an octet.
fn flip(device: &mut Device, at: u64, bits: u8) -> Result<(), SimError> {
    let was = device.put(at, 0)?;
    device.put(at, was ^ bits)?;
    Ok(())
}

/// Opens a device, and answers whether it has the expected outcome. If it must be whole, it has this many changes.
pub(crate) fn becomes(
    alloc: Global,
    device: Device,
    changes: u64,
    wanted: Wanted,
) -> Result<(Device, bool), SimError> {
    match Sim::open(alloc, device) {
        Ok(sim) => {
            let mut sim = sim;
            let is_whole = shows(alloc, &sim, changes)?;
            let is_wanted = wanted == Wanted::Any || wanted == Wanted::Whole && is_whole;
            let is_answering = answers(alloc, &mut sim)?;
            Ok((sim.into_device(), is_wanted && is_answering))
        }
        Err(refused) => {
            let NotOpened { device, error } = refused;
            Ok((device, is_told(error, wanted)))
        }
    }
}

fn is_told(error: OpenError, wanted: Wanted) -> bool {
    match error {
        OpenError::NotAVolume => wanted == Wanted::NotAVolume || wanted == Wanted::Any,
        OpenError::Damaged => wanted == Wanted::Damaged || wanted == Wanted::Any,
        OpenError::Fault | OpenError::Memory => false,
    }
}

/// The bits that are changed, in turn, in one octet after another.
const BITS: [u8; 8] = [1, 2, 4, 8, 16, 32, 64, 128];

/// Changes each of the octets in turn in a device that otherwise equals another one. It answers the first place in the
/// block with an unexpected outcome.
fn first_wrong(
    alloc: Global,
    device: Device,
    fresh: &mut Device,
    changes: u64,
    octets: &Octets,
) -> Result<(Device, Option<u64>), SimError> {
    let (_, block, first, count, apart, wanted) = octets;
    let mut device = device;
    for k in 0..*count {
        let place = first.saturating_add(apart.saturating_mul(k));
        let at = block.saturating_mul(4096).saturating_add(place);
        let bits = BITS[(place % 8) as usize];
        device.copy_volume(alloc, fresh)?;
        flip(&mut device, at, bits)?;
        let (next, is_right) = becomes(alloc, device, changes, *wanted)?;
        device = next;
        if !is_right {
            return Ok((device, Some(place)));
        }
        flip(&mut device, at, bits)?;
    }
    Ok((device, None))
}

/// The first of all rows that is wrong, and the place.
fn first_wrong_of(
    alloc: Global,
    device: Device,
    fresh: &mut Device,
    changes: u64,
    rows: &'static [Octets],
) -> Result<Option<(&'static str, u64)>, SimError> {
    let mut device = device;
    for octets in rows {
        let (next, found) = first_wrong(alloc, device, fresh, changes, octets)?;
        device = next;
        if let Some(place) = found {
            return Ok(Some((octets.0, place)));
        }
    }
    Ok(None)
}

/// The eight batches, carried home.
pub(crate) fn with_closed_segments(alloc: Global) -> Result<Device, SimError> {
    Ok(Sim::over(alloc, with_open_segments(alloc, batches())?)?.into_device())
}

#[test]
fn a_changed_bit_where_all_segments_are_closed(rt: HostRuntime) -> Result<(), Fail> {
    let alloc = rt.alloc();
    let mut fresh = with_closed_segments(alloc)?;
    let device = with_closed_segments(alloc)?;
    let wrong = first_wrong_of(alloc, device, &mut fresh, 8, of_closed())?;
    assert_eq!(rt; wrong, None);
    Ok(())
}

#[test]
fn a_changed_bit_where_segments_are_open(rt: HostRuntime) -> Result<(), Fail> {
    let alloc = rt.alloc();
    let mut fresh = with_open_segments(alloc, four())?;
    let device = with_open_segments(alloc, four())?;
    let wrong = first_wrong_of(alloc, device, &mut fresh, 4, of_open())?;
    assert_eq!(rt; wrong, None);
    Ok(())
}
