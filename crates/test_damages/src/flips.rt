//! The volume of `damages` with one bit changed, octet by octet: each is found to be damaged, or opened as a spool that
//! answers.

use crate::damages::changed;
use spool::Spool;
use spool_reading::ReadSpoolError;
use std::alloc::{AllocError, Global};
use std::test::Fail;
use test_support_spool::{Asked, Sought, Stored, find, text_of};

/// The expected outcome for a volume in which a bit was changed.
#[derive(Clone, Copy, PartialEq)]
enum Wanted {
    Damaged,
    Opened,
    Either,
}

/// Octets of a block, each of which is changed in turn: their name, their block, the first one, their number, and the
/// distance between them.
type Row = (&'static str, u32, usize, usize, usize, Wanted);

const ROWS: &[Row] = &[
    ("the bitmap", 0, 0, 160, 1, Wanted::Damaged),
    ("its first block", 0, 160, 64, 61, Wanted::Damaged),
    ("its second block", 1, 0, 33, 127, Wanted::Damaged),
    ("inodes of files", 2, 0, 640, 1, Wanted::Either),
    ("free inodes", 2, 640, 112, 31, Wanted::Damaged),
    ("slots of files", 3, 0, 640, 1, Wanted::Damaged),
    ("free slots", 3, 640, 112, 31, Wanted::Damaged),
    ("g.x.a", 4, 0, 21, 1, Wanted::Either),
    ("behind g.x.a", 4, 21, 41, 97, Wanted::Opened),
    ("g.x.b", 5, 0, 17, 1, Wanted::Either),
    ("behind g.x.b", 5, 17, 20, 201, Wanted::Opened),
    ("a.0000000003", 6, 0, 171, 1, Wanted::Either),
    ("behind a.0000000003", 6, 171, 20, 197, Wanted::Opened),
    ("n.x.a", 7, 0, 48, 1, Wanted::Damaged),
    ("behind n.x.a", 7, 48, 20, 203, Wanted::Opened),
    ("o.x.a", 8, 0, 219, 1, Wanted::Damaged),
    ("behind o.x.a", 8, 219, 20, 199, Wanted::Opened),
    ("a.0000000004", 9, 0, 193, 1, Wanted::Either),
    ("behind a.0000000004", 9, 193, 20, 201, Wanted::Opened),
    ("n.x.b", 10, 0, 16, 1, Wanted::Damaged),
    ("behind n.x.b", 10, 16, 20, 211, Wanted::Opened),
    ("o.x.b", 11, 0, 75, 1, Wanted::Damaged),
    ("behind o.x.b", 11, 75, 20, 209, Wanted::Opened),
    ("a.0000000005", 12, 0, 171, 1, Wanted::Either),
    ("behind a.0000000005", 12, 171, 20, 197, Wanted::Opened),
    ("names and lengths in p", 13, 0, 17, 1, Wanted::Damaged),
    ("x.0000000006 in p", 13, 17, 16, 1, Wanted::Either),
    ("behind p", 13, 33, 20, 211, Wanted::Opened),
    ("the first free block", 14, 0, 20, 213, Wanted::Opened),
    ("the last block", 1023, 0, 20, 213, Wanted::Opened),
];

/// The rows, as a function, so that no proof of a test reads them.
fn rows() -> &'static [Row] {
    ROWS
}

/// The bits that are changed, in turn, in one octet after another.
const BITS: [u8; 8] = [1, 2, 4, 8, 16, 32, 64, 128];

/// What each spool that is opened must find.
const FOUND: &[(Asked<'static>, u64)] = &[
    (Asked::Len, 6),
    (Asked::GroupCount, 2),
    (Asked::Serial("x.a"), 1),
    (Asked::Serial("x.b"), 2),
    (Asked::High("x.a"), 3),
    (Asked::High("x.b"), 1),
    (Asked::ByNumber("x.b", 1), 4),
    (Asked::ById("<1@a.example>"), 3),
    (Asked::ById("<4@news.example>"), 4),
    (Asked::ById("<2@a.example>"), 5),
];

fn found() -> &'static [(Asked<'static>, u64)] {
    FOUND
}

/// The texts that each spool must have.
const TEXTS: &[Sought<'static>] = &[
    Sought::Description("x.a"),
    Sought::Description("x.b"),
    Sought::Whole("<1@a.example>"),
    Sought::Whole("<4@news.example>"),
    Sought::Head("<2@a.example>"),
    Sought::Lines("x.b", 1, 1),
];

fn texts() -> &'static [Sought<'static>] {
    TEXTS
}

fn answers(alloc: Global, spool: &Spool) -> Result<bool, AllocError> {
    for (asked, want) in found() {
        if find(spool, *asked) != Some(*want) {
            return Ok(false);
        }
    }
    for sought in texts() {
        if text_of(alloc, spool, *sought)?.is_none() {
            return Ok(false);
        }
    }
    Ok(true)
}

/// Whether a volume in which this octet was changed has the expected outcome.
fn becomes(
    alloc: Global,
    stored: &Stored,
    block: u32,
    place: usize,
    wanted: Wanted,
) -> Result<bool, AllocError> {
    let bits = BITS[place % 8];
    match stored.flipped(alloc, block, place, bits) {
        Ok(spool) => Ok(wanted != Wanted::Damaged && answers(alloc, &spool)?),
        Err(ReadSpoolError::Damaged) => Ok(wanted != Wanted::Opened),
        Err(ReadSpoolError::Memory) => Ok(false),
    }
}

/// The first octet of a row with another outcome.
fn first_wrong(alloc: Global, stored: &Stored, row: &Row) -> Result<Option<usize>, AllocError> {
    let (_, block, first, count, apart, wanted) = row;
    for k in 0..*count {
        let place = first.saturating_add(apart.saturating_mul(k));
        if !becomes(alloc, stored, *block, place, *wanted)? {
            return Ok(Some(place));
        }
    }
    Ok(None)
}

#[test]
fn a_changed_bit_is_told_or_harmless(rt: HostRuntime) -> Result<(), Fail> {
    let stored = changed(rt.alloc())?;
    for row in rows() {
        assert_eq!(rt; first_wrong(rt.alloc(), &stored, row)?, None, "{}", row.0);
    }
    Ok(())
}
