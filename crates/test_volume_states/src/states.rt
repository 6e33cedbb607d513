//! What is reported of the volume of a spool.

use crate::volumes::{octets_after, state_of};
use model::Status;
use spool_reading::ReadSpoolError;
use std::alloc::Global;
use std::test::Fail;
use test_support_spool::{Call, Sent};
use volume_states::{Gone, GroupStatus, VolumeStatus};

pub(crate) const HOST: &[u8] = b"news.example";

/// A group: its name, its lowest and its highest number, the number of articles, its status, the octets of its overview.
pub(crate) type GroupRow = (&'static str, u64, u64, u64, Status, u32);

/// The name of a row, the changes, the used blocks, the used inodes, the number of changes, what is gone, and the groups.
type Row = (
    &'static str,
    &'static [Call<'static>],
    u32,
    u32,
    u64,
    Gone,
    &'static [GroupRow],
);

/// No article is gone.
const NONE: Gone = Gone {
    articles: 0,
    texts: 0,
    octets: 0,
};

/// An article of another host in x.a.
const FIRST: Call<'static> = Call::Post(Sent {
    id: "<1@a.example>",
    groups: "x.a",
    size: 0,
});

/// A second one.
const SECOND: Call<'static> = Call::Post(Sent {
    id: "<2@a.example>",
    groups: "x.a",
    size: 0,
});

/// An article of this host in two groups.
const IN_BOTH: Call<'static> = Call::Post(Sent {
    id: "",
    groups: "x.a,x.b",
    size: 0,
});

const ROWS: &[Row] = &[
    ("no change", &[], 4, 0, 0, NONE, &[]),
    (
        "a group without articles",
        &[Call::Add("x.a", Status::Open, "test")],
        5,
        3,
        1,
        NONE,
        &[("x.a", 1, 0, 0, Status::Open, 0)],
    ),
    (
        "an article in one of two groups, one of which is closed",
        &[
            Call::Add("x.b", Status::Closed, ""),
            Call::Add("x.a", Status::Open, "test"),
            FIRST,
        ],
        9,
        7,
        3,
        NONE,
        &[
            ("x.b", 1, 0, 0, Status::Closed, 0),
            ("x.a", 1, 1, 1, Status::Open, 72),
        ],
    ),
    (
        "articles in both groups, some of them expired",
        &[
            Call::Add("x.a", Status::Open, "test"),
            Call::Add("x.b", Status::Open, ""),
            FIRST,
            IN_BOTH,
            SECOND,
            Call::Expire("x.a", 1),
        ],
        14,
        10,
        6,
        // 146 octets of text, 85 of its husk, and 17
        Gone {
            articles: 1,
            texts: 1,
            octets: 44,
        },
        &[
            ("x.a", 2, 3, 2, Status::Open, 219),
            ("x.b", 1, 1, 1, Status::Open, 75),
        ],
    ),
    (
        "all articles expired",
        &[
            Call::Add("x.a", Status::Open, "test"),
            FIRST,
            SECOND,
            Call::Expire("x.a", 2),
        ],
        10,
        6,
        4,
        Gone {
            articles: 2,
            texts: 2,
            octets: 88,
        },
        &[("x.a", 3, 2, 0, Status::Open, 144)],
    ),
];

/// The rows, as a function, so that no proof of a test reads them.
fn rows() -> &'static [Row] {
    ROWS
}

/// Whether a group is that of a row.
fn is_group(group: &GroupStatus, row: &GroupRow) -> bool {
    let (name, low, high, count, status, overview) = *row;
    group.name.as_slice() == name.as_bytes()
        && (group.low, group.high, group.count) == (low, high, count)
        && group.status == status
        && group.overview == overview
}

/// Whether a state is that of a row, in a volume of this format.
fn is_state(state: &VolumeStatus, row: &Row, format: u32) -> bool {
    let (_, _, blocks, inodes, changes, gone, groups) = *row;
    state.host.as_slice() == HOST
        && state.format == format
        && (state.blocks.all, state.blocks.used) == (1024, blocks)
        && (state.inodes.all, state.inodes.used) == (64, inodes)
        && state.changes == changes
        && state.gone == gone
        && state.groups.len() == groups.len()
        && state
            .groups
            .iter()
            .zip(groups)
            .all(|(group, row)| is_group(group, row))
}

/// Whether the changes of a row make a pack, as an expiry does. In formats 1 and 2 a pack is damage.
fn has_pack(row: &Row) -> bool {
    row.1.iter().any(|call| matches!(call, Call::Expire(_, _)))
}

/// The first row with another state in a volume of this format.
fn first_other<'a>(alloc: Global, rows: &'a [Row], format: u32) -> Result<Option<&'a str>, Fail> {
    for row in rows {
        if format < 3 && has_pack(row) {
            continue;
        }
        let octets = octets_after(alloc, row.1)?;
        let Ok(state) = state_of(alloc, octets, format, HOST) else {
            return Ok(Some(row.0));
        };
        if !is_state(&state, row, format) {
            return Ok(Some(row.0));
        }
    }
    Ok(None)
}

#[test]
fn states_of_volumes_of_format_1(rt: HostRuntime) -> Result<(), Fail> {
    assert_eq!(rt; first_other(rt.alloc(), rows(), 1)?, None);
    Ok(())
}

#[test]
fn states_of_volumes_of_format_2(rt: HostRuntime) -> Result<(), Fail> {
    assert_eq!(rt; first_other(rt.alloc(), rows(), 2)?, None);
    Ok(())
}

#[test]
fn states_of_volumes_of_format_3(rt: HostRuntime) -> Result<(), Fail> {
    assert_eq!(rt; first_other(rt.alloc(), rows(), 3)?, None);
    Ok(())
}

#[test]
fn a_damaged_volume(rt: HostRuntime) -> Result<(), Fail> {
    let alloc = rt.alloc();
    let mut octets = octets_after(alloc, &[Call::Add("x.a", Status::Open, "test")])?;
    if let Some(marks) = octets.first_mut() {
        *marks = 0x0f;
    }
    assert_eq!(rt;
        state_of(alloc, octets, 2, HOST).err(),
        Some(ReadSpoolError::Damaged)
    );
    Ok(())
}
