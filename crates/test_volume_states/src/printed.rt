//! How states of volumes are printed.

use crate::states::{GroupRow, HOST};
use model::{Status, Text};
use std::alloc::{AllocError, Global};
use std::test::Fail;
use volume_states::{Gone, GroupStatus, Share, VolumeStatus, json_text, table_text};

/// A state, and how it is printed. Of blocks and inodes there is the number of those that are used, and of all.
struct Row {
    name: &'static str,
    format: u32,
    blocks: (u32, u32),
    inodes: (u32, u32),
    changes: u64,
    gone: Gone,
    groups: &'static [GroupRow],
    table: &'static str,
    json: &'static str,
}

const ROWS: &[Row] = &[
    Row {
        name: "no group",
        format: 1,
        blocks: (258, 16_384),
        inodes: (0, 8192),
        changes: 0,
        gone: Gone {
            articles: 0,
            texts: 0,
            octets: 0,
        },
        groups: &[],
        table: "host      news.example\n\
            format    1\n\
            blocks    16384: 258 used, 16126 free, 1 % used\n\
            inodes    8192: 0 used, 8192 free, 0 % used\n\
            changes   0\n\
            gone      0 articles; of 0 a renewal gives back 0 blocks or more\n",
        json: "{\"blocks\":{\"all\":16384,\"free\":16126,\"used\":258},\"changes\":0,\"format\":1,\
            \"gone\":{\"articles\":0,\"blocks\":0,\"texts\":0},\"groups\":[],\"host\":\"news.example\",\
            \"inodes\":{\"all\":8192,\"free\":8192,\"used\":0}}",
    },
    Row {
        name: "a group",
        format: 2,
        blocks: (1200, 16_384),
        inodes: (310, 8192),
        changes: 304,
        gone: Gone {
            articles: 25,
            texts: 24,
            octets: 131_071,
        },
        groups: &[("x.test", 1, 100, 100, Status::Open, 84_460)],
        table: "host      news.example\n\
            format    2\n\
            blocks    16384: 1200 used, 15184 free, 7 % used\n\
            inodes    8192: 310 used, 7882 free, 3 % used\n\
            changes   304\n\
            gone      25 articles; of 24 a renewal gives back 31 blocks or more\n\
            \n\
            group    low  high  count  status  overview\n\
            x.test     1   100    100  y            0 %\n",
        json: "{\"blocks\":{\"all\":16384,\"free\":15184,\"used\":1200},\"changes\":304,\"format\":2,\
            \"gone\":{\"articles\":25,\"blocks\":31,\"texts\":24},\"groups\":[{\"count\":100,\"high\":100,\
            \"low\":1,\"name\":\"x.test\",\"overview\":{\"room\":4294950912,\"used\":84460},\"status\":\"y\"}],\
            \"host\":\"news.example\",\"inodes\":{\"all\":8192,\"free\":7882,\"used\":310}}",
    },
    Row {
        name: "a short name, a closed group, numbers wider than their titles, and a full overview",
        format: 2,
        blocks: (65_536, 65_536),
        inodes: (64, 64),
        changes: 32_768,
        gone: Gone {
            articles: 18_446_744_073_709_551_615,
            texts: 1,
            octets: 18_446_744_073_709_551_615,
        },
        groups: &[
            ("x", 1, 0, 0, Status::Open, 0),
            (
                "a.long-name.in-three.parts+more",
                1000,
                123_456,
                122_457,
                Status::Closed,
                4_294_950_912,
            ),
            ("x.b", 32, 31, 0, Status::Closed, 42_949_509),
        ],
        table: "host      news.example\n\
            format    2\n\
            blocks    65536: 65536 used, 0 free, 100 % used\n\
            inodes    64: 64 used, 0 free, 100 % used\n\
            changes   32768\n\
            gone      18446744073709551615 articles; of 1 a renewal gives back 4503599627370495 blocks or more\n\
            \n\
            group                              low    high   count  status  overview\n\
            x                                    1       0       0  y            0 %\n\
            a.long-name.in-three.parts+more   1000  123456  122457  n          100 %\n\
            x.b                                 32      31       0  n            0 %\n",
        json: "{\"blocks\":{\"all\":65536,\"free\":0,\"used\":65536},\"changes\":32768,\"format\":2,\
            \"gone\":{\"articles\":18446744073709551615,\"blocks\":4503599627370495,\"texts\":1},\"groups\":[\
            {\"count\":0,\"high\":0,\"low\":1,\"name\":\"x\",\"overview\":{\"room\":4294950912,\"used\":0},\
            \"status\":\"y\"},{\"count\":122457,\"high\":123456,\"low\":1000,\
            \"name\":\"a.long-name.in-three.parts+more\",\"overview\":{\"room\":4294950912,\"used\":4294950912},\
            \"status\":\"n\"},{\"count\":0,\"high\":31,\"low\":32,\"name\":\"x.b\",\
            \"overview\":{\"room\":4294950912,\"used\":42949509},\"status\":\"n\"}],\"host\":\"news.example\",\
            \"inodes\":{\"all\":64,\"free\":0,\"used\":64}}",
    },
    Row {
        name: "an overview above the room, and one of one per cent",
        format: 2,
        blocks: (1, 3),
        inodes: (2, 3),
        changes: 6,
        gone: Gone {
            articles: 3,
            texts: 0,
            octets: 4095,
        },
        groups: &[
            ("x.a", 1, 3, 3, Status::Open, 4_294_963_200),
            ("x.b", 1, 1, 1, Status::Open, 42_949_510),
        ],
        table: "host      news.example\n\
            format    2\n\
            blocks    3: 1 used, 2 free, 33 % used\n\
            inodes    3: 2 used, 1 free, 66 % used\n\
            changes   6\n\
            gone      3 articles; of 0 a renewal gives back 0 blocks or more\n\
            \n\
            group   low  high  count  status  overview\n\
            x.a       1     3      3  y          100 %\n\
            x.b       1     1      1  y            1 %\n",
        json: "{\"blocks\":{\"all\":3,\"free\":2,\"used\":1},\"changes\":6,\"format\":2,\"gone\":{\"articles\":3,\
            \"blocks\":0,\"texts\":0},\"groups\":[{\"count\":3,\"high\":3,\"low\":1,\"name\":\"x.a\",\
            \"overview\":{\"room\":4294950912,\"used\":4294963200},\"status\":\"y\"},{\"count\":1,\"high\":1,\
            \"low\":1,\"name\":\"x.b\",\"overview\":{\"room\":4294950912,\"used\":42949510},\"status\":\"y\"}],\
            \"host\":\"news.example\",\"inodes\":{\"all\":3,\"free\":1,\"used\":2}}",
    },
];

/// The rows, as a function, so that no proof of a test reads them.
fn rows() -> &'static [Row] {
    ROWS
}

fn share(numbers: (u32, u32)) -> Option<Share> {
    let (used, all) = numbers;
    if all == 0 || used > all {
        return None;
    }
    Some(Share { all, used })
}

fn group_of(alloc: Global, row: &GroupRow) -> Result<GroupStatus, AllocError> {
    let (name, low, high, count, status, overview) = *row;
    Ok(GroupStatus {
        name: Text::new(name.as_bytes().to_vec(alloc)?),
        low,
        high,
        count,
        status,
        overview,
    })
}

fn status_of(alloc: Global, row: &Row) -> Result<VolumeStatus, Fail> {
    let mut groups = Vec::new(alloc);
    for group in row.groups {
        groups.push(group_of(alloc, group)?)?;
    }
    Ok(VolumeStatus {
        host: Text::new(HOST.to_vec(alloc)?),
        format: row.format,
        blocks: share(row.blocks).ok_or("no blocks")?,
        inodes: share(row.inodes).ok_or("no inodes")?,
        changes: row.changes,
        gone: row.gone,
        groups,
    })
}

#[test]
fn states_are_printed(rt: HostRuntime) -> Result<(), Fail> {
    for row in rows() {
        let status = status_of(rt.alloc(), row)?;
        let table = table_text(rt.alloc(), &status)?;
        assert_eq!(rt; table.as_slice(), row.table.as_bytes(), "{}", row.name);
        let json = json_text(rt.alloc(), &status)?;
        assert_eq!(rt; json.as_str(), row.json, "{}", row.name);
    }
    Ok(())
}
