//! Volumes in which octets were replaced, and whether they are opened.
//!
//! The volume has the groups x.a and x.b. Serial 3 is an article of another host in x.a, and serial 4 one of this host
//! in both groups. Serial 5 is a second article of the other host in x.a, and serial 6 an expiry of x.a up to number 1.
//! There are 64 inodes: they are in block 2 and the slots in block 3, 64 octets each. The files take the inodes 0 to 9
//! and the blocks 4 to 13:
//!
//! | Inode | File | Block |
//! |---|---|---|
//! | 0 | g.x.a | 4 |
//! | 1, 2 | n.x.a, o.x.a | 7, 8 |
//! | 3 | g.x.b | 5 |
//! | 4, 5 | n.x.b, o.x.b | 10, 11 |
//! | 6 | a.0000000003, its text from octet 25 | 6 |
//! | 7 | a.0000000004, its text from octet 29 | 9 |
//! | 8 | a.0000000005, its text from octet 25 | 12 |
//! | 9 | p, the pack | 13 |
//!
//! The overview lines in block 8 begin at 0, 72 and 147. The pack holds one file, x.0000000006, in 33 octets: the length
//! of its name at 0, the name from 1, the length of its content at 13, the content from 17. That has the expiry's serial
//! at 17, its number at 25, the length of its group's name at 29, and the name from 30.

use model::Status;
use spool_reading::ReadSpoolError;
use std::alloc::{AllocError, Global};
use std::test::Fail;
use test_support_spool::{Answer, Call, Filed, Octet, Sent, Stored, make};

const BITMAP: u32 = 0;

const INODES: u32 = 2;

const SLOTS: u32 = 3;

const PACK: u32 = 13;

/// The changes that are filed, and taken as a batch.
const CHANGES: &[(Call<'static>, Answer)] = &[
    (
        Call::Add("x.a", Status::Open, "test"),
        Answer::Changed(Filed::Serial(1)),
    ),
    (
        Call::Add("x.b", Status::Open, ""),
        Answer::Changed(Filed::Serial(2)),
    ),
    (
        Call::Post(Sent {
            id: "<1@a.example>",
            groups: "x.a",
            size: 0,
        }),
        Answer::Changed(Filed::Reply(240, 3)),
    ),
    (
        Call::Post(Sent {
            id: "",
            groups: "x.a,x.b",
            size: 0,
        }),
        Answer::Changed(Filed::Reply(240, 4)),
    ),
    (
        Call::Post(Sent {
            id: "<2@a.example>",
            groups: "x.a",
            size: 0,
        }),
        Answer::Changed(Filed::Reply(240, 5)),
    ),
    (Call::Expire("x.a", 1), Answer::Changed(Filed::Serial(6))),
    (Call::Carry, Answer::Blocks(13)),
    (Call::Reopen, Answer::Opened),
];

/// The octets that are replaced, and whether a spool is then opened.
type Row = (&'static str, &'static [Octet], bool);

const ROWS: &[Row] = &[
    ("nothing", &[], true),
    // the rule of blocks
    ("no mark of a block", &[(BITMAP, 0, 0xef)], false),
    (
        "no mark of the last file's block",
        &[(BITMAP, 1, 0x1f)],
        false,
    ),
    ("a mark of a free block", &[(BITMAP, 1, 0x7f)], false),
    ("a mark of the last block", &[(BITMAP, 127, 0x80)], false),
    ("a mark past the last block", &[(BITMAP, 128, 1)], false),
    ("a pointer past the last block", &[(INODES, 13, 4)], false),
    (
        "a pointer to another file's block",
        &[(INODES, 204, 4)],
        false,
    ),
    ("a pointer before the data", &[(INODES, 12, 3)], false),
    ("a size over the largest", &[(INODES, 391, 0x10)], false),
    (
        "a double-indirect block of a short file",
        &[(INODES, 440, 14)],
        false,
    ),
    (
        "an octet after the pointers of an inode",
        &[(INODES, 444, 1)],
        false,
    ),
    ("a size of a block more", &[(INODES, 389, 0x10)], false),
    ("an inode of another kind", &[(INODES, 576, 2)], false),
    ("a free inode that isn't zeros", &[(INODES, 4095, 1)], false),
    (
        "a slot for a free inode",
        &[(SLOTS, 4032, 1), (SLOTS, 4033, b'a')],
        false,
    ),
    (
        "no slot for an inode",
        &[(SLOTS, 576, 0), (SLOTS, 577, 0)],
        false,
    ),
    ("a name twice", &[(SLOTS, 197, b'a')], false),
    // what lies past a file's size means nothing
    ("an octet behind a record", &[(4, 21, 9)], true),
    (
        "the last octet of an article's block",
        &[(6, 4095, 9)],
        true,
    ),
    ("an octet of a free block", &[(14, 0, 9)], true),
    // names of files
    ("a file of no kind", &[(SLOTS, 577, b'z')], false),
    ("an expiry named as an article", &[(PACK, 1, b'a')], false),
    ("an expiry named as a group", &[(PACK, 1, b'g')], false),
    (
        "an article named as an expiry",
        &[(SLOTS, 385, b'x')],
        false,
    ),
    (
        "an article under another serial",
        &[(SLOTS, 396, b'9')],
        false,
    ),
    ("an article under a letter", &[(SLOTS, 396, b'c')], false),
    ("an expiry under another serial", &[(PACK, 12, b'7')], false),
    ("an expiry under a letter", &[(PACK, 12, b'c')], false),
    (
        "a group's record under another name",
        &[(SLOTS, 5, b'z')],
        false,
    ),
    ("numbers under another name", &[(SLOTS, 69, b'z')], false),
    (
        "an overview under another name",
        &[(SLOTS, 133, b'z')],
        false,
    ),
    // records of groups
    ("a serial left out", &[(5, 0, 7)], false),
    ("a serial twice", &[(5, 0, 1)], false),
    ("a serial of two octets", &[(5, 1, 1)], false),
    ("a status that there isn't", &[(4, 16, b'm')], false),
    ("another status", &[(4, 16, b'n')], true),
    ("another moment", &[(4, 8, 1)], true),
    ("a moment of the year 9999", &[(4, 12, 0x3a)], true),
    ("a moment past the year 9999", &[(4, 12, 0x3b)], false),
    ("another description", &[(4, 17, b'T')], true),
    ("a description with a TAB", &[(4, 17, 9)], false),
    ("a description with a DEL", &[(4, 17, 127)], false),
    ("a shorter description", &[(INODES, 4, 17)], true),
    ("no status", &[(INODES, 4, 16)], false),
    // records of articles
    ("another serial in an article's record", &[(6, 0, 4)], false),
    ("another moment of an article", &[(6, 8, 1)], true),
    ("an article past the year 9999", &[(6, 13, 1)], false),
    (
        "a text that is longer than its file",
        &[(6, 16, 147)],
        false,
    ),
    (
        "a text that is shorter than its file",
        &[(6, 16, 145)],
        false,
    ),
    ("a longer file", &[(INODES, 388, 172)], false),
    ("no groups", &[(6, 20, 0)], false),
    ("more groups than stand there", &[(6, 20, 2)], false),
    ("another group than the text's", &[(6, 24, b'b')], false),
    ("one of two groups", &[(9, 20, 1)], false),
    (
        "two groups in another order",
        &[(9, 24, b'b'), (9, 28, b'a')],
        false,
    ),
    // texts
    ("another octet of a body", &[(6, 167, b'H')], true),
    ("a NUL in a body", &[(6, 167, 0)], false),
    ("a CR in a body", &[(6, 168, b'\r')], false),
    ("a header line without colon", &[(6, 158, b'x')], false),
    ("another group in a text", &[(6, 148, b'z')], false),
    (
        "a Subject that the overview doesn't have",
        &[(6, 160, b'O')],
        false,
    ),
    ("another Subject", &[(6, 160, b'O'), (8, 2, b'O')], true),
    ("another id", &[(12, 99, b'7'), (8, 200, b'7')], true),
    (
        "two articles with one id",
        &[(12, 99, b'1'), (8, 200, b'1')],
        false,
    ),
    (
        "an id of the host with another serial",
        &[(9, 114, b'5'), (8, 125, b'5'), (11, 53, b'5')],
        false,
    ),
    // numbers and overviews
    ("another octet of an overview", &[(8, 2, b'O')], false),
    ("another number in an overview", &[(11, 0, b'2')], false),
    ("a longer overview", &[(INODES, 132, 223)], false),
    ("another serial in the numbers", &[(7, 0, 4)], false),
    ("another place of a line", &[(7, 8, 1)], false),
    ("another length of a line", &[(7, 12, 71)], false),
    ("fewer numbers", &[(INODES, 68, 32)], false),
    // expiries
    ("another expiry", &[(PACK, 25, 2)], true),
    ("an expiry of all", &[(PACK, 25, 3)], true),
    ("an expiry of another group", &[(PACK, 32, b'b')], true),
    (
        "an expiry of a group that isn't here",
        &[(PACK, 32, b'z')],
        false,
    ),
    ("an expiry up to no number", &[(PACK, 25, 0)], false),
    (
        "an expiry above the highest number",
        &[(PACK, 25, 4)],
        false,
    ),
    ("an expiry above all numbers", &[(PACK, 28, 1)], false),
    ("another serial of an expiry", &[(PACK, 17, 7)], false),
    (
        "a longer name of an expiry's group",
        &[(PACK, 29, 4)],
        false,
    ),
    (
        "a shorter name of an expiry's group",
        &[(PACK, 29, 2)],
        false,
    ),
    // lengths in the pack
    ("a longer name in the pack", &[(PACK, 0, 13)], false),
    ("a shorter name in the pack", &[(PACK, 0, 11)], false),
    ("no name in the pack", &[(PACK, 0, 0)], false),
    ("a longer content in the pack", &[(PACK, 13, 17)], false),
    ("a shorter content in the pack", &[(PACK, 13, 15)], false),
    ("no content in the pack", &[(PACK, 13, 0)], false),
    (
        "a content that is longer than the volume",
        &[(PACK, 16, 1)],
        false,
    ),
    (
        "a pack that ends within its file",
        &[(INODES, 580, 32)],
        false,
    ),
    (
        "a pack with an octet after its file",
        &[(INODES, 580, 34)],
        false,
    ),
    (
        "a pack with no file",
        &[(BITMAP, 1, 0x1f), (INODES, 580, 0), (INODES, 588, 0)],
        false,
    ),
    ("an octet behind the pack", &[(PACK, 33, 12)], true),
];

/// Octets that are written one after the other: their block, the place of the first, and the octets.
type Piece = (u32, usize, &'static [u8]);

/// The pieces that are written, and whether a spool is then opened.
type PieceRow = (&'static str, &'static [Piece], bool);

/// Other files in the pack. The second file there begins at 33. Its inode has the size of the pack at 580.
const PACKS: &[PieceRow] = &[
    (
        "no pack, and no expiry",
        &[
            (BITMAP, 1, b"\x1f"),
            (INODES, 576, &[0; 64]),
            (SLOTS, 576, &[0; 64]),
        ],
        true,
    ),
    (
        "an expiry with an inode of its own",
        &[
            (SLOTS, 576, b"\x0cx.0000000006"),
            (INODES, 580, b"\x10"),
            (PACK, 0, b"\x06\0\0\0\0\0\0\0\x01\0\0\0\x03x.a"),
        ],
        true,
    ),
    (
        "a second expiry in the pack",
        &[
            (INODES, 580, b"\x42"),
            (PACK, 33, b"\x0cx.0000000007\x10"),
            (PACK, 50, b"\x07\0\0\0\0\0\0\0\x01\0\0\0\x03x.b"),
        ],
        true,
    ),
    (
        "a later expiry before an earlier one",
        &[
            (INODES, 580, b"\x42"),
            (PACK, 12, b"7"),
            (PACK, 17, b"\x07"),
            (PACK, 33, b"\x0cx.0000000006\x10"),
            (PACK, 50, b"\x06\0\0\0\0\0\0\0\x01\0\0\0\x03x.b"),
        ],
        true,
    ),
    (
        "an expiry twice in the pack",
        &[
            (INODES, 580, b"\x42"),
            (PACK, 33, b"\x0cx.0000000006\x10"),
            (PACK, 50, b"\x06\0\0\0\0\0\0\0\x01\0\0\0\x03x.a"),
        ],
        false,
    ),
    (
        "a second expiry that leaves a serial out",
        &[
            (INODES, 580, b"\x42"),
            (PACK, 33, b"\x0cx.0000000008\x10"),
            (PACK, 50, b"\x08\0\0\0\0\0\0\0\x01\0\0\0\x03x.b"),
        ],
        false,
    ),
    (
        "an article in the pack, and no inode of it",
        &[
            (BITMAP, 1, b"\x2f"),
            (INODES, 512, &[0; 64]),
            (SLOTS, 512, &[0; 64]),
            (INODES, 580, b"\xdd"),
            (PACK, 33, b"\x0ca.0000000005\xab"),
            (
                PACK,
                50,
                b"\x05\0\0\0\0\0\0\0\0\xca\x9a\x3b\0\0\0\0\x92\0\0\0\x01\x03x.a",
            ),
            (
                PACK,
                75,
                b"Path: p!not-for-mail\r\nDate: Sun, 09 Sep 2001 01:46:40 +0000\r\n",
            ),
            (
                PACK,
                136,
                b"Message-ID: <2@a.example>\r\nFrom: a@example.org\r\n",
            ),
            (PACK, 184, b"Newsgroups: x.a\r\nSubject: one\r\n\r\nhi\r\n"),
        ],
        true,
    ),
    (
        "an article in the pack, and an inode of it",
        &[
            (INODES, 580, b"\xdd"),
            (PACK, 33, b"\x0ca.0000000005\xab"),
            (
                PACK,
                50,
                b"\x05\0\0\0\0\0\0\0\0\xca\x9a\x3b\0\0\0\0\x92\0\0\0\x01\x03x.a",
            ),
            (
                PACK,
                75,
                b"Path: p!not-for-mail\r\nDate: Sun, 09 Sep 2001 01:46:40 +0000\r\n",
            ),
            (
                PACK,
                136,
                b"Message-ID: <2@a.example>\r\nFrom: a@example.org\r\n",
            ),
            (PACK, 184, b"Newsgroups: x.a\r\nSubject: one\r\n\r\nhi\r\n"),
        ],
        false,
    ),
    (
        "a group's record in the pack, and no inode of it",
        &[
            (BITMAP, 0, b"\xdf"),
            (INODES, 192, &[0; 64]),
            (SLOTS, 192, &[0; 64]),
            (INODES, 580, b"\x3c"),
            (PACK, 33, b"\x05g.x.b\x11"),
            (PACK, 43, b"\x02\0\0\0\0\0\0\0\0\xca\x9a\x3b\0\0\0\0y"),
        ],
        false,
    ),
];

/// The rows, as a function, so that no proof of a test reads them.
fn rows() -> &'static [Row] {
    ROWS
}

/// The rows of packs, as a function for the same reason.
fn packs() -> &'static [PieceRow] {
    PACKS
}

/// The changes, as a function for the same reason.
fn changes() -> &'static [(Call<'static>, Answer)] {
    CHANGES
}

/// A spool with the changes, as it is opened again.
pub(crate) fn changed(alloc: Global) -> Result<Stored, Fail> {
    let mut stored = Stored::new(alloc)?;
    for (call, want) in changes() {
        if make(alloc, &mut stored, *call) != *want {
            return Err("a change was answered otherwise")?;
        }
    }
    Ok(stored)
}

/// The octets of these pieces.
fn octets_of(alloc: Global, pieces: &[Piece]) -> Result<Vec<Octet>, AllocError> {
    let mut octets = Vec::new(alloc);
    for (block, first, piece) in pieces {
        for (k, octet) in piece.iter().enumerate() {
            octets.push((*block, first.saturating_add(k), *octet))?;
        }
    }
    Ok(octets)
}

/// The refusal that a row wants.
fn wanted(is_opened: bool) -> Option<ReadSpoolError> {
    if is_opened {
        None
    } else {
        Some(ReadSpoolError::Damaged)
    }
}

#[test]
fn damage_is_told(rt: HostRuntime) -> Result<(), Fail> {
    let stored = changed(rt.alloc())?;
    for (shows, octets, is_opened) in rows() {
        let want = wanted(*is_opened);
        assert_eq!(rt; stored.refusal(rt.alloc(), octets), want, "{shows}");
    }
    Ok(())
}

#[test]
fn damage_of_a_pack_is_told(rt: HostRuntime) -> Result<(), Fail> {
    let stored = changed(rt.alloc())?;
    for (shows, pieces, is_opened) in packs() {
        let octets = octets_of(rt.alloc(), pieces)?;
        let want = wanted(*is_opened);
        assert_eq!(rt; stored.refusal(rt.alloc(), &octets), want, "{shows}");
    }
    Ok(())
}
